//! What happens.

use crate::list::PartList;
use ds_wire::Bytes;

/// An event. Hosts are named by their places in the document; connections are numbered from 0, first the lanes of all hosts
/// in order, then the links.
#[derive(Debug, Drop)]
pub enum Event {
    /// A process makes its next step.
    Step {
        /// The host's place.
        host: u32,
        /// The process's place on its host.
        index: u32,
    },
    /// A lane makes its next frame.
    Frame {
        /// The host's place.
        host: u32,
        /// The lane's number, from 1.
        lane: u32,
    },
    /// So many further bytes of a connection arrive.
    Arrive {
        /// The connection's number.
        conn: u32,
        /// How many bytes.
        count: u64,
    },
    /// A connection accepts its next hello or frame.
    Accept {
        /// The connection's number.
        conn: u32,
    },
    /// A connection delivers the next message of its frame.
    Deliver {
        /// The connection's number.
        conn: u32,
    },
    /// A host's clock comes to a moment.
    Tick {
        /// The host's place.
        host: u32,
        /// The moment, in seconds.
        to: u64,
    },
    /// An outsider's bytes arrive on a link.
    Inject {
        /// The link's connection number.
        conn: u32,
        /// The bytes.
        bytes: Bytes,
    },
    /// Bytes that arrived at one link arrive at another.
    CopyBytes {
        /// The link's connection number.
        conn: u32,
        /// The connection number of the link that they are copied from.
        source: u32,
        /// The place of the first byte.
        from: u64,
        /// The place behind the last byte.
        until: u64,
    },
}

/// A list of events.
pub type EventList = PartList<Event>;
