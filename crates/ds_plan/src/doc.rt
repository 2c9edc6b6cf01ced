//! Documents.

use crate::cert::CertSpecList;
use crate::event::EventList;
use crate::host::HostSpecList;
use crate::list::PlaceList;

/// A document: hosts, what they know of each other, and what happens.
#[derive(Debug, Drop)]
pub struct Doc {
    /// The hosts, in order.
    pub hosts: HostSpecList,
    /// The first moment of each host, in seconds.
    pub moment: u64,
    /// The number of events after which a run without a list of events is cut off, 1 to 20,000.
    pub budget: u32,
    /// The certificates beside those that hosts make of themselves, in order.
    pub certs: CertSpecList,
    /// The hosts to which outsiders have a link, a link each.
    pub links: PlaceList,
    /// What happens; none where hosts take turns.
    pub events: Option<EventList>,
}
