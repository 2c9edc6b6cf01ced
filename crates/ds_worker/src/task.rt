//! Actors at work in a phase.
#![tactic(auto)]

use ds_share::TurnFault;
use ds_turn::{RecordedConn, RecordedLane, RecordedProc};

/// An actor of a host, with its record, and what it needs to work alone.
#[derive(Drop)]
pub enum TaskActor<K> {
    /// A process.
    Proc {
        /// The process.
        process: RecordedProc,
        /// Where the marks of its host's identity key are kept.
        keeper: K,
    },
    /// A lane's worker.
    Lane {
        /// The lane's place among its host's lanes.
        place: u32,
        /// The worker.
        worker: RecordedLane,
        /// Where the marks of the lane's key are kept.
        keeper: K,
    },
    /// A connection.
    Conn {
        /// The connection.
        conn: RecordedConn,
    },
}

/// An actor at work in a phase, with what came of it.
#[derive(Drop)]
pub struct Task<K> {
    /// The place of its host.
    pub host: u32,
    /// The actor.
    pub actor: TaskActor<K>,
    /// How many events it made in the last phase.
    pub made: u32,
    /// The fault that it met in the last phase, if any.
    pub fault: Option<TurnFault>,
}
