//! What is printed of a lane's worker.
#![tactic(auto)]

use ds_label::Rule;

/// What a worker did.
#[derive(Clone, Copy, Debug)]
pub enum WorkerAct {
    /// It wrote a frame.
    Framed {
        /// The frame's number, which is the leaf of its signature.
        number: u32,
        /// How many messages the frame has.
        count: u32,
    },
    /// It dropped a message.
    Dropped {
        /// The rule that failed.
        rule: Rule,
        /// The index of the process that sent the message.
        from: u32,
        /// The mailbox that the message was for.
        slot: u32,
    },
}

/// An entry of a worker: when, and what it did.
#[derive(Clone, Copy, Debug)]
pub struct WorkerEntry {
    /// The stamp of the event.
    pub stamp: u64,
    /// What was done.
    pub act: WorkerAct,
}
