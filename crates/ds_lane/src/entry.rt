//! What a lane enters.
#![tactic(auto)]

use crate::batch::Waiting;
use ds_script::Actor;

/// What a call did.
#[derive(Debug, Drop)]
pub enum LaneAct {
    /// The message was queued.
    Queued(Waiting),
    /// The message was dropped, since as many waited as the lane has room for.
    Full(Waiting),
    /// So many messages were lifted, the oldest ones.
    Lifted(u32),
}

/// A call: when it came, who made it and what it did.
#[derive(Debug, Drop)]
pub struct LaneEntry {
    /// The stamp of the call's event.
    pub stamp: u64,
    /// The actor whose event it is.
    pub who: Actor,
    /// What the call did.
    pub act: LaneAct,
}

/// A history that was handed out: its entries, in order.
pub type LaneSegment = Vec<LaneEntry>;
