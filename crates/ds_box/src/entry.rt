//! What a mailbox enters.
#![tactic(auto)]

use ds_msg::LocalMessage;
use ds_script::Actor;

/// What a call did.
#[derive(Debug, Drop)]
pub enum BoxAct {
    /// The message was queued.
    Put(LocalMessage),
    /// The message was dropped, since the mailbox was full.
    Full(LocalMessage),
    /// The oldest message was taken.
    Took,
}

/// A call: when it came, who made it and what it did.
#[derive(Debug, Drop)]
pub struct BoxEntry {
    /// The stamp of the call's event.
    pub stamp: u64,
    /// The actor whose event it is.
    pub who: Actor,
    /// What the call did.
    pub act: BoxAct,
}

/// A history that was handed out: its entries, in order.
pub type BoxSegment = Vec<BoxEntry>;
