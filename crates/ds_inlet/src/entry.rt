//! What an inlet enters.
#![tactic(auto)]

use ds_script::Actor;

/// What a call did with a frame's number.
#[derive(Clone, Copy, Debug, PartialEq, Eq)]
pub enum InletAct {
    /// The number was above the last one, or there was none: it became the last one.
    Fresh(u32),
    /// The number wasn't above the last one.
    Stale(u32),
}

/// A call: when it came, who made it and what it did.
#[derive(Clone, Copy, Debug, PartialEq, Eq)]
pub struct InletEntry {
    /// The stamp of the call's event.
    pub stamp: u64,
    /// The actor whose event it is.
    pub who: Actor,
    /// What the call did.
    pub act: InletAct,
}

/// A history that was handed out: its entries, in order.
pub type InletHistory = Vec<InletEntry>;
