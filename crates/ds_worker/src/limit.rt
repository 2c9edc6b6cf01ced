//! How much an actor does in a phase.
#![tactic(auto)]

/// Most events that a process, a lane's worker or a connection makes in a phase.
pub const TURN_LIMIT: u32 = 16;
