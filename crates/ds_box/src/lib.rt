//! Mailboxes: what waits in one, and the history that led to it. Each call that changes a mailbox enters itself.
#![tactic(auto)]

mod copying;
mod entry;
mod state;

pub use entry::{BoxAct, BoxEntry, BoxSegment};
pub use state::{BoxState, Empty};
