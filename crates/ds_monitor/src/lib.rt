//! What a process may do, by its label, its ownership and its clearance, over its host's own numbers.
#![tactic(auto)]

mod fault;
mod inside;
mod judging;
mod monitor;

pub use fault::ProcFault;
pub use monitor::Monitor;
