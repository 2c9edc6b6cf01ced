//! A queue with room for a fixed number of items, in one ring of memory.
#![tactic(auto)]

mod queue;

pub use queue::Queue;
