//! The law over two runs, asked of two documents alone: definitions, and laws of functions that do nothing.
#![tactic(auto)]

mod laws;

pub use laws::{agreeing_setups, two_documents};
