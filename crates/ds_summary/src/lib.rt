//! The summary of a run: how many events it had, how many messages were queued, framed, put and taken, which rules refused how
//! often, and the digest of its text.
#![tactic(auto)]

mod connections;
mod counted;
mod laws;
mod lines;
mod parts;
mod summarize;
mod writing;

pub use counted::Counted;
pub use laws::rules_have_their_names;
pub use summarize::run_summary;
