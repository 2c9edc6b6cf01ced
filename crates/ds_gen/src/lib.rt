//! Documents made by a rule from a number, for programs that are to be tried or timed on runs of any length.
#![tactic(auto)]

mod document;
mod hosts;
mod labels;
mod laws;
mod scripts;

pub use document::generate;
pub use laws::generated_are_documents;
