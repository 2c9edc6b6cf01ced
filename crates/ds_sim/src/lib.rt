//! A document's run and its text: setup, the events, and what is printed.
#![tactic(auto)]

mod beginning;
mod laws;
mod routing;
mod simulate;

pub use beginning::{setup, setup_with};
pub use laws::{runs_begin_so, runs_look_the_same};
pub use routing::routes;
pub use simulate::{run_text, run_text_with};
