//! Hosts that run at once, each in a thread of its own, and the plain run that they made.
#![tactic(auto)]

mod acting;
mod arriving;
mod gates;
mod mesh;
mod phase;
mod running;
mod settling;
mod task;
mod working;

pub use mesh::mesh_text;
pub use running::{Ran, run_in_threads};
pub use task::Task;
