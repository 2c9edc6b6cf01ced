//! What actors see of a run, and the law over two runs at the runs that were made.
#![tactic(auto)]

mod actor_view;
mod copying;
mod running;
mod seeing;

pub use actor_view::{HostView, ProcView, View};
pub use running::two_runs;
pub use seeing::view;
