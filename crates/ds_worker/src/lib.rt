//! What one thread does in a phase with an actor of a host: turns over its host's shared objects, each recorded, until one
//! makes no event or the limit is reached; and all actors of all hosts at once. All that an actor records is one run.
#![tactic(auto)]

mod all_work;
mod conn_work;
mod lane_work;
mod limit;
mod proc_work;
mod run_laws;
mod task;
mod task_laws;
mod task_work;

pub use all_work::phase;
pub use conn_work::work_conn;
pub use lane_work::work_lane;
pub use limit::TURN_LIMIT;
pub use proc_work::work_proc;
pub use run_laws::{connections_run_on, records_grow, runs_join};
pub use task::{Task, TaskActor};
pub use task_laws::{tasks_grow, tasks_run};
pub use task_work::work;
