//! Lanes: the messages that wait for another host, and the worker that frames them. Each call that changes what waits enters
//! itself.
#![tactic(auto)]

mod batch;
mod copying;
mod entry;
mod framing;
mod lane_end;
mod state;
mod worker_entry;

pub use batch::{BodyBatch, Waiting};
pub use entry::{LaneAct, LaneEntry, LaneSegment};
pub use lane_end::{LaneEnd, LaneFault};
pub use state::{LaneState, LiftEnd};
pub use worker_entry::{WorkerAct, WorkerEntry};
