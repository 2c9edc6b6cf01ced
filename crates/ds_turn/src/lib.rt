//! Turns of a host's actors on threads. A turn asks by what its actor is, makes at most one call of a shared object, and tells the
//! actor the answer. Where it made an event, the actor records it with the entry that it met and with what was handed out.
#![tactic(auto)]

mod conn;
mod conn_laws;
mod conn_record;
mod lane;
mod lane_record;
mod names;
mod node;
mod proc;
mod proc_acting;
mod proc_asking;
mod proc_boxes;
mod proc_inside;
mod proc_judging;
mod proc_names;
mod proc_queueing;
mod proc_record;

pub use conn::conn_turn;
pub use conn_laws::{connections_lead_to_their_hosts, verdicts_are_the_plain_worlds};
pub use conn_record::RecordedConn;
pub use lane::lane_turn;
pub use lane_record::RecordedLane;
pub use node::{BoxSeat, InletSeat, Node};
pub use proc::proc_turn;
pub use proc_record::RecordedProc;
