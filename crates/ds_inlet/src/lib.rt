//! Inlets and connections: which frames' numbers an exporter took from a lane, and what it read of a stream.
#![tactic(auto)]

mod conn;
mod entry;
mod hosts;
mod laws;
mod names;
mod offer;
mod state;

pub use conn::Conn;
pub use entry::{InletAct, InletEntry, InletHistory};
pub use laws::{
    connections_accept_as_the_plain_world, connections_act_as_the_plain_world,
    connections_read_the_stream, pieces_make_no_difference,
};
pub use names::{InletName, InletNames};
pub use offer::{ConnEntry, Offer};
pub use state::{Inlet, Stale};
