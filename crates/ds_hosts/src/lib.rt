//! A host of a run. It has an exporter where it runs, and where it is silent the connections to it alone. Each call does one event
//! of the host, and is the plain world's step for it.
#![tactic(auto)]

mod accepting;
mod arriving;
mod delivering;
mod framing;
mod node;
mod reading;
mod stepping;
mod ticking;

pub use node::{Node, NodeList};
