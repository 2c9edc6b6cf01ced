//! The exporter of one host: its desk, its processes, its mailboxes, lanes and inlets, and the connections to it. Each call does
//! one event, and is the plain world's step for it, with the mapping table's names in place of the host's own numbers.
#![tactic(auto)]

mod accepting;
mod acting;
mod arriving;
mod asking;
mod checking;
mod delivering;
mod exporter;
mod finding;
mod framing;
mod judging;
mod lifting;
mod moved;
mod noting;
mod parts;
mod posting;
mod putting;
mod queueing;
mod refusing;
mod running;
mod sending;
mod site;
mod stepping;
mod taking;
mod ticking;

pub use exporter::Exporter;
pub use moved::{CoreFault, Moved};
pub use parts::{
    BoxList, BoxPart, ConnList, ExporterParts, InletList, KeyList, LaneList, LanePart, ProcList,
    ProcPart,
};
