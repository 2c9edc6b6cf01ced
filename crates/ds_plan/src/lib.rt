//! Documents as values: hosts with their processes, mailboxes, lanes and inlets, certificates, links and events, and what a
//! document keeps that was read.
#![tactic(auto)]

mod cert;
mod doc;
mod event;
mod host;
mod list;
mod maker;
mod process;

pub use cert::{CertSpec, CertSpecList};
pub use doc::Doc;
pub use event::{Event, EventList};
pub use host::{HostSpec, HostSpecList, InletSpec, InletSpecList, LaneSpec, LaneSpecList, Secret};
pub use list::{CategoryList, HostSet, PartList, PlaceList};
pub use maker::Maker;
pub use process::{BoxSpec, BoxSpecList, ProcSpec, ProcSpecList};
