//! Documents: what a JSON text says of hosts, their processes, mailboxes and lanes, certificates, links and events.
//!
//! [`read`] gives the document, or the least code of a rule that it breaks and the least place where it does.
#![tactic(auto)]

mod document;
mod draft;
mod fault;
mod form;
mod judge;
mod reading;
mod rules;
mod size;
mod spot;
mod text;
mod unscripted;
mod values;

pub use document::{read, read_keyed};
pub use fault::DocFault;
pub use unscripted::read_without_events;
