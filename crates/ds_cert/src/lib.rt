//! Certificates: who may act for a category, where an exporter is reached, and what a lane between two exporters carries.
#![tactic(auto)]

mod address;
mod array;
mod cert;
mod delegation;
mod fault;
mod fields;
mod fits;
mod label;
mod lane;
mod laws;
mod writing;

pub use address::Address;
pub use cert::Cert;
pub use delegation::Delegation;
pub use fault::{CertFault, ReadFault, at_place};
pub use fields::{byte_of, get_category, key_of, number_of, run_of, short_of};
pub use fits::{show_category, show_key, show_label};
pub use label::{get_label, label_of, put_label};
pub use lane::LaneCert;
pub use laws::{reading_undoes_spelling, spellings_are_prefix_free};
pub use writing::append_label;
