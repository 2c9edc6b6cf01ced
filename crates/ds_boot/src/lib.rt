//! A document's hosts as exporters, as they are before the first event.
#![tactic(auto)]

mod begun;
mod booting;
mod certs;
mod conns;
mod desks;
mod doc_keys;
mod forked;
mod hosts;
mod keys;
mod lanes;
mod laws;
mod procs;
mod queue;
mod signing;
mod trees;

pub use booting::{boot, boot_keyed, boot_with};
pub use doc_keys::{DocKeys, make_keys, make_lane_keys, make_lane_keys_in_threads};
pub use laws::{connections_begin_so, hosts_begin_so, silent_hosts_begin_so};
