//! The text of a run: each host's line, its processes, mailboxes, lanes and inlets, and the connections.
#![tactic(auto)]

mod boxes;
mod conns;
mod events;
mod hosts;
mod inlets;
mod lanes;
mod laws;
mod names;
mod plain;
mod printing;
mod processes;

pub use boxes::push_box;
pub use conns::push_conn;
pub use events::push_event;
pub use hosts::push_host;
pub use inlets::push_inlet;
pub use lanes::push_lane;
pub use laws::hosts_are_printed;
pub use printing::text;
pub use processes::push_process;
