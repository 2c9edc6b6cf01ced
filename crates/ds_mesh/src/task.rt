//! A host at work in a phase.
#![tactic(auto)]

use ds_hosts::Node;
use ds_plan::Event;

/// A host at work in a phase, with what it has done in it.
#[derive(Drop)]
pub struct Task {
    /// The host's place.
    pub host: u32,
    /// The host.
    pub node: Node,
    /// The stamp of its last event.
    pub stamp: u64,
    /// How many events more it may make.
    pub left: u32,
    /// The events that it made.
    pub events: Vec<Event>,
    /// Whether memory ran out.
    pub fault: bool,
}
