//! Where a worker passes the gate: before it puts a message into a mailbox.
#![tactic(auto)]

use ds_base::Gate;
use ds_hosts::Node;
use ds_script::Op;

/// The slot of the mailbox of its own host to which a process sends next.
fn slot_of_step(node: &Node, index: u32) -> Option<u32> {
    let Node::Running(exporter) = node else {
        return None;
    };
    let part = exporter.procs().get(index as usize)?;
    match part.process.current() {
        Some(Op::Send { host, slot, .. }) => if *host == exporter.host() {
            Some(*slot)
        } else {
            None
        },
        _ => None,
    }
}

/// The slot of the mailbox to which a connection delivers next.
fn slot_of_delivery(node: &Node, place: u32) -> Option<u32> {
    let Node::Running(exporter) = node else {
        return None;
    };
    let conn = exporter.conns().get(place as usize)?;
    match conn.front() {
        Some(message) => Some(message.slot),
        None => None,
    }
}

/// Passes the gate where the next step of a process puts a message into a mailbox of its host.
pub(crate) fn pass_before_step<G: Gate>(gate: &G, node: &Node, index: u32) {
    if let Some(slot) = slot_of_step(node, index) {
        gate.pass(slot);
    }
}

/// Passes the gate where the next delivery of a connection may put a message into a mailbox.
pub(crate) fn pass_before_deliver<G: Gate>(gate: &G, node: &Node, place: u32) {
    if let Some(slot) = slot_of_delivery(node, place) {
        gate.pass(slot);
    }
}
