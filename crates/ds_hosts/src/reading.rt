//! What has arrived, what lanes have written, and what processes have in hand.
#![tactic(auto)]

ghost use Rattle.std.specs.Prelude.{◌≡◌, [], length, map, get_or, slice_get};
ghost use Rattle.ds_model.specs.Step.{stream_from};
ghost use Rattle.ds_exporter.specs.HostStates.{connection_of, lane_of};
ghost use Rattle.ds_exporter.specs.PlainHosts.{arrived_of, host_of, plain_worker};
ghost use Rattle.ds_hosts.specs.Nodes.{SpellsHands, arrived_in, node_of, plain_host};

use crate::node::Node;
use ds_exporter::{ConnList, Exporter, LaneList};

/// How many bytes arrived at the connection at a place; none where there is no connection.
fn count_at(conns: &ConnList, place: u32) -> usize
    ensures { result ≡ length (get_or (map arrived_of (map connection_of conns.now.items)) place []) }
{
    match conns.get(place as usize) {
        Some(conn) => conn.arrived().len(),
        None => 0,
    }
}

/// All that the worker of the lane at a place wrote; nothing where there is no lane.
fn stream_at(lanes: &LaneList, place: u32) -> &[u8]
    ensures { result.now ≡ stream_from (slice_get (map plain_worker (map lane_of lanes.now.items)) place) }
{
    match lanes.get(place as usize) {
        Some(lane) => lane.end.stream(),
        None => &[],
    }
}

/// Each message that a process of a running host has in hand has a spelling. It does nothing.
fn hands_of(exporter: &Exporter)
    ensures { SpellsHands (host_of exporter.now) }
{
    exporter.fit();
}

impl Node {
    /// How many bytes arrived at a connection, by its place in the host's list; none where there is no such connection.
    pub fn arrived(&self, conn: u32) -> usize
        ensures { result ≡ length (arrived_in conn (node_of self.now)) }
    {
        match self {
            Node::Running(exporter) => count_at(exporter.conns(), conn),
            Node::Silent(conns) => count_at(conns, conn),
        }
    }

    /// All that a lane's worker wrote, by the lane's place, from 0; nothing where there is no such lane.
    pub fn stream(&self, lane: u32) -> &[u8]
        ensures { result.now ≡ stream_from (slice_get (plain_host (node_of self.now)).workers lane) }
    {
        match self {
            Node::Running(exporter) => stream_at(exporter.lanes(), lane),
            Node::Silent(_) => &[],
        }
    }

    /// Each message that a process has in hand has a spelling. It does nothing.
    pub fn hands(&self)
        ensures { SpellsHands (plain_host (node_of self.now)) }
    {
        match self {
            Node::Running(exporter) => hands_of(exporter),
            Node::Silent(_) => (),
        }
    }
}
