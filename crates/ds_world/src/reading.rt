//! What connections read, and what processes have in hand.
#![tactic(auto)]

ghost use Rattle.std.specs.Prelude.{◌≡◌, ◌≤◌, ◌<◌, [], length, map, take, drop, get_or, slice_get, IfOk};
ghost use Rattle.std.specs.List.{AllByRecursion};
ghost use Rattle.ds_model.specs.Step.{stream_from, worker_at};
ghost use Rattle.ds_hosts.specs.Nodes.{SpellsHands, arrived_in, node_of, plain_host};
ghost use Rattle.ds_world.specs.Worlds.{IsFront, arrived_by, no_node, stream_by};
ghost use Rattle.ds_world.specs.Inside.{state_of};

use crate::parts::{LinkList, WorldParts};
use crate::route::{Feed, Route};
use ds_hosts::NodeList;
use ds_wire::Bytes;
use std::alloc::{AllocError, Global};

/// The stream of the link at a place; nothing where there is none.
fn link_at(links: &LinkList, place: u32) -> &[u8]
    ensures { result.now ≡ get_or links.now.items place [] }
{
    if place as usize >= links.len() {
        return &[];
    }
    links[place as usize].as_slice()
}

/// What a host's lane wrote, by both places; nothing where there is no such host or lane.
fn lane_at(nodes: &NodeList, host: u32, lane: u32) -> &[u8]
    ensures { result.now ≡ stream_from (worker_at (slice_get (map plain_host (map node_of nodes.now.items)) host) lane) }
{
    if host as usize >= nodes.len() {
        return &[];
    }
    nodes[host as usize].stream(lane)
}

/// The stream that the connection with that number reads.
pub(crate) fn stream_of(parts: &WorldParts, conn: u32, source: Feed) -> &[u8]
    ensures { result.now ≡ stream_by (state_of parts.now) conn source }
{
    match source {
        Feed::Link => link_at(&parts.links, conn),
        Feed::Lane { host, lane } => lane_at(&parts.nodes, host, lane),
    }
}

/// How many bytes arrived at a connection.
pub(crate) fn count_of(nodes: &NodeList, route: Route) -> usize
    requires { route.host < length nodes.now.items }
    ensures { result ≡ length (arrived_in route.place (get_or (map node_of nodes.now.items) route.host no_node)) }
{
    nodes[route.host as usize].arrived(route.place)
}

/// The next bytes of a stream, at most so many, from a place on.
fn piece_of(alloc: Global, stream: &[u8], from: usize, count: u64) -> Result<Bytes, AllocError>
    requires { from ≤ length stream.now }
    ensures { IfOk result (λ piece. piece ≡ take count (drop from stream.now)) }
{
    let rest = &stream[from..];
    if count >= rest.len() as u64 {
        return Bytes::from_slice(alloc, rest);
    }
    Bytes::from_slice(alloc, &rest[..count as usize])
}

/// The bytes of a stream from a place up to another, as far as there are.
fn range_of(alloc: Global, stream: &[u8], from: u64, until: u64) -> Result<Bytes, AllocError>
    ensures { IfOk result (λ piece. piece ≡ drop from (take until stream.now)) }
{
    let end = if until < stream.len() as u64 {
        until as usize
    } else {
        stream.len()
    };
    if from >= end as u64 {
        return Ok(Bytes::new(alloc));
    }
    Bytes::from_slice(alloc, &stream[from as usize..end])
}

/// The next bytes that a connection reads, at most so many, behind what arrived.
pub(crate) fn next_bytes(
    parts: &WorldParts,
    conn: u32,
    route: Route,
    count: u64,
) -> Result<Bytes, AllocError>
    requires leads { route.host < length parts.now.nodes.items }
    requires front { IsFront (arrived_by (state_of parts.now) route) (stream_by (state_of parts.now) conn route.source) }
    ensures { IfOk result (λ piece. piece ≡ take count (drop (length (arrived_by (state_of parts.now) route)) (stream_by (state_of parts.now) conn route.source))) }
{
    let from = count_of(&parts.nodes, route);
    let stream = stream_of(parts, conn, route.source);
    piece_of(*parts.nodes.allocator(), stream, from, count)
}

/// The bytes that a connection reads from a place up to another, as far as there are.
pub(crate) fn part_of(
    parts: &WorldParts,
    conn: u32,
    route: Route,
    from: u64,
    until: u64,
) -> Result<Bytes, AllocError>
    ensures { IfOk result (λ piece. piece ≡ drop from (take until (stream_by (state_of parts.now) conn route.source))) }
{
    let stream = stream_of(parts, conn, route.source);
    range_of(*parts.nodes.allocator(), stream, from, until)
}

/// At each host, each message that a process has in hand has a spelling. It does nothing.
pub(crate) fn hands_of(nodes: &NodeList)
    ensures { AllByRecursion (λ n. SpellsHands (plain_host (node_of n))) nodes.now.items }
{
    let all = nodes.as_slice();
    for node in all {
        node.hands();
    }
}
