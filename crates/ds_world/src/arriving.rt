//! Bytes that arrive.
#![tactic(auto)]

ghost use Rattle.std.specs.Prelude.{◌≡◌, ◌+◌, ◌<◌, ◌^◌, ℕ, Some, length, map, slice_get, Ok, OnErr, IfOk};
ghost use Rattle.ds_model.specs.Step.{Arrive};
ghost use Rattle.ds_hosts.specs.Nodes.{NodeState, IsEarlier, node_of};
ghost use Rattle.ds_world.specs.Inside.{IsFit, state_of};
ghost use Rattle.ds_world.specs.Afters.{IsAfter, IsFedAt, counted};

use crate::connecting::route_of;
use crate::parts::WorldParts;
use crate::reading::next_bytes;
use ds_exporter::Moved;
use ds_hosts::NodeList;
use std::alloc::AllocError;

/// The next bytes of its stream come to a connection of the host at a place.
fn arrive_at(
    nodes: &mut NodeList,
    host: usize,
    stamp: u64,
    place: u32,
    piece: &[u8],
) -> Result<Moved, AllocError>
    requires there { host < length nodes.old.items }
    requires later { (x : NodeState) → slice_get (map node_of nodes.old.items) host ≡ Some x → IsEarlier stamp x }
    ensures ok { IfOk result (λ moved. IsFedAt piece.now moved stamp host place (map node_of nodes.old.items) (map node_of nodes.new.items)) }
    ensures still { result ≡ Ok Moved.Still → map node_of nodes.new.items ≡ map node_of nodes.old.items }
    ensures err { OnErr result (map node_of nodes.new.items ≡ map node_of nodes.old.items) }
{
    let moved = nodes[host].arrive(stamp, place, piece)?;
    Ok(moved)
}

/// So many further bytes of a connection arrive, by its number, as far as its stream has them. It is still where there is none,
/// and where there is no such connection.
pub(crate) fn arrive(parts: &mut WorldParts, conn: u32, count: u64) -> Result<Moved, AllocError>
    requires fit { IsFit parts.old }
    requires more { parts.old.count + 1 < 2 ^ 64 }
    ensures ok { IfOk result (λ moved. IsAfter moved (Arrive conn count) (state_of parts.old) (counted parts.old.count (state_of parts.new))) }
    ensures same { (parts.new.routes ≡ parts.old.routes) × (parts.new.count ≡ parts.old.count) }
    ensures still { result ≡ Ok Moved.Still → state_of parts.new ≡ state_of parts.old }
    ensures err { OnErr result (state_of parts.new ≡ state_of parts.old) }
{
    let Some(route) = route_of(&parts.routes, conn) else {
        return Ok(Moved::Still);
    };
    let piece = next_bytes(parts, conn, route, count)?;
    arrive_at(
        &mut parts.nodes,
        route.host as usize,
        parts.count + 1,
        route.place,
        piece.as_slice(),
    )
}
