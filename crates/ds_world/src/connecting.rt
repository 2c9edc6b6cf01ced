//! Connections that accept and deliver.
#![tactic(auto)]

ghost use Rattle.std.specs.Prelude.{◌≡◌, ◌+◌, ◌<◌, ◌^◌, ℕ, Some, length, map, slice_get, Ok, OnErr, IfOk};
ghost use Rattle.ds_model.specs.ConnectionStep.{accept, deliver};
ghost use Rattle.ds_model.specs.Step.{Accept, Deliver};
ghost use Rattle.ds_scheme.specs.TheScheme.{scheme};
ghost use Rattle.ds_hosts.specs.Nodes.{NodeState, IsEarlier, node_of};
ghost use Rattle.ds_world.specs.Inside.{IsFit, state_of};
ghost use Rattle.ds_world.specs.Afters.{IsAfter, IsAnsweredAt, counted};

use crate::parts::WorldParts;
use crate::route::{Route, RouteList};
use ds_exporter::Moved;
use ds_hosts::NodeList;
use std::alloc::AllocError;

/// Where the connection with that number leads.
pub(crate) fn route_of(routes: &RouteList, conn: u32) -> Option<Route>
    ensures { result ≡ slice_get routes.now.items conn }
{
    routes.get(conn as usize).copied()
}

/// A connection of the host at a place accepts.
fn accept_at(nodes: &mut NodeList, host: usize, stamp: u64, place: u32) -> Result<Moved, AllocError>
    requires there { host < length nodes.old.items }
    requires later { (x : NodeState) → slice_get (map node_of nodes.old.items) host ≡ Some x → IsEarlier stamp x }
    ensures ok { IfOk result (λ moved. IsAnsweredAt (λ plan k bytes. accept scheme plan k bytes) moved stamp host place (map node_of nodes.old.items) (map node_of nodes.new.items)) }
    ensures still { result ≡ Ok Moved.Still → map node_of nodes.new.items ≡ map node_of nodes.old.items }
    ensures err { OnErr result (map node_of nodes.new.items ≡ map node_of nodes.old.items) }
{
    let moved = nodes[host].accept(stamp, place)?;
    Ok(moved)
}

/// A connection of the host at a place delivers.
fn deliver_at(
    nodes: &mut NodeList,
    host: usize,
    stamp: u64,
    place: u32,
) -> Result<Moved, AllocError>
    requires there { host < length nodes.old.items }
    requires later { (x : NodeState) → slice_get (map node_of nodes.old.items) host ≡ Some x → IsEarlier stamp x }
    ensures ok { IfOk result (λ moved. IsAnsweredAt (λ plan k bytes. deliver scheme plan k bytes) moved stamp host place (map node_of nodes.old.items) (map node_of nodes.new.items)) }
    ensures still { result ≡ Ok Moved.Still → map node_of nodes.new.items ≡ map node_of nodes.old.items }
    ensures err { OnErr result (map node_of nodes.new.items ≡ map node_of nodes.old.items) }
{
    let moved = nodes[host].deliver(stamp, place)?;
    Ok(moved)
}

/// A connection accepts, by its number. It is still where there is no such connection.
pub(crate) fn accept(parts: &mut WorldParts, conn: u32) -> Result<Moved, AllocError>
    requires fit { IsFit parts.old }
    requires more { parts.old.count + 1 < 2 ^ 64 }
    ensures ok { IfOk result (λ moved. IsAfter moved (Accept conn) (state_of parts.old) (counted parts.old.count (state_of parts.new))) }
    ensures same { (parts.new.routes ≡ parts.old.routes) × (parts.new.count ≡ parts.old.count) }
    ensures still { result ≡ Ok Moved.Still → state_of parts.new ≡ state_of parts.old }
    ensures err { OnErr result (state_of parts.new ≡ state_of parts.old) }
{
    let Some(route) = route_of(&parts.routes, conn) else {
        return Ok(Moved::Still);
    };
    accept_at(
        &mut parts.nodes,
        route.host as usize,
        parts.count + 1,
        route.place,
    )
}

/// A connection delivers, by its number. It is still where there is no such connection.
pub(crate) fn deliver(parts: &mut WorldParts, conn: u32) -> Result<Moved, AllocError>
    requires fit { IsFit parts.old }
    requires more { parts.old.count + 1 < 2 ^ 64 }
    ensures ok { IfOk result (λ moved. IsAfter moved (Deliver conn) (state_of parts.old) (counted parts.old.count (state_of parts.new))) }
    ensures same { (parts.new.routes ≡ parts.old.routes) × (parts.new.count ≡ parts.old.count) }
    ensures still { result ≡ Ok Moved.Still → state_of parts.new ≡ state_of parts.old }
    ensures err { OnErr result (state_of parts.new ≡ state_of parts.old) }
{
    let Some(route) = route_of(&parts.routes, conn) else {
        return Ok(Moved::Still);
    };
    deliver_at(
        &mut parts.nodes,
        route.host as usize,
        parts.count + 1,
        route.place,
    )
}
