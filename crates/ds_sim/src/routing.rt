//! Where the connections of a document lead.
#![tactic(auto)]

ghost use Rattle.std.specs.Prelude.{◌≡◌, ◌==◌, ◌++◌, ◌∷◌, ℕ, List, [], IfOk, OnOk, filter, length, map};
ghost use Rattle.ds_model.specs.Plan.{Link, OfLane};
ghost use Rattle.ds_world.specs.Worlds.{routes_of};
ghost use Rattle.ds_sim.specs.Routing.{hosts_from, lanes_from, leading_to, link_plan, next_route, with_routes};

use ds_plan::{Doc, HostSpec, LaneSpec};
use ds_world::{Feed, Route, RouteList};
use std::alloc::{AllocError, Global};

/// How many of the routes lead to a host.
fn leading_to(routes: &[Route], host: u32) -> usize
    ensures { result ≡ leading_to host routes.now }
{
    routes.iter().filter(|route| route.host == host).count()
}

/// Appends the route of a lane's connection. `AllocError` where memory runs out, and where a host, a lane or a connection has a
/// place from `2^32` on.
fn push_lane(routes: &mut RouteList, to: u32, host: usize, lane: usize) -> Result<(), AllocError>
    ensures { OnOk result (routes.new.items ≡ routes.old.items ++ next_route routes.old.items (record { host = to; source = OfLane host lane }) ∷ []) }
{
    let Ok(place) = u32::try_from(leading_to(routes.as_slice(), to)) else {
        return Err(AllocError);
    };
    let Ok(host) = u32::try_from(host) else {
        return Err(AllocError);
    };
    let Ok(lane) = u32::try_from(lane) else {
        return Err(AllocError);
    };
    routes.push(Route {
        host: to,
        place,
        source: Feed::Lane { host, lane },
    })?;
    Ok(())
}

/// Appends the route of a link's connection.
fn push_link(routes: &mut RouteList, to: u32) -> Result<(), AllocError>
    ensures { OnOk result (routes.new.items ≡ routes.old.items ++ next_route routes.old.items (link_plan to) ∷ []) }
{
    let Ok(place) = u32::try_from(leading_to(routes.as_slice(), to)) else {
        return Err(AllocError);
    };
    routes.push(Route {
        host: to,
        place,
        source: Feed::Link,
    })?;
    Ok(())
}

/// Appends the routes of a host's lanes.
fn push_lanes(routes: &mut RouteList, place: usize, lanes: &[LaneSpec]) -> Result<(), AllocError>
    ensures { OnOk result (routes.new.items ≡ with_routes routes.old.items (lanes_from place 0 lanes.now)) }
{
    for (index, lane) in lanes.iter().enumerate() {
        push_lane(routes, lane.to, place, index)?;
    }
    Ok(())
}

/// Appends the routes of all hosts' lanes.
fn push_hosts(routes: &mut RouteList, hosts: &[HostSpec]) -> Result<(), AllocError>
    ensures { OnOk result (routes.new.items ≡ hosts_from routes.old.items 0 hosts.now) }
{
    for (place, host) in hosts.iter().enumerate() {
        push_lanes(routes, place, host.lanes.as_slice())?;
    }
    Ok(())
}

/// Appends the routes of the links.
fn push_links(routes: &mut RouteList, links: &[u32]) -> Result<(), AllocError>
    ensures { OnOk result (routes.new.items ≡ with_routes routes.old.items (map link_plan links.now)) }
{
    for host in links {
        push_link(routes, *host)?;
    }
    Ok(())
}

/// The routes of a document's connections, by their numbers: first those of the lanes of all hosts in order, and then the links.
/// `AllocError` where memory runs out, and where a host, a lane or a connection has a place from `2^32` on; a document has at most
/// 528 connections.
#[tactic(auto, using(crate::proofs::Ways::routes_are))]
pub fn routes(alloc: Global, doc: &Doc) -> Result<RouteList, AllocError>
    ensures { IfOk result (λ routes. routes.items ≡ routes_of doc.now) }
{
    let mut routes = Vec::new(alloc);
    push_hosts(&mut routes, doc.hosts.as_slice())?;
    push_links(&mut routes, doc.links.as_slice())?;
    Ok(routes)
}
