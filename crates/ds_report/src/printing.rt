//! The whole text of a run.
#![tactic(auto)]

ghost use Rattle.std.specs.Prelude.{◌≡◌, ◌<◌, ◌++◌, ℕ, List, Some, IfOk, OnOk, length, map, slice_get};
ghost use Rattle.ds_model.specs.Plan.{host_plan};
ghost use Rattle.ds_model.specs.Print.{printed};
ghost use Rattle.ds_model.specs.Text.{text_of};
ghost use Rattle.ds_plan.specs.Keys.{host_keys};
ghost use Rattle.ds_setup.specs.Plans.{plan_of};
ghost use Rattle.ds_exporter.specs.HostStates.{connection_of};
ghost use Rattle.ds_hosts.specs.Nodes.{NodeState, IsPlanOf, conns_of, node_of};
ghost use Rattle.ds_world.specs.Worlds.{world_of};
ghost use Rattle.ds_report.specs.Printings.{printing_of, planned};
ghost use Rattle.ds_report.specs.Texts.{ArePlanned, HaveRoom, conns_text, node_text, nodes_text, route_text, route_text_at, world_text};

use crate::conns::push_conn;
use crate::hosts::push_host;
use crate::plain::push;
use ds_exporter::Exporter;
use ds_hosts::Node;
use ds_inlet::Conn;
use ds_plan::Doc;
use ds_world::{Route, World};
use std::alloc::{AllocError, Global};

/// Appends the sections of the host at a place, none of a silent one.
fn push_node(
    out: &mut Vec<u8>,
    alloc: Global,
    doc: &Doc,
    place: usize,
    node: &Node,
) -> Result<(), AllocError>
    requires { IsPlanOf (host_plan (plan_of doc.now) place) (node_of node.now) }
    ensures { OnOk result (out.new.items ≡ out.old.items ++ node_text (printing_of doc.now) (planned doc.now) place (node_of node.now)) }
{
    match node {
        Node::Running(host) => push_host(out, alloc, doc, host.keys().as_slice(), place, host),
        Node::Silent(_) => Ok(()),
    }
}

fn push_nodes(out: &mut Vec<u8>, alloc: Global, doc: &Doc, nodes: &[Node]) -> Result<(), AllocError>
    requires { ArePlanned doc.now (map node_of nodes.now) }
    ensures { OnOk result (out.new.items ≡ out.old.items ++ nodes_text (printing_of doc.now) (planned doc.now) 0 (map node_of nodes.now)) }
{
    for (place, node) in nodes.iter().enumerate() {
        push_node(out, alloc, doc, place, node)?;
    }
    Ok(())
}

fn conn_in(conns: &[Conn], place: usize) -> &Conn
    requires { place < length conns.now }
    ensures { slice_get (map connection_of conns.now) place ≡ Some (connection_of result.now) }
{
    &conns[place]
}

/// The connection at a place of a host.
fn conn_of(host: &Exporter, place: u32) -> &Conn
    requires { place < length host.now.conns }
    ensures { slice_get host.now.conns place ≡ Some (connection_of result.now) }
{
    conn_in(host.conns().as_slice(), place as usize)
}

/// Appends the section of a connection to a host, none where the host is silent.
fn push_route_to(
    out: &mut Vec<u8>,
    doc: &Doc,
    number: usize,
    route: &Route,
    node: &Node,
) -> Result<(), AllocError>
    requires plan { IsPlanOf (host_plan (plan_of doc.now) route.now.host) (node_of node.now) }
    requires room { route.now.place < length (conns_of (node_of node.now)) }
    ensures { OnOk result (out.new.items ≡ out.old.items ++ route_text (printing_of doc.now) (planned doc.now) number route.now (node_of node.now)) }
{
    match node {
        Node::Running(host) => {
            let conn = conn_of(host, route.place);
            push_conn(
                out,
                doc,
                host.keys().as_slice(),
                number,
                route.source,
                route.host as usize,
                conn,
            )
        }
        Node::Silent(_) => Ok(()),
    }
}

/// Appends the section of a connection, by its number and its route.
fn push_route(
    out: &mut Vec<u8>,
    doc: &Doc,
    number: usize,
    route: &Route,
    nodes: &[Node],
) -> Result<(), AllocError>
    requires plans { ArePlanned doc.now (map node_of nodes.now) }
    requires room { (x : NodeState) → slice_get (map node_of nodes.now) route.now.host ≡ Some x → route.now.place < length (conns_of x) }
    ensures { OnOk result (out.new.items ≡ out.old.items ++ route_text_at (printing_of doc.now) (planned doc.now) (map node_of nodes.now) number route.now) }
{
    match nodes.get(route.host as usize) {
        Some(node) => push_route_to(out, doc, number, route, node),
        None => Ok(()),
    }
}

fn push_routes(
    out: &mut Vec<u8>,
    doc: &Doc,
    nodes: &[Node],
    routes: &[Route],
) -> Result<(), AllocError>
    requires plans { ArePlanned doc.now (map node_of nodes.now) }
    requires room { HaveRoom (map node_of nodes.now) routes.now }
    ensures { OnOk result (out.new.items ≡ out.old.items ++ conns_text (printing_of doc.now) (planned doc.now) (map node_of nodes.now) 0 routes.now) }
{
    for (number, route) in routes.iter().enumerate() {
        push_route(out, doc, number, route, nodes)?;
    }
    Ok(())
}

/// The text, piece by piece.
fn pieces(alloc: Global, world: &World) -> Result<Vec<u8>, AllocError>
    ensures { IfOk result (λ text. text.items ≡ world_text (printing_of world.now.doc) (planned world.now.doc) world.now) }
{
    world.fit();
    let doc = world.doc();
    let nodes = world.nodes().as_slice();
    let routes = world.routes().as_slice();
    let mut out = Vec::new(alloc);
    push(&mut out, b"dstar 1\n")?;
    push_nodes(&mut out, alloc, doc, nodes)?;
    push_routes(&mut out, doc, nodes, routes)?;
    Ok(out)
}

/// The text of a run: the first line, each running host's sections, and those of the connections to running hosts. `AllocError`
/// where memory runs out.
pub fn text(alloc: Global, world: &World) -> Result<Vec<u8>, AllocError>
    ensures { IfOk result (λ text. text.items ≡ text_of (printed (printing_of world.now.doc) (plan_of world.now.doc)) (plan_of world.now.doc) (world_of world.now)) }
{
    world.fit();
    pieces(alloc, world)
}
