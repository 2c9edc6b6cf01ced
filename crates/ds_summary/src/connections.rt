//! The entries of connections.

ghost use Rattle.std.specs.Prelude.{◌≡◌, ◌++◌, [], OnOk, flat_map, get_or, map, slice_get, Some};
ghost use Rattle.ds_exporter.specs.HostStates.{connection_of};
ghost use Rattle.ds_hosts.specs.Nodes.{conns_of, node_of};
ghost use Rattle.ds_summary.specs.Parts.{conn_if_there, conn_part, kept_conn_counts, route_part};

use crate::counted::Counted;
use ds_hosts::Node;
use ds_inlet::{Conn, ConnEntry};
use ds_label::Rule;
use ds_world::Route;
use std::alloc::AllocError;

fn push_entry(out: &mut Vec<Counted>, entry: &ConnEntry) -> Result<(), AllocError>
    ensures { OnOk result (out.new.items ≡ out.old.items ++ kept_conn_counts entry.now) }
{
    match entry {
        ConnEntry::Frame { .. } => Ok(()),
        ConnEntry::Stale { .. } => {
            out.push(Counted::Refused(Rule::Stale.number()))?;
            Ok(())
        }
        ConnEntry::Pass { .. } => Ok(()),
        ConnEntry::Drop { rule, .. } => {
            out.push(Counted::Refused(rule.number()))?;
            Ok(())
        }
    }
}

fn push_entries(out: &mut Vec<Counted>, entries: &[ConnEntry]) -> Result<(), AllocError>
    ensures { OnOk result (out.new.items ≡ out.old.items ++ flat_map kept_conn_counts entries.now) }
{
    for entry in entries {
        push_entry(out, entry)?;
    }
    Ok(())
}

fn push_conn(out: &mut Vec<Counted>, conn: &Conn) -> Result<(), AllocError>
    ensures { OnOk result (out.new.items ≡ out.old.items ++ conn_part (connection_of conn.now)) }
{
    push_entries(out, conn.entries())
}

/// Appends those of the connection at a place, none where there is no such connection.
fn push_conn_at(out: &mut Vec<Counted>, conns: &[Conn], place: u32) -> Result<(), AllocError>
    ensures { OnOk result (out.new.items ≡ out.old.items ++ conn_if_there (slice_get (map connection_of conns.now) place)) }
{
    match conns.get(place as usize) {
        Some(conn) => push_conn(out, conn),
        None => Ok(()),
    }
}

fn push_conn_of(out: &mut Vec<Counted>, node: &Node, place: u32) -> Result<(), AllocError>
    ensures { OnOk result (out.new.items ≡ out.old.items ++ conn_if_there (slice_get (conns_of (node_of node.now)) place)) }
{
    match node {
        Node::Running(host) => push_conn_at(out, host.conns().as_slice(), place),
        Node::Silent(conns) => push_conn_at(out, conns.as_slice(), place),
    }
}

fn push_route(out: &mut Vec<Counted>, nodes: &[Node], route: &Route) -> Result<(), AllocError>
    ensures { OnOk result (out.new.items ≡ out.old.items ++ route_part (map node_of nodes.now) route.now) }
{
    match nodes.get(route.host as usize) {
        Some(node) => push_conn_of(out, node, route.place),
        None => Ok(()),
    }
}

/// Appends what the entries of connections are counted as, each at its place on its host.
pub(crate) fn push_routes(
    out: &mut Vec<Counted>,
    nodes: &[Node],
    routes: &[Route],
) -> Result<(), AllocError>
    ensures { OnOk result (out.new.items ≡ out.old.items ++ flat_map (route_part (map node_of nodes.now)) routes.now) }
{
    for route in routes {
        push_route(out, nodes, route)?;
    }
    Ok(())
}
