//! What an actor sees of a run as it stands.
#![tactic(auto)]

ghost use Rattle.std.specs.Prelude.{◌≡◌, All, IfOk, List, Option, Some, map, option_map, slice_get};
ghost use Rattle.ds_model.specs.Views.{host_view, proc_in, proc_view, view_of_host, view_of_proc};
ghost use Rattle.ds_setup.specs.Plans.{plan_of};
ghost use Rattle.ds_setup.specs.Starts.{empty_desk};
ghost use Rattle.ds_desk.specs.Desks.{desk_of};
ghost use Rattle.ds_exporter.specs.HostStates.{connection_of, process_of};
ghost use Rattle.ds_exporter.specs.PlainHosts.{arrived_of, host_of, plain_process};
ghost use Rattle.ds_exporter.specs.Conditions.{IsProcNamed};
ghost use Rattle.ds_hosts.specs.Nodes.{node_of, plain_host};
ghost use Rattle.ds_world.specs.Worlds.{world_of};
ghost use Rattle.ds_views.specs.Views.{HasActor, node_view, view_of};

use crate::actor_view::{HostView, ProcView, View};
use crate::copying::copy_categories;
use ds_chain::{AddressList, CertList};
use ds_desk::{DeskState, IssuedList};
use ds_exporter::{Exporter, ProcPart};
use ds_hosts::Node;
use ds_inlet::Conn;
use ds_map::MapTable;
use ds_plan::CategoryList;
use ds_script::{Actor, ActorKind, BytesList, NoteList};
use ds_wire::Bytes;
use ds_world::World;
use std::alloc::{AllocError, Global};

/// What a process sees, by the names of its host's table.
fn view_of_part(alloc: Global, table: &MapTable, part: &ProcPart) -> Result<ProcView, AllocError>
    requires { IsProcNamed table.now.here table.now.rows (process_of part.now) }
    ensures { IfOk result (λ v. v ≡ proc_view (plain_process table.now.here table.now.rows (process_of part.now))) }
{
    let process = &part.process;
    Ok(ProcView {
        label: table.names_of(process.label())?,
        registers: BytesList::from_slice(alloc, process.registers())?,
        notes: NoteList::from_slice(alloc, process.notes())?,
    })
}

/// What the process at a place sees, if there is one.
fn view_among(
    alloc: Global,
    table: &MapTable,
    procs: &[ProcPart],
    index: u32,
) -> Result<Option<ProcView>, AllocError>
    requires { All (IsProcNamed table.now.here table.now.rows) (map process_of procs.now) }
    ensures { IfOk result (λ v. v ≡ option_map proc_view (slice_get (map (plain_process table.now.here table.now.rows) (map process_of procs.now)) index)) }
{
    match procs.get(index as usize) {
        Some(part) => Ok(Some(view_of_part(alloc, table, part)?)),
        None => Ok(None),
    }
}

/// What the process at a place of a running host sees, if there is one.
fn process_of_running(
    alloc: Global,
    host: &Exporter,
    index: u32,
) -> Result<Option<ProcView>, AllocError>
    ensures { IfOk result (λ v. v ≡ option_map proc_view (slice_get (host_of host.now).procs index)) }
{
    host.fit();
    view_among(alloc, &host.desk().table, host.procs().as_slice(), index)
}

/// What the process at a place of a host sees, if there is one.
fn process_of_node(alloc: Global, node: &Node, index: u32) -> Result<Option<ProcView>, AllocError>
    ensures { IfOk result (λ v. v ≡ option_map proc_view (slice_get (plain_host (node_of node.now)).procs index)) }
{
    match node {
        Node::Running(host) => process_of_running(alloc, host, index),
        Node::Silent(_) => Ok(None),
    }
}

/// What a process sees, by the places of its host and its own, if there is one.
fn process_among(
    alloc: Global,
    nodes: &[Node],
    host: u32,
    index: u32,
) -> Result<Option<ProcView>, AllocError>
    ensures { IfOk result (λ v. v ≡ option_map proc_view (proc_in (slice_get (map plain_host (map node_of nodes.now)) host) index)) }
{
    match nodes.get(host as usize) {
        Some(node) => process_of_node(alloc, node, index),
        None => Ok(None),
    }
}

/// What a process of the run sees, if there is one.
fn process_seen(world: &World, host: u32, index: u32) -> Result<Option<ProcView>, AllocError>
    ensures { IfOk result (λ v. v ≡ view_of_proc (world_of world.now) host index) }
{
    let nodes = world.nodes();
    process_among(*nodes.allocator(), nodes.as_slice(), host, index)
}

/// What arrived at each of these connections.
fn all_arrived(alloc: Global, conns: &[Conn]) -> Result<BytesList, AllocError>
    ensures { IfOk result (λ all. all ≡ map arrived_of (map connection_of conns.now)) }
{
    let mut all = BytesList::new(alloc);
    for conn in conns {
        all.push(Bytes::from_slice(alloc, conn.arrived())?)?;
    }
    Ok(all)
}

/// What a running host sees.
fn view_of_desk(alloc: Global, desk: &DeskState, arrived: BytesList) -> Result<HostView, AllocError>
    ensures { IfOk result (λ v. v ≡ host_view (desk_of desk.now) arrived) }
{
    Ok(HostView {
        moment: desk.moment,
        rows: copy_categories(alloc, desk.table.rows())?,
        store: desk.store.list().copy()?,
        addresses: desk.addresses.copy()?,
        issued: desk.issued.copy()?,
        leaf: desk.signer.next(),
        arrived,
    })
}

/// What a silent host sees.
fn view_of_silent(alloc: Global, arrived: BytesList) -> HostView
    ensures { result ≡ host_view empty_desk arrived }
{
    HostView {
        moment: 0,
        rows: CategoryList::new(alloc),
        store: CertList::new(alloc),
        addresses: AddressList::new(alloc),
        issued: IssuedList::new(alloc),
        leaf: 0,
        arrived,
    }
}

/// What a host sees.
fn view_of_node(alloc: Global, node: &Node) -> Result<HostView, AllocError>
    ensures { IfOk result (λ v. v ≡ node_view (node_of node.now)) }
{
    match node {
        Node::Running(host) => {
            let arrived = all_arrived(alloc, host.conns().as_slice())?;
            view_of_desk(alloc, host.desk(), arrived)
        }
        Node::Silent(conns) => {
            let arrived = all_arrived(alloc, conns.as_slice())?;
            Ok(view_of_silent(alloc, arrived))
        }
    }
}

/// What the host at a place sees, if there is one.
fn host_among(alloc: Global, nodes: &[Node], host: u32) -> Result<Option<HostView>, AllocError>
    ensures { IfOk result (λ v. v ≡ option_map node_view (slice_get (map node_of nodes.now) host)) }
{
    match nodes.get(host as usize) {
        Some(node) => Ok(Some(view_of_node(alloc, node)?)),
        None => Ok(None),
    }
}

/// What a host of the run sees, if there is one.
fn host_seen(world: &World, host: u32) -> Result<Option<HostView>, AllocError>
    ensures { IfOk result (λ v. v ≡ view_of_host (plan_of world.now.doc) (world_of world.now) host) }
{
    world.fit();
    let nodes = world.nodes();
    host_among(*nodes.allocator(), nodes.as_slice(), host)
}

/// What an actor of the run sees of it as it stands: a process sees itself, and a host's clock sees the host. It needs that the run
/// has the actor, of the kind `Proc` or `Clock`. `AllocError` where memory runs out.
pub fn view(world: &World, actor: &Actor) -> Result<View, AllocError>
    requires { HasActor (world_of world.now) actor.now }
    ensures { IfOk result (λ v. view_of (plan_of world.now.doc) (world_of world.now) actor.now ≡ Some v) }
{
    match actor.kind {
        ActorKind::Clock => match host_seen(world, actor.host)? {
            Some(seen) => Ok(View::Host(seen)),
            None => unreachable!(),
        },
        ActorKind::Proc => match process_seen(world, actor.host, actor.index)? {
            Some(seen) => Ok(View::Proc(seen)),
            None => unreachable!(),
        },
        ActorKind::Lane | ActorKind::Conn => unreachable!(),
    }
}
