//! Phases: all hosts work at once, each in a thread of its own.
#![tactic(auto)]

ghost use Rattle.std.specs.Prelude.{◌≡◌, ◌+◌, ◌*◌, ◌<◌, ◌≤◌, ◌^◌, ◌++◌, ℕ, false, length, map, flat_map, slice_index_or, All, IfOk, OnOk, IsTrue};
ghost use Rattle.ds_world.specs.Worlds.{routes_of};
ghost use Rattle.ds_world.specs.Inside.{IsFit, state_of};
ghost use Rattle.ds_mesh.specs.Workings.{IsReady, Works};
ghost use Rattle.ds_mesh.specs.Phases.{AreFreshTasks, Went};

use crate::task::Task;
use crate::working::work;
use ds_base::Gate;
use ds_hosts::NodeList;
use ds_plan::{Doc, Event};
use ds_world::{RouteList, World, WorldParts};
use std::alloc::{AllocError, Global};
use std::thread;
use std::thread::Threads;

/// Tasks of these hosts, in order. `AllocError` where memory runs out, and where there are 2^32 hosts.
fn tasks_of(alloc: Global, nodes: NodeList, stamp: u64, left: u32) -> Result<Vec<Task>, AllocError>
    ensures nodes { IfOk result (λ tasks. map (λ t. t.node) tasks.items ≡ nodes.items) }
    ensures fresh { IfOk result (λ tasks. AreFreshTasks stamp left tasks.items) }
{
    let mut tasks = Vec::with_capacity(alloc, nodes.len())?;
    let mut host = 0u32;
    for node in nodes {
        tasks.push(Task {
            host,
            node,
            stamp,
            left,
            events: Vec::new(alloc),
            fault: false,
        })?;
        let Some(next) = host.checked_add(1) else {
            return Err(AllocError);
        };
        host = next;
    }
    Ok(tasks)
}

/// All hosts work, each in a thread of its own where one can be made.
fn work_each<R: Threads + Sync, G: Gate + Sync>(
    rt: &R,
    gate: &G,
    doc: &Doc,
    routes: &RouteList,
    conns: u32,
    tasks: &mut [Task],
)
    requires ready { All IsReady tasks.old }
    requires routes { routes.now.items ≡ routes_of doc.now }
    ensures each { (i : _) (d : _) → i < length tasks.old → (slice_index_or tasks.new i d).fault ≡ false → Works doc.now (slice_index_or tasks.old i d) (slice_index_or tasks.new i d) }
    ensures count { length tasks.new ≡ length tasks.old }
{
    let count = tasks.len();
    if count == 0 {
        return;
    }
    thread::for_each_mut(
        rt,
        tasks,
        count,
        &|_, task| work(gate, doc, routes, conns, task),
    );
}

/// The tasks after all hosts worked.
fn worked<R: Threads + Sync, G: Gate + Sync>(
    rt: &R,
    gate: &G,
    doc: &Doc,
    routes: &RouteList,
    conns: u32,
    tasks: Vec<Task>,
) -> Vec<Task>
    requires ready { All IsReady tasks.items }
    requires routes { routes.now.items ≡ routes_of doc.now }
    ensures each { (i : _) (d : _) → i < length tasks.items → (slice_index_or result.items i d).fault ≡ false → Works doc.now (slice_index_or tasks.items i d) (slice_index_or result.items i d) }
    ensures count { length result.items ≡ length tasks.items }
{
    let mut tasks = tasks;
    work_each(rt, gate, doc, routes, conns, tasks.as_mut_slice());
    tasks
}

/// Whether all went on without a fault.
fn are_sound(tasks: &[Task]) -> bool
    ensures { IsTrue result → All (λ t. t.fault ≡ false) tasks.now }
{
    tasks.iter().all(|task| !task.fault)
}

/// The hosts of tasks, and behind other events those that they made. `AllocError` where memory runs out.
fn gather(alloc: Global, tasks: Vec<Task>, events: &mut Vec<Event>) -> Result<NodeList, AllocError>
    ensures nodes { IfOk result (λ nodes. nodes.items ≡ map (λ t. t.node) tasks.items) }
    ensures events { OnOk result (events.new.items ≡ events.old.items ++ flat_map (λ t. t.events.items) tasks.items) }
{
    let mut nodes = Vec::with_capacity(alloc, tasks.len())?;
    for task in tasks {
        let mut made = task.events;
        nodes.push(task.node)?;
        events.append(&mut made)?;
    }
    Ok(nodes)
}

/// A phase of the parts of a world.
fn phase_of<R: Threads + Sync, G: Gate + Sync>(
    rt: &R,
    gate: &G,
    parts: WorldParts,
    conns: u32,
    share: u32,
    events: &mut Vec<Event>,
) -> Result<WorldParts, AllocError>
    requires fit { IsFit parts }
    requires few { length parts.doc.hosts ≤ 16 }
    requires room { parts.count + share * 16 < 2 ^ 64 }
    ensures fit { IfOk result (λ after. IsFit after) }
    ensures went { IfOk result (λ after. Went (state_of parts) (state_of after) events.old.items events.new.items) }
    ensures few { OnOk result (length events.new.items ≤ length events.old.items + share * 16) }
{
    let alloc = *parts.links.allocator();
    let WorldParts {
        doc,
        nodes,
        links,
        routes,
        count,
    } = parts;
    let before = events.len();
    let tasks = tasks_of(alloc, nodes, count, share)?;
    let tasks = worked(rt, gate, &doc, &routes, conns, tasks);
    if !are_sound(tasks.as_slice()) {
        return Err(AllocError);
    }
    let nodes = gather(alloc, tasks, events)?;
    let made = (events.len() - before) as u64;
    Ok(WorldParts {
        doc,
        nodes,
        links,
        routes,
        count: count + made,
    })
}

/// A phase: all hosts work at once, each in a thread of its own where one can be made; each makes at most `share` events, which are
/// appended. `AllocError` where memory runs out.
pub(crate) fn phase<R: Threads + Sync, G: Gate + Sync>(
    rt: &R,
    gate: &G,
    world: World,
    share: u32,
    events: &mut Vec<Event>,
) -> Result<World, AllocError>
    requires few { length world.doc.hosts ≤ 16 }
    requires room { world.count + share * 16 < 2 ^ 64 }
    ensures went { IfOk result (λ after. Went world after events.old.items events.new.items) }
    ensures few { OnOk result (length events.new.items ≤ length events.old.items + share * 16) }
{
    let conns = world.conns()?;
    let parts = phase_of(rt, gate, world.into_parts(), conns, share, events)?;
    Ok(World::from_parts(parts))
}
