//! What each host does in a phase.
#![tactic(auto)]

ghost use Rattle.std.specs.Prelude.{◌≡◌, false, Some, slice_get, OnOk};
ghost use Rattle.ds_world.specs.Worlds.{routes_of};
ghost use Rattle.ds_mesh.specs.Workings.{IsReady, Works};

use crate::acting::{accept, deliver, frame, step};
use crate::gates::{pass_before_deliver, pass_before_step};
use crate::task::Task;
use ds_base::Gate;
use ds_plan::Doc;
use ds_world::{Route, RouteList};
use std::alloc::AllocError;

/// How many events each process, lane and connection makes in a phase, at most.
const MOST: u32 = 16;

/// A process's steps, until one changes nothing.
#[tactic(auto, using(crate::proofs::Works::works_then, crate::proofs::Works::works_none))]
fn steps<G: Gate>(gate: &G, doc: &Doc, task: &mut Task, index: u32) -> Result<(), AllocError>
    requires { IsReady task.old }
    ensures { OnOk result (Works doc.now task.old task.new) }
{
    for _ in 0..MOST {
        pass_before_step(gate, &task.node, index);
        if !step(doc, task, index)? {
            return Ok(());
        }
    }
    Ok(())
}

/// A lane's frames, until one changes nothing.
#[tactic(auto, using(crate::proofs::Works::works_then, crate::proofs::Works::works_none))]
fn frames(doc: &Doc, task: &mut Task, lane: u32) -> Result<(), AllocError>
    requires { IsReady task.old }
    ensures { OnOk result (Works doc.now task.old task.new) }
{
    for _ in 0..MOST {
        if !frame(doc, task, lane)? {
            return Ok(());
        }
    }
    Ok(())
}

/// A turn of a connection: it accepts, or else delivers; it says whether that changed anything.
#[tactic(auto, using(crate::proofs::Works::works_then, crate::proofs::Works::works_none))]
fn turn<G: Gate>(
    gate: &G,
    doc: &Doc,
    task: &mut Task,
    conn: u32,
    route: Route,
) -> Result<bool, AllocError>
    requires ready { IsReady task.old }
    requires route { slice_get (routes_of doc.now) conn ≡ Some route }
    requires host { route.host ≡ task.old.host }
    ensures { OnOk result (Works doc.now task.old task.new) }
{
    if accept(doc, task, conn, route)? {
        return Ok(true);
    }
    pass_before_deliver(gate, &task.node, route.place);
    deliver(doc, task, conn, route)
}

/// A connection's turns, until one changes nothing.
#[tactic(auto, using(crate::proofs::Works::works_then, crate::proofs::Works::works_none))]
fn turns<G: Gate>(
    gate: &G,
    doc: &Doc,
    task: &mut Task,
    conn: u32,
    route: Route,
) -> Result<(), AllocError>
    requires ready { IsReady task.old }
    requires route { slice_get (routes_of doc.now) conn ≡ Some route }
    requires host { route.host ≡ task.old.host }
    ensures { OnOk result (Works doc.now task.old task.new) }
{
    for _ in 0..MOST {
        if !turn(gate, doc, task, conn, route)? {
            return Ok(());
        }
    }
    Ok(())
}

/// What the first so many processes do.
#[tactic(auto, using(crate::proofs::Works::works_then, crate::proofs::Works::works_none))]
fn all_steps<G: Gate>(gate: &G, doc: &Doc, task: &mut Task, procs: u32) -> Result<(), AllocError>
    requires { IsReady task.old }
    ensures { OnOk result (Works doc.now task.old task.new) }
{
    for index in 0..procs {
        steps(gate, doc, task, index)?;
    }
    Ok(())
}

/// What the first so many lanes do.
#[tactic(auto, using(crate::proofs::Works::works_then, crate::proofs::Works::works_none))]
fn all_frames(doc: &Doc, task: &mut Task, lanes: u32) -> Result<(), AllocError>
    requires { IsReady task.old }
    ensures { OnOk result (Works doc.now task.old task.new) }
{
    for place in 0..lanes {
        frames(doc, task, place + 1)?;
    }
    Ok(())
}

/// The turns of a connection, by its number, if it leads to the host.
#[tactic(auto, using(crate::proofs::Works::works_then, crate::proofs::Works::works_none))]
fn turns_here<G: Gate>(
    gate: &G,
    doc: &Doc,
    routes: &RouteList,
    task: &mut Task,
    conn: u32,
) -> Result<(), AllocError>
    requires ready { IsReady task.old }
    requires routes { routes.now.items ≡ routes_of doc.now }
    ensures { OnOk result (Works doc.now task.old task.new) }
{
    let Some(route) = routes.get(conn as usize).copied() else {
        return Ok(());
    };
    if route.host != task.host {
        return Ok(());
    }
    turns(gate, doc, task, conn, route)
}

/// What the first so many connections do, as far as they lead to the host.
#[tactic(auto, using(crate::proofs::Works::works_then, crate::proofs::Works::works_none))]
fn all_turns<G: Gate>(
    gate: &G,
    doc: &Doc,
    routes: &RouteList,
    task: &mut Task,
    conns: u32,
) -> Result<(), AllocError>
    requires ready { IsReady task.old }
    requires routes { routes.now.items ≡ routes_of doc.now }
    ensures { OnOk result (Works doc.now task.old task.new) }
{
    for conn in 0..conns {
        turns_here(gate, doc, routes, task, conn)?;
    }
    Ok(())
}

/// How many processes and lanes the host at a place has.
fn actors(doc: &Doc, host: u32) -> (u32, u32) {
    match doc.hosts.get(host as usize) {
        Some(spec) => (
            u32::try_from(spec.procs.len()).unwrap_or(u32::MAX),
            u32::try_from(spec.lanes.len()).unwrap_or(u32::MAX),
        ),
        None => (0, 0),
    }
}

/// What a host does in a phase: each process, each lane and each connection makes some events, until one changes nothing.
#[tactic(auto, using(crate::proofs::Works::works_then, crate::proofs::Works::works_none))]
fn work_through<G: Gate>(
    gate: &G,
    doc: &Doc,
    routes: &RouteList,
    conns: u32,
    task: &mut Task,
) -> Result<(), AllocError>
    requires ready { IsReady task.old }
    requires routes { routes.now.items ≡ routes_of doc.now }
    ensures { OnOk result (Works doc.now task.old task.new) }
{
    let (procs, lanes) = actors(doc, task.host);
    all_turns(gate, doc, routes, task, conns)?;
    all_steps(gate, doc, task, procs)?;
    all_frames(doc, task, lanes)?;
    Ok(())
}

/// What a host does in a phase, with a note where memory ran out.
pub(crate) fn work<G: Gate>(gate: &G, doc: &Doc, routes: &RouteList, conns: u32, task: &mut Task)
    requires ready { IsReady task.old }
    requires routes { routes.now.items ≡ routes_of doc.now }
    ensures { task.new.fault ≡ false → Works doc.now task.old task.new }
{
    if work_through(gate, doc, routes, conns, task).is_err() {
        task.fault = true;
    }
}
