//! Events that a host tries by itself.
#![tactic(auto)]

ghost use Rattle.std.specs.Prelude.{◌≡◌, ◌+◌, ◌-◌, ◌<◌, ◌^◌, ◌++◌, ◌∷◌, [], Some, slice_get, OnOk};
ghost use Rattle.ds_world.specs.Worlds.{routes_of};
ghost use Rattle.ds_mesh.specs.Workings.{IsReady, Works};

use crate::task::Task;
use ds_exporter::Moved;
use ds_plan::{Doc, Event};
use ds_world::Route;
use std::alloc::AllocError;

/// Keeps an event that was made.
fn keep(task: &mut Task, event: Event) -> Result<(), AllocError>
    requires left { 0 < task.old.left }
    requires room { task.old.stamp + task.old.left < 2 ^ 64 }
    ensures rest { OnOk result ((task.new.host ≡ task.old.host) × (task.new.node ≡ task.old.node)) }
    ensures counts { OnOk result ((task.new.stamp ≡ task.old.stamp + 1) × (task.new.left ≡ task.old.left - 1)) }
    ensures events { OnOk result (task.new.events.items ≡ task.old.events.items ++ event ∷ []) }
{
    task.events.push(event)?;
    task.stamp += 1;
    task.left -= 1;
    Ok(())
}

/// A step of a process; it says whether it changed anything.
#[tactic(auto, using(crate::proofs::Works::works_none))]
pub(crate) fn step(doc: &Doc, task: &mut Task, index: u32) -> Result<bool, AllocError>
    requires { IsReady task.old }
    ensures { OnOk result (Works doc.now task.old task.new) }
{
    if task.left == 0 {
        return Ok(false);
    }
    match task.node.step(task.stamp + 1, index)? {
        Moved::Still => Ok(false),
        Moved::Changed => {
            task.node.hands();
            let host = task.host;
            keep(task, Event::Step { host, index })?;
            Ok(true)
        }
    }
}

/// A frame of a lane, by its number, from 1; it says whether it changed anything.
#[tactic(auto, using(crate::proofs::Works::works_none))]
pub(crate) fn frame(doc: &Doc, task: &mut Task, lane: u32) -> Result<bool, AllocError>
    requires { IsReady task.old }
    ensures { OnOk result (Works doc.now task.old task.new) }
{
    if task.left == 0 {
        return Ok(false);
    }
    match task.node.frame(task.stamp + 1, lane)? {
        Moved::Still => Ok(false),
        Moved::Changed => {
            task.node.hands();
            let host = task.host;
            keep(task, Event::Frame { host, lane })?;
            Ok(true)
        }
    }
}

/// The connection with that number, which leads to the host, accepts; it says whether that changed anything.
#[tactic(auto, using(crate::proofs::Works::works_none))]
pub(crate) fn accept(
    doc: &Doc,
    task: &mut Task,
    conn: u32,
    route: Route,
) -> Result<bool, AllocError>
    requires ready { IsReady task.old }
    requires route { slice_get (routes_of doc.now) conn ≡ Some route }
    requires host { route.host ≡ task.old.host }
    ensures { OnOk result (Works doc.now task.old task.new) }
{
    if task.left == 0 {
        return Ok(false);
    }
    match task.node.accept(task.stamp + 1, route.place)? {
        Moved::Still => Ok(false),
        Moved::Changed => {
            task.node.hands();
            keep(task, Event::Accept { conn })?;
            Ok(true)
        }
    }
}

/// The connection with that number, which leads to the host, delivers; it says whether that changed anything.
#[tactic(auto, using(crate::proofs::Works::works_none))]
pub(crate) fn deliver(
    doc: &Doc,
    task: &mut Task,
    conn: u32,
    route: Route,
) -> Result<bool, AllocError>
    requires ready { IsReady task.old }
    requires route { slice_get (routes_of doc.now) conn ≡ Some route }
    requires host { route.host ≡ task.old.host }
    ensures { OnOk result (Works doc.now task.old task.new) }
{
    if task.left == 0 {
        return Ok(false);
    }
    match task.node.deliver(task.stamp + 1, route.place)? {
        Moved::Still => Ok(false),
        Moved::Changed => {
            task.node.hands();
            keep(task, Event::Deliver { conn })?;
            Ok(true)
        }
    }
}
