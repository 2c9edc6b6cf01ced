//! Two runs, each of a document by events, and what an actor sees at their ends.
#![tactic(auto)]

ghost use Rattle.std.specs.Prelude.{◌≡◌, true, List, Option, Some, IfOk, map};
ghost use Rattle.ds_label.specs.Names.{is_secrecy};
ghost use Rattle.ds_plan.specs.Documents.{IsDocument};
ghost use Rattle.ds_setup.specs.Plans.{plan_of};
ghost use Rattle.ds_setup.specs.Events.{meant};
ghost use Rattle.ds_law.specs.TwoDocuments.{Both, end_of};
ghost use Rattle.ds_world.specs.Worlds.{IsFresh, world_of};
ghost use Rattle.ds_sim.specs.Sims.{without_events};
ghost use Rattle.ds_views.specs.Views.{HasActor, IsOutside, view_of};

use crate::actor_view::View;
use crate::copying::copy_without_events;
use crate::seeing::view;
use ds_label::Category;
use ds_plan::{Doc, EventList, HostSet};
use ds_script::Actor;
use ds_sim::setup;
use ds_world::World;
use std::alloc::{AllocError, Global};

/// The run of a document by these events, to its end. `AllocError` where memory runs out.
fn run_of(alloc: Global, doc: &Doc, events: &EventList) -> Result<World, AllocError>
    requires { IsDocument doc.now }
    ensures doc { IfOk result (λ world. world.doc ≡ without_events doc.now) }
    ensures end { IfOk result (λ world. world_of world ≡ end_of doc.now (map meant events.now)) }
{
    // No list has 2^64 events.
    let _count = events.len();
    let copy = copy_without_events(alloc, doc)?;
    let mut world = setup(alloc, copy)?;
    world.run(events)?;
    Ok(world)
}

/// What an actor sees at the end of the run of a world's document by these events. `AllocError` where memory runs out.
fn view_at_end(world: &World, events: &EventList, actor: &Actor) -> Result<View, AllocError>
    requires fresh { IsFresh world.now }
    requires there { HasActor (world_of world.now) actor.now }
    ensures { IfOk result (λ v. view_of (plan_of world.now.doc) (end_of world.now.doc (map meant events.now)) actor.now ≡ Some v) }
{
    world.fit();
    let alloc = *world.nodes().allocator();
    let end = run_of(alloc, world.doc(), events)?;
    end.fit();
    view(&end, actor)
}

/// Sets up two documents, those of two worlds that are as setup left them, runs each by its events, and gives what the actor sees at
/// both ends. It needs that both worlds have the actor, of the kind `Proc` or `Clock`, and that the category is one of secrecy.
///
/// Where the documents agree but for what is high for the category, the observations of both runs are equal, the trusted hosts obey
/// and nothing is forged, both views are equal for each actor outside: a process that isn't high at the end of the first run, or the
/// clock of a host that isn't trusted.
///
/// `AllocError` where memory runs out.
pub fn two_runs(
    first: &World,
    one: &EventList,
    second: &World,
    two: &EventList,
    trusted: &HostSet,
    category: &Category,
    actor: &Actor,
) -> Result<(View, View), AllocError>
    requires secret { is_secrecy category.now.kind ≡ true }
    requires first_fresh { IsFresh first.now }
    requires second_fresh { IsFresh second.now }
    requires first_there { HasActor (world_of first.now) actor.now }
    requires second_there { HasActor (world_of second.now) actor.now }
    ensures first { IfOk result (λ v. view_of (plan_of first.now.doc) (end_of first.now.doc (map meant one.now)) actor.now ≡ Some v.0) }
    ensures second { IfOk result (λ v. view_of (plan_of second.now.doc) (end_of second.now.doc (map meant two.now)) actor.now ≡ Some v.1) }
    ensures same { IfOk result (λ v. Both category.now trusted.now first.now.doc (map meant one.now) second.now.doc (map meant two.now)
        → IsOutside category.now trusted.now (end_of first.now.doc (map meant one.now)) actor.now → v.0 ≡ v.1) }
{
    let seen_first = view_at_end(first, one, actor)?;
    let seen_second = view_at_end(second, two, actor)?;
    Ok((seen_first, seen_second))
}
