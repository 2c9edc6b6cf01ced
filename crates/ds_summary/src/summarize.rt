//! From a document to the summary of its run.

ghost use Rattle.std.specs.Prelude.{◌≡◌, ◌++◌, [], ℕ, List, None, IfOk, flat_map, map};
ghost use Rattle.ds_plan.specs.Documents.{IsDocument};
ghost use Rattle.ds_hosts.specs.Nodes.{node_of};
ghost use Rattle.ds_sim.specs.Sims.{text_now};
ghost use Rattle.ds_summary.specs.Counts.{count, world_counts};
ghost use Rattle.ds_summary.specs.Parts.{SameCounts, world_part};
ghost use Rattle.ds_summary.specs.Summaries.{summary};
ghost use Rattle.ds_summary.specs.Runs.{IsSummaryOf};
ghost use Rattle.ds_world.specs.Worlds.{world_of};

use crate::connections::push_routes;
use crate::counted::Counted;
use crate::parts::push_nodes;
use crate::writing::written;
use ds_plan::Doc;
use ds_report::text;
use ds_sim::setup;
use ds_world::World;
use std::alloc::{AllocError, Global};

/// What the entries and notes of a run are counted as, in the order in which hosts keep them.
fn all_parts(alloc: Global, world: &World) -> Result<Vec<Counted>, AllocError>
    ensures { IfOk result (λ all. all.items ≡ world_part world.now) }
{
    let nodes = world.nodes().as_slice();
    let mut all = Vec::new(alloc);
    push_nodes(&mut all, nodes)?;
    push_routes(&mut all, nodes, world.routes().as_slice())?;
    Ok(all)
}

/// What they are counted as. `AllocError` where memory runs out.
fn all_counts(alloc: Global, world: &World) -> Result<Vec<Counted>, AllocError>
    ensures { IfOk result (λ all. count all.items ≡ count (world_counts (world_of world.now))) }
{
    all_parts(alloc, world)
}

/// The text of a run as it stands.
fn text_of(alloc: Global, world: &World) -> Result<Vec<u8>, AllocError>
    ensures { IfOk result (λ made. made.items ≡ text_now world.now) }
{
    text(alloc, world)
}

/// The summary of a run as it stands, with so many events.
fn summary_of(
    alloc: Global,
    number: u32,
    events: usize,
    world: &World,
) -> Result<Vec<u8>, AllocError>
    ensures { IfOk result (λ made. made.items ≡ summary number events (count (world_counts (world_of world.now))) (text_now world.now)) }
{
    let all = all_counts(alloc, world)?;
    let text = text_of(alloc, world)?;
    written(alloc, number, events, all.as_slice(), text.as_slice())
}

/// The summary of the run of a document without events, by the canonical schedule, under a number. `AllocError` where memory runs
/// out.
pub fn run_summary(alloc: Global, number: u32, doc: Doc) -> Result<Vec<u8>, AllocError>
    requires document { IsDocument doc }
    requires events { doc.events ≡ None }
    ensures { IfOk result (λ made. IsSummaryOf number doc made.items) }
{
    let budget = doc.budget;
    let mut world = setup(alloc, doc)?;
    let events = world.canonical(budget)?;
    summary_of(alloc, number, events.len(), &world)
}
