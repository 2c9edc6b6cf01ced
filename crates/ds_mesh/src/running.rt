//! A run in threads.
#![tactic(auto)]

ghost use Rattle.std.specs.Prelude.{◌≡◌, ◌≤◌, length, IfOk, OnOk};
ghost use Rattle.ds_mesh.specs.Phases.{Went};
ghost use Rattle.ds_mesh.specs.Runs.{RanTo};

use crate::arriving::arrive_all;
use crate::phase::phase;
use crate::settling::settle;
use ds_base::Gate;
use ds_plan::Event;
use ds_world::World;
use std::alloc::AllocError;
use std::thread::Threads;

/// Most hosts of a document.
const HOSTS: u32 = 16;

/// Phases, and the streams' bytes after each, until one does nothing or few events more may come. `AllocError` where memory runs
/// out.
#[tactic(auto, using(crate::proofs::Phases::went_then, crate::proofs::Phases::went_none, crate::proofs::Phases::went_count))]
fn phases<R: Threads + Sync, G: Gate + Sync>(
    rt: &R,
    gate: &G,
    world: World,
    events: &mut Vec<Event>,
    budget: u32,
) -> Result<World, AllocError>
    requires hosts { length world.doc.hosts ≤ 16 }
    requires counted { world.count ≡ length events.old.items }
    requires few { length events.old.items ≤ budget }
    ensures went { IfOk result (λ after. Went world after events.old.items events.new.items) }
    ensures few { OnOk result (length events.new.items ≤ budget) }
{
    let mut world = world;
    world.fit();
    for _ in 0..budget {
        let before = events.len();
        let share = (budget - before as u32) / HOSTS;
        if share == 0 {
            return Ok(world);
        }
        world = phase(rt, gate, world, share, events)?;
        arrive_all(&mut world, events, budget)?;
        if events.len() == before {
            return Ok(world);
        }
    }
    Ok(world)
}

/// A run in threads: the world, and the events by which it came there.
#[derive(Drop)]
pub struct Ran {
    /// The world at the end.
    pub world: World,
    /// The events, in an order in which they lead there.
    pub events: Vec<Event>,
}

/// Lets all hosts run at once, each in a thread of its own where one can be made, phase by phase; after each phase the bytes of each
/// stream come to its connection. It goes on until nothing is left to do or there are `budget` events. A gate is passed before a
/// message is put into a mailbox. `AllocError` where memory runs out.
pub fn run_in_threads<R: Threads + Sync, G: Gate + Sync>(
    rt: &R,
    gate: &G,
    world: World,
    budget: u32,
) -> Result<Ran, AllocError>
    requires hosts { length world.doc.hosts ≤ 16 }
    requires first { world.count ≡ 0 }
    ensures { IfOk result (λ ran. RanTo budget world ran.world ran.events.items) }
{
    let mut events = Vec::new(world.memory());
    let mut world = phases(rt, gate, world, &mut events, budget)?;
    settle(&mut world, &mut events, budget)?;
    Ok(Ran { world, events })
}
