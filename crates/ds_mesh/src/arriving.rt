//! Bytes on their way, between phases.
#![tactic(auto)]

ghost use Rattle.std.specs.Prelude.{◌≡◌, ◌<◌, ◌≤◌, ◌^◌, length, OnOk};
ghost use Rattle.ds_mesh.specs.Phases.{Went};

use ds_plan::Event;
use ds_world::World;
use std::alloc::AllocError;

/// What is left of its stream comes to the connection with that number, if anything is, and if there may be an event more.
#[tactic(auto, using(crate::proofs::Phases::went_none))]
fn arrive(
    world: &mut World,
    events: &mut Vec<Event>,
    budget: u32,
    conn: u32,
) -> Result<(), AllocError>
    requires counted { world.old.count ≡ length events.old.items }
    requires few { length events.old.items ≤ budget }
    ensures went { OnOk result (Went world.old world.new events.old.items events.new.items) }
    ensures few { OnOk result (length events.new.items ≤ budget) }
{
    if events.len() >= budget as usize {
        world.fit();
        return Ok(());
    }
    let count = world.bytes_left(conn);
    if count == 0 {
        world.fit();
        return Ok(());
    }
    world.hands();
    let event = Event::Arrive { conn, count };
    world.apply(&event)?;
    events.push(event)?;
    world.hands();
    world.fit();
    Ok(())
}

/// What is left of its stream comes to each connection. `AllocError` where memory runs out.
#[tactic(auto, using(crate::proofs::Phases::went_then, crate::proofs::Phases::went_none, crate::proofs::Phases::went_count))]
pub(crate) fn arrive_all(
    world: &mut World,
    events: &mut Vec<Event>,
    budget: u32,
) -> Result<(), AllocError>
    requires counted { world.old.count ≡ length events.old.items }
    requires few { length events.old.items ≤ budget }
    ensures went { OnOk result (Went world.old world.new events.old.items events.new.items) }
    ensures few { OnOk result (length events.new.items ≤ budget) }
{
    world.fit();
    let conns = world.conns()?;
    for conn in 0..conns {
        arrive(world, events, budget, conn)?;
    }
    Ok(())
}
