//! The end of a run: what no phase did.
#![tactic(auto)]

ghost use Rattle.std.specs.Prelude.{◌≡◌, ◌⊎◌, ◌+◌, ◌<◌, ◌≤◌, ◌^◌, ◌++◌, false, length, IfOk, OnOk, IsTrue};
ghost use Rattle.ds_mesh.specs.Phases.{IsAtRest, Went};

use ds_plan::Event;
use ds_world::World;
use std::alloc::AllocError;

/// An event as it stands in a schedule.
fn copy(event: &Event) -> Result<Event, AllocError>
    ensures { IfOk result (λ copy. copy ≡ event.now) }
{
    Ok(match event {
        Event::Step { host, index } => Event::Step {
            host: *host,
            index: *index,
        },
        Event::Frame { host, lane } => Event::Frame {
            host: *host,
            lane: *lane,
        },
        Event::Arrive { conn, count } => Event::Arrive {
            conn: *conn,
            count: *count,
        },
        Event::Accept { conn } => Event::Accept { conn: *conn },
        Event::Deliver { conn } => Event::Deliver { conn: *conn },
        Event::Tick { host, to } => Event::Tick {
            host: *host,
            to: *to,
        },
        Event::Inject { conn, bytes } => Event::Inject {
            conn: *conn,
            bytes: bytes.copy()?,
        },
        Event::CopyBytes {
            conn,
            source,
            from,
            until,
        } => Event::CopyBytes {
            conn: *conn,
            source: *source,
            from: *from,
            until: *until,
        },
    })
}

/// Appends copies of events. `AllocError` where memory runs out.
fn append(events: &mut Vec<Event>, more: &[Event]) -> Result<(), AllocError>
    ensures { OnOk result (events.new.items ≡ events.old.items ++ more.now) }
{
    for event in more {
        events.push(copy(event)?)?;
    }
    Ok(())
}

/// The canonical schedule from here, whose events are appended; it says whether it has none.
fn go_on(world: &mut World, events: &mut Vec<Event>, left: u32) -> Result<bool, AllocError>
    requires counted { world.old.count ≡ length events.old.items }
    requires few { length events.old.items + left < 2 ^ 64 }
    requires some { 0 < left }
    ensures went { OnOk result (Went world.old world.new events.old.items events.new.items) }
    ensures few { OnOk result (length events.new.items ≤ length events.old.items + left) }
    ensures rest { IfOk result (λ none. IsTrue none → (IsAtRest world.new × (events.new.items ≡ events.old.items))) }
    ensures more { IfOk result (λ none. none ≡ false → length events.old.items < length events.new.items) }
{
    let more = world.canonical(left)?;
    world.fit();
    append(events, more.as_slice())?;
    Ok(more.is_empty())
}

/// Goes on by the canonical schedule until it has no event more, or until there are `budget` events. `AllocError` where memory
/// runs out.
#[tactic(auto, using(crate::proofs::Phases::went_then, crate::proofs::Phases::went_none, crate::proofs::Phases::went_count))]
pub(crate) fn settle(
    world: &mut World,
    events: &mut Vec<Event>,
    budget: u32,
) -> Result<(), AllocError>
    requires counted { world.old.count ≡ length events.old.items }
    requires few { length events.old.items ≤ budget }
    ensures went { OnOk result (Went world.old world.new events.old.items events.new.items) }
    ensures few { OnOk result (length events.new.items ≤ budget) }
    ensures ends { OnOk result ((length events.new.items ≡ budget) ⊎ IsAtRest world.new) }
{
    world.fit();
    for _ in 0..u64::from(budget) + 1 {
        let left = budget - events.len() as u32;
        if left == 0 {
            return Ok(());
        }
        if go_on(world, events, left)? {
            return Ok(());
        }
    }
    unreachable!()
}
