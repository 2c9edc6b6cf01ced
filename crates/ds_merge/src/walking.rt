//! The walk over the merged list.

ghost use Rattle.std.specs.Prelude.{◌≡◌, ◌<◌, ◌↔◌, ℕ, All, IfOk, IsTrue, MatchBool, MatchOption, length, option_copied, take};
ghost use Rattle.ds_merge.specs.Standing.{standing};
ghost use Rattle.ds_merge.specs.Tables.{Finds, IsPlace, events_of, at_start, seen};
ghost use Rattle.ds_merge.specs.Walk.{Fits, Meets, Passes, Walked, first_left as left};

use crate::index::{HistoryIndex, next_entry};
use crate::kept::Kept;
use crate::machine::{Machine, agrees};
use crate::order::{EventPlace, event_at};
use crate::recorded::Recorded;
use crate::records::{ActorRecord, History};
use crate::tables::Tables;
use std::alloc::AllocError;

/// Whether the event is above its actor's last stamp, and meets its object's next entry where it touched one.
fn fits(histories: &[History], index: &HistoryIndex, tables: &Tables, event: &Recorded) -> bool
    requires { Finds index.now.places histories.now histories.now }
    ensures { IsTrue result ↔ Fits histories.now (seen tables.now) event.now }
{
    tables.actor_last(event.who) < event.stamp && meets(histories, index, tables, event)
}

/// Whether the event meets its object's next entry where it touched one.
fn meets(histories: &[History], index: &HistoryIndex, tables: &Tables, event: &Recorded) -> bool
    requires { Finds index.now.places histories.now histories.now }
    ensures { IsTrue result ↔ MatchOption event.now.touched (Unit {0}) (Meets histories.now (seen tables.now) event.now) }
{
    match &event.touched {
        None => true,
        Some(kept) => meets_entry(histories, index, tables, event, kept),
    }
}

/// Whether the entry is its object's next one, with the event's stamp and actor, above the object's last stamp.
fn meets_entry(
    histories: &[History],
    index: &HistoryIndex,
    tables: &Tables,
    event: &Recorded,
    kept: &Kept,
) -> bool
    requires { Finds index.now.places histories.now histories.now }
    ensures { IsTrue result ↔ Meets histories.now (seen tables.now) event.now kept.now }
{
    let Some(next) = index.next(histories, tables, kept.object) else {
        return false;
    };
    next.same(kept)
        && kept.stamp == event.stamp
        && kept.who == event.who
        && tables.object_last(kept.object) < event.stamp
}

/// One step of the walk: whether it goes past the event.
fn goes_past<M: Machine>(
    machine: &mut M,
    histories: &[History],
    index: &HistoryIndex,
    tables: &Tables,
    event: &Recorded,
) -> Result<bool, AllocError>
    requires { Finds index.now.places histories.now histories.now }
    ensures { IfOk result (λ b. MatchBool b
        (Passes M.after M.moves M.entry M.answer machine.old histories.now (seen tables.now) event.now × (machine.new ≡ M.after machine.old event.now))
        (¬ Passes M.after M.moves M.entry M.answer machine.old histories.now (seen tables.now) event.now)) }
{
    if !fits(histories, index, tables, event) {
        return Ok(false);
    }
    let outcome = machine.step(event)?;
    Ok(agrees(&outcome, event))
}

/// Walks over the events at the places, from where the machine stands and with nothing taken. None says that it went past all of
/// them; else it stopped at the event at the place. `AllocError` where memory runs out.
pub(crate) fn walk<M: Machine>(
    machine: &mut M,
    histories: &[History],
    records: &[ActorRecord],
    places: &[EventPlace],
    index: &HistoryIndex,
    tables: &mut Tables,
) -> Result<Option<usize>, AllocError>
    requires finds { Finds index.now.places histories.now histories.now }
    requires places { All (IsPlace records.now) places.now }
    requires fresh { seen tables.old ≡ at_start }
    ensures { IfOk result (λ stop. Walked M.after M.moves M.entry M.answer
        machine.old histories.now (events_of records.now places.now) stop machine.new (seen tables.new)) }
{
    for at in 0..places.len() {
        let place = &places[at];
        let event = event_at(records, place);
        if !goes_past(machine, histories, index, tables, event)? {
            return Ok(Some(at));
        }
        tables.take(event)?;
    }
    Ok(None)
}

/// The first entry left, in the order of the histories.
pub(crate) fn first_left<'a>(histories: &'a [History], tables: &Tables) -> Option<&'a Kept>
    ensures { option_copied result ≡ left histories.now (seen tables.now) }
{
    for history in histories {
        if let Some(kept) = next_entry(tables, history) {
            return Some(kept);
        }
    }
    None
}
