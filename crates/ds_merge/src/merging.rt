//! Merging.

ghost use Rattle.std.specs.Prelude.{◌≡◌, All, IfOk, IfErr, OnOk, option_copied, unwrap_or};
ghost use Rattle.ds_merge.specs.declared.kept.Kept.{Kept as KeptValue};
ghost use Rattle.ds_merge.specs.declared.recorded.Recorded.{Recorded as RecordedValue};
ghost use Rattle.ds_merge.specs.declared.merging.MergeFault.TheVariants.{NoMemory as OutOfMemory};
ghost use Rattle.ds_merge.specs.Order.{merged as merged_list};
ghost use Rattle.ds_merge.specs.Tables.{Finds, IsPlace, events_of, seen};
ghost use Rattle.ds_merge.specs.Walk.{Faults, Matches, run, waiting, no_actor, no_entry, no_event, IsPair};

use crate::index::HistoryIndex;
use crate::kept::{Kept, ObjectName};
use crate::machine::Machine;
use crate::order::{EventPlace, event_at, merged};
use crate::recorded::Recorded;
use crate::records::{ActorRecord, History};
use crate::tables::Tables;
use crate::walking::{first_left, walk};
use ds_script::{Actor, ActorKind};
use ds_wire::Bytes;
use std::alloc::{AllocError, Global};
use thiserror::Error;

/// Why histories and records aren't one run.
#[derive(Debug, Drop, Error)]
pub enum MergeFault {
    /// The walk stops at this entry and this event. At an event the entry is the first one that isn't taken of the object that
    /// the event touched; past the last event it is the first one left, in the order of the histories. One that isn't there has
    /// stamp 0, and all else of it is 0 or empty.
    #[error("strange")]
    Strange(Kept, Recorded),
    /// Memory ran out.
    #[error("out of memory")]
    NoMemory,
}

impl From<AllocError> for MergeFault {
    ghost use Rattle.ds_merge.specs.declared.merging.MergeFault.TheVariants.{NoMemory};

    ghost from_gives = { λ _ e. e ≡ NoMemory };

    fn from(_fault: AllocError) -> MergeFault {
        MergeFault::NoMemory
    }
}

/// Merges the records into one list of events, walks over it with the machine, and answers the events' places where the walk goes
/// past every event and no entry is left; the machine is then the one after all events. Each event's stamp has to be above its
/// actor's last one, and above its object's last one where it touched an object; the object's next entry has to be the recorded
/// one, with the event's stamp and actor; and the machine's step has to change something and to give the recorded entry and answer.
///
/// `MergeFault::Strange` with the pair at which the walk stops, exactly where it does; `MergeFault::NoMemory` where memory runs out.
pub fn merge<M: Machine>(
    alloc: Global,
    machine: &mut M,
    histories: &[History],
    records: &[ActorRecord],
) -> Result<Vec<EventPlace>, MergeFault>
    ensures list { IfOk result (λ v. events_of records.now v.items ≡ merged_list records.now) }
    ensures places { IfOk result (λ v. All (IsPlace records.now) v.items) }
    ensures matches { OnOk result (Matches M.after M.moves M.entry M.answer machine.old histories.now (merged_list records.now)) }
    ensures runs { OnOk result (machine.new ≡ run M.after M.moves M.entry M.answer machine.old (merged_list records.now)) }
    ensures strange { IfErr result (λ f. Faults M.after M.moves M.entry M.answer machine.old histories.now (merged_list records.now) f) }
    ensures exact { IfErr result (λ f.
        Matches M.after M.moves M.entry M.answer machine.old histories.now (merged_list records.now) → f ≡ OutOfMemory) }
{
    let places = merged(alloc, records)?;
    judge(alloc, machine, histories, records, places.as_slice())?;
    Ok(places)
}

/// Walks over the events at the places, and answers the pair at which the walk stops.
fn judge<M: Machine>(
    alloc: Global,
    machine: &mut M,
    histories: &[History],
    records: &[ActorRecord],
    places: &[EventPlace],
) -> Result<(), MergeFault>
    requires { All (IsPlace records.now) places.now }
    ensures matches { OnOk result (Matches M.after M.moves M.entry M.answer machine.old histories.now (events_of records.now places.now)) }
    ensures runs { OnOk result (machine.new ≡ run M.after M.moves M.entry M.answer machine.old (events_of records.now places.now)) }
    ensures strange { IfErr result (λ f. Faults M.after M.moves M.entry M.answer machine.old histories.now (events_of records.now places.now) f) }
{
    let index = HistoryIndex::new(alloc, histories)?;
    let mut tables = Tables::new(alloc);
    let stop = walk(machine, histories, records, places, &index, &mut tables)?;
    match stop {
        Some(at) => {
            let place = &places[at];
            let event = event_at(records, place);
            Err(strange_at(alloc, histories, &index, &tables, event))
        }
        None => match first_left(histories, &tables) {
            None => Ok(()),
            Some(kept) => Err(strange_past(alloc, kept)),
        },
    }
}

/// The event, and the entry that comes next of the object that it touched.
fn strange_at(
    alloc: Global,
    histories: &[History],
    index: &HistoryIndex,
    tables: &Tables,
    event: &Recorded,
) -> MergeFault
    requires { Finds index.now.places histories.now histories.now }
    ensures { IsPair (unwrap_or (waiting histories.now (seen tables.now) event.now) no_entry) event.now result }
{
    match next_for(histories, index, tables, event) {
        None => pair_or_fault(Ok(no_entry_of(alloc)), event.copy()),
        Some(kept) => pair_or_fault(kept.copy(), event.copy()),
    }
}

/// The entry that comes next of the object that the event touched.
fn next_for<'a>(
    histories: &'a [History],
    index: &HistoryIndex,
    tables: &Tables,
    event: &Recorded,
) -> Option<&'a Kept>
    requires { Finds index.now.places histories.now histories.now }
    ensures { option_copied result ≡ waiting histories.now (seen tables.now) event.now }
{
    match &event.touched {
        None => None,
        Some(kept) => index.next(histories, tables, kept.object),
    }
}

/// No event, and the first entry left.
fn strange_past(alloc: Global, kept: &Kept) -> MergeFault
    ensures { IsPair kept.now no_event result }
{
    pair_or_fault(kept.copy(), Ok(no_event_of(alloc)))
}

/// The pair, or that memory ran out.
fn pair_or_fault(kept: Result<Kept, AllocError>, event: Result<Recorded, AllocError>) -> MergeFault
    ensures { (x : KeptValue) (e : RecordedValue) → IfOk kept (λ k. k ≡ x) → IfOk event (λ r. r ≡ e) → IsPair x e result }
{
    match (kept, event) {
        (Ok(kept), Ok(event)) => MergeFault::Strange(kept, event),
        _ => MergeFault::NoMemory,
    }
}

/// The actor of what isn't there.
fn no_actor_of() -> Actor
    ensures { result ≡ no_actor }
{
    Actor {
        kind: ActorKind::Clock,
        host: 0,
        index: 0,
    }
}

/// An entry that isn't there. Takes no memory.
fn no_entry_of(alloc: Global) -> Kept
    ensures { result ≡ no_entry }
{
    Kept {
        object: ObjectName {
            host: 0,
            kind: 0,
            id: 0,
        },
        stamp: 0,
        who: no_actor_of(),
        act: 0,
        body: Bytes::new(alloc),
    }
}

/// An event that isn't there. Takes no memory.
fn no_event_of(alloc: Global) -> Recorded
    ensures { result ≡ no_event }
{
    Recorded {
        who: no_actor_of(),
        stamp: 0,
        act: 0,
        body: Bytes::new(alloc),
        touched: None,
        given: Bytes::new(alloc),
    }
}
