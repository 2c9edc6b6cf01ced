//! The order of the merged events.

ghost use Rattle.std.specs.Prelude.{◌≡◌, ◌<◌, ◌++◌, All, IfOk, OnOk, Some, length, slice_get};
ghost use Rattle.ds_merge.specs.declared.records.ActorRecord.{ActorRecord as RecordValue};
ghost use Rattle.std.specs.List.Sorted.{IsPermutation, IsSortedByKey, IsStableByKey};
ghost use Rattle.ds_merge.specs.declared.order.EventPlace.{EventPlace as Place};
ghost use Rattle.ds_merge.specs.Order.{key_cmp, all_events, merged as merged_list};
ghost use Rattle.ds_merge.specs.Tables.{event_of, events_of, IsPlace};

use crate::recorded::Recorded;
use crate::records::ActorRecord;
use ds_script::Actor;
use std::alloc::{AllocError, Global};

/// By what events are ordered: by stamp, then by actor.
#[derive(Clone, Copy, Debug, PartialEq, Eq, PartialOrd, Ord)]
pub struct EventKey {
    /// The event's stamp.
    pub stamp: u64,
    /// The event's actor.
    pub who: Actor,
}

/// Where an event stands.
#[derive(Clone, Copy, Debug)]
pub struct EventPlace {
    /// The event's stamp and actor.
    pub key: EventKey,
    /// The record's place among the records.
    pub record_place: usize,
    /// The event's place in the record.
    pub at: usize,
}

/// The event at the place.
pub fn event_at<'a>(records: &'a [ActorRecord], place: &EventPlace) -> &'a Recorded
    requires { IsPlace records.now place.now }
    ensures { result.now ≡ event_of records.now place.now }
{
    let Some(record) = records.get(place.record_place) else {
        unreachable!();
    };
    let Some(event) = record.events.as_slice().get(place.at) else {
        unreachable!();
    };
    event
}

/// The places of all events of the records: by stamp and actor, and in their record's order where both are equal.
/// `AllocError` where memory runs out.
pub fn merged(alloc: Global, records: &[ActorRecord]) -> Result<Vec<EventPlace>, AllocError>
    ensures list { IfOk result (λ v. events_of records.now v.items ≡ merged_list records.now) }
    ensures places { IfOk result (λ v. All (IsPlace records.now) v.items) }
{
    let mut places = places_of(alloc, records)?;
    sort_places(&mut places)?;
    Ok(places)
}

/// Sorts places by their keys. Those with one key keep their order.
fn sort_places(places: &mut Vec<EventPlace>) -> Result<(), AllocError>
    ensures sorted { OnOk result (IsSortedByKey (λ (p : Place). p.key) key_cmp places.new.items) }
    ensures stable { OnOk result (IsStableByKey (λ (p : Place). p.key) key_cmp places.old.items places.new.items) }
    ensures all { OnOk result (IsPermutation places.old.items places.new.items) }
{
    let sorted = places.sort_by_key(|place| place.key);
    match sorted {
        Ok(()) => Ok(()),
        Err(fault) => Err(fault),
    }
}

/// The places of all events, one record after another.
fn places_of(alloc: Global, records: &[ActorRecord]) -> Result<Vec<EventPlace>, AllocError>
    ensures list { IfOk result (λ v. events_of records.now v.items ≡ all_events records.now) }
    ensures places { IfOk result (λ v. All (IsPlace records.now) v.items) }
{
    let mut places = Vec::new(alloc);
    for record_place in 0..records.len() {
        push_places(records, record_place, &mut places)?;
    }
    Ok(places)
}

/// Appends the places of one record's events.
fn push_places(
    records: &[ActorRecord],
    record_place: usize,
    places: &mut Vec<EventPlace>,
) -> Result<(), AllocError>
    requires inside { record_place < length records.now }
    requires places { All (IsPlace records.now) places.old.items }
    ensures list { OnOk result ((r : RecordValue) → slice_get records.now record_place ≡ Some r
        → events_of records.now places.new.items ≡ events_of records.now places.old.items ++ r.events.items) }
    ensures places { OnOk result (All (IsPlace records.now) places.new.items) }
{
    let events = records[record_place].events.as_slice();
    for at in 0..events.len() {
        let event = &events[at];
        let key = EventKey {
            stamp: event.stamp,
            who: event.who,
        };
        places.push(EventPlace {
            key,
            record_place,
            at,
        })?;
    }
    Ok(())
}
