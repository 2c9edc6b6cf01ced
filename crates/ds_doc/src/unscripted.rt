//! Documents that list no events.

ghost use Rattle.std.specs.Prelude.{◌≡◌, map, IfOk};
ghost use Rattle.serde_json.specs.View.{view};
ghost use Rattle.ds_plan.specs.Documents.{IsDocument};
ghost use Rattle.ds_plan.specs.Keys.{identity_key};
ghost use Rattle.ds_doc.specs.Listing as listings;
ghost use Rattle.ds_doc.specs.Reading as readings;

use crate::document::read_value_at_once;
use crate::fault::DocFault;
use crate::spot::Spot;
use ds_plan::Doc;
use lms_sig::TreeKey;
use serde_json::Value;
use std::alloc::Global;
use std::thread::Threads;

/// The code of a document that keeps every rule but lists events where it may not.
const LISTED: u8 = 13;

/// The place of the events that a value lists.
fn events_place(value: &Value) -> Option<u32>
    ensures { result ≡ listings.events_at (view value.now) }
{
    let root = Spot { at: 0, value };
    match root.member("events") {
        Some(spot) => Some(spot.at),
        None => None,
    }
}

/// What a value says, unless it lists events, and the identity keys.
fn without_events<R: Threads + Sync>(
    rt: &R,
    alloc: Global,
    value: &Value,
) -> Result<(Doc, Vec<Option<TreeKey>>), DocFault>
    ensures answer { listings.AnswersOf (view value.now) (readings.first_of result) }
    ensures document { IfOk result (λ r. IsDocument r.0) }
    ensures keys { IfOk result (λ r. r.1.items ≡ map identity_key r.0.hosts) }
{
    let (doc, trees) = read_value_at_once(rt, alloc, value)?;
    if doc.events.is_none() {
        return Ok((doc, trees));
    }
    let Some(place) = events_place(value) else {
        unreachable!();
    };
    Err(DocFault::Refused(LISTED, place))
}

/// The document that the input says, which lists no events, and the identity key of each host, none of a silent one. Each key is made
/// once, all at once, each in a thread of its own where one can be made. `Refused` comes with the least code of a rule that the input
/// breaks and its least place; where it breaks none and lists events, with code 13 and the place of these.
pub fn read_without_events<R: Threads + Sync>(
    rt: &R,
    alloc: Global,
    input: &[u8],
) -> Result<(Doc, Vec<Option<TreeKey>>), DocFault>
    ensures answer { listings.AnswersWithoutEvents input.now (readings.first_of result) }
    ensures document { IfOk result (λ r. IsDocument r.0) }
    ensures keys { IfOk result (λ r. r.1.items ≡ map identity_key r.0.hosts) }
{
    match Value::from_slice(alloc, input) {
        Ok(value) => without_events(rt, alloc, &value),
        Err(error) => if error.is_memory() {
            Err(DocFault::NoMemory)
        } else {
            Err(DocFault::Refused(1, 0))
        },
    }
}
