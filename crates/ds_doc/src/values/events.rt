//! Events.

ghost use Rattle.std.specs.Prelude.{◌≡◌, map, option_map, IfOk};
ghost use Rattle.ds_doc.specs.Values as values;

use crate::draft::DraftEvent;
use ds_plan::{Event, EventList, PartList};
use std::alloc::{AllocError, Global};

#[tactic(auto, unfolding(crate::specs::Values::happening))]
fn event_of(event: &DraftEvent) -> Result<Event, AllocError>
    ensures { IfOk result (λ e. e ≡ values.happening event.now) }
{
    Ok(match event {
        DraftEvent::Step { host, index } => Event::Step {
            host: host.value.number(),
            index: index.value,
        },
        DraftEvent::Frame { host, lane } => Event::Frame {
            host: host.value.number(),
            lane: lane.value,
        },
        DraftEvent::Arrive { conn, count } => Event::Arrive {
            conn: conn.value,
            count: *count,
        },
        DraftEvent::Accept { conn } => Event::Accept { conn: conn.value },
        DraftEvent::Deliver { conn } => Event::Deliver { conn: conn.value },
        DraftEvent::Tick { host, to } => Event::Tick {
            host: host.value.number(),
            to: *to,
        },
        DraftEvent::Inject { conn, bytes } => Event::Inject {
            conn: conn.value,
            bytes: bytes.copy()?,
        },
        DraftEvent::CopyBytes {
            conn,
            source,
            from,
            until,
        } => Event::CopyBytes {
            conn: conn.value,
            source: source.value,
            from: *from,
            until: *until,
        },
    })
}

fn events_of(alloc: Global, events: &[DraftEvent]) -> Result<EventList, AllocError>
    ensures { IfOk result (λ l. l ≡ map values.happening events.now) }
{
    let mut list = EventList::new(alloc);
    for event in events {
        list.push(event_of(event)?)?;
    }
    Ok(list)
}

pub(crate) fn given_events(
    alloc: Global,
    events: &Option<PartList<DraftEvent>>,
) -> Result<Option<EventList>, AllocError>
    ensures { IfOk result (λ e. e ≡ option_map (map values.happening) events.now) }
{
    match events {
        Some(events) => Ok(Some(events_of(alloc, events.as_slice())?)),
        None => Ok(None),
    }
}
