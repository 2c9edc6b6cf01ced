//! What a host's shared objects entered, spelled.

ghost use Rattle.std.specs.Prelude.{◌≡◌, ◌+◌, [], ◌∷◌, map, All, IfOk, OnOk};
ghost use Rattle.ds_share.specs.Entries.{AreRising};
ghost use Rattle.ds_turn.specs.Records.{box_name, desk_name, inlet_name, lane_name};
ghost use Rattle.ds_crew.specs.Histories.{HasMore, IsHistory, SpellsKind, kept_as, names_of_boxes, names_of_inlets, names_of_lanes, object_in, objects_of};

use ds_merge::{History, Kept, ObjectName};
use ds_share::{SharedDesk, SharedLane, SpelledEntry};
use ds_turn::{BoxSeat, InletSeat, Node};
use std::alloc::{AllocError, Global};
use std::sync::Wait;

/// The kinds of objects, as names have them.
const DESK: u8 = 1;

const MAILBOX: u8 = 2;

const LANE: u8 = 3;

const INLET: u8 = 4;

/// An entry of that object. It takes no memory.
fn kept_as(object: ObjectName, entry: SpelledEntry) -> Kept
    ensures { result ≡ kept_as object entry }
{
    let SpelledEntry {
        stamp,
        who,
        act,
        body,
    } = entry;
    Kept {
        object,
        stamp,
        who,
        act,
        body,
    }
}

/// Entries of that object, in order. `AllocError` where memory runs out.
fn all_kept(
    alloc: Global,
    object: ObjectName,
    entries: Vec<SpelledEntry>,
) -> Result<Vec<Kept>, AllocError>
    ensures { IfOk result (λ kept. kept.items ≡ map (kept_as object) entries.items) }
{
    let mut kept = Vec::with_capacity(alloc, entries.len())?;
    for entry in entries {
        kept.push(kept_as(object, entry))?;
    }
    Ok(kept)
}

/// Adds the history of that object, whose entries these are. `AllocError` where memory runs out.
fn add(
    alloc: Global,
    out: &mut Vec<History>,
    object: ObjectName,
    entries: Vec<SpelledEntry>,
) -> Result<(), AllocError>
    requires spells { SpellsKind object.kind entries.items }
    requires rising { AreRising entries.items }
    ensures { OnOk result (HasMore (object ∷ []) out.old.items out.new.items) }
{
    let entries = all_kept(alloc, object, entries)?;
    out.push(History { object, entries })?;
    Ok(())
}

/// Adds the history of a mailbox. `AllocError` where memory runs out.
fn add_box<R: Wait>(
    rt: &R,
    alloc: Global,
    out: &mut Vec<History>,
    host: u32,
    seat: &BoxSeat,
) -> Result<(), AllocError>
    ensures { OnOk result (HasMore (box_name host seat.now.slot ∷ []) out.old.items out.new.items) }
{
    let object = ObjectName {
        host,
        kind: MAILBOX,
        id: seat.slot,
    };
    let entries = seat.mailbox.entries(rt)?;
    add(alloc, out, object, entries)?;
    Ok(())
}

/// Adds the histories of mailboxes. `AllocError` where memory runs out.
fn add_boxes<R: Wait>(
    rt: &R,
    alloc: Global,
    out: &mut Vec<History>,
    host: u32,
    seats: &[BoxSeat],
) -> Result<(), AllocError>
    ensures { OnOk result (HasMore (names_of_boxes host seats.now) out.old.items out.new.items) }
{
    for seat in seats {
        add_box(rt, alloc, out, host, seat)?;
    }
    Ok(())
}

/// Adds the history of the lane with that number. `AllocError` where memory runs out.
fn add_lane<R: Wait>(
    rt: &R,
    alloc: Global,
    out: &mut Vec<History>,
    host: u32,
    number: u32,
    lane: &SharedLane,
) -> Result<(), AllocError>
    ensures { OnOk result (HasMore (lane_name host number ∷ []) out.old.items out.new.items) }
{
    let object = ObjectName {
        host,
        kind: LANE,
        id: number,
    };
    let entries = lane.entries(rt)?;
    add(alloc, out, object, entries)?;
    Ok(())
}

/// Adds the histories of lanes, whose numbers are from 1 on. `AllocError` where memory runs out, and where there are `2^32 - 1` lanes.
fn add_lanes<R: Wait>(
    rt: &R,
    alloc: Global,
    out: &mut Vec<History>,
    host: u32,
    lanes: &[SharedLane],
) -> Result<(), AllocError>
    ensures { OnOk result (HasMore (names_of_lanes host 1 lanes.now) out.old.items out.new.items) }
{
    let mut number: u32 = 1;
    for lane in lanes {
        add_lane(rt, alloc, out, host, number, lane)?;
        let Some(next) = number.checked_add(1) else {
            return Err(AllocError);
        };
        number = next;
    }
    Ok(())
}

/// Adds the history of the inlet at that place. `AllocError` where memory runs out.
fn add_inlet<R: Wait>(
    rt: &R,
    alloc: Global,
    out: &mut Vec<History>,
    host: u32,
    place: u32,
    seat: &InletSeat,
) -> Result<(), AllocError>
    ensures { OnOk result (HasMore (inlet_name host place ∷ []) out.old.items out.new.items) }
{
    let object = ObjectName {
        host,
        kind: INLET,
        id: place,
    };
    let entries = seat.inlet.entries(rt)?;
    add(alloc, out, object, entries)?;
    Ok(())
}

/// Adds the histories of inlets, whose places are from 0 on. `AllocError` where memory runs out, and where there are `2^32 - 1`.
fn add_inlets<R: Wait>(
    rt: &R,
    alloc: Global,
    out: &mut Vec<History>,
    host: u32,
    seats: &[InletSeat],
) -> Result<(), AllocError>
    ensures { OnOk result (HasMore (names_of_inlets host 0 seats.now) out.old.items out.new.items) }
{
    let mut place: u32 = 0;
    for seat in seats {
        add_inlet(rt, alloc, out, host, place, seat)?;
        let Some(next) = place.checked_add(1) else {
            return Err(AllocError);
        };
        place = next;
    }
    Ok(())
}

/// Adds the history of a host's desk. `AllocError` where memory runs out.
fn add_desk<R: Wait>(
    rt: &R,
    alloc: Global,
    out: &mut Vec<History>,
    host: u32,
    desk: &SharedDesk,
) -> Result<(), AllocError>
    ensures { OnOk result (HasMore (desk_name host ∷ []) out.old.items out.new.items) }
{
    let object = ObjectName {
        host,
        kind: DESK,
        id: 0,
    };
    let entries = desk.entries(rt)?;
    add(alloc, out, object, entries)?;
    Ok(())
}

/// The histories of a host's objects: of the desk, the mailboxes, the lanes and the inlets, in their order, each under its name.
/// It takes each lock once. The entries are spelled as receipts spell them, at stamps that rise. No clause says which calls they
/// are of, since a lock hides its state; a merge finds out.
///
/// # Errors
///
/// `AllocError` where memory runs out, and where there are `2^32 - 1` lanes or inlets, which no name can have. The objects are as
/// they were.
pub fn histories<R: Wait>(rt: &R, alloc: Global, node: &Node) -> Result<Vec<History>, AllocError>
    ensures objects { IfOk result (λ made. map object_in made.items ≡ objects_of node.now) }
    ensures entries { IfOk result (λ made. All IsHistory made.items) }
{
    let mut out = Vec::new(alloc);
    add_desk(rt, alloc, &mut out, node.host, &node.desk)?;
    add_boxes(rt, alloc, &mut out, node.host, node.boxes.as_slice())?;
    add_lanes(rt, alloc, &mut out, node.host, node.lanes.as_slice())?;
    add_inlets(rt, alloc, &mut out, node.host, node.inlets.as_slice())?;
    Ok(out)
}
