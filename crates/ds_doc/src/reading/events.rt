//! Events of a document.

ghost use Rattle.std.specs.Prelude.{◌≡◌, map, flat_map, IfOk, OnOk, ◌++◌};
ghost use Rattle.hex.specs.Hex as hexes;
ghost use Rattle.ds_doc.specs.Draft as drafts;
ghost use Rattle.ds_doc.specs.Seen.{seen};

use crate::draft::DraftEvent;
use crate::reading::basics::{Names, long, placed_host, placed_word};
use crate::spot::Spot;
use crate::text::is_word;
use ds_plan::PartList;
use ds_wire::Bytes;
use hex::FromHexError;
use std::alloc::{AllocError, Global};

/// The events that lists say.
pub(crate) fn events_of(
    alloc: Global,
    names: &Names,
    spots: &[Spot],
) -> Result<PartList<DraftEvent>, AllocError>
    ensures { IfOk result (λ l. l ≡ flat_map (drafts.event_of names.now) (map seen spots.now)) }
{
    let mut list = PartList::new(alloc);
    for spot in spots {
        push_event(alloc, &mut list, names, spot)?;
    }
    Ok(list)
}

#[tactic(auto, unfolding(crate::specs::Draft::event_of))]
fn push_event(
    alloc: Global,
    list: &mut PartList<DraftEvent>,
    names: &Names,
    spot: &Spot,
) -> Result<(), AllocError>
    ensures { OnOk result (list.new ≡ list.old ++ drafts.event_of names.now (seen spot.now)) }
{
    let items = spot.items(alloc)?;
    push_by(alloc, list, names, items.as_slice())
}

fn push_by(
    alloc: Global,
    list: &mut PartList<DraftEvent>,
    names: &Names,
    items: &[Spot],
) -> Result<(), AllocError>
    ensures { OnOk result (list.new ≡ list.old ++ drafts.event_by names.now (map seen items.now)) }
{
    match items {
        [word, conn] => list.push(of_conn(word.text(), conn)),
        [word, first, second] => list.push(of_both(alloc, names, word.text(), first, second)?),
        [_, conn, source, from, until] => list.push(of_four(conn, source, from, until)),
        _ => Ok(()),
    }
}

fn of_four(conn: &Spot, source: &Spot, from: &Spot, until: &Spot) -> DraftEvent
    ensures { result ≡ drafts.of_four (seen conn.now) (seen source.now) (seen from.now) (seen until.now) }
{
    DraftEvent::CopyBytes {
        conn: placed_word(conn),
        source: placed_word(source),
        from: long(from),
        until: long(until),
    }
}

fn of_conn(word: &[u8], conn: &Spot) -> DraftEvent
    ensures { result ≡ drafts.of_conn word.now (seen conn.now) }
{
    let conn = placed_word(conn);
    if is_word(word, "accept") {
        DraftEvent::Accept { conn }
    } else {
        DraftEvent::Deliver { conn }
    }
}

fn of_both(
    alloc: Global,
    names: &Names,
    word: &[u8],
    first: &Spot,
    second: &Spot,
) -> Result<DraftEvent, AllocError>
    ensures { IfOk result (λ e. e ≡ drafts.of_both names.now word.now (seen first.now) (seen second.now)) }
{
    if is_word(word, "step") {
        Ok(DraftEvent::Step {
            host: placed_host(alloc, names, first)?,
            index: placed_word(second),
        })
    } else if is_word(word, "frame") {
        Ok(DraftEvent::Frame {
            host: placed_host(alloc, names, first)?,
            lane: placed_word(second),
        })
    } else if is_word(word, "tick") {
        Ok(DraftEvent::Tick {
            host: placed_host(alloc, names, first)?,
            to: long(second),
        })
    } else if is_word(word, "arrive") {
        Ok(DraftEvent::Arrive {
            conn: placed_word(first),
            count: long(second),
        })
    } else {
        Ok(DraftEvent::Inject {
            conn: placed_word(first),
            bytes: bytes_of(alloc, second.text())?,
        })
    }
}

/// The bytes in hex.
fn bytes_of(alloc: Global, text: &[u8]) -> Result<Bytes, AllocError>
    ensures { IfOk result (λ b. b ≡ drafts.bytes_of (hexes.decode_of text.now)) }
{
    match hex::decode(alloc, text) {
        Ok(bytes) => Ok(Bytes::from_vec(bytes)),
        Err(FromHexError::OutOfMemory) => Err(AllocError),
        Err(_) => Ok(Bytes::new(alloc)),
    }
}
