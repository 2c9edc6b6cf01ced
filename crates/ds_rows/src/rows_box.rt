//! A mailbox: what is put and taken, and its history.

ghost use Rattle.std.specs.Prelude.{IfOk};
ghost use Rattle.ds_box.specs.Boxes.{IsShortMail};

use crate::row::Row;
use ds_box::{BoxAct, BoxEntry, BoxState, Empty};
use ds_label::{LocalLabel, PubKey};
use ds_msg::LocalMessage;
use ds_script::{Actor, ActorKind};
use ds_wire::Bytes;
use std::alloc::{AllocError, Global};

/// The first process of the first host.
const WHO: Actor = Actor {
    kind: ActorKind::Proc,
    host: 0,
    index: 0,
};

/// A message that says one byte.
fn message(alloc: Global, says: u8) -> Result<LocalMessage, AllocError>
    ensures { IfOk result IsShortMail }
{
    Ok(LocalMessage {
        from: PubKey([0; 56]),
        label: LocalLabel::new(alloc),
        own: LocalLabel::new(alloc),
        clear: LocalLabel::new(alloc),
        payload: Bytes::from_slice(alloc, &[says])?,
    })
}

/// The byte that a message says.
fn said(message: &LocalMessage) -> u64 {
    message.payload.as_slice().first().copied().unwrap_or(0) as u64
}

/// Puts a message that says one byte, at the next stamp.
fn put(mailbox: &mut BoxState, alloc: Global, says: u8) -> Result<(), AllocError> {
    let queued = message(alloc, says)?;
    let kept = queued.copy()?;
    mailbox.reserve()?;
    let last = mailbox.last();
    if last < u64::MAX {
        mailbox.put(last + 1, WHO, queued, kept);
    }
    Ok(())
}

/// Takes a message at the next stamp.
fn take(row: &mut Row<'_>, mailbox: &mut BoxState) {
    if mailbox.reserve().is_err() {
        return row.full();
    }
    let last = mailbox.last();
    if last == u64::MAX {
        return;
    }
    match mailbox.take(last + 1, WHO) {
        Ok(taken) => {
            row.say("took");
            row.say_number(said(&taken));
        }
        Err(Empty) => row.say("empty"),
    }
}

/// Says entries, each with its stamp.
fn say_entries(row: &mut Row<'_>, entries: &[BoxEntry]) {
    row.say("[");
    for entry in entries {
        row.say_number(entry.stamp);
        match &entry.act {
            BoxAct::Put(message) => {
                row.say("put");
                row.say_number(said(message));
            }
            BoxAct::Full(message) => {
                row.say("full");
                row.say_number(said(message));
            }
            BoxAct::Took => row.say("took"),
        }
    }
    row.say("]");
}

/// Hands out the history.
fn checkpoint(row: &mut Row<'_>, mailbox: &mut BoxState) {
    match mailbox.checkpoint() {
        Ok(segment) => say_entries(row, &segment),
        Err(_) => row.full(),
    }
}

/// Says whether the mailbox is full, what waits, the last stamp, the owner and the room.
fn say_state(row: &mut Row<'_>, mailbox: &BoxState) {
    row.say(if mailbox.is_full() { "full" } else { "room" });
    row.say_number(mailbox.waits() as u64);
    row.say_number(mailbox.last());
    row.say_number(mailbox.owner() as u64);
    row.say_number(mailbox.room() as u64);
}

/// One operation: a number puts a message that says it; `take`, `checkpoint`, `history`, `state`.
fn operate(row: &mut Row<'_>, mailbox: &mut BoxState, place: usize) {
    if row.is(place, "take") {
        take(row, mailbox);
        return;
    }
    if row.is(place, "checkpoint") {
        checkpoint(row, mailbox);
        return;
    }
    if row.is(place, "history") {
        say_entries(row, mailbox.history());
        return;
    }
    if row.is(place, "state") {
        say_state(row, mailbox);
        return;
    }
    let says = row.byte(place);
    if put(mailbox, row.alloc, says).is_err() {
        row.full();
    }
}

/// `mailbox of OWNER room ROOM OPERATION ..`.
pub(crate) fn row(row: &mut Row<'_>) {
    let (owner, room) = (row.small(2, 99), row.small(4, 999));
    let mut mailbox = BoxState::new(row.alloc, LocalLabel::new(row.alloc), owner, room);
    for place in 5..row.len() {
        operate(row, &mut mailbox, place);
    }
}
