//! An inlet, and a connection: what arrives, is read, taken, passed and refused.

use crate::names::{Names, pieces};
use crate::row::Row;
use crate::rows_frame::say_end;
use ds_inlet::{Conn, ConnEntry, Inlet, InletAct, InletEntry, InletName, InletNames, Offer, Stale};
use ds_label::{LocalLabel, PubKey, Rule};
use ds_msg::LocalMessage;
use ds_script::{Actor, ActorKind};
use std::alloc::{AllocError, Global};

/// The first connection of the first host.
const WHO: Actor = Actor {
    kind: ActorKind::Conn,
    host: 0,
    index: 0,
};

/// Takes a frame's number at the next stamp: the last number where it was stale.
fn accept(inlet: &mut Inlet, number: u32) -> Result<Option<u32>, AllocError> {
    inlet.reserve()?;
    let last = inlet.last_stamp();
    if last == u64::MAX {
        return Ok(None);
    }
    match inlet.accept(last + 1, WHO, number) {
        Ok(()) => Ok(None),
        Err(Stale { last }) => Ok(Some(last)),
    }
}

/// Says an inlet's entries, each with its stamp.
fn say_entries(row: &mut Row<'_>, entries: &[InletEntry]) {
    row.say("[");
    for entry in entries {
        row.say_number(entry.stamp);
        let (act, number) = match entry.act {
            InletAct::Fresh(number) => ("fresh", number),
            InletAct::Stale(number) => ("stale", number),
        };
        row.say(act);
        row.say_small(number);
    }
    row.say("]");
}

/// One operation: a number that is taken, `checkpoint`, `history`, `last`.
fn operate(row: &mut Row<'_>, inlet: &mut Inlet, place: usize) {
    if row.is(place, "checkpoint") {
        return say_entries(row, &inlet.checkpoint());
    }
    if row.is(place, "history") {
        return say_entries(row, inlet.history());
    }
    if row.is(place, "last") {
        return match inlet.last() {
            Some(last) => row.say_number(last as u64),
            None => row.say("none"),
        };
    }
    let number = row.small(place, u32::MAX);
    match accept(inlet, number) {
        Ok(None) => row.say("fresh"),
        Ok(Some(last)) => {
            row.say("stale after");
            row.say_number(last as u64);
        }
        Err(_) => row.full(),
    }
}

/// A connection to a host with that key, whose second inlet is for that lane of the exporter.
fn conn(alloc: Global, here: PubKey, exporter: PubKey, lane: u32) -> Result<Conn, AllocError> {
    let mut inlets = InletNames::new(alloc);
    inlets.push(InletName {
        exporter: PubKey([9; 56]),
        lane,
    })?;
    inlets.push(InletName { exporter, lane })?;
    Ok(Conn::new(alloc, WHO, here, inlets))
}

/// Says what is read where nothing is in hand, and gives an offered frame's number.
fn read(row: &mut Row<'_>, conn: &mut Conn) -> Option<u32> {
    if conn.front().is_some() || conn.has_passed() {
        row.say("busy");
        return None;
    }
    match conn.read() {
        Ok(Offer::Hello) => row.say("hello"),
        Ok(Offer::Frame { inlet, number }) => {
            row.say("frame");
            row.say_number(number as u64);
            row.say("for inlet");
            row.say_number(inlet as u64);
            return Some(number);
        }
        Err(end) => say_end(row, end),
    }
    None
}

/// Settles the offered frame.
fn settle(row: &mut Row<'_>, conn: &mut Conn, fresh: bool) {
    if conn.reserve().is_err() {
        return row.full();
    }
    if !conn.is_offered() {
        return row.say("none offered");
    }
    conn.settle(fresh);
}

/// Passes the first message, if there is one, as one without labels.
fn pass(alloc: Global, conn: &mut Conn) -> Result<(), AllocError> {
    conn.reserve()?;
    let Some(front) = conn.front() else {
        return Ok(());
    };
    let message = LocalMessage {
        from: PubKey([2; 56]),
        label: LocalLabel::new(alloc),
        own: LocalLabel::new(alloc),
        clear: LocalLabel::new(alloc),
        payload: front.payload.copy()?,
    };
    conn.pass(message);
    Ok(())
}

/// Refuses the first message, if there is one.
fn refuse(conn: &mut Conn) -> Result<(), AllocError> {
    conn.reserve()?;
    if conn.front().is_some() {
        conn.refuse(Rule::NoBox);
    }
    Ok(())
}

/// Says the slot and the bytes of the passed message. It is handed out, given back and handed out again.
fn hand(row: &mut Row<'_>, conn: &mut Conn) {
    if let Some((slot, message)) = conn.passed() {
        conn.give_back(slot, message);
    }
    match conn.passed() {
        Some((slot, message)) => {
            row.say_number(slot as u64);
            row.say_hex(message.payload.as_slice());
        }
        None => row.say("none"),
    }
}

/// Says a connection's entries.
fn say_conn(row: &mut Row<'_>, entries: &[ConnEntry]) {
    row.say("[");
    for entry in entries {
        let (act, first, second) = match entry {
            ConnEntry::Frame { number, count } => ("frame", *number, *count as u64),
            ConnEntry::Stale { number } => ("stale", *number, 0),
            ConnEntry::Pass { slot } => ("pass", *slot, 0),
            ConnEntry::Drop { rule, slot } => (rule.name(), *slot, 0),
        };
        row.say(act);
        row.say_number(first as u64);
        row.say_number(second);
    }
    row.say("]");
}

/// Bytes arrive.
fn arrives(row: &mut Row<'_>, names: &Names, conn: &mut Conn, word: &[u8]) {
    let bytes = pieces(row.alloc, names, &[word], 0);
    if let Some(bytes) = row.got(bytes) {
        if conn.arrive(&bytes).is_err() {
            row.full();
        }
    }
}

/// One operation of a connection: `<BYTES`, which arrive, `read`, `fresh`, `stale`, `pass`, `refuse`, `hand`, `entries`,
/// `failed`.
fn operate_conn(row: &mut Row<'_>, names: &Names, conn: &mut Conn, place: usize) {
    if let Some(bytes) = row.word(place).strip_prefix(b"<") {
        arrives(row, names, conn, bytes);
        return;
    }
    if row.is(place, "read") {
        let _ = read(row, conn);
        return;
    }
    if row.is(place, "fresh") || row.is(place, "stale") {
        let fresh = row.is(place, "fresh");
        settle(row, conn, fresh);
        return;
    }
    if row.is(place, "pass") {
        if pass(row.alloc, conn).is_err() {
            row.full();
        }
        return;
    }
    if row.is(place, "refuse") {
        if refuse(conn).is_err() {
            row.full();
        }
        return;
    }
    if row.is(place, "hand") {
        hand(row, conn);
        return;
    }
    if row.is(place, "entries") {
        say_conn(row, conn.entries());
        return;
    }
    row.say_if(conn.failure().is_some());
}

/// Reads, takes and delivers what there is, at most three items.
fn drain(row: &mut Row<'_>, conn: &mut Conn) {
    for _ in 0..3 {
        if read(row, conn).is_some() {
            settle(row, conn, true);
            if pass(row.alloc, conn).is_err() {
                row.full();
            }
            let _ = conn.passed();
        }
    }
}

/// Says what entries a connection makes that gets a stream in two pieces, and reads after each.
fn cut(row: &mut Row<'_>, exporter: PubKey, first: &[u8], second: &[u8]) {
    let Ok(mut conn) = conn(row.alloc, PubKey([2; 56]), exporter, 1) else {
        return row.full();
    };
    for piece in [first, second] {
        if conn.arrive(piece).is_err() {
            return row.full();
        }
        drain(row, &mut conn);
    }
    row.forget();
    say_conn(row, conn.entries());
}

/// Says the entries of the stream cut at each place from one up to another: what they are at the last one, and how often
/// they are this.
fn cuts(row: &mut Row<'_>, names: &Names) {
    let bytes = row.bytes(names, 2);
    let exporter = row.key(names, 4);
    let (from, to) = (row.small(6, 9_999) as usize, row.small(8, 9_999) as usize);
    let mut last = String::new(row.alloc);
    let mut count = 0u64;
    for at in from..to {
        let (first, second) = (bytes.get(..at), bytes.get(at..));
        cut(row, exporter, first.unwrap_or(&[]), second.unwrap_or(&[]));
        if row.said() == last.as_str() {
            count = count.saturating_add(1);
        } else {
            count = 1;
            match String::from_str(row.alloc, row.said()) {
                Ok(now) => last = now,
                Err(_) => row.full(),
            }
        }
    }
    row.say("at the last");
    row.say_number(count);
}

/// Takes the hello and the frame of these bytes on a connection as the inlet says, and says the entries then.
fn take(row: &mut Row<'_>, exporter: PubKey, bytes: &[u8], inlet: &mut Inlet) {
    let Ok(mut conn) = conn(row.alloc, PubKey([2; 56]), exporter, 1) else {
        return row.full();
    };
    if conn.arrive(bytes).is_err() {
        return row.full();
    }
    let _ = read(row, &mut conn);
    if let Some(number) = read(row, &mut conn) {
        match accept(inlet, number) {
            Ok(last) => settle(row, &mut conn, last.is_none()),
            Err(_) => row.full(),
        }
    }
    say_conn(row, conn.entries());
}

/// A connection and its operations.
fn connection(row: &mut Row<'_>, names: &Names) {
    let (here, exporter) = (row.key(names, 2), row.key(names, 4));
    let lane = row.small(6, 99);
    let Ok(mut conn) = conn(row.alloc, here, exporter, lane) else {
        return row.full();
    };
    for place in 7..row.len() {
        operate_conn(row, names, &mut conn, place);
    }
}

/// `inlet OPERATION ..`, `connection to HERE from EXPORTER lane LANE OPERATION ..`, `copies of BYTES from EXPORTER`,
/// `cuts of BYTES from EXPORTER at A to B`.
pub(crate) fn row(row: &mut Row<'_>, names: &Names) {
    if row.is(0, "inlet") {
        let mut inlet = Inlet::new(row.alloc, PubKey([7; 56]), 3);
        for place in 1..row.len() {
            operate(row, &mut inlet, place);
        }
        return;
    }
    if row.is(0, "connection") {
        connection(row, names);
        return;
    }
    if row.is(0, "copies") {
        let bytes = row.bytes(names, 2);
        let exporter = row.key(names, 4);
        let mut inlet = Inlet::new(row.alloc, exporter, 1);
        take(row, exporter, &bytes, &mut inlet);
        take(row, exporter, &bytes, &mut inlet);
        return;
    }
    cuts(row, names);
}
