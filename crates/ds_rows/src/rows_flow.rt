//! How a host judges what it sends, frames, takes in and puts to mailboxes, and which certificates it attaches. The host has
//! the key 2, and what comes in comes from a host with the key 3 on a lane that is valid from 10 until 20.

use crate::names::Names;
use crate::row::Row;
use crate::rows_chain::{addresses, kept};
use ds_cert::LaneCert;
use ds_chain::CertBook;
use ds_flow::{FlowFault, attach, judge_arrive, judge_box, judge_frame, judge_send};
use ds_label::{Label, PubKey, Rule};
use ds_map::MapTable;
use ds_msg::{CertBytes, Message};
use ds_wire::Bytes;
use std::alloc::Global;

const HERE: PubKey = PubKey([2; 56]);

const THERE: PubKey = PubKey([3; 56]);

/// Says the rule that drops, or `passes`.
fn say_judged(row: &mut Row<'_>, judged: Result<(), FlowFault>) {
    match judged {
        Ok(()) => row.say("passes"),
        Err(FlowFault::Drop(rule)) => row.say(rule.name()),
        Err(FlowFault::NoMemory) => row.full(),
    }
}

/// A lane from the other host to this one.
fn lane(alloc: Global, label: Label) -> LaneCert {
    LaneCert {
        exporter: THERE,
        lane: 1,
        receiver: HERE,
        label,
        key: THERE,
        from: 10,
        until: 20,
        signature: Bytes::new(alloc),
    }
}

/// A message of this receiver, label and ownership.
fn message(alloc: Global, to: PubKey, label: Label, own: Label) -> Message {
    Message {
        to,
        slot: 1,
        label,
        own,
        clear: Label::new(alloc),
        certs: CertBytes::new(alloc),
        payload: Bytes::new(alloc),
    }
}

/// Judges a message that comes on a lane.
fn arrives(row: &mut Row<'_>, names: &Names) {
    let now = row.number(3);
    let lane = lane(row.alloc, row.label(names, 5));
    let to = row.key(names, 7);
    let (member, own) = (row.label(names, 9), row.label(names, 11));
    let message = message(row.alloc, to, member, own);
    let Ok(mut store) = CertBook::new(row.alloc) else {
        return row.full();
    };
    let table = MapTable::new(row.alloc, HERE);
    let judged = judge_arrive(row.alloc, &mut store, &table, now, &HERE, &lane, &message);
    say_judged(row, judged);
}

/// Judges a send, or framing.
fn sends(row: &mut Row<'_>, names: &Names) {
    let lane = if row.is(2, "lane") { Some(1) } else { None };
    let known = addresses(row, names, 3);
    let now = row.number(5);
    let to = row.key(names, 7);
    let member = row.label(names, 9);
    let Ok(mut store) = CertBook::new(row.alloc) else {
        return row.full();
    };
    let judged = if row.is(1, "sends") {
        judge_send(row.alloc, lane, &known, &mut store, now, &to, &member)
    } else {
        judge_frame(row.alloc, &known, &mut store, now, &to, &member)
    };
    say_judged(row, judged);
}

/// Says which rule refuses a mailbox, or `passes`.
fn say_box(row: &mut Row<'_>, judged: Result<(), Rule>) {
    match judged {
        Ok(()) => row.say("passes"),
        Err(rule) => row.say(rule.name()),
    }
}

/// Judges a mailbox, if there is one.
fn mailbox(row: &mut Row<'_>) {
    let member = row.local(4);
    if row.is(2, "none") {
        say_box(row, judge_box(None, &member));
    } else {
        let target = row.local(2);
        say_box(row, judge_box(Some(&target), &member));
    }
}

/// How many certificates go with a message whose label and ownership are this.
fn attaches(row: &mut Row<'_>, names: &Names) {
    let Some(mut store) = kept(row, names, 2) else {
        return;
    };
    let now = row.number(4);
    let member = row.label(names, 6);
    let none = Label::new(row.alloc);
    match attach(row.alloc, &mut store, now, &HERE, &member, &member, &none) {
        Ok(certs) => row.say_number(certs.len() as u64),
        Err(_) => row.full(),
    }
}

/// `flow arrives at MOMENT on LABEL to KEY label LABEL own LABEL`, `flow sends LANE ADDRESSES at MOMENT to KEY label LABEL`,
/// `flow frames - ADDRESSES at MOMENT to KEY label LABEL`, `flow mailbox NUMBERS label NUMBERS`,
/// `flow attaches LIST at MOMENT label LABEL`. A lane is `lane` or `none`.
pub(crate) fn row(row: &mut Row<'_>, names: &Names) {
    if row.is(1, "arrives") {
        arrives(row, names);
        return;
    }
    if row.is(1, "mailbox") {
        mailbox(row);
        return;
    }
    if row.is(1, "attaches") {
        attaches(row, names);
        return;
    }
    sends(row, names);
}
