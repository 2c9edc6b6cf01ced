//! A lane: what is admitted and lifted, and what its worker frames and drops.

ghost use Rattle.std.specs.Prelude.{◌≡◌, IfOk};
ghost use Rattle.ds_cert.specs.Ranges.{LaneCertRange};
ghost use Rattle.ds_lane.specs.Lanes.{IsOn};
ghost use Rattle.ds_lane.specs.Workers.{IsKeyOf};

use crate::names::made_tree;
use crate::row::Row;
use ds_base::{Keeper, MemKeeper};
use ds_cert::LaneCert;
use ds_label::{Label, PubKey, Rule};
use ds_lane::{LaneAct, LaneEnd, LaneEntry, LaneFault, LaneState, LiftEnd, Waiting, WorkerAct};
use ds_msg::{CertBytes, Message};
use ds_script::{Actor, ActorKind};
use ds_wire::Bytes;
use lms_state::Signer;
use std::alloc::{AllocError, Global};

/// The third process of the first host.
const SENDER: Actor = Actor {
    kind: ActorKind::Proc,
    host: 0,
    index: 2,
};

/// The worker of its first lane.
const WORKER: Actor = Actor {
    kind: ActorKind::Lane,
    host: 0,
    index: 1,
};

/// A certificate of a lane that anyone may read, for a signer's key.
fn cert(alloc: Global, signer: &Signer) -> LaneCert
    ensures range { LaneCertRange result }
    ensures key { IsKeyOf signer.now result }
{
    LaneCert {
        exporter: PubKey([1; 56]),
        lane: 1,
        receiver: PubKey([2; 56]),
        label: Label::new(alloc),
        key: PubKey(signer.public()),
        from: 0,
        until: 100,
        signature: Bytes::new(alloc),
    }
}

/// A message for the lane that says one byte.
fn message(alloc: Global, cert: &LaneCert, says: u8) -> Result<Message, AllocError>
    ensures { IfOk result (IsOn cert.now) }
{
    Ok(Message {
        to: cert.receiver,
        slot: 1,
        label: cert.label.copy()?,
        own: Label::new(alloc),
        clear: Label::new(alloc),
        certs: CertBytes::new(alloc),
        payload: Bytes::from_slice(alloc, &[says])?,
    })
}

/// Admits a message that says one byte, at the next stamp.
fn admit(lane: &mut LaneState, alloc: Global, says: u8) -> Result<(), AllocError> {
    let queued = message(alloc, lane.cert(), says)?;
    let kept = queued.copy()?;
    lane.reserve()?;
    let last = lane.last();
    if last < u64::MAX {
        lane.admit(last + 1, SENDER, queued, kept);
    }
    Ok(())
}

/// Lifts at the next stamp into the worker's hand, if it is empty and the worker can take it. Says how many messages were
/// lifted.
fn lift(row: &mut Row<'_>, lane: &mut LaneState, end: &mut LaneEnd) {
    if lane.reserve().is_err() {
        return row.full();
    }
    let last = lane.last();
    let fits = end.cert().same(lane.cert()) && end.ready() && end.hand().is_empty();
    if !fits || last == u64::MAX {
        return row.say("not ready");
    }
    match lane.lift(last + 1, WORKER) {
        Ok(batch) => {
            row.say("lifted");
            row.say_number(batch.len() as u64);
            end.hold(batch);
        }
        Err(LiftEnd::Idle) => row.say("Idle"),
        Err(LiftEnd::NoMemory) => row.full(),
    }
}

/// The byte that a message says.
fn said(waiting: &Waiting) -> u64 {
    waiting
        .message
        .payload
        .as_slice()
        .first()
        .copied()
        .unwrap_or(0) as u64
}

/// Says what the first message in hand says.
fn say_hand(row: &mut Row<'_>, end: &LaneEnd) {
    match end.hand().get(0) {
        Some(first) => row.say_number(said(first)),
        None => row.say("empty"),
    }
}

/// Frames what is in hand.
fn frame(row: &mut Row<'_>, end: &mut LaneEnd, keeper: &mut MemKeeper) {
    if end.reserve().is_err() {
        return row.full();
    }
    if end.hand().is_empty() {
        return row.say("empty");
    }
    match end.frame(40, keeper) {
        Ok(()) => row.say("framed"),
        Err(LaneFault::KeeperFault) => row.say("KeeperFault"),
        Err(LaneFault::NoMemory) => row.full(),
    }
}

/// Says a lane's entries, each with its stamp.
fn say_entries(row: &mut Row<'_>, entries: &[LaneEntry]) {
    row.say("[");
    for entry in entries {
        row.say_number(entry.stamp);
        let (act, says) = match &entry.act {
            LaneAct::Queued(waiting) => ("queued", said(waiting)),
            LaneAct::Full(waiting) => ("full", said(waiting)),
            LaneAct::Lifted(count) => ("lifted", *count as u64),
        };
        row.say(act);
        row.say_number(says);
    }
    row.say("]");
}

/// Hands out the lane's history.
fn checkpoint(row: &mut Row<'_>, lane: &mut LaneState) {
    match lane.checkpoint() {
        Ok(segment) => say_entries(row, &segment),
        Err(_) => row.full(),
    }
}

/// Says a worker's entries, how many bytes its stream has, and its next leaf.
fn say_worker(row: &mut Row<'_>, end: &LaneEnd) {
    row.say("[");
    for entry in end.entries() {
        row.say_number(entry.stamp);
        let (act, first, second) = match entry.act {
            WorkerAct::Framed { number, count } => ("framed", number, count),
            WorkerAct::Dropped { from, slot, .. } => ("dropped", from, slot),
        };
        row.say(act);
        row.say_small(first);
        row.say_small(second);
    }
    row.say("] stream");
    row.say_number(end.stream().len() as u64);
    row.say("next");
    row.say_number(end.next() as u64);
}

/// Drops what is in hand.
fn drops(row: &mut Row<'_>, end: &mut LaneEnd) {
    if end.reserve().is_err() {
        return row.full();
    }
    end.drop_all(8, Rule::NoAddress);
}

/// Admits messages that say 0, 1 and so on.
fn fills(row: &mut Row<'_>, lane: &mut LaneState, count: u8) {
    for says in 0..count {
        if admit(lane, row.alloc, says).is_err() {
            row.full();
        }
    }
}

/// One operation of the lane: a number admits a message that says it; `waiting`, `lane`, `checkpoint`.
fn operate_lane(row: &mut Row<'_>, lane: &mut LaneState, place: usize) {
    if row.is(place, "lane") {
        say_entries(row, lane.history());
        return;
    }
    if row.is(place, "checkpoint") {
        checkpoint(row, lane);
        return;
    }
    if row.is(place, "waiting") {
        row.say_number(lane.waits() as u64);
        row.say_if(lane.is_full());
        return;
    }
    let says = row.byte(place);
    if admit(lane, row.alloc, says).is_err() {
        row.full();
    }
}

/// One operation: one of the lane, or `lift`, `hand`, `frame`, `drop`, `worker`.
fn operate(
    row: &mut Row<'_>,
    lane: &mut LaneState,
    end: &mut LaneEnd,
    keeper: &mut MemKeeper,
    place: usize,
) {
    if row.is(place, "lift") {
        lift(row, lane, end);
        return;
    }
    if row.is(place, "hand") {
        say_hand(row, end);
        return;
    }
    if row.is(place, "frame") {
        frame(row, end, keeper);
        return;
    }
    if row.is(place, "drop") {
        drops(row, end);
        return;
    }
    if row.is(place, "worker") {
        say_worker(row, end);
        return;
    }
    operate_lane(row, lane, place);
}

/// A signer of 32 leaves.
fn signer(row: &mut Row<'_>, keeper: &mut MemKeeper) -> Option<Signer> {
    let tree = made_tree(row.alloc, b"5.4", b"7", b"1");
    Signer::resume(row.got(tree)?, keeper).ok()
}

/// `lane room ROOM fails CALLS fill N OPERATION ..`: the keeper's calls of these numbers fail, and the lane begins with so
/// many messages.
pub(crate) fn row(row: &mut Row<'_>) {
    let calls = row.numbers(4);
    let mut keeper = MemKeeper::new(Vec::new(row.alloc), calls, Vec::new(row.alloc));
    let Some(signer) = signer(row, &mut keeper) else {
        return row.bad();
    };
    let cert = cert(row.alloc, &signer);
    let Ok(mut end) = LaneEnd::new(row.alloc, WORKER, &cert, signer) else {
        return row.full();
    };
    let (room, count) = (row.small(2, 999), row.byte(6));
    let mut lane = LaneState::new(row.alloc, cert, room);
    fills(row, &mut lane, count);
    for place in 7..row.len() {
        operate(row, &mut lane, &mut end, &mut keeper, place);
    }
}
