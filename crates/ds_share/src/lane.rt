//! What waits on a lane, behind a lock.

ghost use Rattle.std.specs.Prelude.{◌≡◌, ◌↔◌, ◌<◌, ◌-◌, ◌^◌, [], map, max, min, take, length, All, Err, IfOk, IfErr, OnErr, IsTrue};
ghost use Rattle.std.specs.List.{flat_map};
ghost use Rattle.std.specs.Int.{w32, to_be_bytes};
ghost use Rattle.std.specs.Sync.Mutex.{mutex_guard_value};
ghost use Rattle.ds_msg.specs.Spelling.{spelling_of_message};
ghost use Rattle.ds_model.specs.Lane.{admit_entry, front, frame_limit};
ghost use Rattle.ds_lane.specs.declared.batch.Waiting.{Waiting};
ghost use Rattle.ds_lane.specs.Lanes.{IsOn, WaitsOn, act_of, entered, last_stamp, lift_entry, sent_by};
ghost use Rattle.ds_share.specs.Entries.{AreRising, LaneActRange, SpellsLane, lane_spelled};
ghost use Rattle.ds_share.specs.SharedLanes.{IsReceiptOfAdmit, IsReceiptOfLift, IsSameLane, act_body, act_number, lane_receipt};
ghost use Rattle.ds_share.specs.Spelling.{spelling_of_waiting};

use crate::entry::SpelledEntry;
use crate::lending::stamp_after;
use crate::receipt::Receipt;
use crate::spelling::{append_waiting, number_bytes};
use ds_cert::LaneCert;
use ds_lane::{BodyBatch, LaneAct, LaneEntry, LaneState, LiftEnd};
use ds_msg::Message;
use ds_script::Actor;
use ds_wire::Bytes;
use std::alloc::{AllocError, Global};
use std::marker::Model;
use std::sync::{Mutex, MutexGuard, Wait};

/// The acts of a lane's entries as numbers.
const QUEUED: u8 = 1;

const FULL: u8 = 2;

const LIFTED: u8 = 3;

/// Most messages of a lift.
const FRAME_LIMIT: usize = 16;

/// What waits on a lane, behind a lock, with the lane's certificate beside it. Contracts see the certificate.
#[derive(Drop)]
pub struct SharedLane {
    alloc: Global,
    cert: LaneCert,
    state: Mutex<LaneState>,
}

impl Model for SharedLane {
    ghost use Rattle.ds_cert.specs.declared.lane.LaneCert.{LaneCert};

    ghost Value = { LaneCert };

    ghost view = { λ l. l.cert };
}

/// Whether both are certificates of lanes with one receiver and label.
fn is_same_lane(a: &LaneCert, b: &LaneCert) -> bool
    ensures { IsTrue result ↔ IsSameLane a.now b.now }
{
    a.receiver == b.receiver && a.label.same(&b.label)
}

impl SharedLane {
    /// This lane behind a lock, and its certificate, which is the state's. It takes no memory.
    pub fn new(alloc: Global, cert: LaneCert, state: LaneState) -> SharedLane
        requires cert { cert ≡ state.lane.cert }
        ensures { result ≡ cert }
    {
        SharedLane {
            alloc,
            cert,
            state: Mutex::new(state),
        }
    }

    /// The lane's certificate. It takes no lock.
    pub fn cert(&self) -> &LaneCert
        ensures { result.now ≡ self.now }
    {
        &self.cert
    }

    /// Takes the lock, and again and again until a stamp is left above the caller's and the lane's last one. What the lock lends
    /// has the certificate's receiver and label, since it was made so and never changes.
    fn lend<R: Wait>(&self, rt: &R, stamp: u64) -> MutexGuard<'_, LaneState>
        ensures left { max (last_stamp (mutex_guard_value result).lane) stamp < 2 ^ 64 - 1 }
        ensures same { IsSameLane (mutex_guard_value result).lane.cert self.now }
    {
        for _ in rt.forever() {
            let state = self.state.lock(rt);
            if state.last() < u64::MAX
                && stamp < u64::MAX
                && is_same_lane(state.cert(), &self.cert)
            {
                return state;
            }
        }
        unreachable!()
    }

    /// Queues a message of the process that `who` names, or drops it where as many wait as the lane has room for. The message has
    /// the certificate's receiver and label, and a spelling. The receipt's act is 1 where it was queued and 2 where it was
    /// dropped; it spells the message, and nothing is handed out.
    ///
    /// # Errors
    ///
    /// `AllocError` with the message where memory runs out. Nothing is entered then, and the lane is as it was.
    pub fn admit<R: Wait>(
        &self,
        rt: &R,
        stamp: u64,
        who: Actor,
        message: Message,
    ) -> Result<Receipt, (Message, AllocError)>
        requires on { IsOn self.now message }
        ensures ok { IfOk result (IsReceiptOfAdmit stamp message) }
        ensures err { IfErr result (λ e. e.0 ≡ message) }
    {
        let Ok(kept) = message.copy() else {
            return Err((message, AllocError));
        };
        let Ok(body) = message.encode() else {
            return Err((message, AllocError));
        };
        let mut state = self.lend(rt, stamp);
        if state.reserve().is_err() {
            return Err((message, AllocError));
        }
        Ok(admit_in(&mut state, self.alloc, stamp, who, message, kept, body))
    }

    /// Lifts the messages that wait longest: all that wait, and at most 16. The receipt's act is 3; it spells their count, and as
    /// what was handed out each message behind the number of its sender and its count of bytes.
    ///
    /// # Errors
    ///
    /// - `Idle` where no message waits.
    /// - `NoMemory` where memory runs out.
    pub fn lift<R: Wait>(
        &self,
        rt: &R,
        stamp: u64,
        who: Actor,
    ) -> Result<(Receipt, BodyBatch), LiftEnd>
        ensures ok { IfOk result (λ p. IsReceiptOfLift stamp p.1 p.0) }
        ensures on { IfOk result (λ p. All (WaitsOn self.now) p.1) }
        ensures some { IfOk result (λ p. 0 < length p.1) }
    {
        let mut state = self.lend(rt, stamp);
        lift_in(&mut state, self.alloc, stamp, who)
    }

    /// The entries since the lane's opening, in order, spelled. No clause says which calls they are of, since other callers may
    /// take the lock at any time. `AllocError` where memory runs out.
    pub fn entries<R: Wait>(&self, rt: &R) -> Result<Vec<SpelledEntry>, AllocError>
        ensures spelled { IfOk result (λ v. SpellsLane v.items) }
        ensures rising { IfOk result (λ v. AreRising v.items) }
    {
        let state = self.state.lock(rt);
        lane_entries(&state, self.alloc)
    }
}

/// The number of an entry's act.
fn number_of(act: &LaneAct) -> u8
    ensures { result ≡ act_number act.now }
{
    match act {
        LaneAct::Queued(_) => QUEUED,
        LaneAct::Full(_) => FULL,
        LaneAct::Lifted(_) => LIFTED,
    }
}

/// What an entry says beside its act. `AllocError` where memory runs out.
fn body_of(alloc: Global, act: &LaneAct) -> Result<Bytes, AllocError>
    requires { LaneActRange act.now }
    ensures { IfOk result (λ bytes. bytes ≡ act_body act.now) }
{
    match act {
        LaneAct::Queued(waiting) => waiting.message.encode(),
        LaneAct::Full(waiting) => waiting.message.encode(),
        LaneAct::Lifted(count) => number_bytes(alloc, *count),
    }
}

/// Entries, spelled. `AllocError` where memory runs out.
fn spelled(alloc: Global, entries: &[LaneEntry]) -> Result<Vec<SpelledEntry>, AllocError>
    requires { All (λ entry. LaneActRange entry.act) entries.now }
    ensures { IfOk result (λ v. v.items ≡ map lane_spelled entries.now) }
{
    let mut out = Vec::with_capacity(alloc, entries.len())?;
    for entry in entries {
        out.push(SpelledEntry {
            stamp: entry.stamp,
            who: entry.who,
            act: number_of(&entry.act),
            body: body_of(alloc, &entry.act)?,
        })?;
    }
    Ok(out)
}

/// The entries of a lane that a lock lends, since its opening, in order, spelled. `AllocError` where memory runs out.
pub fn lane_entries(state: &LaneState, alloc: Global) -> Result<Vec<SpelledEntry>, AllocError>
    ensures entries { IfOk result (λ v. v.items ≡ map lane_spelled state.now.lane.history) }
    ensures spelled { IfOk result (λ v. SpellsLane v.items) }
    ensures rising { IfOk result (λ v. AreRising v.items) }
{
    state.is_replay();
    spelled(alloc, state.history())
}

/// The number of the act that a message would enter.
fn admit_number(state: &LaneState) -> u8
    ensures { (w : Waiting) → result ≡ act_number (act_of (admit_entry state.now.lane.room w state.now.lane.waiting)) }
{
    if state.is_full() { FULL } else { QUEUED }
}

/// Admits a message to a lane that a lock lends, with room for it: `kept` is equal to the message, and `body` spells it. It takes
/// no memory.
pub fn admit_in(
    state: &mut LaneState,
    alloc: Global,
    stamp: u64,
    who: Actor,
    message: Message,
    kept: Message,
    body: Bytes,
) -> Receipt
    requires room { 0 < state.old.spare }
    requires left { max (last_stamp state.old.lane) stamp < 2 ^ 64 - 1 }
    requires on { IsOn state.old.lane.cert message }
    requires same { kept ≡ message }
    requires spelled { body ≡ spelling_of_message message }
    ensures receipt { result ≡ lane_receipt state.old.lane stamp (admit_entry state.old.lane.room (sent_by who.index message) state.old.lane.waiting) [] }
    ensures state { state.new.lane ≡
        entered result.stamp who (admit_entry state.old.lane.room (sent_by who.index message) state.old.lane.waiting) state.old.lane }
{
    let stamp = stamp_after(state.last(), stamp);
    let place = state.history().len() as u64;
    let act = admit_number(state);
    state.admit(stamp, who, message, kept);
    Receipt {
        stamp,
        place,
        act,
        body,
        given: Bytes::new(alloc),
    }
}

/// How many messages a lift would take.
fn lift_count(state: &LaneState) -> usize
    ensures { result ≡ min frame_limit (length state.now.lane.waiting) }
{
    FRAME_LIMIT.min(state.waits())
}

/// The messages that a lift would take, spelled.
fn front_bytes(state: &LaneState, alloc: Global) -> Result<Bytes, AllocError>
    ensures { IfOk result (λ bytes. bytes ≡ flat_map spelling_of_waiting (front state.now.lane.waiting)) }
{
    state.is_replay();
    let mut out = Bytes::new(alloc);
    for place in 0..lift_count(state) {
        let Some(waiting) = state.waiting(place) else {
            unreachable!();
        };
        append_waiting(&mut out, waiting)?;
    }
    Ok(out)
}

/// A lift on a lane that a lock lends.
///
/// # Errors
///
/// - `Idle` exactly where no message waits.
/// - `NoMemory` where memory runs out.
///
/// Nothing is entered after either, and the lane is as it was.
pub fn lift_in(
    state: &mut LaneState,
    alloc: Global,
    stamp: u64,
    who: Actor,
) -> Result<(Receipt, BodyBatch), LiftEnd>
    requires left { max (last_stamp state.old.lane) stamp < 2 ^ 64 - 1 }
    ensures lifted { IfOk result (λ p. p.1 ≡ front state.old.lane.waiting) }
    ensures on { IfOk result (λ p. All (WaitsOn state.old.lane.cert) p.1) }
    ensures some { IfOk result (λ p. 0 < length p.1) }
    ensures receipt { IfOk result (λ p.
        p.0 ≡ lane_receipt state.old.lane stamp (lift_entry state.old.lane.waiting) (flat_map spelling_of_waiting p.1)) }
    ensures state { IfOk result (λ p. state.new.lane ≡ entered p.0.stamp who (lift_entry state.old.lane.waiting) state.old.lane) }
    ensures idle { (result ≡ Err LiftEnd.Idle) ↔ (state.old.lane.waiting ≡ []) }
    ensures err { OnErr result (state.new.lane ≡ state.old.lane) }
{
    if state.waits() == 0 {
        return Err(LiftEnd::Idle);
    }
    let Ok(given) = front_bytes(state, alloc) else {
        return Err(LiftEnd::NoMemory);
    };
    let Ok(body) = number_bytes(alloc, lift_count(state) as u32) else {
        return Err(LiftEnd::NoMemory);
    };
    if state.reserve().is_err() {
        return Err(LiftEnd::NoMemory);
    }
    let stamp = stamp_after(state.last(), stamp);
    let place = state.history().len() as u64;
    let batch = state.lift(stamp, who)?;
    let receipt = Receipt {
        stamp,
        place,
        act: LIFTED,
        body,
        given,
    };
    Ok((receipt, batch))
}
