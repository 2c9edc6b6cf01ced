//! A mailbox behind a lock.

ghost use Rattle.std.specs.Prelude.{◌≡◌, ◌↔◌, ◌<◌, ◌-◌, ◌^◌, [], max, map, slice_get, All, Err, Some, IfOk, IfErr, OnErr};
ghost use Rattle.ds_msg.specs.declared.local.LocalMessage.{LocalMessage};
ghost use Rattle.ds_model.specs.Mailbox.{put_entry, TookOut};
ghost use Rattle.ds_box.specs.Boxes.{IsShortAct, IsShortMail, act_of, entered, last_stamp};
ghost use Rattle.ds_share.specs.Entries.{AreRising, SpellsBox, box_spelled};
ghost use Rattle.ds_share.specs.Mailboxes.{IsReceiptOfPut, IsReceiptOfTake, act_body, act_number, box_receipt};
ghost use Rattle.ds_share.specs.Spelling.{spelling_of_mail};

use crate::entry::SpelledEntry;
use crate::lending::{lend, stamp_after};
use crate::receipt::Receipt;
use crate::spelling::mail_bytes;
use ds_base::Gate;
use ds_box::{BoxAct, BoxEntry, BoxState};
use ds_msg::LocalMessage;
use ds_script::Actor;
use ds_wire::Bytes;
use std::alloc::{AllocError, Global};
use std::sync::{Mutex, Wait};
use thiserror::Error;

/// The acts of a mailbox's entries as numbers.
const PUT: u8 = 1;

const FULL: u8 = 2;

const TOOK: u8 = 3;

/// Why nothing was taken. Nothing is entered then, and nothing changed.
#[derive(Clone, Copy, PartialEq, Eq, Debug, Error)]
pub enum TakeEnd {
    /// No message waits.
    #[error("no message waits")]
    Empty,
    /// Memory ran out.
    #[error("out of memory")]
    NoMemory,
}

/// A mailbox behind a lock.
#[derive(Drop)]
pub struct SharedBox {
    alloc: Global,
    state: Mutex<BoxState>,
}

impl SharedBox {
    /// This mailbox behind a lock. It takes no memory.
    pub fn new(alloc: Global, state: BoxState) -> SharedBox {
        SharedBox {
            alloc,
            state: Mutex::new(state),
        }
    }

    /// Puts a message, or drops it where the mailbox is full. Passes the gate just before, with the mailbox's slot as its spot.
    /// The receipt's act is 1 where the message was queued and 2 where it was dropped; it spells the message, and nothing is
    /// handed out.
    ///
    /// # Errors
    ///
    /// `AllocError` with the message where memory runs out. Nothing is entered then, and the mailbox is as it was.
    pub fn put<G: Gate, R: Wait>(
        &self,
        rt: &R,
        gate: &G,
        slot: u32,
        stamp: u64,
        who: Actor,
        message: LocalMessage,
    ) -> Result<Receipt, (LocalMessage, AllocError)>
        requires short { IsShortMail message }
        ensures ok { IfOk result (IsReceiptOfPut stamp message) }
        ensures err { IfErr result (λ e. e.0 ≡ message) }
    {
        let Ok(kept) = message.copy() else {
            return Err((message, AllocError));
        };
        let Ok(body) = mail_bytes(self.alloc, &message) else {
            return Err((message, AllocError));
        };
        gate.pass(slot);
        let mut state = lend(rt, &self.state, stamp);
        if state.reserve().is_err() {
            return Err((message, AllocError));
        }
        Ok(put_in(&mut state, self.alloc, stamp, who, message, kept, body))
    }

    /// Takes the message that waits longest. The receipt's act is 3; it spells nothing of the entry, and the message as what
    /// was handed out.
    ///
    /// # Errors
    ///
    /// - `Empty` where no message waits.
    /// - `NoMemory` where memory runs out.
    pub fn take<R: Wait>(
        &self,
        rt: &R,
        stamp: u64,
        who: Actor,
    ) -> Result<(Receipt, LocalMessage), TakeEnd>
        ensures ok { IfOk result (λ p. IsReceiptOfTake stamp p.1 p.0) }
        ensures short { IfOk result (λ p. IsShortMail p.1) }
    {
        let mut state = lend(rt, &self.state, stamp);
        take_in(&mut state, self.alloc, stamp, who)
    }

    /// The entries since the mailbox's opening, in order, spelled. No clause says which calls they are of, since other callers may
    /// take the lock at any time. `AllocError` where memory runs out.
    pub fn entries<R: Wait>(&self, rt: &R) -> Result<Vec<SpelledEntry>, AllocError>
        ensures spelled { IfOk result (λ v. SpellsBox v.items) }
        ensures rising { IfOk result (λ v. AreRising v.items) }
    {
        let state = self.state.lock(rt);
        box_entries(&state, self.alloc)
    }
}

/// The number of an entry's act.
fn number_of(act: &BoxAct) -> u8
    ensures { result ≡ act_number act.now }
{
    match act {
        BoxAct::Put(_) => PUT,
        BoxAct::Full(_) => FULL,
        BoxAct::Took => TOOK,
    }
}

/// What an entry says beside its act. `AllocError` where memory runs out.
fn body_of(alloc: Global, act: &BoxAct) -> Result<Bytes, AllocError>
    requires { IsShortAct act.now }
    ensures { IfOk result (λ bytes. bytes ≡ act_body act.now) }
{
    match act {
        BoxAct::Put(message) => mail_bytes(alloc, message),
        BoxAct::Full(message) => mail_bytes(alloc, message),
        BoxAct::Took => Ok(Bytes::new(alloc)),
    }
}

/// Entries, spelled. `AllocError` where memory runs out.
fn spelled(alloc: Global, entries: &[BoxEntry]) -> Result<Vec<SpelledEntry>, AllocError>
    requires { All (λ entry. IsShortAct entry.act) entries.now }
    ensures { IfOk result (λ v. v.items ≡ map box_spelled entries.now) }
{
    let mut out = Vec::with_capacity(alloc, entries.len())?;
    for entry in entries {
        out.push(SpelledEntry {
            stamp: entry.stamp,
            who: entry.who,
            act: number_of(&entry.act),
            body: body_of(alloc, &entry.act)?,
        })?;
    }
    Ok(out)
}

/// The entries of a mailbox that a lock lends, since its opening, in order, spelled. `AllocError` where memory runs out.
pub fn box_entries(state: &BoxState, alloc: Global) -> Result<Vec<SpelledEntry>, AllocError>
    ensures entries { IfOk result (λ v. v.items ≡ map box_spelled state.now.mailbox.history) }
    ensures spelled { IfOk result (λ v. SpellsBox v.items) }
    ensures rising { IfOk result (λ v. AreRising v.items) }
{
    state.is_replay();
    spelled(alloc, state.history())
}

/// The number of the act that a put would enter.
fn put_number(state: &BoxState) -> u8
    ensures { (m : LocalMessage) → result ≡ act_number (act_of (put_entry state.now.mailbox.room m state.now.mailbox.waiting)) }
{
    if state.is_full() { FULL } else { PUT }
}

/// A put on a mailbox that a lock lends, with room for it: `kept` is equal to the message, and `body` spells it. It takes no
/// memory.
pub fn put_in(
    state: &mut BoxState,
    alloc: Global,
    stamp: u64,
    who: Actor,
    message: LocalMessage,
    kept: LocalMessage,
    body: Bytes,
) -> Receipt
    requires room { 0 < state.old.spare }
    requires left { max (last_stamp state.old.mailbox) stamp < 2 ^ 64 - 1 }
    requires short { IsShortMail message }
    requires same { kept ≡ message }
    requires spelled { body ≡ spelling_of_mail message }
    ensures receipt { result ≡ box_receipt state.old.mailbox stamp (put_entry state.old.mailbox.room message state.old.mailbox.waiting) [] }
    ensures state { state.new.mailbox ≡ entered result.stamp who (put_entry state.old.mailbox.room message state.old.mailbox.waiting) state.old.mailbox }
{
    let stamp = stamp_after(state.last(), stamp);
    let place = state.history().len() as u64;
    let act = put_number(state);
    state.put(stamp, who, message, kept);
    Receipt {
        stamp,
        place,
        act,
        body,
        given: Bytes::new(alloc),
    }
}

/// The oldest message, spelled. `Empty` exactly where none waits, `NoMemory` where memory runs out.
fn oldest_bytes(state: &BoxState, alloc: Global) -> Result<Bytes, TakeEnd>
    ensures spelled { IfOk result (λ bytes. (m : LocalMessage) → slice_get state.now.mailbox.waiting 0 ≡ Some m → bytes ≡ spelling_of_mail m) }
    ensures empty { (result ≡ Err TakeEnd.Empty) ↔ (state.now.mailbox.waiting ≡ []) }
{
    let Some(message) = state.oldest() else {
        return Err(TakeEnd::Empty);
    };
    match mail_bytes(alloc, message) {
        Ok(bytes) => Ok(bytes),
        Err(AllocError) => Err(TakeEnd::NoMemory),
    }
}

/// A take on a mailbox that a lock lends.
///
/// # Errors
///
/// - `Empty` exactly where no message waits.
/// - `NoMemory` where memory runs out.
///
/// Nothing is entered after either, and the mailbox is as it was.
pub fn take_in(
    state: &mut BoxState,
    alloc: Global,
    stamp: u64,
    who: Actor,
) -> Result<(Receipt, LocalMessage), TakeEnd>
    requires left { max (last_stamp state.old.mailbox) stamp < 2 ^ 64 - 1 }
    ensures taken { IfOk result (λ p. slice_get state.old.mailbox.waiting 0 ≡ Some p.1) }
    ensures short { IfOk result (λ p. IsShortMail p.1) }
    ensures receipt { IfOk result (λ p. p.0 ≡ box_receipt state.old.mailbox stamp TookOut (spelling_of_mail p.1)) }
    ensures state { IfOk result (λ p. state.new.mailbox ≡ entered p.0.stamp who TookOut state.old.mailbox) }
    ensures empty { (result ≡ Err TakeEnd.Empty) ↔ (state.old.mailbox.waiting ≡ []) }
    ensures err { OnErr result (state.new.mailbox ≡ state.old.mailbox) }
{
    let given = oldest_bytes(state, alloc)?;
    if state.reserve().is_err() {
        return Err(TakeEnd::NoMemory);
    }
    let stamp = stamp_after(state.last(), stamp);
    let place = state.history().len() as u64;
    let Ok(message) = state.take(stamp, who) else {
        unreachable!();
    };
    let receipt = Receipt {
        stamp,
        place,
        act: TOOK,
        body: Bytes::new(alloc),
        given,
    };
    Ok((receipt, message))
}
