//! An inlet behind a lock.

ghost use Rattle.std.specs.Prelude.{◌≡◌, ◌<◌, ◌-◌, ◌^◌, map, max, nat_lt, true, false, Some, IfOk, MatchOption};
ghost use Rattle.std.specs.Int.{w32, to_be_bytes};
ghost use Rattle.ds_model.specs.Inlet.{is_fresh, number_entry};
ghost use Rattle.ds_inlet.specs.Inlets.{act_of, entered, last_stamp};
ghost use Rattle.ds_share.specs.Entries.{AreRising, SpellsInlet, inlet_spelled};
ghost use Rattle.ds_share.specs.SharedInlets.{IsReceiptOfAccept, act_body, act_number, inlet_receipt};

use crate::entry::SpelledEntry;
use crate::lending::{lend, stamp_after};
use crate::receipt::Receipt;
use crate::spelling::number_bytes;
use ds_inlet::{Inlet, InletAct, InletEntry, Stale};
use ds_script::Actor;
use ds_wire::Bytes;
use std::alloc::{AllocError, Global};
use std::sync::{Mutex, Wait};

/// The acts of an inlet's entries as numbers.
const FRESH: u8 = 1;

const STALE: u8 = 2;

/// An inlet behind a lock.
#[derive(Drop)]
pub struct SharedInlet {
    alloc: Global,
    state: Mutex<Inlet>,
}

impl SharedInlet {
    /// This inlet behind a lock. It takes no memory.
    pub fn new(alloc: Global, state: Inlet) -> SharedInlet {
        SharedInlet {
            alloc,
            state: Mutex::new(state),
        }
    }

    /// Takes a frame's number, which becomes the inlet's last one where it is above it or there is none. The receipt's act is 1
    /// then. Else it is 2, and `Stale` says the last number. The receipt spells the number, and nothing is handed out.
    ///
    /// # Errors
    ///
    /// `AllocError` where memory runs out. Nothing is entered then, and the inlet is as it was.
    pub fn accept<R: Wait>(
        &self,
        rt: &R,
        stamp: u64,
        who: Actor,
        number: u32,
    ) -> Result<(Receipt, Option<Stale>), AllocError>
        ensures { IfOk result (λ p. IsReceiptOfAccept stamp number p.1 p.0) }
    {
        let body = number_bytes(self.alloc, number)?;
        let mut state = lend(rt, &self.state, stamp);
        state.reserve()?;
        Ok(accept_in(&mut state, self.alloc, stamp, who, number, body))
    }

    /// The entries since the inlet's opening, in order, spelled. No clause says which calls they are of, since other callers may
    /// take the lock at any time. `AllocError` where memory runs out.
    pub fn entries<R: Wait>(&self, rt: &R) -> Result<Vec<SpelledEntry>, AllocError>
        ensures spelled { IfOk result (λ v. SpellsInlet v.items) }
        ensures rising { IfOk result (λ v. AreRising v.items) }
    {
        let state = self.state.lock(rt);
        inlet_entries(&state, self.alloc)
    }
}

/// The number of an entry's act.
fn number_of(act: &InletAct) -> u8
    ensures { result ≡ act_number act.now }
{
    match act {
        InletAct::Fresh(_) => FRESH,
        InletAct::Stale(_) => STALE,
    }
}

/// What an entry says beside its act. `AllocError` where memory runs out.
fn body_of(alloc: Global, act: &InletAct) -> Result<Bytes, AllocError>
    ensures { IfOk result (λ bytes. bytes ≡ act_body act.now) }
{
    match act {
        InletAct::Fresh(number) => number_bytes(alloc, *number),
        InletAct::Stale(number) => number_bytes(alloc, *number),
    }
}

/// Entries, spelled. `AllocError` where memory runs out.
fn spelled(alloc: Global, entries: &[InletEntry]) -> Result<Vec<SpelledEntry>, AllocError>
    ensures { IfOk result (λ v. v.items ≡ map inlet_spelled entries.now) }
{
    let mut out = Vec::with_capacity(alloc, entries.len())?;
    for entry in entries {
        out.push(SpelledEntry {
            stamp: entry.stamp,
            who: entry.who,
            act: number_of(&entry.act),
            body: body_of(alloc, &entry.act)?,
        })?;
    }
    Ok(out)
}

/// The entries of an inlet that a lock lends, since its opening, in order, spelled. `AllocError` where memory runs out.
pub fn inlet_entries(state: &Inlet, alloc: Global) -> Result<Vec<SpelledEntry>, AllocError>
    ensures entries { IfOk result (λ v. v.items ≡ map inlet_spelled state.now.inlet.history) }
    ensures spelled { IfOk result (λ v. SpellsInlet v.items) }
    ensures rising { IfOk result (λ v. AreRising v.items) }
{
    state.is_replay();
    spelled(alloc, state.history())
}

/// The number of the act that a frame's number would enter.
fn number_act(state: &Inlet, number: u32) -> u8
    ensures { result ≡ act_number (act_of (number_entry number state.now.inlet.number)) }
{
    if state.is_fresh(number) { FRESH } else { STALE }
}

/// Takes a frame's number on an inlet that a lock lends, with room for it: `body` spells the number. Answers the last number
/// exactly where there is one and it isn't below the frame's. It takes no memory.
pub fn accept_in(
    state: &mut Inlet,
    alloc: Global,
    stamp: u64,
    who: Actor,
    number: u32,
    body: Bytes,
) -> (Receipt, Option<Stale>)
    requires room { 0 < state.old.spare }
    requires left { max (last_stamp state.old.inlet) stamp < 2 ^ 64 - 1 }
    requires spelled { body ≡ to_be_bytes w32 number }
    ensures receipt { result.0 ≡ inlet_receipt state.old.inlet stamp (number_entry number state.old.inlet.number) }
    ensures state { state.new.inlet ≡ entered result.0.stamp who (number_entry number state.old.inlet.number) state.old.inlet }
    ensures stale { MatchOption result.1 (is_fresh number state.old.inlet.number ≡ true)
        (λ s. (state.old.inlet.number ≡ Some s.last) × (nat_lt s.last number ≡ false)) }
{
    let stamp = stamp_after(state.last_stamp(), stamp);
    let place = state.history().len() as u64;
    let act = number_act(state, number);
    let stale = state.accept(stamp, who, number).err();
    let receipt = Receipt {
        stamp,
        place,
        act,
        body,
        given: Bytes::new(alloc),
    };
    (receipt, stale)
}
