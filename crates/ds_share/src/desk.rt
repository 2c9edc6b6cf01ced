//! A desk behind a lock.

ghost use Rattle.std.specs.Prelude.{◌≡◌, ◌≢◌, ◌<◌, ◌≤◌, ◌-◌, ◌^◌, map, max, take, Err, IfOk, IfErr, OnOk, OnErr};
ghost use Rattle.std.specs.Sync.Mutex.{mutex_guard_value};
ghost use Rattle.ds_base.specs.Counts.{Rose};
ghost use Rattle.ds_model.specs.Scheme.{Scheme};
ghost use Rattle.ds_model.specs.Plan.{HostPlan};
ghost use Rattle.ds_desk.specs.Desks.{IsKept, entered, kept_of, last_stamp};
ghost use Rattle.ds_share.specs.Desks.{IsReceiptOfAct, MayAct, SaysOf, SparesKeeper, answer_for, change_for, desk_receipt, given_for, last_of_desk};
ghost use Rattle.ds_share.specs.Entries.{AreRising, SpellsDesk, desk_spelled};
ghost use Rattle.ds_share.specs.Tells.{Tells, told};

use crate::desk_act::{DeskAct, DeskReply, TurnFault};
use crate::desk_acts::{delegate, import, look, map_foreign, tick};
use crate::desk_history::entries_of;
use crate::desk_judging::{judge_arrived, judge_framed, judge_sent};
use crate::entry::SpelledEntry;
use crate::lending::stamp_after;
use crate::receipt::Receipt;
use crate::told::Told;
use ds_base::Keeper;
use ds_desk::DeskState;
use ds_label::PubKey;
use ds_script::Actor;
use std::alloc::{AllocError, Global};
use std::marker::Model;
use std::sync::{Mutex, MutexGuard, Wait};

/// A desk that is the replay of its history, with the stamp of its last entry. Contracts see the desk.
#[derive(Drop)]
pub struct LockedDesk {
    state: DeskState,
    last: u64,
}

impl Model for LockedDesk {
    ghost use Rattle.ds_desk.specs.Desks.{DeskView, kept_of};

    ghost Value = { DeskView };

    ghost use Rattle.ds_share.specs.DeskInside.{IsSound};

    ghost view = { λ l. kept_of l.state };

    ghost invariant = { IsSound };
}

/// The stamp of a desk's last entry.
fn last_stamp_of(desk: &DeskState) -> u64
    ensures { result ≡ last_stamp desk.now }
{
    let mut last = desk.opening.before;
    for entry in desk.history.as_slice() {
        last = entry.stamp;
    }
    last
}

impl LockedDesk {
    /// A desk that is the replay of its history. It takes no memory.
    pub fn new(state: DeskState) -> LockedDesk
        requires kept { IsKept state }
        ensures { result ≡ kept_of state }
    {
        let last = last_stamp_of(&state);
        LockedDesk { state, last }
    }

    /// The host's key.
    pub fn here(&self) -> &PubKey
        ensures { result.now ≡ self.now.here }
    {
        &self.state.here
    }

    /// The stamp of its last entry.
    pub fn last(&self) -> u64
        ensures { result ≡ last_of_desk self.now }
    {
        self.last
    }
}

/// One act of a desk at a stamp. After a fault nothing is entered: `KeeperFault` where the keeper failed to raise the key's mark,
/// `NoMemory` where memory ran out.
fn done<K: Keeper>(
    desk: &mut DeskState,
    alloc: Global,
    keeper: &mut K,
    stamp: u64,
    who: Actor,
    act: DeskAct,
) -> Result<Told, TurnFault>
    requires kept { IsKept desk.old }
    requires later { last_stamp desk.old < stamp }
    requires may { MayAct desk.old.here act }
    ensures told { (s : Scheme) (plan : HostPlan) → IfOk result (λ t.
        t ≡ told (change_for s plan (kept_of desk.old) act) (given_for act t.reply) (answer_for s plan (kept_of desk.old) act)) }
    ensures says { IfOk result (Tells (SaysOf act)) }
    ensures state { (s : Scheme) (plan : HostPlan) → OnOk result
        (kept_of desk.new ≡ entered stamp who (change_for s plan (kept_of desk.old) act) (kept_of desk.old)) }
    ensures err { OnErr result (kept_of desk.new ≡ kept_of desk.old) }
    ensures kept { IsKept desk.new }
    ensures faults { K.faults keeper.old ≤ K.faults keeper.new }
    ensures untouched { IfErr result (λ e. e ≢ TurnFault.KeeperFault → keeper.new ≡ keeper.old) }
    ensures spares { SparesKeeper act → keeper.new ≡ keeper.old }
    ensures fault { result ≡ Err TurnFault.KeeperFault → Rose (K.faults keeper.old) (K.faults keeper.new) }
{
    match act {
        DeskAct::Tick { to } => tick(desk, alloc, stamp, who, to),
        DeskAct::Delegate {
            category,
            to,
            from,
            until,
        } => delegate(desk, alloc, stamp, who, keeper, category, to, from, until),
        DeskAct::Import { cert } => import(desk, alloc, stamp, who, cert),
        DeskAct::MapForeign { name } => map_foreign(desk, alloc, stamp, who, name),
        DeskAct::Look => look(desk, alloc, stamp, who),
        DeskAct::JudgeSend {
            lane,
            to,
            label,
            own,
            clear,
        } => judge_sent(desk, alloc, stamp, who, lane, to, label, own, clear),
        DeskAct::JudgeFrame { to, label } => judge_framed(desk, alloc, stamp, who, to, label),
        DeskAct::JudgeArrive { lane, message } => {
            judge_arrived(desk, alloc, stamp, who, lane, message)
        }
    }
}

/// One act on a desk that a lock lends.
///
/// # Errors
///
/// `KeeperFault` where the keeper failed to raise the identity key's mark, `NoMemory` where memory runs out. Nothing is entered
/// after either, and the desk is as it was.
pub fn act_in<K: Keeper>(
    desk: &mut LockedDesk,
    alloc: Global,
    keeper: &mut K,
    stamp: u64,
    who: Actor,
    act: DeskAct,
) -> Result<(Receipt, DeskReply), TurnFault>
    requires left { max (last_of_desk desk.old) stamp < 2 ^ 64 - 1 }
    requires may { MayAct desk.old.here act }
    ensures reply { (s : Scheme) (plan : HostPlan) → IfOk result (λ p. p.1 ≡ answer_for s plan desk.old act) }
    ensures receipt { (s : Scheme) (plan : HostPlan) → IfOk result (λ p.
        p.0 ≡ desk_receipt desk.old stamp (change_for s plan desk.old act) (given_for act p.1)) }
    ensures says { IfOk result (λ p. SaysOf act p.1 p.0.act p.0.body p.0.given) }
    ensures state { (s : Scheme) (plan : HostPlan) → IfOk result (λ p. desk.new ≡ entered p.0.stamp who (change_for s plan desk.old act) desk.old) }
    ensures err { OnErr result (desk.new ≡ desk.old) }
    ensures faults { K.faults keeper.old ≤ K.faults keeper.new }
    ensures untouched { IfErr result (λ e. e ≢ TurnFault.KeeperFault → keeper.new ≡ keeper.old) }
    ensures spares { SparesKeeper act → keeper.new ≡ keeper.old }
    ensures fault { result ≡ Err TurnFault.KeeperFault → Rose (K.faults keeper.old) (K.faults keeper.new) }
{
    let stamp = stamp_after(desk.last, stamp);
    let place = desk.state.history.len() as u64;
    let told = done(&mut desk.state, alloc, keeper, stamp, who, act)?;
    desk.last = stamp;
    let receipt = Receipt {
        stamp,
        place,
        act: told.act,
        body: told.body,
        given: told.given,
    };
    Ok((receipt, told.reply))
}

/// A desk behind a lock, with the host's key beside it. Contracts see the key.
#[derive(Drop)]
pub struct SharedDesk {
    alloc: Global,
    here: PubKey,
    state: Mutex<LockedDesk>,
}

impl Model for SharedDesk {
    ghost use Rattle.ds_label.specs.declared.category.PubKey.{PubKey};

    ghost Value = { PubKey };

    ghost view = { λ d. d.here };
}

impl SharedDesk {
    /// This desk, which is the replay of its history, behind a lock. It takes no memory.
    pub fn new(alloc: Global, state: DeskState) -> SharedDesk
        requires kept { IsKept state }
        ensures { result ≡ state.here }
    {
        SharedDesk {
            alloc,
            here: state.here,
            state: Mutex::new(LockedDesk::new(state)),
        }
    }

    /// The host's key. It takes no lock.
    pub fn here(&self) -> &PubKey
        ensures { result.now ≡ self.now }
    {
        &self.here
    }

    /// Takes the lock, and again and again until a stamp is left above the caller's and the desk's last one. What the lock lends
    /// has the host's key, since it was made so and never changes.
    fn lend<R: Wait>(&self, rt: &R, stamp: u64) -> MutexGuard<'_, LockedDesk>
        ensures left { max (last_of_desk (mutex_guard_value result)) stamp < 2 ^ 64 - 1 }
        ensures same { (mutex_guard_value result).here ≡ self.now }
    {
        for _ in rt.forever() {
            let desk = self.state.lock(rt);
            if desk.last() < u64::MAX && stamp < u64::MAX && *desk.here() == self.here {
                return desk;
            }
        }
        unreachable!()
    }

    /// Does an act: the desk is changed or judged, and its answer told. A refusal by a rule is an answer. The receipt's act, what
    /// it spells of the entry and what was handed out, by the act and its answer:
    ///
    /// - a look, and each judgement: 1, nothing; a judgement that passes hands out the byte 0 and behind it the attached
    ///   certificates or the numbers, and one that is refused the rule;
    /// - a tick: 2, the moment;
    /// - a delegation that was made: 3, its spelling;
    /// - an import: 4, the certificate's spelling;
    /// - a category that has a number: 5, the category; the number is handed out;
    /// - any of these three that a rule refused: 6, the rule's number.
    ///
    /// # Errors
    ///
    /// - `KeeperFault` where the keeper failed to raise the identity key's mark.
    /// - `NoMemory` where memory runs out.
    ///
    /// Nothing is entered after either, and the desk is as it was; after `NoMemory` the keeper is too. Only a delegation uses the keeper.
    pub fn act<K: Keeper, R: Wait>(
        &self,
        rt: &R,
        keeper: &mut K,
        stamp: u64,
        who: Actor,
        act: DeskAct,
    ) -> Result<(Receipt, DeskReply), TurnFault>
        requires may { MayAct self.now act }
        ensures ok { IfOk result (λ p. IsReceiptOfAct stamp act p.1 p.0) }
        ensures faults { K.faults keeper.old ≤ K.faults keeper.new }
        ensures untouched { IfErr result (λ e. e ≢ TurnFault.KeeperFault → keeper.new ≡ keeper.old) }
        ensures spares { SparesKeeper act → keeper.new ≡ keeper.old }
        ensures fault { result ≡ Err TurnFault.KeeperFault → Rose (K.faults keeper.old) (K.faults keeper.new) }
    {
        let mut desk = self.lend(rt, stamp);
        act_in(&mut desk, self.alloc, keeper, stamp, who, act)
    }

    /// The entries since the desk's opening, in order, spelled. No clause says which acts they are of, since other callers may
    /// take the lock at any time. `AllocError` where memory runs out.
    pub fn entries<R: Wait>(&self, rt: &R) -> Result<Vec<SpelledEntry>, AllocError>
        ensures spelled { IfOk result (λ v. SpellsDesk v.items) }
        ensures rising { IfOk result (λ v. AreRising v.items) }
    {
        let desk = self.state.lock(rt);
        desk_entries(&desk, self.alloc)
    }
}

/// The entries of a desk that a lock lends, since its opening, in order, spelled. `AllocError` where memory runs out.
pub fn desk_entries(desk: &LockedDesk, alloc: Global) -> Result<Vec<SpelledEntry>, AllocError>
    ensures entries { IfOk result (λ v. v.items ≡ map desk_spelled desk.now.history) }
    ensures spelled { IfOk result (λ v. SpellsDesk v.items) }
    ensures rising { IfOk result (λ v. AreRising v.items) }
{
    entries_of(&desk.state, alloc)
}
