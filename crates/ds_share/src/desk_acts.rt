//! The acts of a desk: each makes one entry, and is answered.

ghost use Rattle.std.specs.Prelude.{◌≡◌, ◌≢◌, ◌<◌, ◌≤◌, [], Err, false, length, IfOk, IfErr, OnOk, OnErr};
ghost use Rattle.std.specs.Int.{w64, to_be_bytes};
ghost use Rattle.ds_base.specs.Counts.{Rose};
ghost use Rattle.ds_wire.specs.Fields.{IsBytes};
ghost use Rattle.ds_cert.specs.Spelling.{spelling_of_category};
ghost use Rattle.ds_model.specs.Scheme.{Scheme};
ghost use Rattle.ds_model.specs.Plan.{HostPlan};
ghost use Rattle.ds_model.specs.Desk.{Delegating, Importing, Looked, Mapping, Ticked};
ghost use Rattle.ds_map.specs.Table.{is_stray};
ghost use Rattle.ds_desk.specs.Desks.{IsKept, entered, kept_of, last_stamp};
ghost use Rattle.ds_desk.specs.Replies.{entry_for, reply_for};
ghost use Rattle.ds_share.specs.declared.desk_act.DeskReply.TheVariants as replies;
ghost use Rattle.ds_share.specs.Desks.{SaysDone, SaysOfDelegating, SaysOfImporting, SaysOfMapping, answer_of, given_by_desk};
ghost use Rattle.ds_share.specs.Tells.{Tells, delegation_told, import_told, mapping_told, told};

use crate::desk_act::{DeskReply, TurnFault};
use crate::spelling::append_category;
use crate::told::{Told, filled, refused, roomy};
use ds_base::Keeper;
use ds_desk::{DeskFault, DeskState, EntryFault};
use ds_label::{Category, PubKey};
use ds_script::Actor;
use ds_wire::{Buffer, Bytes};
use std::alloc::{AllocError, Global};

/// The acts of a desk's entries as numbers.
pub(crate) const LOOK: u8 = 1;

pub(crate) const TICK: u8 = 2;

pub(crate) const DELEGATED: u8 = 3;

pub(crate) const IMPORTED: u8 = 4;

pub(crate) const MAPPED: u8 = 5;

/// Most bytes of a delegation's spelling.
const DELEGATION_LIMIT: usize = 2704;

/// The moment becomes the greater of itself and `to`. `NoMemory` where memory runs out; nothing is entered then.
pub(crate) fn tick(
    desk: &mut DeskState,
    alloc: Global,
    stamp: u64,
    who: Actor,
    to: u64,
) -> Result<Told, TurnFault>
    requires kept { IsKept desk.old }
    requires later { last_stamp desk.old < stamp }
    ensures told { IfOk result (λ t. t ≡ told (Ticked to) (given_by_desk t.reply) replies.Done) }
    ensures says { IfOk result (Tells (SaysDone 2 (to_be_bytes w64 to))) }
    ensures state { OnOk result (kept_of desk.new ≡ entered stamp who (Ticked to) (kept_of desk.old)) }
    ensures fault { IfErr result (λ e. e ≡ TurnFault.NoMemory) }
    ensures err { OnErr result (kept_of desk.new ≡ kept_of desk.old) }
    ensures kept { IsKept desk.new }
{
    let body = Bytes::from_slice(alloc, &to.to_be_bytes())?;
    desk.tick(stamp, who, to)?;
    Ok(Told {
        act: TICK,
        body,
        given: Bytes::new(alloc),
        reply: DeskReply::Done,
    })
}

/// The desk is read. `NoMemory` where memory runs out; nothing is entered then.
pub(crate) fn look(
    desk: &mut DeskState,
    alloc: Global,
    stamp: u64,
    who: Actor,
) -> Result<Told, TurnFault>
    requires kept { IsKept desk.old }
    requires later { last_stamp desk.old < stamp }
    ensures told { IfOk result (λ t. t ≡ told Looked (given_by_desk t.reply) replies.Done) }
    ensures says { IfOk result (Tells (SaysDone 1 [])) }
    ensures state { OnOk result (kept_of desk.new ≡ entered stamp who Looked (kept_of desk.old)) }
    ensures fault { IfErr result (λ e. e ≡ TurnFault.NoMemory) }
    ensures err { OnErr result (kept_of desk.new ≡ kept_of desk.old) }
    ensures kept { IsKept desk.new }
{
    desk.reserve()?;
    desk.look(stamp, who);
    Ok(Told {
        act: LOOK,
        body: Bytes::new(alloc),
        given: Bytes::new(alloc),
        reply: DeskReply::Done,
    })
}

/// What is told of a delegation, by what the desk answered. It takes no memory: `room` has it.
fn tell_delegation(
    alloc: Global,
    room: Buffer,
    answer: Result<Bytes, DeskFault>,
) -> Result<Told, TurnFault>
    requires bytes { room.bytes ≡ [] }
    requires room { 2704 ≤ room.spare }
    requires short { IfOk answer (λ bytes. length bytes ≤ 2704) }
    ensures { result ≡ delegation_told answer }
{
    match answer {
        Ok(made) => Ok(Told {
            act: DELEGATED,
            body: filled(room, made.as_slice()),
            given: Bytes::new(alloc),
            reply: DeskReply::Made(made),
        }),
        Err(DeskFault::Refused(rule)) => Ok(refused(alloc, room, rule)),
        Err(DeskFault::KeeperFault) => Err(TurnFault::KeeperFault),
        Err(DeskFault::NoMemory) => Err(TurnFault::NoMemory),
    }
}

/// A delegation is made, or a rule that refuses it is entered. After a fault nothing is entered: `KeeperFault` where the keeper
/// failed to raise the key's mark, `NoMemory` where memory ran out.
pub(crate) fn delegate<K: Keeper>(
    desk: &mut DeskState,
    alloc: Global,
    stamp: u64,
    who: Actor,
    keeper: &mut K,
    category: Category,
    to: PubKey,
    from: u64,
    until: u64,
) -> Result<Told, TurnFault>
    requires kept { IsKept desk.old }
    requires later { last_stamp desk.old < stamp }
    ensures told { (s : Scheme) (plan : HostPlan) → IfOk result (λ t.
        t ≡ told (entry_for s plan (kept_of desk.old) (Delegating category to from until)) (given_by_desk t.reply)
        (answer_of (reply_for s plan (kept_of desk.old) (Delegating category to from until)))) }
    ensures says { IfOk result (Tells SaysOfDelegating) }
    ensures state { (s : Scheme) (plan : HostPlan) → OnOk result
        (kept_of desk.new ≡ entered stamp who (entry_for s plan (kept_of desk.old) (Delegating category to from until)) (kept_of desk.old)) }
    ensures err { OnErr result (kept_of desk.new ≡ kept_of desk.old) }
    ensures kept { IsKept desk.new }
    ensures faults { K.faults keeper.old ≤ K.faults keeper.new }
    ensures untouched { IfErr result (λ e. e ≢ TurnFault.KeeperFault → keeper.new ≡ keeper.old) }
    ensures fault { result ≡ Err TurnFault.KeeperFault → Rose (K.faults keeper.old) (K.faults keeper.new) }
{
    let room = roomy(alloc, DELEGATION_LIMIT)?;
    let answer = desk.delegate(stamp, who, keeper, category, to, from, until);
    tell_delegation(alloc, room, answer)
}

/// A slice of bytes is a list of bytes. It does nothing: its contract is what the type says.
fn show_bytes(bytes: &[u8])
    ensures { IsBytes bytes.now }
{
    let _size = bytes.len();
}

/// What is told of an import, by what the desk answered. It takes no memory: `room` has it.
fn tell_import(
    alloc: Global,
    room: Buffer,
    cert: Bytes,
    answer: Result<(), EntryFault>,
) -> Result<Told, TurnFault>
    requires bytes { room.bytes ≡ [] }
    requires room { 1 ≤ room.spare }
    ensures { result ≡ import_told cert answer }
{
    match answer {
        Ok(()) => Ok(Told {
            act: IMPORTED,
            body: cert,
            given: Bytes::new(alloc),
            reply: DeskReply::Done,
        }),
        Err(EntryFault::Refused(rule)) => Ok(refused(alloc, room, rule)),
        Err(EntryFault::NoMemory) => Err(TurnFault::NoMemory),
    }
}

/// A certificate is kept, or a rule that refuses it is entered. `NoMemory` where memory runs out; nothing is entered then.
pub(crate) fn import(
    desk: &mut DeskState,
    alloc: Global,
    stamp: u64,
    who: Actor,
    cert: Bytes,
) -> Result<Told, TurnFault>
    requires kept { IsKept desk.old }
    requires later { last_stamp desk.old < stamp }
    ensures told { (s : Scheme) (plan : HostPlan) → IfOk result (λ t.
        t ≡ told (entry_for s plan (kept_of desk.old) (Importing cert)) (given_by_desk t.reply)
        (answer_of (reply_for s plan (kept_of desk.old) (Importing cert)))) }
    ensures says { IfOk result (Tells (SaysOfImporting cert)) }
    ensures state { (s : Scheme) (plan : HostPlan) → OnOk result
        (kept_of desk.new ≡ entered stamp who (entry_for s plan (kept_of desk.old) (Importing cert)) (kept_of desk.old)) }
    ensures fault { IfErr result (λ e. e ≡ TurnFault.NoMemory) }
    ensures err { OnErr result (kept_of desk.new ≡ kept_of desk.old) }
    ensures kept { IsKept desk.new }
{
    let room = roomy(alloc, 1)?;
    show_bytes(cert.as_slice());
    let answer = desk.import(stamp, who, cert.as_slice());
    tell_import(alloc, room, cert, answer)
}

/// A category, spelled. `AllocError` where memory runs out.
#[tactic(auto, unfolding(ds_cert::specs::Spelling::spelling_of_category))]
pub(crate) fn category_bytes(alloc: Global, category: &Category) -> Result<Bytes, AllocError>
    ensures { IfOk result (λ bytes. bytes ≡ spelling_of_category category.now) }
{
    let mut out = Bytes::new(alloc);
    append_category(&mut out, category)?;
    Ok(out)
}

/// What is told of a mapping, by what the desk answered: `body` spells the category. It takes no memory: `room` has it.
fn tell_mapping(
    alloc: Global,
    room: Buffer,
    body: Bytes,
    answer: Result<u64, EntryFault>,
) -> Result<Told, TurnFault>
    requires bytes { room.bytes ≡ [] }
    requires room { 8 ≤ room.spare }
    ensures { result ≡ mapping_told body answer }
{
    match answer {
        Ok(local) => Ok(Told {
            act: MAPPED,
            body,
            given: filled(room, &local.to_be_bytes()),
            reply: DeskReply::Local(local),
        }),
        Err(EntryFault::Refused(rule)) => Ok(refused(alloc, room, rule)),
        Err(EntryFault::NoMemory) => Err(TurnFault::NoMemory),
    }
}

/// A category gets a number, or a rule that refuses it is entered. `NoMemory` where memory runs out; nothing is entered then.
pub(crate) fn map_foreign(
    desk: &mut DeskState,
    alloc: Global,
    stamp: u64,
    who: Actor,
    name: Category,
) -> Result<Told, TurnFault>
    requires kept { IsKept desk.old }
    requires later { last_stamp desk.old < stamp }
    requires name { is_stray desk.old.here name ≡ false }
    ensures told { (s : Scheme) (plan : HostPlan) → IfOk result (λ t.
        t ≡ told (entry_for s plan (kept_of desk.old) (Mapping name)) (given_by_desk t.reply)
        (answer_of (reply_for s plan (kept_of desk.old) (Mapping name)))) }
    ensures says { IfOk result (Tells (SaysOfMapping name)) }
    ensures state { (s : Scheme) (plan : HostPlan) → OnOk result
        (kept_of desk.new ≡ entered stamp who (entry_for s plan (kept_of desk.old) (Mapping name)) (kept_of desk.old)) }
    ensures fault { IfErr result (λ e. e ≡ TurnFault.NoMemory) }
    ensures err { OnErr result (kept_of desk.new ≡ kept_of desk.old) }
    ensures kept { IsKept desk.new }
{
    let body = category_bytes(alloc, &name)?;
    let room = roomy(alloc, 8)?;
    let answer = desk.map_foreign(stamp, who, name);
    tell_mapping(alloc, room, body, answer)
}
