//! A host's desk: its moment, its categories' numbers, the delegations that it makes and imports.

ghost use Rattle.std.specs.Prelude.{◌≡◌, ◌<◌, ◌≤◌, IfOk, false};
ghost use Rattle.ds_desk.specs.Desks.{IsKept, last_stamp};

use crate::names::{Names, made_tree};
use crate::row::Row;
use ds_base::{Keeper, MemKeeper};
use ds_cert::Delegation;
use ds_chain::{AddressList, CertBook};
use ds_desk::{DeskChange, DeskFault, DeskState, EntryFault, IssuedList};
use ds_label::{Category, PubKey};
use ds_map::MapTable;
use ds_script::{Actor, ActorKind};
use ds_wire::Bytes;
use lms_state::Signer;
use std::alloc::{AllocError, Global};

/// The first process of the first host.
const WHO: Actor = Actor {
    kind: ActorKind::Proc,
    host: 0,
    index: 0,
};

/// A desk at moment 0 that keeps nothing.
fn fresh(alloc: Global, signer: Signer) -> Result<DeskState, AllocError>
    ensures { IfOk result (λ s. IsKept s × (last_stamp s ≡ 0)) }
{
    let here = PubKey(signer.public());
    DeskState::new(
        here,
        0,
        CertBook::new(alloc)?,
        AddressList::new(alloc),
        IssuedList::new(alloc),
        MapTable::new(alloc, here),
        signer,
    )
}

/// A signer of these types, whose mark is this. None where there is none.
fn signer(row: &mut Row<'_>, keeper: &mut MemKeeper, types: &[u8], mark: u64) -> Option<Signer> {
    let tree = made_tree(row.alloc, types, b"7", b"0");
    let tree = row.got(tree)?;
    let _ = keeper.raise(&tree.id(), mark);
    Signer::resume(tree, keeper).ok()
}

/// Says what a desk entered.
fn say_entry(row: &mut Row<'_>, act: &DeskChange) {
    match act {
        DeskChange::Look => row.say("look"),
        DeskChange::Tick { to } => {
            row.say("tick");
            row.say_number(*to);
        }
        DeskChange::Delegated(_) => row.say("delegated"),
        DeskChange::Imported(_) => row.say("imported"),
        DeskChange::Mapped(_) => row.say("mapped"),
        DeskChange::Refused(rule) => {
            row.say("refused");
            row.say(rule.name());
        }
    }
}

/// Says what a desk's history entered.
fn say_history(row: &mut Row<'_>, desk: &DeskState) {
    row.say("; entered");
    for entry in desk.history.as_slice() {
        say_entry(row, &entry.act);
    }
}

/// Two ticks and a look.
fn ticks(row: &mut Row<'_>, desk: &mut DeskState, first: u64, second: u64)
    requires kept { IsKept desk.old }
    requires last { last_stamp desk.old ≡ 0 }
{
    if desk.tick(1, WHO, first).is_err() || desk.tick(2, WHO, second).is_err() {
        return row.full();
    }
    if desk.reserve().is_err() {
        return row.full();
    }
    desk.look(3, WHO);
    row.say("moment");
    row.say_number(desk.moment);
}

/// Gives a category a number.
fn maps(row: &mut Row<'_>, desk: &mut DeskState, name: Category)
    requires kept { IsKept desk.old }
    requires last { last_stamp desk.old ≡ 0 }
{
    if name.number >= 1 << 62 {
        return row.bad();
    }
    match desk.map_foreign(1, WHO, name) {
        Ok(local) => row.say_number(local),
        Err(EntryFault::Refused(rule)) => row.say(rule.name()),
        Err(EntryFault::NoMemory) => row.full(),
    }
}

/// Says of bytes that a desk made how many they are, and whether the delegation that they spell is good, made by the desk,
/// kept, and in the list of those that it made.
fn say_made(row: &mut Row<'_>, desk: &DeskState, bytes: &Bytes) {
    row.say_number(bytes.len() as u64);
    row.say("bytes");
    let Ok(made) = Delegation::decode(row.alloc, bytes.as_slice()) else {
        return row.say("of no delegation");
    };
    row.say_if(made.is_good());
    row.say_if(made.by == desk.here);
    row.say_if(desk.store.is_kept(&made));
    match desk.issued.get(0) {
        Some(issued) => row.say_if(issued.same(&made)),
        None => row.say("no"),
    }
}

/// Delegates a category to a key, from 0 until 100.
fn delegates(
    row: &mut Row<'_>,
    desk: &mut DeskState,
    keeper: &mut MemKeeper,
    named: Category,
    to: PubKey,
)
    requires kept { IsKept desk.old }
    requires last { last_stamp desk.old ≡ 0 }
{
    match desk.delegate(1, WHO, keeper, named, to, 0, 100) {
        Ok(bytes) => say_made(row, desk, &bytes),
        Err(DeskFault::Refused(rule)) => row.say(rule.name()),
        Err(DeskFault::KeeperFault) => row.say("KeeperFault"),
        Err(DeskFault::NoMemory) => row.full(),
    }
}

/// Imports a certificate.
fn imports(row: &mut Row<'_>, desk: &mut DeskState, cert: &[u8])
    requires kept { IsKept desk.old }
    requires last { last_stamp desk.old ≡ 0 }
{
    match desk.import(1, WHO, cert) {
        Ok(()) => row.say("imported"),
        Err(EntryFault::Refused(rule)) => row.say(rule.name()),
        Err(EntryFault::NoMemory) => row.full(),
    }
}

/// Makes the call that the words name.
fn calls(row: &mut Row<'_>, names: &Names, desk: &mut DeskState, keeper: &mut MemKeeper)
    requires kept { IsKept desk.old }
    requires last { last_stamp desk.old ≡ 0 }
{
    if row.is(1, "ticks") {
        let (first, second) = (row.number(2), row.number(3));
        ticks(row, desk, first, second);
        return;
    }
    if row.is(1, "maps") {
        let name = row.category(names, 2);
        maps(row, desk, name);
        return;
    }
    if row.is(1, "imports") {
        let cert = row.bytes(names, 2);
        imports(row, desk, &cert);
        return;
    }
    let (named, to) = (row.category(names, 2), row.key(names, 3));
    delegates(row, desk, keeper, named, to);
}

/// `desk ticks A B`, `desk maps CATEGORY`, `desk delegates CATEGORY KEY by TYPES mark M`, `desk imports CERT`. Then it says
/// how many delegations and addresses the desk keeps, how many delegations it made, its next leaf and its history.
pub(crate) fn row(row: &mut Row<'_>, names: &Names) {
    let mut keeper = MemKeeper::new(
        Vec::new(row.alloc),
        Vec::new(row.alloc),
        Vec::new(row.alloc),
    );
    let (types, mark) = if row.is(4, "by") {
        (row.word(5), row.number(7))
    } else {
        (b"5.3".as_slice(), 0)
    };
    let Some(signer) = signer(row, &mut keeper, types, mark) else {
        return row.bad();
    };
    let Ok(mut desk) = fresh(row.alloc, signer) else {
        return row.full();
    };
    calls(row, names, &mut desk, &mut keeper);
    row.say("; keeps");
    row.say_number(desk.store.len() as u64);
    row.say_number(desk.addresses.len() as u64);
    row.say_number(desk.issued.len() as u64);
    row.say("next");
    row.say_number(desk.signer.next() as u64);
    say_history(row, &desk);
}
