//! The entries of a desk, spelled.

ghost use Rattle.std.specs.Prelude.{◌≡◌, map, All, IfOk};
ghost use Rattle.ds_desk.specs.Desks.{IsKept};
ghost use Rattle.ds_share.specs.Desks.{act_body, act_number};
ghost use Rattle.ds_share.specs.Entries.{AreRising, ChangeRange, SpellsDesk, desk_spelled};

use crate::desk_acts::{DELEGATED, IMPORTED, LOOK, MAPPED, TICK, category_bytes};
use crate::entry::SpelledEntry;
use crate::told::REFUSED;
use ds_cert::Cert;
use ds_desk::{DeskChange, DeskEntry, DeskState};
use ds_wire::Bytes;
use std::alloc::{AllocError, Global};

/// The number of an entry's act.
fn number_of(act: &DeskChange) -> u8
    ensures { result ≡ act_number act.now }
{
    match act {
        DeskChange::Look => LOOK,
        DeskChange::Tick { .. } => TICK,
        DeskChange::Delegated(_) => DELEGATED,
        DeskChange::Imported(_) => IMPORTED,
        DeskChange::Mapped(_) => MAPPED,
        DeskChange::Refused(_) => REFUSED,
    }
}

/// What an entry says beside its act. `AllocError` where memory runs out.
fn body_of(alloc: Global, act: &DeskChange) -> Result<Bytes, AllocError>
    requires { ChangeRange act.now }
    ensures { IfOk result (λ bytes. bytes ≡ act_body act.now) }
{
    match act {
        DeskChange::Look => Ok(Bytes::new(alloc)),
        DeskChange::Tick { to } => Bytes::from_slice(alloc, &to.to_be_bytes()),
        DeskChange::Delegated(delegation) => delegation.encode(),
        DeskChange::Imported(Cert::Delegation(delegation)) => delegation.encode(),
        DeskChange::Imported(Cert::Address(address)) => address.encode(),
        DeskChange::Mapped(category) => category_bytes(alloc, category),
        DeskChange::Refused(rule) => Bytes::from_slice(alloc, &rule.number().to_be_bytes()),
    }
}

/// Entries, spelled. `AllocError` where memory runs out.
fn spelled(alloc: Global, entries: &[DeskEntry]) -> Result<Vec<SpelledEntry>, AllocError>
    requires { All (λ entry. ChangeRange entry.act) entries.now }
    ensures { IfOk result (λ v. v.items ≡ map desk_spelled entries.now) }
{
    let mut out = Vec::with_capacity(alloc, entries.len())?;
    for entry in entries {
        out.push(SpelledEntry {
            stamp: entry.stamp,
            who: entry.who,
            act: number_of(&entry.act),
            body: body_of(alloc, &entry.act)?,
        })?;
    }
    Ok(out)
}

/// The entries of a desk since its opening, in order, spelled. `AllocError` where memory runs out.
pub(crate) fn entries_of(desk: &DeskState, alloc: Global) -> Result<Vec<SpelledEntry>, AllocError>
    requires kept { IsKept desk.now }
    ensures entries { IfOk result (λ v. v.items ≡ map desk_spelled desk.now.history.items) }
    ensures spelled { IfOk result (λ v. SpellsDesk v.items) }
    ensures rising { IfOk result (λ v. AreRising v.items) }
{
    let _kept = desk.store.list().as_slice();
    let _addresses = desk.addresses.as_slice();
    spelled(alloc, desk.history.as_slice())
}
