//! Usable names of a process, which have the numbers of a table.

ghost use Rattle.std.specs.Prelude.{◌≡◌, ◌+◌, ◌*◌, ◌-◌, ◌^◌, ◌<◌, IfSome, IsTrue, false};
ghost use Rattle.std.specs.List.{list_all};
ghost use Rattle.ds_label.specs.Names.{same_category};
ghost use Rattle.ds_model.specs.Mapping.{is_home as is_home_of, kind_number};
ghost use Rattle.ds_actor.specs.Asking.{HasTable};
ghost use Rattle.ds_turn.specs.ProcNames.{HasNumber, has_home_number, leaves_number};

use ds_label::{Category, Kind, PubKey};
use ds_map::home_number;
use ds_script::Usable;

/// The least number of a foreign category.
const FIRST_FOREIGN: u64 = 1 << 63;

/// Whether the host itself made the category, with a number below 2^62.
fn is_home(here: &PubKey, c: &Category) -> bool
    ensures { result ≡ is_home_of here.now c.now }
{
    c.creator == *here && c.number < 1 << 62
}

/// Whether it is the name of a category that the host made, with its own number.
fn has_home_number(here: &PubKey, name: &Usable) -> bool
    ensures { result ≡ has_home_number here.now name.now }
{
    is_home(here, &name.category) && home_number(&name.category) == name.local
}

/// Whether each of them is one.
fn have_home_numbers(here: &PubKey, names: &[Usable]) -> bool
    ensures { result ≡ list_all (has_home_number here.now) names.now }
{
    names.iter().all(|name| has_home_number(here, name))
}

/// Whether names went on as `after`, with nothing but categories that the host made. Then they have the numbers of the same tables.
pub(crate) fn went_on(here: &PubKey, before: &[Usable], after: &[Usable]) -> bool
    ensures { IsTrue result → HasTable here.now before.now → HasTable here.now after.now }
{
    if after.len() < before.len() {
        return false;
    }
    let (front, more) = after.split_at(before.len());
    front == before && have_home_numbers(here, more)
}

/// The parity of a category's number.
fn parity(kind: Kind) -> u64
    ensures value { result ≡ kind_number kind }
    ensures bit { result < 2 }
{
    match kind {
        Kind::Secrecy => 0,
        Kind::Integrity => 1,
    }
}

/// The row of a foreign category with this number; none where its number isn't one.
fn row_for(kind: Kind, number: u64) -> Option<u64>
    ensures { IfSome result (λ row. number ≡ 2 ^ 63 + 2 * row + kind_number kind) }
{
    if number < FIRST_FOREIGN {
        return None;
    }
    let beyond = number - FIRST_FOREIGN;
    let row = beyond / 2;
    if beyond - 2 * row != parity(kind) {
        return None;
    }
    Some(row)
}

/// Whether both are one category.
fn is_same(a: &Category, b: &Category) -> bool
    ensures { result ≡ same_category a.now b.now }
{
    *a == *b
}

/// Whether a name leaves a foreign category this number, of the row that begins with `even`.
fn leaves_number(here: &PubKey, c: &Category, number: u64, even: u64, name: &Usable) -> bool
    requires { even < 2 ^ 64 - 1 }
    ensures { result ≡ leaves_number here.now c.now number even name.now }
{
    if is_same(&name.category, c) {
        return name.local == number;
    }
    is_home(here, &name.category) || (name.local != even && name.local != even + 1)
}

/// Whether each of them does.
fn leave_number(here: &PubKey, c: &Category, number: u64, even: u64, names: &[Usable]) -> bool
    requires { even < 2 ^ 64 - 1 }
    ensures { result ≡ list_all (leaves_number here.now c.now number even) names.now }
{
    names
        .iter()
        .all(|name| leaves_number(here, c, number, even, name))
}

/// Whether a category of another host has this number in a table that has the numbers of the names.
fn has_foreign_number(here: &PubKey, names: &[Usable], c: &Category, number: u64) -> bool
    requires { is_home_of here.now c.now ≡ false }
    ensures { IsTrue result → HasTable here.now names.now → HasNumber here.now names.now c.now number }
{
    match row_for(c.kind, number) {
        None => false,
        Some(_row) => leave_number(here, c, number, number - parity(c.kind), names),
    }
}

/// Whether a category has this number in a table that has the numbers of the names.
pub(crate) fn has_number(here: &PubKey, names: &[Usable], c: &Category, number: u64) -> bool
    ensures { IsTrue result → HasTable here.now names.now → HasNumber here.now names.now c.now number }
{
    if is_home(here, c) {
        return home_number(c) == number;
    }
    has_foreign_number(here, names, c, number)
}
