//! Numbers of home categories and of rows.

ghost use Rattle.std.specs.Prelude.{◌≡◌, ◌+◌, ◌*◌, ◌^◌, ◌<◌};
ghost use Rattle.ds_model.specs.Mapping.{is_home as is_home_of, home_number as home_number_of, kind_number, kind_of as kind_of_number};

use ds_label::{Category, Kind, PubKey};

/// Most rows of a table.
pub const ROW_LIMIT: usize = 1024;

/// The number of the first row's secrecy category.
pub const FIRST_FOREIGN: u64 = 1 << 63;

/// The least number that no home category has.
const HOME_LIMIT: u64 = 1 << 62;

/// Whether this host made the category, with a number below 2^62.
pub fn is_home(here: &PubKey, name: &Category) -> bool
    ensures { result ≡ is_home_of here.now name.now }
{
    name.creator == *here && name.number < HOME_LIMIT
}

/// The local number of a home category: twice its number, and 1 more for integrity. It needs a number below 2^62.
pub fn home_number(name: &Category) -> u64
    requires { name.now.number < 2 ^ 62 }
    ensures { result ≡ home_number_of name.now }
{
    2 * name.number + parity(name.kind)
}

/// The number of a foreign category in that row.
pub fn foreign_number(row: usize, kind: Kind) -> u64
    requires { row < 2 ^ 32 }
    ensures { result ≡ 2 ^ 63 + 2 * row + kind_number kind }
{
    FIRST_FOREIGN + 2 * row as u64 + parity(kind)
}

/// The parity of a category's number.
fn parity(kind: Kind) -> u64
    ensures value { result ≡ kind_number kind }
    ensures bit { result < 2 }
{
    match kind {
        Kind::Secrecy => 0,
        Kind::Integrity => 1,
    }
}

/// The kind that a number's parity says.
pub fn kind_of(number: u64) -> Kind
    ensures { result ≡ kind_of_number number }
{
    if number % 2 == 0 {
        Kind::Secrecy
    } else {
        Kind::Integrity
    }
}
