//! Arrays that are filled piece by piece.

ghost use Rattle.std.specs.Prelude.{◌≡◌, ◌+◌, ◌≤◌, ◌++◌, length, take};
ghost use Rattle.ds_cert.specs.Spelling.{spelling_of_category};

use crate::writing::kind_number;
use ds_label::Category;

/// Writes a piece from a place on.
pub fn put(out: &mut [u8], at: usize, piece: &[u8])
    requires { at + length piece.now ≤ length out.old }
    ensures { take (at + length piece.now) out.new ≡ take at out.old ++ piece.now }
{
    out[at..at + piece.len()].copy_from_slice(piece);
}

/// A category's spelling.
#[tactic(auto, unfolding(crate::specs::Spelling::spelling_of_category))]
pub fn category_bytes(category: &Category) -> [u8; 65]
    ensures { result ≡ spelling_of_category category.now }
{
    let mut out = [0u8; 65];
    put(&mut out, 0, &category.creator.0);
    put(&mut out, 56, &[kind_number(category.kind)]);
    put(&mut out, 57, &category.number.to_be_bytes());
    out
}
