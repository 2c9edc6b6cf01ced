//! Keys that are taken one after another.
#![tactic(auto)]

ghost use Rattle.std.specs.Prelude.{◌≡◌, ◌<◌, ◌∷◌, length};
ghost use Rattle.std.specs.Vec.Iter.{into_iter_items};

use lms_sig::TreeKey;
use std::vec::IntoIter;

/// The next key, of which there is one.
pub fn next_key(keys: &mut IntoIter<TreeKey>) -> TreeKey
    requires { 0 < length (into_iter_items keys.old) }
    ensures { into_iter_items keys.old ≡ result ∷ into_iter_items keys.new }
{
    let Some(key) = keys.next() else {
        unreachable!();
    };
    key
}
