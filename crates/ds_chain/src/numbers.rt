ghost use Rattle.std.specs.Prelude.{◌≡◌, ℕ, ◌<◌, length, IfSome, IfNone, IfOk, OnErr, vec_items};
ghost use Rattle.ds_chain.specs.Naming.{key_of, HasNumber};

use ds_label::PubKey;
use std::alloc::AllocError;

/// The number of a key, which is its place.
pub(crate) fn find_number(keys: &[PubKey], key: &PubKey) -> Option<usize>
    ensures within { IfSome result (λ n. n < length keys.now) }
    ensures named { IfSome result (λ n. key_of keys.now n ≡ key.now) }
    ensures none { IfNone result ((n : ℕ) → n < length keys.now → key_of keys.now n ≡ key.now → ⊥) }
{
    keys.iter().position(|other| other == key)
}

/// The number of a key, which is added where it has none.
pub(crate) fn number_of(keys: &mut Vec<PubKey>, key: &PubKey) -> Result<usize, AllocError>
    ensures ok { IfOk result (λ n. HasNumber keys.old.items keys.new.items key.now n) }
    ensures err { OnErr result (keys.new.items ≡ keys.old.items) }
{
    match find_number(keys, key) {
        Some(n) => Ok(n),
        None => {
            let n = keys.len();
            keys.push(*key)?;
            Ok(n)
        }
    }
}
