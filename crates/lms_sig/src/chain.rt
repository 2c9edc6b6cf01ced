//! The randomiser of a leaf (RFC 8554, appendix A).

ghost use Rattle.std.specs.Prelude.{◌≡◌, ◌++◌};
ghost use Rattle.sha2.specs.Sha256.{sha256};
ghost use Rattle.lms_sig.specs.OneTime.{C};
ghost use Rattle.lms_sig.specs.Strings.{u8str};

use crate::hash::{PREFIX, prefix};
use sha2::{Digest, Sha256};

// The place of the secret starts and of the randomiser in a chain, after every step.
pub(crate) const SECRET: u8 = 0xff;

// The place of the randomiser beside the chains.
const RANDOMISER: u16 = 0xfffd;

// The hash of a prefix, a step's number and a value: 55 bytes, one block of SHA-256.
fn step_hash(prefix: &[u8; PREFIX], j: u8, value: &[u8; 32]) -> [u8; 32]
    ensures { result ≡ sha256 (prefix.now ++ u8str j ++ value.now) }
{
    let mut hasher = Sha256::new();
    hasher.update(prefix);
    hasher.update(&[j]);
    hasher.update(value);
    hasher.finalize()
}

// The randomiser of a leaf.
pub(crate) fn randomiser(seed: &[u8; 32], id: &[u8; 16], q: u32) -> [u8; 32]
    ensures { result ≡ C seed.now id.now q }
{
    step_hash(&prefix(id, q, RANDOMISER), SECRET, seed)
}
