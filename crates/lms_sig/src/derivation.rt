//! How a host's secret gives the seeds and identifiers of its keys: this project's own.

ghost use Rattle.std.specs.Prelude.{◌≡◌, ◌++◌};
ghost use Rattle.sha2.specs.Sha256.{sha256};
ghost use Rattle.lms_sig.specs.Keys.{derived_id, derived_seed};
ghost use Rattle.lms_sig.specs.Strings.{u32str};

use crate::hash::u32_bytes;
use sha2::{Digest, Sha256};

/// The seed (32 bytes) and the identifier (16 bytes) of the key with this index, from a host's 32
/// secret bytes. It takes no memory.
pub fn derive(secret: &[u8; 32], index: u32) -> ([u8; 32], [u8; 16])
    ensures seed { result.0 ≡ derived_seed secret.now index }
    ensures id { result.1 ≡ derived_id secret.now index }
{
    let seed = labelled(b"dstar seed", secret, index);
    let name = labelled(b"dstar name", secret, index);
    let mut id = [0u8; 16];
    id.copy_from_slice(&name[..16]);
    (seed, id)
}

fn labelled(label: &[u8], secret: &[u8; 32], index: u32) -> [u8; 32]
    ensures { result ≡ sha256 (label.now ++ secret.now ++ u32str index) }
{
    let mut hasher = Sha256::new();
    hasher.update(label);
    hasher.update(secret);
    hasher.update(&u32_bytes(index));
    hasher.finalize()
}
