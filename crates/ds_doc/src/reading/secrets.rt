//! Secrets, keys and their types.

ghost use Rattle.std.specs.Prelude.{◌≡◌};
ghost use Rattle.ds_doc.specs.Draft as drafts;
ghost use Rattle.ds_doc.specs.Seen.{seen};

use crate::draft::Placed;
use crate::spot::Spot;
use ds_label::PubKey;
use ds_plan::Secret;
use hex::FromHex;
use lms_sig::{LmsType, OtsType, Params};

/// The bytes of a seed in hex.
#[tactic(auto, unfolding(crate::specs::Draft::seed_bytes))]
fn seed_bytes(text: &[u8]) -> [u8; 32]
    ensures { result ≡ drafts.seed_bytes text.now }
{
    match <[u8; 32] as FromHex>::from_hex(text) {
        Ok(bytes) => bytes,
        Err(_) => [0; 32],
    }
}

/// The bytes of a key in hex.
#[tactic(auto, unfolding(crate::specs::Draft::key_bytes))]
fn key_bytes(text: &[u8]) -> [u8; 56]
    ensures { result ≡ drafts.key_bytes text.now }
{
    match <[u8; 56] as FromHex>::from_hex(text) {
        Ok(bytes) => bytes,
        Err(_) => [0; 56],
    }
}

fn key_at(host: &Spot) -> Placed<Secret>
    ensures { result ≡ drafts.placed_key (seen host.now) }
{
    match host.member("key") {
        Some(key) => Placed {
            at: key.at,
            value: Secret::Key(PubKey(key_bytes(key.text()))),
        },
        None => Placed {
            at: host.at,
            value: Secret::Key(PubKey(key_bytes(&[]))),
        },
    }
}

/// A host's seed, or else its key.
#[tactic(auto, unfolding(crate::specs::Draft::secret_of))]
pub(crate) fn secret_of(host: &Spot) -> Placed<Secret>
    ensures { result ≡ drafts.secret_of (seen host.now) }
{
    match host.member("seed") {
        Some(seed) => Placed {
            at: seed.at,
            value: Secret::Seed(seed_bytes(seed.text())),
        },
        None => key_at(host),
    }
}

/// The types of a key: `5.3`, `5.4`, `6.3` or `6.4`.
#[tactic(auto, unfolding(crate::specs::Draft::types_of))]
fn types_of(text: &[u8]) -> Params
    ensures { result ≡ drafts.types_of text.now }
{
    let lms = match text {
        [b'5', ..] => LmsType::H5,
        _ => LmsType::H10,
    };
    let ots = match text {
        [_, _, b'4'] => OtsType::W8,
        _ => OtsType::W4,
    };
    Params { lms, ots }
}

/// The types of a host's key, `6.3` where it doesn't say.
#[tactic(auto, unfolding(crate::specs::Draft::types_at))]
pub(crate) fn types_at(host: &Spot, name: &str) -> Params
    ensures { result ≡ drafts.types_at name.now (seen host.now) }
{
    match host.member(name) {
        Some(types) => types_of(types.text()),
        None => types_of(b"6.3"),
    }
}
