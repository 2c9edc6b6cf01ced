//! Testing a signature (RFC 8554, section 5.4.2).

ghost use Rattle.std.specs.Prelude.{◌≡◌, ◌↔◌, ◌<◌, IsOk, Some, length};
ghost use Rattle.std.specs.Result.{result_err};
ghost use Rattle.std.specs.Str.{bytes_eq};
ghost use Rattle.lms_sig.specs.Good.{IsGood, first_bad, first_bad_under, key_id, key_root, key_types};
ghost use Rattle.lms_sig.specs.Merkle.{recomputed_root};
ghost use Rattle.lms_sig.specs.Parameters.{both_types, leaf_count, signature_length};
ghost use Rattle.lms_sig.specs.Strings.{u32_at};

use crate::hash::{leaf_hash, read_u32};
use crate::one_time::candidate_key;
use crate::params::{LmsType, OtsType, Params};
use crate::path::climbed;
use thiserror::Error;

/// Why a signature is refused: the first of these that is so.
#[derive(Clone, Copy, PartialEq, Eq, Debug, Error)]
pub enum Bad {
    /// A typecode of the public key is none that is known here.
    #[error("the public key has other types")]
    OtherKey,
    /// The signature's length is not the one of the key's types.
    #[error("the signature has another length")]
    Length,
    /// A typecode of the signature differs from the key's.
    #[error("the signature has other types than the key")]
    OtherParameters,
    /// The signature's leaf number is no leaf of the tree.
    #[error("the signature's leaf is not in the tree")]
    LeafRange,
    /// The root that follows from message and signature is not the key's.
    #[error("the signature does not lead to the key's root")]
    Root,
}

// Both types, where both are known.
fn both(lms: Option<LmsType>, ots: Option<OtsType>) -> Option<Params>
    ensures { result ≡ both_types lms ots }
{
    match (lms, ots) {
        (Some(lms), Some(ots)) => Some(Params { lms, ots }),
        _ => None,
    }
}

// The types that a public key names.
fn types_of(key: &[u8; 56]) -> Option<Params>
    ensures { result ≡ key_types key.now }
{
    both(
        LmsType::of_code(read_u32(key, 0)),
        OtsType::of_code(read_u32(key, 4)),
    )
}

// The root that follows from a message and its signature.
fn root_of(params: Params, id: &[u8; 16], message: &[u8], signature: &[u8]) -> [u8; 32]
    requires size { length signature.now ≡ signature_length params }
    requires leaf { u32_at signature.now 0 < leaf_count params.lms }
    ensures { result ≡ recomputed_root params id.now message.now signature.now }
{
    let q = read_u32(signature, 0);
    let end = 4 + params.ots.signature_length();
    let key = candidate_key(params.ots, id, q, message, &signature[4..end]);
    let node = params.lms.leaf_count() + q;
    let leaf = leaf_hash(id, node, &key);
    climbed(
        id,
        node,
        leaf,
        &signature[end + 4..],
        params.lms.height() as usize,
    )
}

// Whether the root that follows is the key's.
fn leads_to_root(params: Params, key: &[u8; 56], message: &[u8], signature: &[u8]) -> bool
    requires size { length signature.now ≡ signature_length params }
    requires leaf { u32_at signature.now 0 < leaf_count params.lms }
    ensures { result ≡ bytes_eq
        (recomputed_root params (key_id key.now) message.now signature.now) (key_root key.now) }
{
    let mut id = [0u8; 16];
    id.copy_from_slice(&key[8..24]);
    let root = root_of(params, &id, message, signature);
    root.as_slice() == &key[24..]
}

// The first thing wrong with a signature under a key with these types.
fn checked(params: Params, key: &[u8; 56], message: &[u8], signature: &[u8]) -> Result<(), Bad>
    ensures { result_err result ≡ first_bad_under (Some params) key.now message.now signature.now }
{
    if signature.len() != params.signature_length() {
        return Err(Bad::Length);
    }
    let lms_at = 4 + params.ots.signature_length();
    if read_u32(signature, 4) != params.ots.code()
        || read_u32(signature, lms_at) != params.lms.code()
    {
        return Err(Bad::OtherParameters);
    }
    if read_u32(signature, 0) >= params.lms.leaf_count() {
        return Err(Bad::LeafRange);
    }
    if !leads_to_root(params, key, message, signature) {
        return Err(Bad::Root);
    }
    Ok(())
}

/// Whether `signature` is a good signature of `message` under the public key `key` (section 5.4.2).
/// It takes no memory. The error is the first of the causes, in their order, that is so.
pub fn verify(key: &[u8; 56], message: &[u8], signature: &[u8]) -> Result<(), Bad>
    ensures good { IsOk result ↔ IsGood key.now message.now signature.now }
    ensures bad { result_err result ≡ first_bad key.now message.now signature.now }
{
    match types_of(key) {
        None => Err(Bad::OtherKey),
        Some(params) => checked(params, key, message, signature),
    }
}
