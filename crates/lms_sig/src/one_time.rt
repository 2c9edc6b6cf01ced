//! LM-OTS one-time keys and signatures (RFC 8554, section 4).

ghost use Rattle.std.specs.Prelude.{◌≡◌, ◌++◌, ◌+◌, ◌*◌, ◌/◌, ◌<◌, ◌≤◌, OnOk, ℕ, [], length, slice_index, slice_index_or, take, drop};
ghost use Rattle.lms_sig.specs.OneTime.{Cksm, Kc, Q, ots_signature, y};
ghost use Rattle.lms_sig.specs.Parameters.{chain_length, digit_count, ots_length, width};
ghost use Rattle.lms_sig.specs.Strings.{coef, joined, part, u16str};

use crate::chain::randomiser;
use crate::hash::{prefix, put, u16_bytes, u32_bytes, value_at};
use crate::lanes::{ROOM, ends, secrets};
use crate::params::OtsType;
use sha2::{Digest, Sha256};
use std::alloc::AllocError;

pub(crate) const PUBLIC: u16 = 0x8080;

const MESSAGE: u16 = 0x8181;

// How many steps whole chains have; there are none in the places behind them.
fn tops(ots: OtsType) -> [u8; ROOM]
    ensures each { (i : ℕ) → i < digit_count ots → slice_index result i ≡ chain_length ots }
    ensures behind { (i : ℕ) → digit_count ots ≤ i → slice_index result i ≡ 0 }
{
    let top = ots.chain_length();
    let mut out = [0u8; ROOM];
    'places: for i in 0..ots.digit_count() as usize {
        out[i] = top;
    }
    out
}

// The digits of a message's hash and its checksum; none in the places behind them.
fn digits_of(ots: OtsType, digits: &[u8; 34]) -> [u8; ROOM]
    ensures each { (i : ℕ) → i < digit_count ots → slice_index result i ≡ coef digits.now i (width ots) }
    ensures bound { (i : ℕ) → i < digit_count ots → slice_index result i ≤ chain_length ots }
    ensures behind { (i : ℕ) → digit_count ots ≤ i → slice_index result i ≡ 0 }
{
    let mut out = [0u8; ROOM];
    'places: for i in 0..ots.digit_count() as usize {
        out[i] = coefficient(ots, digits, i);
    }
    out
}

// The values of a one-time signature.
fn values_of(ots: OtsType, values: &[u8]) -> [[u8; 32]; ROOM]
    requires { length values.now ≡ 32 * digit_count ots }
    ensures { (i : ℕ) → i < digit_count ots → slice_index_or result i [] ≡ part values.now (32 * i) 32 }
{
    let mut out = [[0u8; 32]; ROOM];
    'places: for i in 0..ots.digit_count() as usize {
        out[i] = value_at(values, i);
    }
    out
}

// Digit `i` of some bytes.
fn coefficient(ots: OtsType, bytes: &[u8], i: usize) -> u8
    requires { i * width ots / 8 < length bytes.now }
    ensures value { result ≡ coef bytes.now i (width ots) }
    ensures bound { result ≤ chain_length ots }
{
    match ots {
        OtsType::W4 => {
            if i % 2 == 0 {
                bytes[i / 2] / 16
            } else {
                bytes[i / 2] % 16
            }
        }
        OtsType::W8 => bytes[i],
    }
}

// The checksum of a message's hash.
fn checksum(ots: OtsType, hash: &[u8; 32]) -> u16
    ensures { result ≡ Cksm ots hash.now }
{
    let top = ots.chain_length();
    let mut sum: u16 = 0;
    'digits: for i in 0..ots.hash_digits() {
        sum += (top - coefficient(ots, hash, i)) as u16;
    }
    match ots {
        OtsType::W4 => sum * 16,
        OtsType::W8 => sum,
    }
}

// A message's hash with its checksum: the bytes whose digits are signed.
fn with_checksum(ots: OtsType, hash: &[u8; 32]) -> [u8; 34]
    ensures { result ≡ hash.now ++ u16str (Cksm ots hash.now) }
{
    let mut out = [0u8; 34];
    put(&mut out, 0, hash);
    put(&mut out, 32, &u16_bytes(checksum(ots, hash)));
    out
}

// The hash of a message at leaf `q` under a randomiser.
fn message_hash(id: &[u8; 16], q: u32, random: &[u8], message: &[u8]) -> [u8; 32]
    ensures { result ≡ Q id.now q random.now message.now }
{
    let mut hasher = Sha256::new();
    hasher.update(&prefix(id, q, MESSAGE));
    hasher.update(random);
    hasher.update(message);
    hasher.finalize()
}

// Appends the values that reveal a message's digits.
fn put_ys(
    out: &mut Vec<u8>,
    ots: OtsType,
    seed: &[u8; 32],
    id: &[u8; 16],
    q: u32,
    hash: &[u8; 32],
) -> Result<(), AllocError>
    ensures { OnOk result (out.new.items ≡ out.old.items
        ++ joined (y ots seed.now id.now q hash.now) (digit_count ots)) }
{
    let digits = with_checksum(ots, hash);
    let ends = ends(
        id,
        q,
        &[0; ROOM],
        &digits_of(ots, &digits),
        &secrets(seed, id, q),
    );
    'chains: for i in 0..ots.digit_count() {
        out.extend_from_slice(&ends[i as usize])?;
    }
    Ok(())
}

// Appends the one-time signature of a message at leaf `q`.
pub(crate) fn put_one_time(
    out: &mut Vec<u8>,
    ots: OtsType,
    seed: &[u8; 32],
    id: &[u8; 16],
    q: u32,
    message: &[u8],
) -> Result<(), AllocError>
    ensures { OnOk result (out.new.items ≡ out.old.items ++ ots_signature ots seed.now id.now q message.now) }
{
    let random = randomiser(seed, id, q);
    let hash = message_hash(id, q, &random, message);
    out.extend_from_slice(&u32_bytes(ots.code()))?;
    out.extend_from_slice(&random)?;
    put_ys(out, ots, seed, id, q, &hash)?;
    Ok(())
}

// The one-time public key that follows from a message and its one-time signature.
pub(crate) fn candidate_key(
    ots: OtsType,
    id: &[u8; 16],
    q: u32,
    message: &[u8],
    signature: &[u8],
) -> [u8; 32]
    requires { length signature.now ≡ ots_length ots }
    ensures { result ≡ Kc ots id.now q message.now signature.now }
{
    let hash = message_hash(id, q, &signature[4..36], message);
    let digits = with_checksum(ots, &hash);
    let values = &signature[36..];
    let ends = ends(
        id,
        q,
        &digits_of(ots, &digits),
        &tops(ots),
        &values_of(ots, values),
    );
    let mut hasher = Sha256::new();
    hasher.update(&prefix(id, q, PUBLIC));
    'chains: for i in 0..ots.digit_count() {
        hasher.update(&ends[i as usize]);
    }
    hasher.finalize()
}
