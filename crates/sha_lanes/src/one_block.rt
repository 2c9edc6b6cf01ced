//! Messages of 55 bytes, one block of SHA-256: a front of 22 bytes, a number of one byte and a value of 32 bytes, as the
//! chains of one-time signatures hash them (RFC 8554, section 4.3).

ghost use Rattle.std.specs.Prelude.{◌≡◌, ℕ, ◌+◌, ◌-◌, ◌<◌, ◌≤◌, ◌++◌, ◌∷◌, [], slice_index, slice_index_or};
ghost use Rattle.sha2.specs.Sha256.{sha256};
ghost use Rattle.sha_lanes.specs.Lanes.{chained};

use crate::bytes::{bytes_of, fronts, words_of};
use crate::rounds::Words;
use crate::steps::{all_steps, step};

// Eight bytes as words, one in each lane.
#[inline(always)]
fn widened(bytes: &[u8; 8]) -> Words
    ensures value { (l : ℕ) → l < 8 → slice_index result l ≡ slice_index bytes.now l }
    ensures small { (l : ℕ) → l < 8 → slice_index result l < 256 }
{
    Words::from_array([
        bytes[0] as u32,
        bytes[1] as u32,
        bytes[2] as u32,
        bytes[3] as u32,
        bytes[4] as u32,
        bytes[5] as u32,
        bytes[6] as u32,
        bytes[7] as u32,
    ])
}

// The longest way from the one to the other.
fn longest(from: &[u8; 8], to: &[u8; 8]) -> u32
    requires { (l : ℕ) → l < 8 → slice_index from.now l ≤ slice_index to.now l }
    ensures { (l : ℕ) → l < 8 → slice_index to.now l ≤ slice_index from.now l + result }
{
    let mut most = 0;
    'lanes: for l in 0..8 {
        most = most.max(to[l] - from[l]);
    }
    most as u32
}

/// The SHA-256 digest (FIPS 180-4), 32 bytes, of each of eight messages of 55 bytes: its front, its number and its
/// value, one after another. It takes no memory.
pub fn hashes(heads: &[[u8; 22]; 8], numbers: &[u8; 8], values: &[[u8; 32]; 8]) -> [[u8; 32]; 8]
    ensures { (l : ℕ) → l < 8 → slice_index_or result l []
        ≡ sha256 (slice_index_or heads.now l [] ++ slice_index numbers.now l ∷ slice_index_or values.now l []) }
{
    bytes_of(&step(&fronts(heads), widened(numbers), &words_of(values)))
}

/// Eight chains of hashes (RFC 8554, section 4.3), each with its own front and value, from its own step `from` up to its
/// own step `to`, which isn't taken any more: each step hashes the front, the step's number and the value before it. It
/// costs as many blocks as the longest of the ways, for all eight together, and takes no memory.
pub fn chains(
    heads: &[[u8; 22]; 8],
    from: &[u8; 8],
    to: &[u8; 8],
    values: &[[u8; 32]; 8],
) -> [[u8; 32]; 8]
    requires { (l : ℕ) → l < 8 → slice_index from.now l ≤ slice_index to.now l }
    ensures { (l : ℕ) → l < 8 → slice_index_or result l [] ≡ chained (slice_index_or heads.now l []) (slice_index from.now l)
        (slice_index to.now l - slice_index from.now l) (slice_index_or values.now l []) }
{
    bytes_of(&all_steps(
        &fronts(heads),
        widened(from),
        widened(to),
        longest(from, to),
        &words_of(values),
    ))
}
