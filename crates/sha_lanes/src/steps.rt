//! One block that holds a front of 22 bytes, a number of one byte and a digest: the steps of chains, one in each lane.
//! Digests stay words from step to step, so that no byte is moved.

ghost use Rattle.std.specs.Prelude.{◌≡◌, ℕ, ◌+◌, ◌-◌, ◌*◌, ◌/◌, ◌<◌, ◌≤◌, ◌++◌, ◌∷◌, [], List, if◌then◌else◌, length, nat_lt, slice_index};
ghost use Rattle.std.specs.Int.{byte_at, from_be_bytes, w32};
ghost use Rattle.sha2.specs.Sha256.{add32, initial_hash_256, sha256};
ghost use Rattle.sha_lanes.specs.Lanes.{chained, digest_in, front_words, lane};

use crate::rounds::{Words, add, compress};

// The initial hash value (FIPS 180-4, section 5.3.3).
const INITIAL: [u32; 8] = [
    0x6a09_e667,
    0xbb67_ae85,
    0x3c6e_f372,
    0xa54f_f53a,
    0x510e_527f,
    0x9b05_688c,
    0x1f83_d9ab,
    0x5be0_cd19,
];

// The same words in each lane.
#[inline(always)]
fn words(digest: &[u32; 8]) -> [Words; 8]
    ensures { (l : ℕ) → l < 8 → lane l result ≡ digest.now }
{
    [
        Words::splat(digest[0]),
        Words::splat(digest[1]),
        Words::splat(digest[2]),
        Words::splat(digest[3]),
        Words::splat(digest[4]),
        Words::splat(digest[5]),
        Words::splat(digest[6]),
        Words::splat(digest[7]),
    ]
}

// The initial hash value in each lane.
#[inline(always)]
pub(crate) fn initial() -> [Words; 8]
    ensures { (l : ℕ) → l < 8 → lane l result ≡ initial_hash_256 }
{
    words(&INITIAL)
}

// The last three bytes of `a`, and the first of `b`.
#[inline(always)]
fn across(a: Words, b: Words) -> Words
    ensures { (l : ℕ) → l < 8 → slice_index result l ≡ from_be_bytes w32
        (byte_at 2 (slice_index a l) ∷ byte_at 1 (slice_index a l) ∷ byte_at 0 (slice_index a l) ∷ byte_at 3 (slice_index b l) ∷ []) }
{
    (a << Words::splat(8)) | (b >> Words::splat(24))
}

// The last word of a front with a number after it, and the first byte of `b`.
#[inline(always)]
fn middle(a: Words, numbers: Words, b: Words) -> Words
    ensures { (l : ℕ) → l < 8 → slice_index numbers l < 256 → (x y : ℕ) → slice_index a l ≡ from_be_bytes w32 (x ∷ y ∷ 0 ∷ 0 ∷ [])
        → slice_index result l ≡ from_be_bytes w32 (x ∷ y ∷ slice_index numbers l ∷ byte_at 3 (slice_index b l) ∷ []) }
{
    a | (numbers << Words::splat(8)) | (b >> Words::splat(24))
}

// The last three bytes of `a`, and the padding's first.
#[inline(always)]
fn last(a: Words) -> Words
    ensures { (l : ℕ) → l < 8 → slice_index result l ≡ from_be_bytes w32
        (byte_at 2 (slice_index a l) ∷ byte_at 1 (slice_index a l) ∷ byte_at 0 (slice_index a l) ∷ 0x80 ∷ []) }
{
    (a << Words::splat(8)) | Words::splat(0x80)
}

// In each lane, the digest of the front, a number and the digest `v`.
#[inline(always)]
pub(crate) fn step(front: &[Words; 6], numbers: Words, v: &[Words; 8]) -> [Words; 8]
    requires { (l : ℕ) → l < 8 → slice_index numbers l < 256 }
    ensures { (l : ℕ) → l < 8 → (p : List ℕ) → length p ≡ 22 → lane l front.now ≡ front_words p
        → digest_in l result ≡ sha256 (p ++ slice_index numbers l ∷ digest_in l v.now) }
{
    let block = [
        front[0],
        front[1],
        front[2],
        front[3],
        front[4],
        middle(front[5], numbers, v[0]),
        across(v[0], v[1]),
        across(v[1], v[2]),
        across(v[2], v[3]),
        across(v[3], v[4]),
        across(v[4], v[5]),
        across(v[5], v[6]),
        across(v[6], v[7]),
        last(v[7]),
        Words::splat(0),
        Words::splat(440),
    ];
    compress(&initial(), &block)
}

// In each lane that has not come to its end, the new word, and else the old one.
#[inline(always)]
fn chosen(at: Words, to: Words, new: Words, old: Words) -> Words
    ensures { (l : ℕ) → l < 8 → slice_index result l
        ≡ (if nat_lt (slice_index at l) (slice_index to l) then slice_index new l else slice_index old l) }
{
    at.simd_lt(to).select(new, old)
}

// One more in each lane that has not come to its end.
#[inline(always)]
fn advanced(at: Words, to: Words) -> Words
    ensures { (l : ℕ) → l < 8 → slice_index result l
        ≡ (if nat_lt (slice_index at l) (slice_index to l) then add32 (slice_index at l) 1 else slice_index at l) }
{
    chosen(at, to, add(at, Words::splat(1)), at)
}

#[inline(always)]
fn chosen_words(at: Words, to: Words, new: &[Words; 8], old: &[Words; 8]) -> [Words; 8]
    ensures { (l : ℕ) → l < 8 → lane l result
        ≡ (if nat_lt (slice_index at l) (slice_index to l) then lane l new.now else lane l old.now) }
{
    [
        chosen(at, to, new[0], old[0]),
        chosen(at, to, new[1], old[1]),
        chosen(at, to, new[2], old[2]),
        chosen(at, to, new[3], old[3]),
        chosen(at, to, new[4], old[4]),
        chosen(at, to, new[5], old[5]),
        chosen(at, to, new[6], old[6]),
        chosen(at, to, new[7], old[7]),
    ]
}

// In each lane, the steps from its own `from` up to its own `to`, at most `longest`.
pub(crate) fn all_steps(
    front: &[Words; 6],
    from: Words,
    to: Words,
    longest: u32,
    start: &[Words; 8],
) -> [Words; 8]
    requires order { (l : ℕ) → l < 8 → slice_index from l ≤ slice_index to l }
    requires bytes { (l : ℕ) → l < 8 → slice_index to l < 256 }
    requires longest { (l : ℕ) → l < 8 → slice_index to l ≤ slice_index from l + longest }
    ensures { (l : ℕ) → l < 8 → (p : List ℕ) → length p ≡ 22 → lane l front.now ≡ front_words p
        → digest_in l result ≡ chained p (slice_index from l) (slice_index to l - slice_index from l) (digest_in l start.now) }
{
    let mut v = *start;
    let mut at = from;
    'steps: for _turn in 0..longest {
        v = chosen_words(at, to, &step(front, at, &v), &v);
        at = advanced(at, to);
    }
    v
}
