//! The one-time public keys of eight leaves at once (RFC 8554, section 4.3): a leaf in each lane, chain by chain, so that no
//! lane idles.

ghost use Rattle.std.specs.Prelude.{◌≡◌, ℕ, ◌+◌, ◌*◌, ◌^◌, ◌<◌, ◌≤◌, ◌++◌, [], length, slice_index_or, take};
ghost use Rattle.lms_sig.specs.OneTime.{K};
ghost use Rattle.lms_sig.specs.Parameters.{digit_count};
ghost use Rattle.lms_sig.specs.Strings.{u16str, u32str};

use crate::chain::SECRET;
use crate::hash::{PREFIX, prefix, put};
use crate::one_time::PUBLIC;
use crate::params::OtsType;
use sha_lanes::{digests, hashes};

// The prefixes of eight leaves, from `first` on.
fn leaf_prefixes(id: &[u8; 16], first: u32, kind: u16) -> [[u8; PREFIX]; 8]
    requires { first + 8 ≤ 2 ^ 32 }
    ensures { (l : ℕ) → l < 8 → slice_index_or result l [] ≡ id.now ++ u32str (first + l) ++ u16str kind }
{
    [
        prefix(id, first, kind),
        prefix(id, first + 1, kind),
        prefix(id, first + 2, kind),
        prefix(id, first + 3, kind),
        prefix(id, first + 4, kind),
        prefix(id, first + 5, kind),
        prefix(id, first + 6, kind),
        prefix(id, first + 7, kind),
    ]
}

// Writes a piece into a room from place `at` on.
fn put_in<const L: usize, const N: usize>(room: &mut [u8; L], at: usize, piece: &[u8; N])
    requires { at + N ≤ L }
    ensures value { take (at + N) room.new ≡ take at room.old ++ piece.now }
    ensures length { length room.new ≡ L }
{
    put(room, at, piece);
}

// Writes a piece into each of eight rooms, from place `at` on.
fn put_all<const L: usize, const N: usize>(
    rooms: &mut [[u8; L]; 8],
    at: usize,
    pieces: &[[u8; N]; 8],
)
    requires { at + N ≤ L }
    ensures value { (l : ℕ) → l < 8 → take (at + N) (slice_index_or rooms.new l [])
        ≡ take at (slice_index_or rooms.old l []) ++ slice_index_or pieces.now l [] }
    ensures length { (l : ℕ) → l < 8 → length (slice_index_or rooms.new l []) ≡ L }
{
    'lanes: for l in 0..8 {
        put_in(&mut rooms[l], at, &pieces[l]);
    }
}

// The keys of eight leaves from `first` on, where the bytes that they hash are L.
fn keys_of<const L: usize>(
    ots: OtsType,
    seed: &[u8; 32],
    id: &[u8; 16],
    first: u32,
) -> [[u8; 32]; 8]
    requires size { L ≡ 22 + 32 * digit_count ots }
    requires leaves { first + 8 ≤ 2 ^ 32 }
    ensures { (l : ℕ) → l < 8 → slice_index_or result l [] ≡ K ots seed.now id.now (first + l) }
{
    let mut rooms = [[0u8; L]; 8];
    put_all(&mut rooms, 0, &leaf_prefixes(id, first, PUBLIC));
    let tops = [ots.chain_length(); 8];
    let seeds = [*seed; 8];
    'columns: for i in 0..ots.digit_count() {
        let heads = leaf_prefixes(id, first, i);
        let starts = hashes(&heads, &[SECRET; 8], &seeds);
        let ends = sha_lanes::chains(&heads, &[0; 8], &tops, &starts);
        put_all(&mut rooms, PREFIX + 32 * i as usize, &ends);
    }
    digests(&rooms)
}

// The one-time public keys of eight leaves from `first` on.
pub(crate) fn eight_keys(ots: OtsType, seed: &[u8; 32], id: &[u8; 16], first: u32) -> [[u8; 32]; 8]
    requires { first + 8 ≤ 2 ^ 32 }
    ensures { (l : ℕ) → l < 8 → slice_index_or result l [] ≡ K ots seed.now id.now (first + l) }
{
    match ots {
        OtsType::W4 => keys_of::<2166>(ots, seed, id, first),
        OtsType::W8 => keys_of::<1110>(ots, seed, id, first),
    }
}
