//! Chains of hashes (RFC 8554, sections 4.3, 4.5 and 4.6, and appendix A), eight at a time, one in each lane.

ghost use Rattle.std.specs.Prelude.{◌≡◌, ℕ, ◌+◌, ◌-◌, ◌*◌, ◌<◌, ◌≤◌, ◌++◌, [], List, All, Any, length, slice_index, slice_index_or};
ghost use Rattle.lms_sig.specs.Ends.{Stands, end_at};
ghost use Rattle.lms_sig.specs.OneTime.{steps, x};
ghost use Rattle.lms_sig.specs.Strings.{u16str, u32str};

use crate::chain::SECRET;
use crate::hash::{PREFIX, prefix};
use sha_lanes::hashes;

// Room for the chains of a one-time key, in whole eights: 67 or 34 of them are used.
pub(crate) const ROOM: usize = 72;

// The prefixes of eight chains.
fn prefixes(id: &[u8; 16], q: u32, chains: &[u16; 8]) -> [[u8; PREFIX]; 8]
    ensures { (l : ℕ) → l < 8 → slice_index_or result l [] ≡ id.now ++ u32str q ++ u16str (slice_index chains.now l) }
{
    [
        prefix(id, q, chains[0]),
        prefix(id, q, chains[1]),
        prefix(id, q, chains[2]),
        prefix(id, q, chains[3]),
        prefix(id, q, chains[4]),
        prefix(id, q, chains[5]),
        prefix(id, q, chains[6]),
        prefix(id, q, chains[7]),
    ]
}

// The secret starts of eight chains.
fn eight_secrets(seed: &[u8; 32], id: &[u8; 16], q: u32, chains: &[u16; 8]) -> [[u8; 32]; 8]
    ensures { (l : ℕ) → l < 8 → slice_index_or result l [] ≡ x seed.now id.now q (slice_index chains.now l) }
{
    hashes(&prefixes(id, q, chains), &[SECRET; 8], &[*seed; 8])
}

// The values of eight chains, each after the steps from its own `from` up to its own `to`.
fn eight_chains(
    id: &[u8; 16],
    q: u32,
    chains: &[u16; 8],
    from: &[u8; 8],
    to: &[u8; 8],
    starts: &[[u8; 32]; 8],
) -> [[u8; 32]; 8]
    requires { (l : ℕ) → l < 8 → slice_index from.now l ≤ slice_index to.now l }
    ensures { (l : ℕ) → l < 8 → slice_index_or result l [] ≡ steps id.now q (slice_index chains.now l) (slice_index from.now l)
        (slice_index to.now l - slice_index from.now l) (slice_index_or starts.now l []) }
{
    sha_lanes::chains(&prefixes(id, q, chains), from, to, starts)
}

// A chain with how far its way is short of the longest possible, so that in order the longest ways come first.
#[derive(Clone, Copy, PartialEq, Eq, PartialOrd, Ord, Debug)]
struct Turn {
    spare: u8,
    chain: u16,
}

// All chains, those with the longest ways first.
fn sorted_turns(from: &[u8; ROOM], to: &[u8; ROOM]) -> [Turn; ROOM]
    ensures within { All (λ t. t.chain < 72) result }
    ensures each { (i : ℕ) → i < 72 → Any (λ t. t.chain ≡ i) result }
    ensures size { length result ≡ 72 }
{
    let mut turns = [Turn { spare: 0, chain: 0 }; ROOM];
    'chains: for i in 0..ROOM {
        let way = to[i].saturating_sub(from[i]);
        turns[i] = Turn {
            spare: 255 - way,
            chain: i as u16,
        };
    }
    turns.sort_unstable();
    turns
}

// The places of the chains, those with the longest ways first.
fn order_of(from: &[u8; ROOM], to: &[u8; ROOM]) -> [u16; ROOM]
    ensures within { (k : ℕ) → k < 72 → slice_index result k < 72 }
    ensures each { (i : ℕ) → i < 72 → Stands result 72 i }
{
    let turns = sorted_turns(from, to);
    let mut order = [0u16; ROOM];
    'places: for k in 0..ROOM {
        order[k] = turns[k].chain;
    }
    order
}

// Puts the values of eight chains in their places.
fn placed(out: &[[u8; 32]; ROOM], chains: &[u16; 8], values: &[[u8; 32]; 8]) -> [[u8; 32]; ROOM]
    requires { (l : ℕ) → l < 8 → slice_index chains.now l < 72 }
    ensures { (E : ℕ → List ℕ) → ((l : ℕ) → l < 8 → slice_index_or values.now l [] ≡ E (slice_index chains.now l))
        → ((l : ℕ) → l < 8 → slice_index_or result (slice_index chains.now l) [] ≡ E (slice_index chains.now l))
        × ((i : ℕ) → slice_index_or out.now i [] ≡ E i → slice_index_or result i [] ≡ E i) }
{
    let mut all = *out;
    'lanes: for l in 0..8 {
        all[chains[l] as usize] = values[l];
    }
    all
}

// The eight numbers of the order from place 8 * group on.
fn group_of(order: &[u16; ROOM], group: usize) -> [u16; 8]
    requires { group < 9 }
    ensures { (l : ℕ) → l < 8 → slice_index result l ≡ slice_index order.now (8 * group + l) }
{
    let at = 8 * group;
    [
        order[at],
        order[at + 1],
        order[at + 2],
        order[at + 3],
        order[at + 4],
        order[at + 5],
        order[at + 6],
        order[at + 7],
    ]
}

fn bytes_at(bytes: &[u8; ROOM], chains: &[u16; 8]) -> [u8; 8]
    requires { (l : ℕ) → l < 8 → slice_index chains.now l < 72 }
    ensures { (l : ℕ) → l < 8 → slice_index result l ≡ slice_index bytes.now (slice_index chains.now l) }
{
    let mut out = [0u8; 8];
    'lanes: for l in 0..8 {
        out[l] = bytes[chains[l] as usize];
    }
    out
}

fn values_at(values: &[[u8; 32]; ROOM], chains: &[u16; 8]) -> [[u8; 32]; 8]
    requires { (l : ℕ) → l < 8 → slice_index chains.now l < 72 }
    ensures { (l : ℕ) → l < 8 → slice_index_or result l [] ≡ slice_index_or values.now (slice_index chains.now l) [] }
{
    let mut out = [[0u8; 32]; 8];
    'lanes: for l in 0..8 {
        out[l] = values[chains[l] as usize];
    }
    out
}

// The ends of all chains, each from its value after its own `from` steps to that after its own `to`.
pub(crate) fn ends(
    id: &[u8; 16],
    q: u32,
    from: &[u8; ROOM],
    to: &[u8; ROOM],
    starts: &[[u8; 32]; ROOM],
) -> [[u8; 32]; ROOM]
    requires { (i : ℕ) → i < 72 → slice_index from.now i ≤ slice_index to.now i }
    ensures { (i : ℕ) → i < 72 → slice_index_or result i [] ≡ end_at id.now q from.now to.now starts.now i }
{
    let order = order_of(from, to);
    let mut out = [[0u8; 32]; ROOM];
    'groups: for group in 0..9 {
        let chains = group_of(&order, group);
        let values = eight_chains(
            id,
            q,
            &chains,
            &bytes_at(from, &chains),
            &bytes_at(to, &chains),
            &values_at(starts, &chains),
        );
        out = placed(&out, &chains, &values);
    }
    out
}

// The secret starts of all chains.
pub(crate) fn secrets(seed: &[u8; 32], id: &[u8; 16], q: u32) -> [[u8; 32]; ROOM]
    ensures { (i : ℕ) → i < 72 → slice_index_or result i [] ≡ x seed.now id.now q i }
{
    let order = whole_order();
    let mut out = [[0u8; 32]; ROOM];
    'eights: for group in 0..9 {
        let chains = group_of(&order, group);
        out = placed(&out, &chains, &eight_secrets(seed, id, q, &chains));
    }
    out
}

// All chains in their order.
fn whole_order() -> [u16; ROOM]
    ensures { (k : ℕ) → k < 72 → slice_index result k ≡ k }
{
    let mut order = [0u16; ROOM];
    'places: for k in 0..ROOM {
        order[k] = k as u16;
    }
    order
}
