ghost use Rattle.std.specs.Prelude.{◌≡◌, ℕ, ◌+◌, ◌<◌, ◌≤◌, ◌^◌, ◌↔◌, length, IsTrue, IsFalse, OnOk, IfOk, Some, None, slice_set, vec_len};
ghost use Rattle.std.specs.Bool.{OnTrue, OnFalse};
ghost use Rattle.ds_chain.specs.Distance.{AreBelow, AreKnown, AreSettled, IsNew};

use crate::edge::Edge;
use std::alloc::{AllocError, Global};

/// Whether the edge leads to a key at this level from a key whose distance isn't known.
fn is_new(distances: &[Option<u32>], edge: &Edge<usize>, level: u32) -> bool
    requires by { edge.now.by < length distances.now }
    requires to { edge.now.to < length distances.now }
    ensures { IsTrue result ↔ IsNew distances.now edge.now level }
{
    match (distances[edge.to], distances[edge.by]) {
        (Some(n), None) => n == level,
        _ => false,
    }
}

/// Writes down the distance of each key at the next level. Whether there is one.
fn add_level(edges: &[Option<Edge<usize>>], distances: &mut [Option<u32>], level: u32) -> bool
    requires level { level + 1 < 2 ^ 32 }
    requires edges { AreBelow (length distances.old) edges.now }
    ensures known { (key : ℕ) → AreKnown edges.now key level distances.old → AreKnown edges.now key (level + 1) distances.new }
    ensures none { OnFalse result (distances.new ≡ distances.old) }
{
    let mut found = false;
    for entry in edges {
        if let Some(edge) = entry {
            if is_new(distances, edge, level) {
                distances[edge.by] = Some(level + 1);
                found = true;
            }
        }
    }
    found
}

/// Goes on from the key alone to the distance of each key that a chain leads from.
fn settle(edges: &[Option<Edge<usize>>], distances: &mut [Option<u32>])
    requires few { length edges.now < 2 ^ 32 }
    requires edges { AreBelow (length distances.old) edges.now }
    ensures settled { (key : ℕ) → AreKnown edges.now key 0 distances.old → AreSettled edges.now key distances.new }
{
    for level in 0..edges.len() as u32 {
        if !add_level(edges, distances, level) {
            return;
        }
    }
}

/// The distance of each of `count` keys from `key`.
pub(crate) fn distances_to(
    alloc: Global,
    edges: &[Option<Edge<usize>>],
    count: usize,
    key: usize,
) -> Result<Vec<Option<u32>>, AllocError>
    requires few { length edges.now < 2 ^ 32 }
    requires edges { AreBelow count edges.now }
    requires key { key < count }
    ensures settled { IfOk result (λ distances. AreSettled edges.now key distances.items) }
    ensures count { IfOk result (λ distances. length distances.items ≡ count) }
{
    let mut distances = vec![in alloc; None; count]?;
    distances[key] = Some(0);
    settle(edges, &mut distances);
    Ok(distances)
}
