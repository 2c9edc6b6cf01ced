ghost use Rattle.std.specs.Prelude.{◌≡◌, ℕ, ◌<◌, ◌^◌, ◌↔◌, length, IsTrue, IfOk, IfSome, IfNone, Some, None, slice_index_or, vec_items};
ghost use Rattle.ds_chain.specs.Chain.{IsEdge, IsShortestChain};
ghost use Rattle.ds_chain.specs.Distance.{AreBelow, AreSettled, IsNearer, IsFirstNearer};

use crate::edge::Edge;
use std::alloc::{AllocError, Global};

/// A edge of a chain: where its certificate stands, and the key that this names.
#[derive(Clone, Copy)]
struct Step {
    place: u32,
    to: usize,
}

/// Whether the edge leads from the key `by` to one that `left` more edges lead from.
fn is_nearer(distances: &[Option<u32>], edge: &Edge<usize>, by: usize, left: u32) -> bool
    requires { edge.now.to < length distances.now }
    ensures { IsTrue result ↔ IsNearer distances.now by left edge.now }
{
    match distances[edge.to] {
        Some(n) => n == left && edge.by == by,
        None => false,
    }
}

/// The first edge that leads from the key `by` to one that `left` more edges lead from.
fn first_nearer(
    edges: &[Option<Edge<usize>>],
    distances: &[Option<u32>],
    by: usize,
    left: u32,
) -> Option<Step>
    requires few { length edges.now < 2 ^ 32 }
    requires edges { AreBelow (length distances.now) edges.now }
    ensures found { IfSome result (λ step. IsFirstNearer edges.now distances.now by left step.place step.to) }
    ensures none { IfNone result ((place next : ℕ) → IsEdge edges.now place by next → slice_index_or distances.now next None ≡ Some left → ⊥) }
{
    for (place, entry) in edges.iter().enumerate() {
        if let Some(edge) = entry {
            if is_nearer(distances, edge, by, left) {
                return Some(Step {
                    place: place as u32,
                    to: edge.to,
                });
            }
        }
    }
    None
}

/// The shortest chain, of `count` edges, from the creator's key to the key that the distances lead to.
pub(crate) fn walk(
    alloc: Global,
    edges: &[Option<Edge<usize>>],
    distances: &[Option<u32>],
    creator: usize,
    key: usize,
    count: u32,
) -> Result<Vec<u32>, AllocError>
    requires few { length edges.now < 2 ^ 32 }
    requires edges { AreBelow (length distances.now) edges.now }
    requires settled { AreSettled edges.now key distances.now }
    requires count { slice_index_or distances.now creator None ≡ Some count }
    ensures { IfOk result (λ chain. IsShortestChain edges.now creator chain.items key) }
{
    let mut chain = Vec::new(alloc);
    let mut by = creator;
    for walked in 0..count {
        let step = first_nearer(edges, distances, by, count - 1 - walked).unwrap();
        chain.push(step.place)?;
        by = step.to;
    }
    prove!(by == key);
    Ok(chain)
}
