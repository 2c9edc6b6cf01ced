ghost use Rattle.std.specs.Prelude.{◌≡◌, ℕ, List, ◌<◌, ◌^◌, length, IfOk, IfSome, IfNone};
ghost use Rattle.ds_chain.specs.Chain.{LeadsTo, IsShortestChain};
ghost use Rattle.ds_chain.specs.Distance.{AreBelow};
ghost use Rattle.ds_chain.specs.Keys.{same_key};
ghost use Rattle.ds_chain.specs.Naming.{hops_of, AreNumbered};
ghost use Rattle.ds_chain.specs.Shortest.{shortest_chain};

use crate::chain::Chain;
use crate::distance::distances_to;
use crate::edge::Edge;
use crate::numbers::find_number;
use crate::walk::walk;
use ds_label::PubKey;
use std::alloc::{AllocError, Global};

/// The shortest chain from one key to another, of `count` keys that go by numbers, or none where no chain leads there.
pub(crate) fn search_numbers(
    alloc: Global,
    edges: &[Option<Edge<usize>>],
    count: usize,
    creator: usize,
    key: usize,
) -> Result<Option<Chain>, AllocError>
    requires few { length edges.now < 2 ^ 32 }
    requires edges { AreBelow count edges.now }
    requires creator { creator < count }
    requires key { key < count }
    ensures shortest { IfOk result (λ answer. IfSome answer (λ chain. IsShortestChain edges.now creator chain key)) }
    ensures none { IfOk result (λ answer. IfNone answer ((places : List ℕ) → LeadsTo edges.now creator places key → ⊥)) }
{
    let distances = distances_to(alloc, edges, count, key)?;
    match distances[creator] {
        Some(left) => {
            let places = walk(alloc, edges, &distances, creator, key, left)?;
            Ok(Some(Chain::new(places)))
        }
        None => Ok(None),
    }
}

/// The shortest chain from the creator's key to another, or none where that key does not hold.
pub(crate) fn search_keys(
    alloc: Global,
    keys: &[PubKey],
    edges: &[Option<Edge<usize>>],
    creator: &PubKey,
    key: &PubKey,
) -> Result<Option<Chain>, AllocError>
    requires few { length edges.now < 2 ^ 32 }
    requires numbered { AreNumbered keys.now edges.now }
    ensures { IfOk result (λ answer. answer ≡ shortest_chain same_key (hops_of keys.now edges.now) creator.now key.now) }
{
    if creator == key {
        return Ok(Some(Chain::new(Vec::new(alloc))));
    }
    let Some(creator_number) = find_number(keys, creator) else {
        return Ok(None);
    };
    let Some(key_number) = find_number(keys, key) else {
        return Ok(None);
    };
    search_numbers(alloc, edges, keys.len(), creator_number, key_number)
}
