ghost use Rattle.std.specs.Prelude.{◌≡◌, ◌<◌, ◌^◌, ◌↔◌, [], ◌∷◌, ◌++◌, length, IsTrue, IsSome, OnOk, OnErr, IfOk, IfSome, Some, None};
ghost use Rattle.ds_chain.specs.Chain.{IsShortestChain};
ghost use Rattle.ds_chain.specs.Holding.{holds};
ghost use Rattle.ds_chain.specs.Keys.{same_key};
ghost use Rattle.ds_chain.specs.Shortest.{shortest_chain};

use crate::chain::Chain;
use crate::edge::Edge;
use crate::key_search::search_keys;
use crate::numbers::number_of;
use ds_label::PubKey;
use std::alloc::{AllocError, Global};
use std::marker::Model;

/// A list of certificates as a search sees them: at each place the edge of one that counts, or none.
#[derive(Drop)]
pub struct EdgeList {
    keys: Vec<PubKey>,
    edges: Vec<Option<Edge<usize>>>,
}

impl Model for EdgeList {
    ghost use Rattle.std.specs.Prelude.{List, Option};
    ghost use Rattle.ds_chain.specs.declared.edge.Edge.{Edge};
    ghost use Rattle.ds_label.specs.declared.category.PubKey.{PubKey};
    ghost use Rattle.ds_chain.specs.Naming.{hops_of, AreNumbered};

    ghost Value = { List (Option (Edge PubKey)) };

    ghost view = { λ list. hops_of list.keys.items list.edges.items };

    ghost invariant = { λ list. AreNumbered list.keys.items list.edges.items };
}

impl EdgeList {
    /// No certificates.
    pub fn new(alloc: Global) -> Self
        ensures { result ≡ [] }
    {
        EdgeList {
            keys: Vec::new(alloc),
            edges: Vec::new(alloc),
        }
    }

    /// How many places there are.
    pub fn len(&self) -> usize
        ensures { result ≡ length self.now }
    {
        self.edges.len()
    }

    /// Whether there are none.
    pub fn is_empty(&self) -> bool
        ensures { IsTrue result ↔ (self.now ≡ []) }
    {
        self.edges.is_empty()
    }

    /// Goes on to the next place, with a certificate that counts: `by` signed it, and it names `to`.
    pub fn add(&mut self, by: &PubKey, to: &PubKey) -> Result<(), AllocError>
        ensures ok { OnOk result (self.new ≡ self.old ++ Some (record { by = by.now; to = to.now }) ∷ []) }
        ensures err { OnErr result (self.new ≡ self.old) }
    {
        let by = number_of(&mut self.keys, by)?;
        let to = number_of(&mut self.keys, to)?;
        self.edges.push(Some(Edge { by, to }))?;
        Ok(())
    }

    /// Goes on to the next place, with a certificate that does not count.
    pub fn skip(&mut self) -> Result<(), AllocError>
        ensures ok { OnOk result (self.new ≡ self.old ++ None ∷ []) }
        ensures err { OnErr result (self.new ≡ self.old) }
    {
        self.edges.push(None)?;
        Ok(())
    }

    /// The places of the shortest chain from the creator's key to another, and of the least of these, or none where the
    /// key does not hold. The creator's own chain is empty.
    pub fn search(
        &self,
        alloc: Global,
        creator: &PubKey,
        key: &PubKey,
    ) -> Result<Option<Chain>, AllocError>
        requires { length self.now < 2 ^ 32 }
        ensures answer { IfOk result (λ answer. answer ≡ shortest_chain same_key self.now creator.now key.now) }
        ensures holds { IfOk result (λ answer. IsSome answer ↔ IsTrue (holds same_key self.now creator.now key.now)) }
        ensures shortest { IfOk result (λ answer. IfSome answer (λ chain. IsShortestChain self.now creator.now chain key.now)) }
    {
        search_keys(alloc, &self.keys, &self.edges, creator, key)
    }
}
