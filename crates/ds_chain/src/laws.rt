ghost use Rattle.std.specs.Prelude.{◌≡◌, ◌<◌, ◌↔◌, ℕ, Bool, List, [], ◌++◌, Option, Some, true, All, Contains, IsTrue, is_some, length};
ghost use Rattle.ds_chain.specs.declared.edge.Edge.{Edge};
ghost use Rattle.ds_chain.specs.Chain.{IsEdge, LeadsTo, IsShortestChain};
ghost use Rattle.ds_chain.specs.Keys.{IsSameness};
ghost use Rattle.ds_chain.specs.Holding.{holds};
ghost use Rattle.ds_chain.specs.Shortest.{shortest_chain};
ghost use Rattle.ds_chain.specs.Delegated.{Delegates, chain_to, hops_of_list, key_holds};
ghost use Rattle.ds_label.specs.declared.category.PubKey.{PubKey};
ghost use Rattle.ds_label.specs.declared.category.Category.{Category};
ghost use Rattle.ds_cert.specs.declared.delegation.Delegation.{Delegation};
ghost use Rattle.ds_cert.specs.Good.{is_good_delegation};

/// What holds of every list of certificates, every creator and every key: the laws of chains.
pub fn chain_laws<K>()
    // A key has at most one shortest chain.
    ensures unique { (edges : List (Option (Edge K))) (creator key : K) (places others : List ℕ) →
        IsShortestChain edges creator places key → IsShortestChain edges creator others key → places ≡ others }
    // It has one exactly where it holds.
    ensures exists { (same : K → K → Bool) → IsSameness same → (edges : List (Option (Edge K))) (creator key : K) →
        IsTrue (holds same edges creator key) ↔ ((places : List ℕ) × IsShortestChain edges creator places key) }
    // A key holds exactly where a chain leads to it.
    ensures led { (same : K → K → Bool) → IsSameness same → (edges : List (Option (Edge K))) (creator key : K) →
        IsTrue (holds same edges creator key) ↔ ((places : List ℕ) × LeadsTo edges creator places key) }
    // The function gives the shortest chain, and none exactly where the key does not hold.
    ensures given { (same : K → K → Bool) → IsSameness same → (edges : List (Option (Edge K))) (creator key : K) (places : List ℕ) →
        (shortest_chain same edges creator key ≡ Some places) ↔ IsShortestChain edges creator places key }
    ensures none { (same : K → K → Bool) → IsSameness same → (edges : List (Option (Edge K))) (creator key : K) →
        holds same edges creator key ≡ is_some (shortest_chain same edges creator key) }
    // The creator's own chain is empty.
    ensures own { (edges : List (Option (Edge K))) (creator : K) → IsShortestChain edges creator [] creator }
    // A chain's places are places of the list.
    ensures within { (edges : List (Option (Edge K))) (creator key : K) (places : List ℕ) →
        LeadsTo edges creator places key → All (λ place. place < length edges) places }
    // More certificates leave each holder a holder.
    ensures kept { (same : K → K → Bool) → IsSameness same → (edges more : List (Option (Edge K))) (creator key : K) →
        IsTrue (holds same edges creator key) → IsTrue (holds same (edges ++ more) creator key) }
    // A set that has the creator, and with the signer of each certificate that counts also the key that it names, has each
    // key that holds.
    ensures closed { (same : K → K → Bool) → IsSameness same → (edges : List (Option (Edge K))) (creator : K) (inside : K → Bool) →
        IsTrue (inside creator) →
        ((place : ℕ) (by to : K) → IsEdge edges place by to → IsTrue (inside by) → IsTrue (inside to)) →
        (key : K) → IsTrue (holds same edges creator key) → IsTrue (inside key) }
{}

/// What holds of every list of delegations, every moment, category and key: who holds and by which chain is determined by these
/// alone, and more is known of both.
pub fn delegation_laws()
    // A certificate that counts stands at a place exactly where a delegation for the category, valid and good, does.
    ensures edge { (certs : List Delegation) (moment : ℕ) (category : Category) (place : ℕ) (by to : PubKey) →
        IsEdge (hops_of_list moment category certs) place by to ↔ Delegates certs moment category place by to }
    // The creator holds, and its chain is empty.
    ensures creator { (certs : List Delegation) (moment : ℕ) (category : Category) → chain_to certs moment category category.creator ≡ Some [] }
    // A key holds exactly where there is a chain.
    ensures led { (certs : List Delegation) (moment : ℕ) (category : Category) (key : PubKey) →
        key_holds certs moment category key ≡ is_some (chain_to certs moment category key) }
    // The chain is the shortest, and of these the least place by place.
    ensures shortest { (certs : List Delegation) (moment : ℕ) (category : Category) (key : PubKey) (places : List ℕ) →
        (chain_to certs moment category key ≡ Some places) ↔ IsShortestChain (hops_of_list moment category certs) category.creator places key }
    // More delegations leave each holder a holder.
    ensures kept { (certs more : List Delegation) (moment : ℕ) (category : Category) (key : PubKey) →
        IsTrue (key_holds certs moment category key) → IsTrue (key_holds (certs ++ more) moment category key) }
    // A set of keys that has the creator's, and with the signer of each good delegation for the category the key that it names,
    // has every key that holds.
    ensures closed { (certs : List Delegation) (moment : ℕ) (category : Category) (inside : PubKey → Bool) → inside category.creator ≡ true →
        ((d : Delegation) → Contains certs d → d.category ≡ category → is_good_delegation d ≡ true → inside d.by ≡ true → inside d.to ≡ true) →
        (key : PubKey) → key_holds certs moment category key ≡ true → inside key ≡ true }
{}
