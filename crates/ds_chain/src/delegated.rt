//! Who holds a category by delegations, and by which chain of them.

ghost use Rattle.std.specs.Prelude.{◌≡◌, ◌<◌, ◌≤◌, ◌++◌, ◌↔◌, [], ◌∷◌, Some, length, map, slice_get, IfOk, OnOk, IfSome, IsSome, IsTrue};
ghost use Rattle.ds_cert.specs.Good.{is_good_delegation};
ghost use Rattle.ds_chain.specs.Chain.{IsShortestChain};
ghost use Rattle.ds_chain.specs.Delegated.{chain_to, hop_of, hops_of_list, key_holds};
ghost use Rattle.ds_chain.specs.Postings.{places_from};

use crate::cert_list::CertList;
use crate::chain::Chain;
use crate::edge::Edge;
use crate::edge_list::EdgeList;
use crate::place_index::Posting;
use ds_cert::Delegation;
use ds_label::{Category, PubKey};
use std::alloc::{AllocError, Global};

/// The shortest chain of delegations from the category's creator to a key, and of these the least place by place; none exactly
/// where the key doesn't hold the category. A delegation counts where it is for the category, valid at the moment `now` and
/// good. Places run through `list` and then `extra`. The creator's own chain is empty. `AllocError` where memory runs out.
pub fn search(
    alloc: Global,
    list: &CertList,
    extra: &CertList,
    now: u64,
    category: &Category,
    key: &PubKey,
) -> Result<Option<Chain>, AllocError>
    ensures answer { IfOk result (λ answer. answer ≡ chain_to (list.now.items ++ extra.now.items) now category.now key.now) }
    ensures holds { IfOk result (λ answer. IsSome answer ↔ IsTrue (key_holds (list.now.items ++ extra.now.items) now category.now key.now)) }
    ensures shortest { IfOk result (λ answer. IfSome answer (λ chain. IsShortestChain (hops_of_list now category.now (list.now.items ++ extra.now.items)) category.now.creator chain key.now)) }
{
    let mut edges = EdgeList::new(alloc);
    add_hops(
        &mut edges,
        list.as_slice(),
        list.good_flags(),
        now,
        category,
    )?;
    add_hops(
        &mut edges,
        extra.as_slice(),
        extra.good_flags(),
        now,
        category,
    )?;
    edges.search(alloc, &category.creator, key)
}

/// Whether the key holds the category at the moment `now`, by the delegations of both lists. `AllocError` where memory runs out.
pub fn holds(
    alloc: Global,
    list: &CertList,
    extra: &CertList,
    now: u64,
    category: &Category,
    key: &PubKey,
) -> Result<bool, AllocError>
    ensures { IfOk result (λ b. b ≡ key_holds (list.now.items ++ extra.now.items) now category.now key.now) }
{
    Ok(search(alloc, list, extra, now, category, key)?.is_some())
}

/// The shortest chain, by the delegations of a list with the postings for the category, and then those of another list.
pub(crate) fn search_postings(
    list: &CertList,
    postings: &[Posting],
    extra: &CertList,
    now: u64,
    category: &Category,
    key: &PubKey,
) -> Result<Option<Chain>, AllocError>
    requires { map (λ p. p.place) postings.now ≡ places_from category.now 0 list.now.items }
    ensures { IfOk result (λ answer. answer ≡ chain_to (list.now.items ++ extra.now.items) now category.now key.now) }
{
    let alloc = list.allocator();
    let mut edges = EdgeList::new(alloc);
    add_listed(
        &mut edges,
        list.as_slice(),
        list.good_flags(),
        postings,
        now,
        category,
    )?;
    add_hops(
        &mut edges,
        extra.as_slice(),
        extra.good_flags(),
        now,
        category,
    )?;
    edges.search(alloc, &category.creator, key)
}

/// The edge of a delegation of which it is known whether it is good, where it counts.
fn counted(cert: &Delegation, good: bool, now: u64, category: &Category) -> Option<Edge<PubKey>>
    requires { good ≡ is_good_delegation cert.now }
    ensures { result ≡ hop_of now category.now cert.now }
{
    if cert.category == *category && cert.valid_at(now) && good {
        return Some(Edge {
            by: cert.by,
            to: cert.to,
        });
    }
    None
}

/// Goes on by the place of a delegation of which it is known whether it is good.
fn add_hop(
    edges: &mut EdgeList,
    cert: &Delegation,
    good: bool,
    now: u64,
    category: &Category,
) -> Result<(), AllocError>
    requires { good ≡ is_good_delegation cert.now }
    ensures { OnOk result (edges.new ≡ edges.old ++ hop_of now category.now cert.now ∷ []) }
{
    match counted(cert, good, now, category) {
        Some(edge) => edges.add(&edge.by, &edge.to)?,
        None => edges.skip()?,
    }
    Ok(())
}

/// Whether the posting at `next` is for the place.
fn is_next(postings: &[Posting], next: usize, place: usize) -> bool
    ensures { IsTrue result ↔ (slice_get (map (λ p. p.place) postings.now) next ≡ Some place) }
{
    match postings.get(next) {
        Some(posting) => posting.place as usize == place,
        None => false,
    }
}

/// Goes on by the places of delegations of which it is known whether they are good, and where those for the category stand.
fn add_listed(
    edges: &mut EdgeList,
    certs: &[Delegation],
    good_flags: &[bool],
    postings: &[Posting],
    now: u64,
    category: &Category,
) -> Result<(), AllocError>
    requires good { good_flags.now ≡ map is_good_delegation certs.now }
    requires places { map (λ p. p.place) postings.now ≡ places_from category.now 0 certs.now }
    ensures { OnOk result (edges.new ≡ edges.old ++ hops_of_list now category.now certs.now) }
{
    let mut next = 0;
    for (place, cert) in certs.iter().enumerate() {
        if is_next(postings, next, place) {
            add_hop(edges, cert, good_flags[place], now, category)?;
            next += 1;
        } else {
            edges.skip()?;
        }
    }
    Ok(())
}

/// Goes on by the places of delegations of which it is known whether they are good.
fn add_hops(
    edges: &mut EdgeList,
    certs: &[Delegation],
    good_flags: &[bool],
    now: u64,
    category: &Category,
) -> Result<(), AllocError>
    requires { good_flags.now ≡ map is_good_delegation certs.now }
    ensures { OnOk result (edges.new ≡ edges.old ++ hops_of_list now category.now certs.now) }
{
    for (place, cert) in certs.iter().enumerate() {
        match counted(cert, good_flags[place], now, category) {
            Some(edge) => edges.add(&edge.by, &edge.to)?,
            None => edges.skip()?,
        }
    }
    Ok(())
}
