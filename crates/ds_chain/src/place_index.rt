//! Where the delegations for a category stand.

ghost use Rattle.std.specs.Prelude.{◌≡◌, ◌≤◌, ◌<◌, ◌++◌, [], true, false, length, map, IsOk, OnOk};
ghost use Rattle.std.specs.List.Sorted.{IsPartitionPoint};
ghost use Rattle.ds_label.specs.declared.category.Category.{Category as CategoryValue};
ghost use Rattle.ds_label.specs.Names.{same_category};
ghost use Rattle.ds_chain.specs.Postings.{AreSorted, is_below, is_upto, listed, places_in};

use ds_label::Category;
use std::alloc::{AllocError, Global};
use std::marker::Model;

/// Says that a delegation for the category stands at the place.
#[derive(Clone, Copy)]
pub(crate) struct Posting {
    category: Category,
    pub(crate) place: u32,
}

/// An index from categories to places: postings that are sorted by their categories, and those of one category in the order in
/// which they came. Contracts see the list, and whether there is room for one more (`spare`, 0 or 1).
#[derive(Drop)]
pub(crate) struct PlaceIndex {
    postings: Vec<Posting>,
}

impl Model for PlaceIndex {
    ghost use Rattle.std.specs.Prelude.{◌-◌, min, vec_len, vec_capacity};
    ghost use Rattle.ds_chain.specs.declared.place_index.Posting.{Posting};
    ghost use Rattle.ds_chain.specs.Stored.{Stored};
    ghost use Rattle.ds_chain.specs.Postings.{AreSorted};

    ghost Value = { Stored Posting };

    ghost view = { λ x. record { items = x.postings.items; spare = min 1 (vec_capacity x.postings - vec_len x.postings) } };

    ghost invariant = { λ x. AreSorted x.postings.items };
}

impl PlaceIndex {
    /// No posting. Takes no memory.
    #[tactic(auto, unfolding(crate::specs::Postings::AreSorted))]
    pub(crate) fn new(alloc: Global) -> PlaceIndex
        ensures { result.items ≡ [] }
    {
        PlaceIndex {
            postings: Vec::new(alloc),
        }
    }

    /// Makes room for one posting. After `AllocError`, which says that memory ran out, the postings are the same.
    pub(crate) fn reserve(&mut self) -> Result<(), AllocError>
        ensures same { self.new.items ≡ self.old.items }
        ensures room { OnOk result (self.new.spare ≡ 1) }
        ensures there { 0 < self.old.spare → IsOk result }
        ensures kept { self.old.spare ≤ self.new.spare }
    {
        self.postings.reserve(1)
    }

    /// Adds a posting, for which there is room, behind those of its category. Takes no memory.
    pub(crate) fn keep(&mut self, category: Category, place: u32)
        requires room { 0 < self.old.spare }
        ensures { (c : CategoryValue) → places_in c self.new.items ≡ places_in c self.old.items ++ listed (same_category category c) place [] }
    {
        let end = count_upto(self.postings.as_slice(), &category);
        let Ok(()) = self.postings.insert(end, Posting { category, place }) else {
            unreachable!();
        };
    }

    /// The postings for the category, in order.
    pub(crate) fn postings(&self, category: &Category) -> &[Posting]
        ensures { map (λ p. p.place) result.now ≡ places_in category.now self.now.items }
    {
        postings_for(self.postings.as_slice(), category)
    }
}

/// Whether the posting's category is below the other.
fn is_below(posting: &Posting, category: &Category) -> bool
    ensures { result ≡ is_below category.now posting.now }
{
    posting.category.cmp(category).is_lt()
}

/// Whether the posting's category is the other or below it.
fn is_upto(posting: &Posting, category: &Category) -> bool
    ensures { result ≡ is_upto category.now posting.now }
{
    posting.category.cmp(category).is_le()
}

/// How many postings have a category below this one.
fn count_below(postings: &[Posting], category: &Category) -> usize
    requires { AreSorted postings.now }
    ensures within { result ≤ length postings.now }
    ensures split { IsPartitionPoint (λ p. is_below category.now p ≡ true) (λ p. is_below category.now p ≡ false) postings.now result }
{
    postings.partition_point(
        |posting: &Posting| -> bool
            ensures { result ≡ is_below category.entry.now posting.now }
        { is_below(posting, category) },
    )
}

/// How many postings have this category or one below it.
fn count_upto(postings: &[Posting], category: &Category) -> usize
    requires { AreSorted postings.now }
    ensures within { result ≤ length postings.now }
    ensures split { IsPartitionPoint (λ p. is_upto category.now p ≡ true) (λ p. is_upto category.now p ≡ false) postings.now result }
{
    postings.partition_point(
        |posting: &Posting| -> bool
            ensures { result ≡ is_upto category.entry.now posting.now }
        { is_upto(posting, category) },
    )
}

/// The postings for the category, in order.
fn postings_for<'a>(postings: &'a [Posting], category: &Category) -> &'a [Posting]
    requires { AreSorted postings.now }
    ensures { map (λ p. p.place) result.now ≡ places_in category.now postings.now }
{
    let from = count_below(postings, category);
    let to = count_upto(postings, category);
    &postings[from..to]
}
