//! Labels of names.

ghost use Rattle.std.specs.Prelude.{◌≡◌, ◌≤◌, ◌<◌, ◌↔◌, ◌||◌, ◌++◌, not, [], ◌∷◌, None, length, filter, IfOk, IsOk, OnOk, OnErr, IsErrOf, IsTrue, option_copied, slice_get};
ghost use Rattle.std.specs.List.{list_all};
ghost use Rattle.ds_label.specs.Flow.{has, with_member, minus, flows, is_above, last_of, IsRising};
ghost use Rattle.ds_label.specs.Names.{by_name, category_cmp, is_secrecy};
ghost use Rattle.std.specs.Ordering.{is_lt};

use crate::category::{Category, Kind};
use crate::fault::{LabelFault, MEMBER_LIMIT};
use crate::search::gap_for_name;
use std::alloc::{AllocError, Global};
use std::marker::Model;

/// A label: a set of at most 64 categories, in strictly rising order. Contracts see the list.
#[derive(Debug, Drop)]
pub struct Label {
    members: Vec<Category>,
}

impl Model for Label {
    ghost use Rattle.std.specs.Prelude.{List, length, ◌≤◌};
    ghost use Rattle.ds_label.specs.declared.category.Category.{Category};
    ghost use Rattle.ds_label.specs.Flow.{IsRising};
    ghost use Rattle.ds_label.specs.Names.{by_name};

    ghost Value = { List Category };

    ghost view = { λ l. l.members.items };

    ghost invariant = { λ l. IsRising by_name l.members.items × (length l.members.items ≤ 64) };
}

impl Label {
    /// No member. Takes no memory.
    pub fn new(alloc: Global) -> Label
        ensures { result ≡ [] }
    {
        Label {
            members: Vec::new(alloc),
        }
    }

    /// How many members there are.
    pub fn len(&self) -> usize
        ensures count { result ≡ length self.now }
        ensures limit { length self.now ≤ 64 }
    {
        self.members.len()
    }

    /// Whether there is no member.
    pub fn is_empty(&self) -> bool
        ensures { IsTrue result ↔ (self.now ≡ []) }
    {
        self.members.as_slice().is_empty()
    }

    /// The member at a place, from 0.
    pub fn get(&self, place: usize) -> Option<&Category>
        ensures { option_copied result ≡ slice_get self.now place }
    {
        self.members.get(place)
    }

    /// The members, in order.
    pub fn as_slice(&self) -> &[Category]
        ensures members { result.now ≡ self.now }
        ensures rising { IsRising by_name self.now }
        ensures limit { length self.now ≤ 64 }
    {
        self.members.as_slice()
    }

    /// Whether both have the same members.
    pub fn same(&self, other: &Label) -> bool
        ensures { IsTrue result ↔ (self.now ≡ other.now) }
    {
        self.members.as_slice() == other.members.as_slice()
    }

    /// An equal label. `AllocError` where memory runs out.
    pub fn copy(&self) -> Result<Label, AllocError>
        ensures { IfOk result (λ l. l ≡ self.now) }
    {
        Ok(Label {
            members: self.members.as_slice().to_vec(*self.members.allocator())?,
        })
    }

    /// Whether the category is a member.
    pub fn contains(&self, member: &Category) -> bool
        ensures { result ≡ has by_name member.now self.now }
    {
        gap_for_name(self.members.as_slice(), member).is_none()
    }

    /// Makes the category a member. One that is a member already changes nothing. `TooMany` comes exactly where it would be
    /// the 65th, `NoMemory` where memory runs out; after either nothing changed.
    pub fn insert(&mut self, member: Category) -> Result<(), LabelFault>
        ensures ok { OnOk result (self.new ≡ with_member by_name member self.old) }
        ensures there { IsTrue (has by_name member self.old) → IsOk result }
        ensures too_many { IsErrOf result LabelFault.TooMany ↔ (64 < length (with_member by_name member self.old)) }
        ensures err { OnErr result (self.new ≡ self.old) }
    {
        if let Some(place) = gap_for_name(self.members.as_slice(), &member) {
            if self.members.len() == MEMBER_LIMIT {
                return Err(LabelFault::TooMany);
            }
            if self.members.insert(place, member).is_err() {
                return Err(LabelFault::NoMemory);
            }
        }
        Ok(())
    }

    /// Whether the category is above all members, so that it may be put behind them.
    pub fn goes_last(&self, member: &Category) -> bool
        ensures { result ≡ is_above by_name member.now (last_of None self.now) }
    {
        is_above_last(self.members.as_slice(), member)
    }

    /// Puts a category that is above all members behind them, at no more cost than that. After `AllocError`, which says that
    /// memory ran out, nothing changed.
    pub fn push_last(&mut self, member: Category) -> Result<(), AllocError>
        requires order { IsTrue (is_above by_name member (last_of None self.old)) }
        requires room { length self.old < 64 }
        ensures ok { OnOk result (self.new ≡ self.old ++ member ∷ []) }
        ensures err { OnErr result (self.new ≡ self.old) }
    {
        self.members.push(member)?;
        Ok(())
    }

    /// The members that aren't members of the other. `AllocError` where memory runs out.
    #[tactic(auto, unfolding(crate::specs::Flow::minus))]
    pub fn minus(&self, other: &Label) -> Result<Label, AllocError>
        ensures { IfOk result (λ l. l ≡ minus by_name self.now other.now) }
    {
        Ok(Label {
            members: outside(*self.members.allocator(), self.members.as_slice(), other)?,
        })
    }

    /// Whether this label flows to the other where nothing is owned: each secrecy category of this one is in the other, and
    /// each integrity category of the other is in this one.
    pub fn flows(&self, to: &Label) -> bool
        ensures { result ≡ flows by_name self.now to.now [] }
    {
        self.flows_under(to, &Label::new(*self.members.allocator()))
    }

    /// Whether this label flows to the other under an ownership: each secrecy category of this one that isn't owned is in
    /// the other, and each integrity category of the other that isn't owned is in this one.
    #[tactic(auto, unfolding(crate::specs::Flow::flows))]
    pub fn flows_under(&self, to: &Label, own: &Label) -> bool
        ensures { result ≡ flows by_name self.now to.now own.now }
    {
        secrecy_within(self.members.as_slice(), to, own)
            && integrity_within(to.members.as_slice(), self, own)
    }
}

/// Whether the first category comes before the second.
fn is_below(first: &Category, second: &Category) -> bool
    ensures { result ≡ is_lt (category_cmp first.now second.now) }
{
    first.cmp(second).is_lt()
}

/// Whether the category is above the last of the list, if there is one.
fn is_above_last(members: &[Category], member: &Category) -> bool
    ensures { result ≡ is_above by_name member.now (last_of None members.now) }
{
    match members.last() {
        None => true,
        Some(last) => is_below(last, member),
    }
}

/// Whether each secrecy category of the list is in one label or the other.
fn secrecy_within(members: &[Category], first: &Label, second: &Label) -> bool
    ensures { result ≡ list_all (λ c. not (is_secrecy c.kind) || (has by_name c first.now || has by_name c second.now)) members.now }
{
    members.iter().all(|c| c.kind != Kind::Secrecy || first.contains(c) || second.contains(c))
}

/// Whether each integrity category of the list is in one label or the other.
fn integrity_within(members: &[Category], first: &Label, second: &Label) -> bool
    ensures { result ≡ list_all (λ c. is_secrecy c.kind || (has by_name c first.now || has by_name c second.now)) members.now }
{
    members.iter().all(|c| c.kind == Kind::Secrecy || first.contains(c) || second.contains(c))
}

/// The categories of the list that aren't members of the label.
fn outside(alloc: Global, members: &[Category], label: &Label) -> Result<Vec<Category>, AllocError>
    ensures { IfOk result (λ v. v.items ≡ filter (λ c. not (has by_name c label.now)) members.now) }
{
    members
        .iter()
        .copied()
        .filter(|c| !label.contains(c))
        .collect(alloc)
}
