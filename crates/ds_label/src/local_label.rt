//! Labels of a host's own category numbers.

ghost use Rattle.std.specs.Prelude.{nat_le, vec_capacity, ◌%◌, ◌==◌, ◌≡◌, ◌≤◌, ◌<◌, ◌↔◌, ◌||◌, not, [], length, filter, IfOk, IsOk, OnOk, OnErr, IsErrOf, IsTrue, slice_get};
ghost use Rattle.std.specs.List.{list_all};
ghost use Rattle.std.specs.Bool.{OnTrue};
ghost use Rattle.ds_label.specs.Flow.{has, with_member, minus, union, flows, IsRising};
ghost use Rattle.ds_label.specs.Numbers.{by_number};

use crate::fault::{LabelFault, MEMBER_LIMIT};
use crate::search::gap_for_number;
use std::alloc::{AllocError, Global};
use std::marker::Model;
use std::mem;

/// A label: a set of at most 64 category numbers of one host, in strictly rising order. Contracts see the list.
#[derive(Debug, Drop)]
pub struct LocalLabel {
    members: Vec<u64>,
}

impl Model for LocalLabel {
    ghost use Rattle.std.specs.Prelude.{ℕ, List, length, ◌≤◌};
    ghost use Rattle.ds_label.specs.Flow.{IsRising};
    ghost use Rattle.ds_label.specs.Numbers.{by_number};

    ghost Value = { List ℕ };

    ghost view = { λ l. l.members.items };

    ghost invariant = { λ l. IsRising by_number l.members.items × (length l.members.items ≤ 64) };
}

impl LocalLabel {
    /// No member. Takes no memory.
    pub fn new(alloc: Global) -> LocalLabel
        ensures { result ≡ [] }
    {
        LocalLabel {
            members: Vec::new(alloc),
        }
    }

    /// How many members there are.
    pub fn len(&self) -> usize
        ensures count { result ≡ length self.now }
        ensures limit { length self.now ≤ 64 }
    {
        self.members.len()
    }

    /// Whether there is no member.
    pub fn is_empty(&self) -> bool
        ensures { IsTrue result ↔ (self.now ≡ []) }
    {
        self.members.as_slice().is_empty()
    }

    /// The member at a place, from 0.
    pub fn get(&self, place: usize) -> Option<u64>
        ensures { result ≡ slice_get self.now place }
    {
        self.members.get(place).copied()
    }

    /// The members, in order.
    pub fn as_slice(&self) -> &[u64]
        ensures members { result.now ≡ self.now }
        ensures rising { IsRising by_number self.now }
        ensures limit { length self.now ≤ 64 }
    {
        self.members.as_slice()
    }

    /// Whether both have the same members.
    pub fn same(&self, other: &LocalLabel) -> bool
        ensures { IsTrue result ↔ (self.now ≡ other.now) }
    {
        self.members.as_slice() == other.members.as_slice()
    }

    /// An equal label. `AllocError` where memory runs out.
    pub fn copy(&self) -> Result<LocalLabel, AllocError>
        ensures { IfOk result (λ l. l ≡ self.now) }
    {
        Ok(LocalLabel {
            members: self.members.as_slice().to_vec(*self.members.allocator())?,
        })
    }

    /// Whether the category is a member.
    pub fn contains(&self, member: u64) -> bool
        ensures { result ≡ has by_number member self.now }
    {
        gap_for_number(self.members.as_slice(), member).is_none()
    }

    /// Makes the category a member. One that is a member already changes nothing. `TooMany` comes exactly where it would be
    /// the 65th, `NoMemory` where memory runs out; after either nothing changed.
    pub fn insert(&mut self, member: u64) -> Result<(), LabelFault>
        ensures ok { OnOk result (self.new ≡ with_member by_number member self.old) }
        ensures there { IsTrue (has by_number member self.old) → IsOk result }
        ensures too_many { IsErrOf result LabelFault.TooMany ↔ (64 < length (with_member by_number member self.old)) }
        ensures err { OnErr result (self.new ≡ self.old) }
    {
        if let Some(place) = gap_for_number(self.members.as_slice(), member) {
            if self.members.len() == MEMBER_LIMIT {
                return Err(LabelFault::TooMany);
            }
            if self.members.insert(place, member).is_err() {
                return Err(LabelFault::NoMemory);
            }
        }
        Ok(())
    }

    /// The members that aren't members of the other. `AllocError` where memory runs out.
    #[tactic(auto, unfolding(crate::specs::Flow::minus))]
    pub fn minus(&self, other: &LocalLabel) -> Result<LocalLabel, AllocError>
        ensures { IfOk result (λ l. l ≡ minus by_number self.now other.now) }
    {
        Ok(LocalLabel {
            members: outside(*self.members.allocator(), self.members.as_slice(), other)?,
        })
    }

    /// Writes the members of both into a vector with room for 64, in order, and says whether there are at most 64. Takes no
    /// memory.
    pub fn union_into(&self, other: &LocalLabel, room: &mut Vec<u64>) -> bool
        requires { 64 ≤ vec_capacity room.old }
        ensures fits { result ≡ nat_le (length (union by_number self.now other.now)) 64 }
        ensures union { OnTrue result (room.new.items ≡ union by_number self.now other.now) }
        ensures rising { OnTrue result (IsRising by_number room.new.items) }
        ensures limit { OnTrue result (length room.new.items ≤ 64) }
    {
        united(self.members.as_slice(), other.members.as_slice(), room)
    }

    /// Becomes the label of these members, and leaves the former ones in the vector. Takes no memory.
    pub fn exchange(&mut self, members: &mut Vec<u64>)
        requires rising { IsRising by_number members.old.items }
        requires limit { length members.old.items ≤ 64 }
        ensures label { self.new ≡ members.old.items }
        ensures former { members.new.items ≡ self.old }
    {
        mem::swap(&mut self.members, members);
    }

    /// Whether this label flows to the other where nothing is owned: each secrecy category of this one is in the other, and
    /// each integrity category of the other is in this one.
    pub fn flows(&self, to: &LocalLabel) -> bool
        ensures { result ≡ flows by_number self.now to.now [] }
    {
        self.flows_under(to, &LocalLabel::new(*self.members.allocator()))
    }

    /// Whether this label flows to the other under an ownership: each secrecy category of this one that isn't owned is in
    /// the other, and each integrity category of the other that isn't owned is in this one.
    #[tactic(auto, unfolding(crate::specs::Flow::flows))]
    pub fn flows_under(&self, to: &LocalLabel, own: &LocalLabel) -> bool
        ensures { result ≡ flows by_number self.now to.now own.now }
    {
        secrecy_within(self.members.as_slice(), to, own)
            && integrity_within(to.members.as_slice(), self, own)
    }
}

/// Writes the members of both lists into a vector with room for 64, in order, and says whether there are at most 64.
fn united(first: &[u64], second: &[u64], room: &mut Vec<u64>) -> bool
    requires rising { IsRising by_number first.now }
    requires limit { length first.now ≤ 64 }
    requires room { 64 ≤ vec_capacity room.old }
    ensures fits { result ≡ nat_le (length (union by_number first.now second.now)) 64 }
    ensures union { OnTrue result (room.new.items ≡ union by_number first.now second.now) }
    ensures rising { OnTrue result (IsRising by_number room.new.items) }
    ensures limit { OnTrue result (length room.new.items ≤ 64) }
{
    room.clear();
    room.extend_from_slice(first).unwrap();
    for member in second {
        if !add(room, *member) {
            return false;
        }
    }
    true
}

/// Makes the number one of the members, in a vector with room for 64, and says whether there are at most 64 then.
fn add(members: &mut Vec<u64>, member: u64) -> bool
    requires rising { IsRising by_number members.old.items }
    requires limit { length members.old.items ≤ 64 }
    requires room { 64 ≤ vec_capacity members.old }
    ensures fits { result ≡ nat_le (length (with_member by_number member members.old.items)) 64 }
    ensures members { OnTrue result (members.new.items ≡ with_member by_number member members.old.items) }
    ensures room { 64 ≤ vec_capacity members.new }
{
    let Some(place) = gap_for_number(members.as_slice(), member) else {
        return true;
    };
    if members.len() == MEMBER_LIMIT {
        return false;
    }
    members.insert(place, member).unwrap();
    true
}

/// Whether each secrecy category of the list is in one label or the other.
fn secrecy_within(members: &[u64], first: &LocalLabel, second: &LocalLabel) -> bool
    ensures { result ≡ list_all (λ c. not ((c % 2 == 0)) || (has by_number c first.now || has by_number c second.now)) members.now }
{
    members.iter().all(|c| c % 2 != 0 || first.contains(*c) || second.contains(*c))
}

/// Whether each integrity category of the list is in one label or the other.
fn integrity_within(members: &[u64], first: &LocalLabel, second: &LocalLabel) -> bool
    ensures { result ≡ list_all (λ c. (c % 2 == 0) || (has by_number c first.now || has by_number c second.now)) members.now }
{
    members.iter().all(|c| c % 2 == 0 || first.contains(*c) || second.contains(*c))
}

/// The categories of the list that aren't members of the label.
fn outside(alloc: Global, members: &[u64], label: &LocalLabel) -> Result<Vec<u64>, AllocError>
    ensures { IfOk result (λ v. v.items ≡ filter (λ c. not (has by_number c label.now)) members.now) }
{
    members
        .iter()
        .copied()
        .filter(|c| !label.contains(*c))
        .collect(alloc)
}
