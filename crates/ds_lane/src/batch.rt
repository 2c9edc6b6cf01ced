//! Messages that wait on a lane, and a few of them.
#![tactic(auto)]

ghost use Rattle.std.specs.Prelude.{◌≡◌, ◌↔◌, ◌≤◌, IsTrue, [], length, slice_get, IfOk, option_copied};

use ds_msg::Message;
use std::alloc::{AllocError, Global};
use std::marker::Model;

/// A message on a lane.
#[derive(Debug, Drop)]
pub struct Waiting {
    /// The index of the process that sent it.
    pub from: u32,
    /// The message.
    pub message: Message,
}

impl Waiting {
    /// An equal one. `AllocError` where memory runs out.
    pub fn copy(&self) -> Result<Waiting, AllocError>
        ensures { IfOk result (λ x. x ≡ self.now) }
    {
        Ok(Waiting {
            from: self.from,
            message: self.message.copy()?,
        })
    }
}

/// At most 16 messages of a lane, in the order in which they waited. Contracts see the list.
#[derive(Debug, Drop)]
pub struct BodyBatch {
    items: Vec<Waiting>,
}

impl Model for BodyBatch {
    ghost use Rattle.std.specs.Prelude.{List, length, ◌≤◌};
    ghost use Rattle.ds_lane.specs.declared.batch.Waiting.{Waiting};

    ghost Value = { List Waiting };

    ghost view = { λ b. b.items.items };

    ghost invariant = { λ b. length b.items.items ≤ 16 };
}

impl BodyBatch {
    /// None. Takes no memory.
    pub fn new(alloc: Global) -> BodyBatch
        ensures { result ≡ [] }
    {
        BodyBatch {
            items: Vec::new(alloc),
        }
    }

    /// Those of a list of at most 16.
    pub(crate) fn of(items: Vec<Waiting>) -> BodyBatch
        requires { length items.items ≤ 16 }
        ensures { result ≡ items.items }
    {
        BodyBatch { items }
    }

    /// How many there are.
    pub fn len(&self) -> usize
        ensures count { result ≡ length self.now }
        ensures limit { length self.now ≤ 16 }
    {
        self.items.len()
    }

    /// Whether there is none.
    pub fn is_empty(&self) -> bool
        ensures { IsTrue result ↔ (self.now ≡ []) }
    {
        self.items.as_slice().is_empty()
    }

    /// The message at a place, from 0.
    pub fn get(&self, place: usize) -> Option<&Waiting>
        ensures { option_copied result ≡ slice_get self.now place }
    {
        self.items.get(place)
    }

    /// All of them, in order.
    pub fn as_slice(&self) -> &[Waiting]
        ensures items { result.now ≡ self.now }
        ensures limit { length self.now ≤ 16 }
    {
        self.items.as_slice()
    }
}
