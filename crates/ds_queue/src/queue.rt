//! A queue with room for a fixed number of items.
#![tactic(auto)]

ghost use Rattle.std.specs.Prelude.{◌≡◌, ◌↔◌, ◌<◌, ◌≤◌, ◌++◌, [], ◌∷◌, true, length, drop, slice_get, option_copied, IfErr, IsOk, MatchOption, OnErr, OnOk, Some};
ghost use Rattle.ds_queue.specs.Queues.{new_queue};

use circular_buffer::HeapCircularBuffer;
use std::alloc::{AllocError, Global};
use std::marker::Model;

/// Items that wait, the oldest first, at most as many as there is room for. The memory for all of them is taken at once, by
/// the first `reserve`. Contracts see the list, the room, and whether that memory was taken.
#[derive(Drop)]
pub struct Queue<T> {
    alloc: Global,
    room: usize,
    // Its capacity is the room.
    ring: Option<HeapCircularBuffer<T>>,
}

impl<T> Model for Queue<T> {
    ghost use Rattle.std.specs.Prelude.{is_some};
    ghost use Rattle.ds_queue.specs.Queues.{QueueOf};

    ghost Value = { QueueOf T };

    ghost use Rattle.ds_queue.specs.Inside.{ring_items, IsRingOf};

    ghost view = { λ q. record { items = ring_items q.ring; room = q.room; is_ready = is_some q.ring } };

    ghost invariant = { λ q. IsRingOf q.room q.ring };
}

impl<T> Queue<T> {
    /// A queue with room for that many items, of which there is none. It takes no memory.
    pub fn new(alloc: Global, room: usize) -> Queue<T>
        ensures { result ≡ new_queue room }
    {
        Queue {
            alloc,
            room,
            ring: None,
        }
    }

    /// How many items there are.
    pub fn len(&self) -> usize
        ensures len { result ≡ length self.now.items }
        ensures within { result ≤ self.now.room }
    {
        match &self.ring {
            Some(ring) => ring.len(),
            None => 0,
        }
    }

    /// The item at a place; the oldest is at 0.
    pub fn get(&self, place: usize) -> Option<&T>
        ensures { option_copied result ≡ slice_get self.now.items place }
    {
        match &self.ring {
            Some(ring) => ring.get(place),
            None => None,
        }
    }

    /// The oldest item, if there is one.
    pub fn oldest(&self) -> Option<&T>
        ensures { MatchOption result (self.now.items ≡ []) (λ x. slice_get self.now.items 0 ≡ Some x.now) }
    {
        self.get(0)
    }

    /// Takes the memory for all items that there is room for, if it wasn't taken yet. After `AllocError`, which says that memory
    /// ran out, nothing changed.
    pub fn reserve(&mut self) -> Result<(), AllocError>
    where
        T: Drop,
        ensures items { self.new.items ≡ self.old.items }
        ensures room { self.new.room ≡ self.old.room }
        ensures ready { OnOk result (self.new.is_ready ≡ true) }
        ensures err { OnErr result (self.new ≡ self.old) }
    {
        if self.ring.is_none() {
            self.ring = Some(HeapCircularBuffer::with_capacity(self.alloc, self.room)?);
        }
        Ok(())
    }

    /// Appends an item. It takes no memory.
    ///
    /// # Errors
    ///
    /// The item, exactly where there is no room for one more. Nothing changed then.
    pub fn push(&mut self, item: T) -> Result<(), T>
        requires { self.old.is_ready ≡ true }
        ensures variant { IsOk result ↔ (length self.old.items < self.old.room) }
        ensures ok { OnOk result (self.new ≡ record self.old { items = self.old.items ++ item ∷ [] }) }
        ensures err { IfErr result (λ x. (x ≡ item) × (self.new ≡ self.old)) }
    {
        match &mut self.ring {
            Some(ring) => ring.try_push_back(item),
            None => Err(item),
        }
    }

    /// Takes out the oldest item, if there is one. It takes no memory.
    pub fn pop(&mut self) -> Option<T>
        ensures oldest { MatchOption result (self.old.items ≡ []) (λ x. self.old.items ≡ x ∷ drop 1 self.old.items) }
        ensures rest { self.new ≡ record self.old { items = drop 1 self.old.items } }
    {
        match &mut self.ring {
            Some(ring) => ring.pop_front(),
            None => None,
        }
    }
}
