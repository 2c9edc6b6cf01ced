//! The messages of a frame, as bytes.

ghost use Rattle.std.specs.Prelude.{◌≡◌, ◌≤◌, ◌<◌, ◌++◌, [], ◌∷◌, length, OnOk, OnErr, option_copied, slice_get};

use ds_wire::Bytes;
use std::alloc::{AllocError, Global};
use std::marker::Model;

/// The bytes of at most 16 messages. Contracts see the list.
#[derive(Debug, Drop)]
pub struct BodyList {
    items: Vec<Bytes>,
}

impl Model for BodyList {
    ghost use Rattle.std.specs.Prelude.{ℕ, List, length, ◌≤◌};

    ghost Value = { List (List ℕ) };

    ghost view = { λ l. l.items.items };

    ghost invariant = { λ l. length l.items.items ≤ 16 };
}

impl BodyList {
    /// None. Takes no memory.
    pub fn new(alloc: Global) -> BodyList
        ensures { result ≡ [] }
    {
        BodyList {
            items: Vec::new(alloc),
        }
    }

    /// How many there are.
    pub fn len(&self) -> usize
        ensures count { result ≡ length self.now }
        ensures limit { length self.now ≤ 16 }
    {
        self.items.len()
    }

    /// The bytes at a place, from 0.
    pub fn get(&self, place: usize) -> Option<&Bytes>
        ensures { option_copied result ≡ slice_get self.now place }
    {
        self.items.get(place)
    }

    /// All of them.
    pub fn as_slice(&self) -> &[Bytes]
        ensures { result.now ≡ self.now }
    {
        self.items.as_slice()
    }

    /// Appends one to fewer than 16. After `AllocError`, which says that memory ran out, nothing changed.
    pub fn push(&mut self, item: Bytes) -> Result<(), AllocError>
        requires { length self.old < 16 }
        ensures ok { OnOk result (self.new ≡ self.old ++ item ∷ []) }
        ensures err { OnErr result (self.new ≡ self.old) }
    {
        self.items.push(item)?;
        Ok(())
    }
}
