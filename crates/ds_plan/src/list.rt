//! Lists of parts.

ghost use Rattle.std.specs.Prelude.{◌≡◌, ◌↔◌, ◌++◌, [], ◌∷◌, length, IsTrue, OnOk, OnErr, option_copied, slice_get};

use ds_label::Category;
use std::alloc::{AllocError, Global};
use std::marker::Model;

/// A list of parts of a document. Contracts see the list.
#[derive(Debug, Drop)]
pub struct PartList<T> {
    items: Vec<T>,
}

/// A list of places of hosts.
pub type PlaceList = PartList<u32>;

/// A set of hosts, by their places in the document.
pub type HostSet = PartList<u32>;

/// A list of categories.
pub type CategoryList = PartList<Category>;

impl<T> Model for PartList<T> {
    ghost use Rattle.std.specs.Prelude.{List};

    ghost Value = { List T };

    ghost view = { λ l. l.items.items };
}

impl<T: Drop> PartList<T> {
    /// No part. Takes no memory.
    pub fn new(alloc: Global) -> PartList<T>
        ensures { result ≡ [] }
    {
        PartList {
            items: Vec::new(alloc),
        }
    }

    /// The parts of a vector. Takes no memory.
    pub fn from_vec(items: Vec<T>) -> PartList<T>
        ensures { result ≡ items.items }
    {
        PartList { items }
    }

    /// How many parts there are.
    pub fn len(&self) -> usize
        ensures { result ≡ length self.now }
    {
        self.items.len()
    }

    /// Whether there is no part.
    pub fn is_empty(&self) -> bool
        ensures { IsTrue result ↔ (self.now ≡ []) }
    {
        self.items.as_slice().is_empty()
    }

    /// The part at a place, from 0.
    pub fn get(&self, place: usize) -> Option<&T>
        ensures { option_copied result ≡ slice_get self.now place }
    {
        self.items.get(place)
    }

    /// Appends a part. After `AllocError`, which says that memory ran out, nothing changed.
    pub fn push(&mut self, item: T) -> Result<(), AllocError>
        ensures ok { OnOk result (self.new ≡ self.old ++ item ∷ []) }
        ensures err { OnErr result (self.new ≡ self.old) }
    {
        self.items.push(item)?;
        Ok(())
    }

    /// The parts, in order.
    pub fn as_slice(&self) -> &[T]
        ensures { result.now ≡ self.now }
    {
        self.items.as_slice()
    }
}
