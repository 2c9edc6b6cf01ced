//! The names that a process may use besides its host's own.

ghost use Rattle.std.specs.Prelude.{◌≡◌, ◌++◌, [], ◌∷◌, length, OnOk, OnErr, option_copied, slice_get};

use ds_label::Category;
use std::alloc::{AllocError, Global};
use std::marker::Model;

/// A category, and its number on the host.
#[derive(Clone, Copy, Debug, PartialEq, Eq)]
pub struct Usable {
    pub category: Category,
    pub local: u64,
}

/// A list of categories with their numbers. Contracts see the list.
#[derive(Debug, Drop)]
pub struct UsableList {
    items: Vec<Usable>,
}

impl Model for UsableList {
    ghost use Rattle.std.specs.Prelude.{List};
    ghost use Rattle.ds_script.specs.declared.usable.Usable.{Usable};

    ghost Value = { List Usable };

    ghost view = { λ l. l.items.items };
}

impl UsableList {
    /// No name. Takes no memory.
    pub fn new(alloc: Global) -> UsableList
        ensures { result ≡ [] }
    {
        UsableList {
            items: Vec::new(alloc),
        }
    }

    /// How many names there are.
    pub fn len(&self) -> usize
        ensures { result ≡ length self.now }
    {
        self.items.len()
    }

    /// The name at a place, from 0.
    pub fn get(&self, place: usize) -> Option<&Usable>
        ensures { option_copied result ≡ slice_get self.now place }
    {
        self.items.get(place)
    }

    /// Appends a name. After `AllocError`, which says that memory ran out, nothing changed.
    pub fn push(&mut self, item: Usable) -> Result<(), AllocError>
        ensures ok { OnOk result (self.new ≡ self.old ++ item ∷ []) }
        ensures err { OnErr result (self.new ≡ self.old) }
    {
        self.items.push(item)?;
        Ok(())
    }

    /// The names, in order.
    pub fn as_slice(&self) -> &[Usable]
        ensures { result.now ≡ self.now }
    {
        self.items.as_slice()
    }

    /// The names as a vector, without a copy. Takes no memory.
    pub fn into_vec(self) -> Vec<Usable>
        ensures { result.items ≡ self }
    {
        self.items
    }
}
