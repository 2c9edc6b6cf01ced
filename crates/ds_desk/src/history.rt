//! The entries of a desk.
#![tactic(auto)]

ghost use Rattle.std.specs.Prelude.{◌≡◌, ◌↔◌, ℕ, ◌≤◌, ◌<◌, ◌++◌, [], ◌∷◌, length, option_copied, slice_get, IsTrue, OnOk};
ghost use Rattle.ds_script.specs.Replay.{last_of};
ghost use Rattle.ds_desk.specs.Desks.{stamp_of};

use crate::act::DeskEntry;
use std::alloc::{AllocError, Global};
use std::marker::Model;

/// The entries of a desk since its opening, in order. Contracts see them, and whether there is room for one more (`spare`, 0
/// or 1).
#[derive(Debug, Drop)]
pub struct DeskHistory {
    entries: Vec<DeskEntry>,
}

impl Model for DeskHistory {
    ghost use Rattle.std.specs.Prelude.{◌-◌, min, vec_len, vec_capacity};
    ghost use Rattle.ds_chain.specs.Stored.{Stored};
    ghost use Rattle.ds_desk.specs.declared.act.DeskEntry.{DeskEntry};

    ghost Value = { Stored DeskEntry };

    ghost view = { λ h. record { items = h.entries.items; spare = min 1 (vec_capacity h.entries - vec_len h.entries) } };
}

impl DeskHistory {
    /// No entry. Takes no memory.
    pub fn new(alloc: Global) -> DeskHistory
        ensures { result.items ≡ [] }
    {
        DeskHistory {
            entries: Vec::new(alloc),
        }
    }

    /// How many entries there are.
    pub fn len(&self) -> usize
        ensures { result ≡ length self.now.items }
    {
        self.entries.len()
    }

    /// Whether there is none.
    pub fn is_empty(&self) -> bool
        ensures { IsTrue result ↔ (self.now.items ≡ []) }
    {
        self.entries.as_slice().is_empty()
    }

    /// The entry at a place, from 0.
    pub fn get(&self, place: usize) -> Option<&DeskEntry>
        ensures { option_copied result ≡ slice_get self.now.items place }
    {
        self.entries.get(place)
    }

    /// The entries, in order.
    pub fn as_slice(&self) -> &[DeskEntry]
        ensures { result.now ≡ self.now.items }
    {
        self.entries.as_slice()
    }

    /// Makes room for one entry. After `AllocError`, which says that memory ran out, the entries are the same.
    pub fn reserve(&mut self) -> Result<(), AllocError>
        ensures same { self.new.items ≡ self.old.items }
        ensures room { OnOk result (self.new.spare ≡ 1) }
        ensures kept { self.old.spare ≤ self.new.spare }
    {
        self.entries.reserve(1)
    }

    /// Enters, where there is room. Takes no memory.
    #[tactic(auto, using(crate::proofs::Grows::last_entered))]
    pub(crate) fn enter(&mut self, entry: DeskEntry)
        requires { 0 < self.old.spare }
        ensures items { self.new.items ≡ self.old.items ++ entry ∷ [] }
        ensures last { (base : ℕ) → last_of stamp_of base self.new.items ≡ entry.stamp }
    {
        self.entries.push_reserved(entry);
    }
}
