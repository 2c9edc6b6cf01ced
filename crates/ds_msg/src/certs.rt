//! The delegations that a message carries.

ghost use Rattle.std.specs.Prelude.{IfOk, ◌≡◌, ◌≤◌, ◌<◌, ◌++◌, [], ◌∷◌, length, OnOk, OnErr, option_copied, slice_get};
ghost use Rattle.ds_msg.specs.Ranges.{is_among};

use ds_wire::Bytes;
use std::alloc::{AllocError, Global};
use std::marker::Model;

/// The spellings of at most 16 delegations. Contracts see the list.
#[derive(Debug, Drop)]
pub struct CertBytes {
    items: Vec<Bytes>,
}

impl Model for CertBytes {
    ghost use Rattle.std.specs.Prelude.{ℕ, List, length, ◌≤◌};

    ghost Value = { List (List ℕ) };

    ghost view = { λ l. l.items.items };

    ghost invariant = { λ l. length l.items.items ≤ 16 };
}

impl CertBytes {
    /// None. Takes no memory.
    pub fn new(alloc: Global) -> CertBytes
        ensures { result ≡ [] }
    {
        CertBytes {
            items: Vec::new(alloc),
        }
    }

    /// How many there are.
    pub fn len(&self) -> usize
        ensures count { result ≡ length self.now }
        ensures limit { length self.now ≤ 16 }
    {
        self.items.len()
    }

    /// The spellings.
    pub fn as_slice(&self) -> &[Bytes]
        ensures { result.now ≡ self.now }
    {
        self.items.as_slice()
    }

    /// Whether the bytes are one of them.
    pub fn has(&self, bytes: &[u8]) -> bool
        ensures { result ≡ is_among bytes.now self.now }
    {
        self.items.iter().any(|item| bytes == item.as_slice())
    }

    /// An equal list. `AllocError` where memory runs out.
    pub fn copy(&self) -> Result<CertBytes, AllocError>
        ensures { IfOk result (λ c. c ≡ self.now) }
    {
        let mut copied = CertBytes::new(*self.items.allocator());
        for item in self.items.as_slice() {
            copied.push(item.copy()?)?;
        }
        Ok(copied)
    }

    /// The spelling at a place, from 0.
    pub fn get(&self, place: usize) -> Option<&Bytes>
        ensures { option_copied result ≡ slice_get self.now place }
    {
        self.items.get(place)
    }

    /// Appends one to fewer than 16. After `AllocError`, which says that memory ran out, nothing changed.
    pub fn push(&mut self, item: Bytes) -> Result<(), AllocError>
        requires { length self.old < 16 }
        ensures ok { OnOk result (self.new ≡ self.old ++ item ∷ []) }
        ensures err { OnErr result (self.new ≡ self.old) }
    {
        self.items.push(item)?;
        Ok(())
    }
}
