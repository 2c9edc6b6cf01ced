//! Lists of bytes, as the registers of a process.

ghost use Rattle.std.specs.Prelude.{◌≡◌, ◌++◌, [], ◌∷◌, length, IfOk, OnOk, OnErr, option_copied, slice_get};

use ds_wire::Bytes;
use std::alloc::{AllocError, Global};
use std::marker::Model;

/// A list of byte strings. Contracts see the list.
#[derive(Debug, Drop)]
pub struct BytesList {
    items: Vec<Bytes>,
}

impl Model for BytesList {
    ghost use Rattle.std.specs.Prelude.{ℕ, List};

    ghost Value = { List (List ℕ) };

    ghost view = { λ l. l.items.items };
}

impl BytesList {
    /// None. Takes no memory.
    pub fn new(alloc: Global) -> BytesList
        ensures { result ≡ [] }
    {
        BytesList {
            items: Vec::new(alloc),
        }
    }

    /// How many there are.
    pub fn len(&self) -> usize
        ensures { result ≡ length self.now }
    {
        self.items.len()
    }

    /// The bytes at a place, from 0.
    pub fn get(&self, place: usize) -> Option<&Bytes>
        ensures { option_copied result ≡ slice_get self.now place }
    {
        self.items.get(place)
    }

    /// Appends one. After `AllocError`, which says that memory ran out, nothing changed.
    pub fn push(&mut self, item: Bytes) -> Result<(), AllocError>
        ensures ok { OnOk result (self.new ≡ self.old ++ item ∷ []) }
        ensures err { OnErr result (self.new ≡ self.old) }
    {
        self.items.push(item)?;
        Ok(())
    }

    /// Copies of them. `AllocError` where memory runs out.
    pub fn from_slice(alloc: Global, items: &[Bytes]) -> Result<BytesList, AllocError>
        ensures { IfOk result (λ l. l ≡ items.now) }
    {
        Ok(BytesList {
            items: bytes_copies(alloc, items)?,
        })
    }

    /// All of them, in order.
    pub fn as_slice(&self) -> &[Bytes]
        ensures { result.now ≡ self.now }
    {
        self.items.as_slice()
    }
}

/// Equal byte strings. `AllocError` where memory runs out.
fn bytes_copies(alloc: Global, items: &[Bytes]) -> Result<Vec<Bytes>, AllocError>
    ensures { IfOk result (λ v. v.items ≡ items.now) }
{
    let mut copies = Vec::with_capacity(alloc, items.len())?;
    for item in items {
        copies.push(item.copy()?)?;
    }
    Ok(copies)
}
