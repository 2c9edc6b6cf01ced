//! An owned list of bytes.

ghost use Rattle.std.specs.Prelude.{◌≡◌, ◌<◌, ◌++◌, [], length, IfOk, OnOk, OnErr, IsTrue, ◌↔◌};

use std::alloc::{AllocError, Global};
use std::marker::Model;

/// An owned list of bytes. Contracts see the list.
#[derive(Debug, Drop)]
pub struct Bytes {
    bytes: Vec<u8>,
}

impl Model for Bytes {
    ghost use Rattle.std.specs.Prelude.{ℕ, List};

    ghost Value = { List ℕ };

    ghost view = { λ b. b.bytes.items };
}

impl Bytes {
    /// No bytes. Takes no memory.
    pub fn new(alloc: Global) -> Bytes
        ensures { result ≡ [] }
    {
        Bytes {
            bytes: Vec::new(alloc),
        }
    }

    /// No bytes, with room for that many, so that appending these takes no memory again. `AllocError` where memory runs out.
    pub fn with_room(alloc: Global, room: usize) -> Result<Bytes, AllocError>
        ensures { IfOk result (λ b. b ≡ []) }
    {
        Ok(Bytes {
            bytes: Vec::with_capacity(alloc, room)?,
        })
    }

    /// The allocator that the bytes came with.
    pub fn allocator(&self) -> Global {
        *self.bytes.allocator()
    }

    /// A copy of the slice. `AllocError` where memory runs out.
    pub fn from_slice(alloc: Global, piece: &[u8]) -> Result<Bytes, AllocError>
        ensures { IfOk result (λ b. b ≡ piece.now) }
    {
        Ok(Bytes {
            bytes: piece.to_vec(alloc)?,
        })
    }

    /// The bytes of a vector, without a copy. Takes no memory.
    pub fn from_vec(bytes: Vec<u8>) -> Bytes
        ensures { result ≡ bytes.items }
    {
        Bytes { bytes }
    }

    /// The bytes as a vector, without a copy. Takes no memory.
    pub fn into_vec(self) -> Vec<u8>
        ensures { result.items ≡ self }
    {
        self.bytes
    }

    /// The bytes.
    pub fn as_slice(&self) -> &[u8]
        ensures { result.now ≡ self.now }
    {
        self.bytes.as_slice()
    }

    /// How many bytes there are.
    pub fn len(&self) -> usize
        ensures { result ≡ length self.now }
    {
        self.bytes.len()
    }

    /// Whether there are none.
    pub fn is_empty(&self) -> bool
        ensures { IsTrue result ↔ (self.now ≡ []) }
    {
        self.bytes.as_slice().is_empty()
    }

    /// Whether both have the same bytes.
    pub fn same(&self, other: &Bytes) -> bool
        ensures { IsTrue result ↔ (self.now ≡ other.now) }
    {
        self.bytes.as_slice() == other.bytes.as_slice()
    }

    /// An equal list. `AllocError` where memory runs out.
    pub fn copy(&self) -> Result<Bytes, AllocError>
        ensures { IfOk result (λ b. b ≡ self.now) }
    {
        Bytes::from_slice(*self.bytes.allocator(), self.as_slice())
    }

    /// Appends the slice. After `AllocError`, which says that memory ran out, nothing changed.
    pub fn append(&mut self, piece: &[u8]) -> Result<(), AllocError>
        ensures ok { OnOk result (self.new ≡ self.old ++ piece.now) }
        ensures err { OnErr result (self.new ≡ self.old) }
    {
        self.bytes.extend_from_slice(piece)
    }
}
