//! Bytes with room that was taken beforehand.

ghost use Rattle.std.specs.Prelude.{◌≡◌, ◌+◌, ◌≤◌, ◌++◌, [], length, OnOk};

use crate::bytes::Bytes;
use std::alloc::{AllocError, Global};
use std::marker::Model;

/// Bytes with room for more. Contracts see the bytes, and how many more there is room for.
#[derive(Debug, Drop)]
pub struct Buffer {
    bytes: Vec<u8>,
}

impl Model for Buffer {
    ghost use Rattle.std.specs.Prelude.{◌-◌, vec_len, vec_capacity};
    ghost use Rattle.ds_wire.specs.Room.{Filled};

    ghost Value = { Filled };

    ghost view = { λ b. record { bytes = b.bytes.items; spare = vec_capacity b.bytes - vec_len b.bytes } };
}

impl Buffer {
    /// No bytes. Takes no memory.
    pub fn new(alloc: Global) -> Buffer
        ensures { result.bytes ≡ [] }
    {
        Buffer {
            bytes: Vec::new(alloc),
        }
    }

    /// The same bytes in a buffer. Takes no memory.
    pub fn from_bytes(bytes: Bytes) -> Buffer
        ensures { result.bytes ≡ bytes }
    {
        Buffer {
            bytes: bytes.into_vec(),
        }
    }

    /// The bytes alone. Takes no memory.
    pub fn into_bytes(self) -> Bytes
        ensures { result ≡ self.bytes }
    {
        Bytes::from_vec(self.bytes)
    }

    /// The bytes.
    pub fn as_slice(&self) -> &[u8]
        ensures { result.now ≡ self.now.bytes }
    {
        self.bytes.as_slice()
    }

    /// How many bytes there are.
    pub fn len(&self) -> usize
        ensures { result ≡ length self.now.bytes }
    {
        self.bytes.len()
    }

    /// Makes room for that many more bytes. After `AllocError`, which says that memory ran out, the bytes are the same.
    pub fn reserve(&mut self, more: usize) -> Result<(), AllocError>
        ensures same { self.new.bytes ≡ self.old.bytes }
        ensures room { OnOk result (more ≤ self.new.spare) }
        ensures kept { self.old.spare ≤ self.new.spare }
    {
        self.bytes.reserve(more)
    }

    /// Appends the slice, for which there is room. Takes no memory.
    pub fn fill(&mut self, piece: &[u8])
        requires { length piece.now ≤ self.old.spare }
        ensures bytes { self.new.bytes ≡ self.old.bytes ++ piece.now }
        ensures room { self.old.spare ≤ self.new.spare + length piece.now }
    {
        self.bytes.extend_from_slice(piece).unwrap();
    }
}
