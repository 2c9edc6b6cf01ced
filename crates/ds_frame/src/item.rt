//! What is read of a stream.

ghost use Rattle.std.specs.Prelude.{◌≡◌};

use crate::bodies::BodyList;
use crate::cause::Cause;
use ds_cert::LaneCert;
use std::alloc::AllocError;
use thiserror::Error;

/// A frame whose signature is good.
#[derive(Debug, Drop)]
pub struct Frame {
    /// Its number, which is the leaf of its signature.
    pub number: u32,
    /// The bytes of its messages, from 1 to 16.
    pub bodies: BodyList,
}

/// What a stream carries: first a hello, then frames.
#[derive(Debug, Drop)]
pub enum Item {
    /// The lane certificate of the exporter that writes the stream. Its signature is good.
    Hello(LaneCert),
    /// A frame, whose signature is good under the lane's key.
    Frame(Frame),
}

/// Why no item is handed out.
#[derive(Clone, Copy, Debug, PartialEq, Eq, Error)]
pub enum ReadEnd {
    /// The item isn't whole yet, and each field of it that is whole is in range.
    #[error("the item is not whole yet")]
    NotYet,
    /// The stream is broken, for that cause and at that place, from 0.
    #[error("the stream is broken at place {1}: {0}")]
    BadFrame(Cause, u64),
    /// Memory ran out.
    #[error("out of memory")]
    NoMemory,
}

/// Why a stream is broken, and where.
#[derive(Clone, Copy, Debug, PartialEq, Eq)]
pub struct Failure {
    /// The cause.
    pub cause: Cause,
    /// The place in the stream, from 0.
    pub place: u64,
}

/// Why reading the front of a stream stops.
#[derive(Clone, Copy, Debug, PartialEq, Eq, Error)]
pub enum ReadFaultOrMemory {
    /// A field isn't whole yet, and each field before it is in range.
    #[error("a field is not whole yet")]
    Open,
    /// For that cause, at a place that many bytes behind the item's first byte.
    #[error("broken {1} bytes behind the first: {0}")]
    Broken(Cause, usize),
    /// Memory ran out.
    #[error("out of memory")]
    NoMemory,
}

impl From<AllocError> for ReadFaultOrMemory {
    ghost use Rattle.ds_frame.specs.declared.item.ReadFaultOrMemory.TheVariants.{NoMemory};

    ghost from_gives = { λ _ e. e ≡ NoMemory };

    fn from(_fault: AllocError) -> ReadFaultOrMemory {
        ReadFaultOrMemory::NoMemory
    }
}
