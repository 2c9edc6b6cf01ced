//! Why bytes are no spelling.

ghost use Rattle.std.specs.Prelude.{◌≡◌};
ghost use Rattle.ds_cert.specs.Fields.{IsNear, fault_at};
ghost use Rattle.ds_cert.specs.declared.fault.ReadFault.TheVariants.{NoMemory};

use std::alloc::{AllocError, AllocFailed};
use thiserror::Error;

/// Why bytes could not be read.
#[derive(Clone, Copy, Debug, PartialEq, Eq, Error)]
pub enum CertFault {
    /// The bytes are no spelling. The number is the place, from 0, of the first byte of the first field that is short, out of
    /// its range, out of order or there twice; a key, a category, a number and a run of counted bytes are one field each.
    /// Where the spelling ends before the input does, it is the spelling's length.
    #[error("malformed at place {0}")]
    Malformed(u32),
    /// Memory ran out.
    #[error("out of memory")]
    NoMemory,
}

/// Why the fields up to a place could not be read.
#[derive(Clone, Copy, Debug, PartialEq, Eq, Error)]
pub enum ReadFault {
    /// From the first byte of the faulty field on there are that many bytes.
    #[error("malformed {0} bytes before the end")]
    Left(usize),
    /// Memory ran out.
    #[error("out of memory")]
    NoMemory,
}

impl From<AllocError> for ReadFault {
    ghost from_gives = { λ _ e. e ≡ NoMemory };

    fn from(_fault: AllocError) -> ReadFault {
        ReadFault::NoMemory
    }
}

impl<T: Drop> From<AllocFailed<T>> for ReadFault {
    ghost from_gives = { λ _ e. e ≡ NoMemory };

    fn from(_fault: AllocFailed<T>) -> ReadFault {
        ReadFault::NoMemory
    }
}

/// The same fault, told by its place in an input of that many bytes.
pub fn at_place(length: usize, fault: ReadFault) -> CertFault
    requires { IsNear length fault }
    ensures { result ≡ fault_at length fault }
{
    match fault {
        ReadFault::NoMemory => CertFault::NoMemory,
        ReadFault::Left(left) => CertFault::Malformed((length - left) as u32),
    }
}
