//! Why a document is refused.

ghost use Rattle.std.specs.Prelude.{◌≡◌};
ghost use Rattle.ds_doc.specs.Shapes.{lesser, least, unless};

use std::alloc::{AllocError, AllocFailed};
use thiserror::Error;

/// Why a document wasn't read.
#[derive(Clone, Copy, Debug, PartialEq, Eq, Error)]
pub enum DocFault {
    /// It breaks a rule: the least code of a broken rule, from 1 to 11, and the least place where that rule is broken. The
    /// place of a value is the number of values before it in the document, objects and lists before what is in them, and
    /// members by the bytes of their names.
    #[error("refused with code {0} at place {1}")]
    Refused(u8, u32),
    /// Memory ran out.
    #[error("out of memory")]
    NoMemory,
}

impl From<AllocError> for DocFault {
    ghost use Rattle.std.specs.Prelude.{◌≡◌};
    ghost use Rattle.ds_doc.specs.declared.fault.DocFault.TheVariants.{NoMemory};

    ghost from_gives = { λ _ e. e ≡ NoMemory };

    fn from(_: AllocError) -> DocFault {
        DocFault::NoMemory
    }
}

impl<T: Drop> From<AllocFailed<T>> for DocFault {
    ghost use Rattle.std.specs.Prelude.{◌≡◌};
    ghost use Rattle.ds_doc.specs.declared.fault.DocFault.TheVariants.{NoMemory};

    ghost from_gives = { λ _ e. e ≡ NoMemory };

    fn from(_: AllocFailed<T>) -> DocFault {
        DocFault::NoMemory
    }
}

/// A rule that is broken at a place.
#[derive(Clone, Copy)]
pub(crate) struct Fault {
    /// The rule's code.
    pub(crate) code: u8,
    /// The place.
    pub(crate) at: u32,
}

/// The lesser fault, by code and then by place.
pub(crate) fn lesser(first: Option<Fault>, second: Option<Fault>) -> Option<Fault>
    ensures { result ≡ lesser first second }
{
    match (first, second) {
        (None, _) => second,
        (_, None) => first,
        (Some(a), Some(b)) => if b.code < a.code || b.code == a.code && b.at < a.at {
            second
        } else {
            first
        },
    }
}

/// A fault of this code at this place, unless all is well.
pub(crate) fn unless(fine: bool, code: u8, at: u32) -> Option<Fault>
    ensures { result ≡ least (unless fine code at) }
{
    if fine { None } else { Some(Fault { code, at }) }
}
