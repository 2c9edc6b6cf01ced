//! What an event did, and why it did nothing.

ghost use Rattle.std.specs.Prelude.{◌≡◌};
ghost use Rattle.ds_exporter.specs.declared.moved.CoreFault.TheVariants.{NoMemory};

use std::alloc::AllocError;
use thiserror::Error;

/// What an event did.
#[derive(Clone, Copy, Debug, PartialEq, Eq)]
pub enum Moved {
    /// The host or the connection changed.
    Changed,
    /// It found nothing to do.
    Still,
}

/// Why an event didn't come about. Nothing changed then.
#[derive(Clone, Copy, Debug, PartialEq, Eq, Error)]
pub enum CoreFault {
    /// The keeper failed to raise a key's mark: its count of faults rose.
    #[error("the keeper failed to raise the mark")]
    KeeperFault,
    /// Memory ran out.
    #[error("out of memory")]
    NoMemory,
}

impl From<AllocError> for CoreFault {
    ghost from_gives = { λ _ e. e ≡ NoMemory };

    fn from(_fault: AllocError) -> CoreFault {
        CoreFault::NoMemory
    }
}
