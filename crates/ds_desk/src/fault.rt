//! Why a call on a desk fails.

ghost use Rattle.std.specs.Prelude.{◌≡◌};
ghost use Rattle.ds_desk.specs.declared.fault.DeskFault.TheVariants as desk_faults;
ghost use Rattle.ds_desk.specs.declared.fault.EntryFault.TheVariants as entry_faults;

use ds_label::Rule;
use std::alloc::AllocError;
use thiserror::Error;

/// Why a call fails that takes the keeper of marks.
#[derive(Clone, Copy, Debug, PartialEq, Eq, Error)]
pub enum DeskFault {
    /// A rule refuses it. That is entered in the history, and nothing else changed.
    #[error("refused by {0}")]
    Refused(Rule),
    /// The keeper failed to raise the identity key's mark: its count of faults rose. Nothing is entered.
    #[error("the keeper failed to raise the mark")]
    KeeperFault,
    /// Memory ran out. Nothing is entered.
    #[error("out of memory")]
    NoMemory,
}

/// Why a call fails.
#[derive(Clone, Copy, Debug, PartialEq, Eq, Error)]
pub enum EntryFault {
    /// A rule refuses it. That is entered in the history, and nothing else changed.
    #[error("refused by {0}")]
    Refused(Rule),
    /// Memory ran out. Nothing is entered.
    #[error("out of memory")]
    NoMemory,
}

impl From<AllocError> for DeskFault {
    ghost from_gives = { λ _ e. e ≡ desk_faults.NoMemory };

    fn from(_fault: AllocError) -> DeskFault {
        DeskFault::NoMemory
    }
}

impl From<AllocError> for EntryFault {
    ghost from_gives = { λ _ e. e ≡ entry_faults.NoMemory };

    fn from(_fault: AllocError) -> EntryFault {
        EntryFault::NoMemory
    }
}
