//! Why a message goes no further.

ghost use Rattle.std.specs.Prelude.{◌≡◌};
ghost use Rattle.ds_flow.specs.declared.fault.FlowFault.TheVariants.{NoMemory};

use ds_label::Rule;
use std::alloc::AllocError;
use thiserror::Error;

/// Why a message goes no further.
#[derive(Clone, Copy, Debug, PartialEq, Eq, Error)]
pub enum FlowFault {
    /// A rule drops it: the first that fails.
    #[error("dropped by {0}")]
    Drop(Rule),
    /// Memory ran out.
    #[error("out of memory")]
    NoMemory,
}

impl From<AllocError> for FlowFault {
    ghost from_gives = { λ _ e. e ≡ NoMemory };

    fn from(_fault: AllocError) -> FlowFault {
        FlowFault::NoMemory
    }
}
