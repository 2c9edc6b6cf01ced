//! Why a label could not grow.

use thiserror::Error;

/// Most members of a label.
pub const MEMBER_LIMIT: usize = 64;

/// Why a label could not grow.
#[derive(Clone, Copy, Debug, PartialEq, Eq, Error)]
pub enum LabelFault {
    /// It has 64 members already.
    #[error("a label has at most 64 members")]
    TooMany,
    /// Memory ran out.
    #[error("out of memory")]
    NoMemory,
}
