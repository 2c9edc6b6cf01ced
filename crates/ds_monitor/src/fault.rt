//! Why a change of a process did not come about.

use ds_label::Rule;
use thiserror::Error;

/// Why a process's label did not change, or it made no category.
#[derive(Clone, Copy, Debug, PartialEq, Eq, Error)]
pub enum ProcFault {
    /// A rule refuses it.
    #[error("refused by {0}")]
    Refused(Rule),
    /// Memory ran out.
    #[error("out of memory")]
    NoMemory,
}
