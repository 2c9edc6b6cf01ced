//! Why a category has no row.

use thiserror::Error;

/// Why a category got no number.
#[derive(Clone, Copy, Debug, PartialEq, Eq, Error)]
pub enum MapFault {
    /// The host would have made it itself, and its number is 2^62 or more, which no category of the host has.
    #[error("a category of the host has a number below 2^62")]
    NotHome,
    /// It is foreign, has no row, and the table has 1,024 rows already.
    #[error("a table has at most 1,024 rows")]
    TableFull,
    /// Memory ran out.
    #[error("out of memory")]
    NoMemory,
}
