//! Why a list of certificates could not grow.

use thiserror::Error;

/// Most delegations of a list.
pub const CERT_LIMIT: usize = 256;

/// Most address certificates of a list.
pub const ADDRESS_LIMIT: usize = 64;

/// Why a list of certificates could not grow.
#[derive(Clone, Copy, Debug, PartialEq, Eq, Error)]
pub enum ListFault {
    /// It has as many as it may have: 256 delegations, or 64 address certificates.
    #[error("the list of certificates is full")]
    ListFull,
    /// Memory ran out.
    #[error("out of memory")]
    NoMemory,
}
