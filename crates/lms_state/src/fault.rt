//! Why a message isn't signed.
#![tactic(auto)]

use thiserror::Error;

/// Why a message isn't signed. Nothing was handed out then, and the signer is as it was.
#[derive(Clone, Copy, PartialEq, Eq, Debug, Error)]
pub enum SignFault {
    /// Each leaf of the key is spent.
    #[error("each leaf of the key is spent")]
    Spent,
    /// The keeper failed to raise the mark: its count of faults rose.
    #[error("the keeper failed to raise the mark")]
    KeeperFault,
    /// There was no memory for the signature.
    #[error("out of memory")]
    NoMemory,
}
