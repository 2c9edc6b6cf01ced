//! What is answered.

use ds_wire::Bytes;
use thiserror::Error;

/// What a command answers.
#[derive(Debug, Drop)]
pub enum Reply {
    /// Yes, with this text.
    Prints(Bytes),
    /// No, with this text: a signature that isn't good, a key that doesn't hold.
    Denies(Bytes),
    /// The input breaks the rule of this code, at this line, from 0.
    Breaks(u8, u32),
    /// The key has no leaf left.
    Spends,
}

/// Why a command gave no answer.
#[derive(Clone, Copy, Drop, Debug, PartialEq, Eq, Error)]
pub enum CommandFault {
    /// The keeper failed.
    #[error("the keeper failed")]
    KeeperFault,
    /// An allocation was refused.
    #[error("out of memory")]
    NoMemory,
}
