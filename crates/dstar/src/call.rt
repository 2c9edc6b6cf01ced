//! What the words ask for.

use ds_commands::Command;

/// What the words ask for.
#[derive(Clone, Copy, Debug, PartialEq, Eq)]
pub enum Call {
    /// The text of a document's run.
    Sim,
    /// One of the commands about keys, signatures and chains.
    Small(Command),
}
