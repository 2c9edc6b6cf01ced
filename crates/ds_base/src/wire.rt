//! How connections are made.
#![tactic(auto)]

ghost use Rattle.std.specs.Prelude.{◌≤◌, ℕ, IfErr};
ghost use Rattle.ds_base.specs.Counts.{Rose};

use crate::failed::Failed;

/// What makes connections. A connection is one stream, and goes one way alone: one that was accepted is read, and one that
/// was made by `connect` is written.
///
/// Contracts see one thing of it. `faults` counts the calls that failed; it never falls, and stays at `2 ^ 64 - 1` once it
/// is there.
pub trait Wire: Drop {
    /// A connection that is read.
    type In;

    /// A connection that is written.
    type Out;

    // The count of faults.
    ghost faults: { Self → ℕ };

    /// Makes the wire ready to accept at an address. Over sockets the empty address is `Failed`.
    ///
    /// # Errors
    ///
    /// `Failed` only where the count of faults rose in this call.
    fn listen(&mut self, address: &[u8]) -> Result<(), Failed>
        ensures faults { faults self.old ≤ faults self.new }
        ensures err { IfErr result (λ _. Rose (faults self.old) (faults self.new)) };

    /// The next connection that a peer makes to this wire.
    ///
    /// # Errors
    ///
    /// `Failed` only where the count of faults rose in this call.
    fn accept(&mut self) -> Result<Self::In, Failed>
        ensures faults { faults self.old ≤ faults self.new }
        ensures err { IfErr result (λ _. Rose (faults self.old) (faults self.new)) };

    /// A new connection to an address.
    ///
    /// # Errors
    ///
    /// `Failed` only where the count of faults rose in this call.
    fn connect(&mut self, address: &[u8]) -> Result<Self::Out, Failed>
        ensures faults { faults self.old ≤ faults self.new }
        ensures err { IfErr result (λ _. Rose (faults self.old) (faults self.new)) };
}
