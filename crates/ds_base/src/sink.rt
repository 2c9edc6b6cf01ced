//! Where bytes go.
#![tactic(auto)]

ghost use Rattle.std.specs.Prelude.{◌≡◌, ◌<◌, ◌≤◌, ℕ, List, Option, length, IfOk, IfErr};
ghost use Rattle.ds_base.specs.Counts.{Rose, Wrote};

use crate::failed::Failed;

/// A stream of bytes that is written.
///
/// Contracts see two things of it. `faults` counts the calls that failed; it never falls, and stays at `2 ^ 64 - 1` once
/// it is there. `tells` is the bytes written so far, or `None` where the sink doesn't tell them, and then it never will.
pub trait Sink: Drop {
    // The count of faults.
    ghost faults: { Self → ℕ };

    // The bytes written so far, where the sink tells them.
    ghost tells: { Self → Option (List ℕ) };

    /// Appends the first bytes of `piece`, at least one of them, and answers how many.
    ///
    /// # Errors
    ///
    /// `Failed` only where the count of faults rose in this call. Nothing was appended then.
    fn put(&mut self, piece: &[u8]) -> Result<usize, Failed>
        requires { 0 < length piece.now }
        ensures faults { faults self.old ≤ faults self.new }
        ensures ok { IfOk result (λ n. Wrote (tells self.old) (tells self.new) piece.now n) }
        ensures err { IfErr result (λ _. Rose (faults self.old) (faults self.new) × (tells self.new ≡ tells self.old)) };

    /// Ends the stream for its reader. It answers nothing, and changes neither the count of faults nor the bytes written.
    /// Whether a later `put` can still succeed is the implementation's to say.
    fn close(&mut self)
        ensures faults { faults self.new ≡ faults self.old }
        ensures tells { tells self.new ≡ tells self.old };
}
