//! Where bytes come from.
#![tactic(auto)]

ghost use Rattle.std.specs.Prelude.{◌≡◌, ◌<◌, ◌≤◌, ℕ, List, Option, length, IfOk, IfErr};
ghost use Rattle.ds_base.specs.Counts.{Rose, Took};

use crate::failed::Failed;

/// A stream of bytes that is read, from its front to its end.
///
/// Contracts see three things of it. `faults` counts the calls that failed and `ends` the calls that found the end;
/// neither ever falls, and each stays at `2 ^ 64 - 1` once it is there. `tells` is the bytes that are left, or `None`
/// where the source doesn't tell them, and then it never will.
pub trait Source: Drop {
    // The count of faults.
    ghost faults: { Self → ℕ };

    // The count of ends.
    ghost ends: { Self → ℕ };

    // The bytes that are left, where the source tells them.
    ghost tells: { Self → Option (List ℕ) };

    /// Moves the next bytes into the front of `room`, as many as it likes but no more than fit, and answers how many.
    /// What lies behind them in `room` may be anything.
    ///
    /// 0 is the end of the input: it comes only where the count of ends rose in this call, and only where no byte is
    /// left, if the bytes are told. A call after the end may find more, at sources as a terminal.
    ///
    /// # Errors
    ///
    /// `Failed` only where the count of faults rose in this call. Nothing was taken then.
    fn take(&mut self, room: &mut [u8]) -> Result<usize, Failed>
        requires { 0 < length room.old }
        ensures faults { faults self.old ≤ faults self.new }
        ensures ends { ends self.old ≤ ends self.new }
        ensures ok { IfOk result (λ n. Took (tells self.old) (tells self.new) (length room.old) room.new n (Rose (ends self.old) (ends self.new))) }
        ensures err { IfErr result (λ _. Rose (faults self.old) (faults self.new) × (tells self.new ≡ tells self.old)) };
}
