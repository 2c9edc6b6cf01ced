//! Where marks are kept.
#![tactic(auto)]

ghost use Rattle.std.specs.Prelude.{◌≡◌, ◌≤◌, ℕ, List, Option, IfOk, IfErr, OnOk};
ghost use Rattle.ds_base.specs.Counts.{Rose};
ghost use Rattle.ds_base.specs.Marks.{IsMark, Raised, MayBeRaised};

use crate::failed::Failed;

/// Marks: a number for each name of 16 bytes, which only rises and outlives the process. A signer keeps here which of its
/// leaves are spent.
///
/// Contracts see two things of it. `faults` counts the calls that failed; it never falls, and stays at `2 ^ 64 - 1` once
/// it is there. `tells` gives the mark of every name, 0 where none was kept, or is `None` where the keeper doesn't tell
/// its marks; a keeper may stop to tell at a raise, and then never tells again.
pub trait Keeper: Drop {
    // The count of faults.
    ghost faults: { Self → ℕ };

    // The mark of every name, where the keeper tells them.
    ghost tells: { Self → Option (List ℕ → ℕ) };

    /// The mark of a name, 0 where none was kept. It changes no mark, also where it fails.
    ///
    /// # Errors
    ///
    /// `Failed` only where the count of faults rose in this call.
    fn mark(&mut self, name: &[u8; 16]) -> Result<u64, Failed>
        ensures faults { faults self.old ≤ faults self.new }
        ensures tells { tells self.new ≡ tells self.old }
        ensures ok { IfOk result (λ n. IsMark (tells self.old) name.now n) }
        ensures err { IfErr result (λ _. Rose (faults self.old) (faults self.new)) };

    /// Raises the mark of a name to the greater of what it was and `to`. Other names keep their marks.
    ///
    /// # Errors
    ///
    /// `Failed` only where the count of faults rose in this call. The mark is then either what it was or the greater of
    /// that and `to`.
    fn raise(&mut self, name: &[u8; 16], to: u64) -> Result<(), Failed>
        ensures faults { faults self.old ≤ faults self.new }
        ensures ok { OnOk result (Raised (tells self.old) name.now to (tells self.new)) }
        ensures err { IfErr result (λ _. Rose (faults self.old) (faults self.new) × MayBeRaised (tells self.old) name.now to (tells self.new)) };
}
