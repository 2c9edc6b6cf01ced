//! A keeper that never fails and keeps nothing.
#![tactic(auto)]

ghost use Rattle.std.specs.Prelude.{◌≡◌, ℕ, List, Option, Some, None, Ok, true, false, if◌then◌else◌};

use crate::failed::Failed;
use crate::keeper::Keeper;
use std::marker::Model;

/// A keeper that answers 0 to each `mark`, and forgets what it is told to raise. It never fails, and its count of faults is
/// always 0. Until its first `raise` it tells that every mark is 0, and from then on it tells no mark: so a signer may be
/// resumed over one that has had no `raise`.
#[derive(Drop)]
pub struct CalmKeeper {
    raised: bool,
}

impl Model for CalmKeeper {
    ghost use Rattle.ds_base.specs.Memory.{CalmMarks};

    ghost Value = { CalmMarks };

    ghost use Rattle.ds_base.specs.Inside.{calm_marks_of};

    ghost view = { calm_marks_of };
}

impl CalmKeeper {
    /// A keeper that has had no raise.
    pub fn new() -> CalmKeeper
        ensures { result.raised ≡ false }
    {
        CalmKeeper { raised: false }
    }
}

impl Default for CalmKeeper {
    fn default() -> CalmKeeper
        ensures { result.raised ≡ false }
    {
        CalmKeeper::new()
    }
}

impl Keeper for CalmKeeper {
    ghost faults = { λ _. 0 };

    ghost tells = { λ k. if k.raised then None else Some (λ _. 0) };

    fn mark(&mut self, _name: &[u8; 16]) -> Result<u64, Failed>
        ensures zero { result ≡ Ok 0 }
        ensures same { self.new ≡ self.old }
    {
        Ok(0)
    }

    fn raise(&mut self, _name: &[u8; 16], _to: u64) -> Result<(), Failed>
        ensures done { result ≡ Ok tt }
        ensures raised { self.new.raised ≡ true }
    {
        self.raised = true;
        Ok(())
    }
}
