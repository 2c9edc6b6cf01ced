//! Which calls of an object in memory fail.
#![tactic(auto)]

ghost use Rattle.std.specs.Prelude.{◌≡◌, ◌↔◌, IsErr, MatchResult, vec_items};
ghost use Rattle.ds_base.specs.FaultPlans.{PlannedFaults, IsDue, one_more, passed, failed, plan_of};

use crate::failed::Failed;
use std::marker::Model;

/// The calls of one object that are to fail, how many calls were made, and how many faults came.
#[derive(Drop)]
pub(crate) struct FaultPlan {
    failing: Vec<u64>,
    made: u64,
    faults: u64,
}

impl Model for FaultPlan {
    ghost use Rattle.ds_base.specs.FaultPlans.{PlannedFaults};

    ghost Value = { PlannedFaults };

    ghost use Rattle.ds_base.specs.Inside.{plan_seen};

    ghost view = { plan_seen };
}

impl FaultPlan {
    pub(crate) fn new(failing: Vec<u64>) -> FaultPlan
        ensures { result ≡ plan_of failing.items }
    {
        FaultPlan {
            failing,
            made: 0,
            faults: 0,
        }
    }

    /// Counts one call. It fails where the plan says so.
    pub(crate) fn pass(&mut self) -> Result<(), Failed>
        ensures due { IsErr result ↔ IsDue self.old }
        ensures after { MatchResult result (λ _. self.new ≡ passed self.old) (λ _. self.new ≡ failed self.old) }
    {
        self.made = self.made.saturating_add(1);
        if self.failing.contains(&self.made) {
            self.faults = self.faults.saturating_add(1);
            return Err(Failed);
        }
        Ok(())
    }

    /// How many calls were made: the number of the last one.
    pub(crate) fn made(&self) -> u64
        ensures { result ≡ self.now.made }
    {
        self.made
    }

    /// Counts a fault that was not planned, as memory that ran out.
    pub(crate) fn add_fault(&mut self)
        ensures { self.new ≡ record self.old { faults = one_more self.old.faults } }
    {
        self.faults = self.faults.saturating_add(1);
    }
}
