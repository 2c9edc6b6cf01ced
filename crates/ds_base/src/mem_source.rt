//! A source in memory whose faults are planned.
#![tactic(auto)]

ghost use Rattle.std.specs.Prelude.{◌≡◌, ◌<◌, ◌≤◌, ◌↔◌, Some, length, min, IfOk, IfErr, IsErr, MatchResult, if◌then◌else◌, ◌==◌};
ghost use Rattle.ds_base.specs.Counts.{Rose, Took};
ghost use Rattle.ds_base.specs.FaultPlans.{IsDue, passed, failed, plan_of, one_more};

use crate::calm_source::CalmSource;
use crate::failed::Failed;
use crate::fault_plan::FaultPlan;
use crate::source::Source;
use std::marker::Model;

/// Bytes in memory that are read, with a list of the calls that are to fail. Each other call fills the room as far as bytes
/// are left. It tells the bytes that are left.
#[derive(Drop)]
pub struct MemSource {
    inner: CalmSource,
    plan: FaultPlan,
}

impl Model for MemSource {
    ghost use Rattle.ds_base.specs.Memory.{Supply};

    ghost Value = { Supply };

    ghost use Rattle.ds_base.specs.Inside.{supply_of};

    ghost view = { supply_of };
}

impl MemSource {
    /// A source of these bytes. `failing` names the calls that are to fail, counted from 1 over all calls.
    pub fn new(bytes: Vec<u8>, failing: Vec<u64>) -> MemSource
        ensures left { result.left ≡ bytes.items }
        ensures ends { result.ends ≡ 0 }
        ensures plan { result.plan ≡ plan_of failing.items }
    {
        MemSource {
            inner: CalmSource::new(bytes),
            plan: FaultPlan::new(failing),
        }
    }
}

impl Source for MemSource {
    ghost faults = { λ s. s.plan.faults };

    ghost ends = { λ s. s.ends };

    ghost tells = { λ s. Some s.left };

    fn take(&mut self, room: &mut [u8]) -> Result<usize, Failed>
        requires { 0 < length room.old }
        ensures due { IsErr result ↔ IsDue self.old.plan }
        ensures plan { MatchResult result (λ _. self.new.plan ≡ passed self.old.plan) (λ _. self.new.plan ≡ failed self.old.plan) }
        ensures full { IfOk result (λ n. n ≡ min (length room.old) (length self.old.left)) }
        ensures ok { IfOk result (λ n. Took (Some self.old.left) (Some self.new.left) (length room.old) room.new n (Rose self.old.ends self.new.ends)) }
        ensures ends { IfOk result (λ n. self.new.ends ≡ (if n == 0 then one_more self.old.ends else self.old.ends)) }
        ensures err { IfErr result (λ _. (self.new.left ≡ self.old.left) × (self.new.ends ≡ self.old.ends)) }
    {
        self.plan.pass()?;
        self.inner.take(room)
    }
}
