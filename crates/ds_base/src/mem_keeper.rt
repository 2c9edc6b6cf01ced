//! A keeper in memory whose faults are planned.
#![tactic(auto)]

ghost use Rattle.std.specs.Prelude.{◌≡◌, ◌≢◌, ◌↔◌, ◌⊎◌, max, position, AllPairs, Contains, Some, IfOk, OnOk, OnErr, IsOk, IsErr, MatchResult};
ghost use Rattle.std.specs.Str.{bytes_eq};
ghost use Rattle.ds_base.specs.Marks.{Raised, MayBeRaised, KeepsOthers, IsKept, mark_of};
ghost use Rattle.ds_base.specs.FaultPlans.{IsDue, passed, failed, plan_of};

use crate::failed::Failed;
use crate::fault_plan::FaultPlan;
use crate::keeper::Keeper;
use std::alloc::AllocError;
use std::marker::Model;

/// Marks in memory, with a list of the calls that are to fail. It tells its marks.
///
/// A raise that is to fail leaves the mark as it was, or keeps the new number all the same where a second list names the
/// call. A raise of a new name for which no memory is left is `Failed` too, counts as a fault, and keeps nothing.
#[derive(Drop)]
pub struct MemKeeper {
    marks: Vec<([u8; 16], u64)>,
    keeping: Vec<u64>,
    plan: FaultPlan,
}

impl Model for MemKeeper {
    ghost use Rattle.ds_base.specs.Memory.{Marks};

    ghost Value = { Marks };

    ghost use Rattle.ds_base.specs.Inside.{marks_of};

    ghost view = { marks_of };
}

/// The place of a name.
fn place_of(marks: &[([u8; 16], u64)], name: &[u8; 16]) -> Option<usize>
    ensures { result ≡ position (λ kept. bytes_eq kept.0 name.now) marks.now }
{
    marks.iter().position(|kept| kept.0 == *name)
}

/// The mark of a name.
fn look_up(marks: &[([u8; 16], u64)], name: &[u8; 16]) -> u64
    ensures { result ≡ mark_of marks.now name.now }
{
    match place_of(marks, name) {
        Some(place) => marks[place].1,
        None => 0,
    }
}

/// Raises the mark of a name.
fn keep(marks: &mut Vec<([u8; 16], u64)>, name: &[u8; 16], to: u64) -> Result<(), AllocError>
    ensures mark { OnOk result (mark_of marks.new.items name.now ≡ max (mark_of marks.old.items name.now) to) }
    ensures others { OnOk result (KeepsOthers (mark_of marks.old.items) name.now (mark_of marks.new.items)) }
    ensures kept { IsKept marks.old.items name.now → IsOk result }
    ensures err { OnErr result (marks.new.items ≡ marks.old.items) }
{
    match place_of(marks, name) {
        Some(place) => {
            let kept = &mut marks[place];
            kept.1 = kept.1.max(to);
        }
        None => marks.push((*name, to))?,
    }
    Ok(())
}

impl MemKeeper {
    /// A keeper of these marks, where no name stands twice. `failing` names the calls that are to fail, counted from 1 over all calls of `mark` and
    /// `raise`, and `keeping` those of the failing raises that keep the new number all the same.
    pub fn new(marks: Vec<([u8; 16], u64)>, failing: Vec<u64>, keeping: Vec<u64>) -> MemKeeper
        requires { AllPairs (λ one other. one.0 ≢ other.0) marks.items }
        ensures marks { result.marks ≡ marks.items }
        ensures keeping { result.keeping ≡ keeping.items }
        ensures plan { result.plan ≡ plan_of failing.items }
    {
        MemKeeper {
            marks,
            keeping,
            plan: FaultPlan::new(failing),
        }
    }
}

impl Keeper for MemKeeper {
    ghost faults = { λ k. k.plan.faults };

    ghost tells = { λ k. Some (mark_of k.marks) };

    fn mark(&mut self, name: &[u8; 16]) -> Result<u64, Failed>
        ensures due { IsErr result ↔ IsDue self.old.plan }
        ensures plan { MatchResult result (λ _. self.new.plan ≡ passed self.old.plan) (λ _. self.new.plan ≡ failed self.old.plan) }
        ensures ok { IfOk result (λ n. n ≡ mark_of self.old.marks name.now) }
        ensures same { (self.new.marks ≡ self.old.marks) × (self.new.keeping ≡ self.old.keeping) }
    {
        self.plan.pass()?;
        Ok(look_up(&self.marks, name))
    }

    fn raise(&mut self, name: &[u8; 16], to: u64) -> Result<(), Failed>
        ensures due { IsDue self.old.plan → IsErr result }
        ensures stands { IsKept self.old.marks name.now → IsErr result → IsDue self.old.plan }
        ensures plan { MatchResult result (λ _. self.new.plan ≡ passed self.old.plan) (λ _. self.new.plan ≡ failed self.old.plan) }
        ensures ok { OnOk result (Raised (Some (mark_of self.old.marks)) name.now to (Some (mark_of self.new.marks))) }
        ensures err { OnErr result (MayBeRaised (Some (mark_of self.old.marks)) name.now to (Some (mark_of self.new.marks))) }
        ensures lost { OnErr result (Contains self.old.keeping self.new.plan.made ⊎ (self.new.marks ≡ self.old.marks)) }
        ensures kept { IsDue self.old.plan → Contains self.old.keeping self.new.plan.made → IsKept self.old.marks name.now → mark_of self.new.marks name.now ≡ max (mark_of self.old.marks name.now) to }
        ensures same { self.new.keeping ≡ self.old.keeping }
    {
        if self.plan.pass().is_err() {
            if self.keeping.contains(&self.plan.made()) {
                let _ = keep(&mut self.marks, name, to);
            }
            return Err(Failed);
        }
        if keep(&mut self.marks, name, to).is_err() {
            self.plan.add_fault();
            return Err(Failed);
        }
        Ok(())
    }
}
