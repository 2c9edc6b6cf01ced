//! A wire in memory whose faults are planned.
#![tactic(auto)]

ghost use Rattle.std.specs.Prelude.{◌≡◌, ◌↔◌, ◌∷◌, ◌⊎◌, [], IfOk, IfErr, IsErr, MatchResult};
ghost use Rattle.ds_base.specs.FaultPlans.{IsDue, passed, failed, plan_of};

use crate::failed::Failed;
use crate::fault_plan::FaultPlan;
use crate::wire::Wire;
use std::marker::Model;
use std::vec::IntoIter;

/// A wire that hands out the connections that it was made with, in order: one list for `accept`, and one for `connect`,
/// whatever the address. `listen` does nothing. A call after the last connection is `Failed`, and so is a call that the
/// list of calls that are to fail names; no connection is lost by it.
#[derive(Drop)]
pub struct MemWire<I: Drop, O: Drop> {
    accepts: IntoIter<I>,
    connects: IntoIter<O>,
    plan: FaultPlan,
}

impl<I: Drop, O: Drop> Model for MemWire<I, O> {
    ghost use Rattle.ds_base.specs.Memory.{Connections};

    ghost Value = { Connections I O };

    ghost use Rattle.ds_base.specs.Inside.{connections_of};

    ghost view = { connections_of };
}

impl<I: Drop, O: Drop> MemWire<I, O> {
    /// A wire that hands out these connections. `failing` names the calls that are to fail, counted from 1 over all calls of
    /// `listen`, `accept` and `connect`.
    pub fn new(accepts: Vec<I>, connects: Vec<O>, failing: Vec<u64>) -> MemWire<I, O>
        ensures accepts { result.accepts ≡ accepts.items }
        ensures connects { result.connects ≡ connects.items }
        ensures plan { result.plan ≡ plan_of failing.items }
    {
        MemWire {
            accepts: accepts.into_iter(),
            connects: connects.into_iter(),
            plan: FaultPlan::new(failing),
        }
    }
}

impl<I: Drop, O: Drop> Wire for MemWire<I, O> {
    type In = I;

    type Out = O;

    ghost faults = { λ w. w.plan.faults };

    fn listen(&mut self, _address: &[u8]) -> Result<(), Failed>
        ensures due { IsErr result ↔ IsDue self.old.plan }
        ensures plan { MatchResult result (λ _. self.new.plan ≡ passed self.old.plan) (λ _. self.new.plan ≡ failed self.old.plan) }
        ensures same { (self.new.accepts ≡ self.old.accepts) × (self.new.connects ≡ self.old.connects) }
    {
        self.plan.pass()
    }

    fn accept(&mut self) -> Result<I, Failed>
        ensures due { IsErr result ↔ (IsDue self.old.plan ⊎ (self.old.accepts ≡ [])) }
        ensures plan { MatchResult result (λ _. self.new.plan ≡ passed self.old.plan) (λ _. self.new.plan ≡ failed self.old.plan) }
        ensures ok { IfOk result (λ next. self.old.accepts ≡ next ∷ self.new.accepts) }
        ensures err { IfErr result (λ _. self.new.accepts ≡ self.old.accepts) }
        ensures same { self.new.connects ≡ self.old.connects }
    {
        self.plan.pass()?;
        match self.accepts.next() {
            Some(next) => Ok(next),
            None => {
                self.plan.add_fault();
                Err(Failed)
            }
        }
    }

    fn connect(&mut self, _address: &[u8]) -> Result<O, Failed>
        ensures due { IsErr result ↔ (IsDue self.old.plan ⊎ (self.old.connects ≡ [])) }
        ensures plan { MatchResult result (λ _. self.new.plan ≡ passed self.old.plan) (λ _. self.new.plan ≡ failed self.old.plan) }
        ensures ok { IfOk result (λ next. self.old.connects ≡ next ∷ self.new.connects) }
        ensures err { IfErr result (λ _. self.new.connects ≡ self.old.connects) }
        ensures same { self.new.accepts ≡ self.old.accepts }
    {
        self.plan.pass()?;
        match self.connects.next() {
            Some(next) => Ok(next),
            None => {
                self.plan.add_fault();
                Err(Failed)
            }
        }
    }
}
