//! A sink in memory whose faults are planned.
#![tactic(auto)]

ghost use Rattle.std.specs.Prelude.{◌≡◌, ◌<◌, ◌≤◌, Some, length, min, IfOk, IfErr, IsErr, MatchResult};
ghost use Rattle.ds_base.specs.Counts.{Rose, Wrote};
ghost use Rattle.ds_base.specs.FaultPlans.{IsDue, passed, failed, plan_of};

use crate::failed::Failed;
use crate::fault_plan::FaultPlan;
use crate::sink::Sink;
use std::marker::Model;

/// Bytes in memory that are written, with a list of the calls that are to fail. Each other call takes a fixed number of
/// bytes, or the whole piece where it is shorter. It tells the bytes written. `close` does nothing.
///
/// A call for whose bytes no memory is left is `Failed` too, and counts as a fault.
#[derive(Drop)]
pub struct MemSink {
    written: Vec<u8>,
    piece: usize,
    plan: FaultPlan,
}

impl Model for MemSink {
    ghost use Rattle.std.specs.Prelude.{◌<◌};
    ghost use Rattle.ds_base.specs.Memory.{Output};

    ghost Value = { Output };

    ghost use Rattle.ds_base.specs.Inside.{output_of};

    ghost view = { output_of };

    ghost invariant = { λ s. 0 < s.piece };
}

impl MemSink {
    /// A sink that holds the bytes `written` already. A call takes at most `piece` bytes. `failing` names the calls of `put`
    /// that are to fail, counted from 1.
    pub fn new(written: Vec<u8>, piece: usize, failing: Vec<u64>) -> MemSink
        requires { 1 ≤ piece }
        ensures written { result.written ≡ written.items }
        ensures piece { result.piece ≡ piece }
        ensures plan { result.plan ≡ plan_of failing.items }
    {
        MemSink {
            written,
            piece,
            plan: FaultPlan::new(failing),
        }
    }

    /// The bytes written so far.
    pub fn written(&self) -> &[u8]
        ensures { result.now ≡ self.now.written }
    {
        self.written.as_slice()
    }
}

impl Sink for MemSink {
    ghost faults = { λ s. s.plan.faults };

    ghost tells = { λ s. Some s.written };

    fn put(&mut self, piece: &[u8]) -> Result<usize, Failed>
        requires { 0 < length piece.now }
        ensures due { IsDue self.old.plan → IsErr result }
        ensures plan { MatchResult result (λ _. self.new.plan ≡ passed self.old.plan) (λ _. self.new.plan ≡ failed self.old.plan) }
        ensures full { IfOk result (λ n. n ≡ min (length piece.now) self.old.piece) }
        ensures ok { IfOk result (λ n. Wrote (Some self.old.written) (Some self.new.written) piece.now n) }
        ensures err { IfErr result (λ _. self.new.written ≡ self.old.written) }
        ensures same { self.new.piece ≡ self.old.piece }
    {
        self.plan.pass()?;
        let n = piece.len().min(self.piece);
        if self.written.extend_from_slice(&piece[..n]).is_err() {
            self.plan.add_fault();
            return Err(Failed);
        }
        Ok(n)
    }

    fn close(&mut self)
        ensures { self.new ≡ self.old }
    {
        // No reader waits for the end of what lies in memory.
    }
}
