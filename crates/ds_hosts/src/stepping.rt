//! Processes.
#![tactic(auto)]

ghost use Rattle.std.specs.Prelude.{◌≡◌, ℕ, List, Ok, length, slice_get, OnErr, OnOk, IfOk};
ghost use Rattle.ds_model.specs.Plan.{HostPlan};
ghost use Rattle.ds_model.specs.Step.{step_proc};
ghost use Rattle.ds_scheme.specs.TheScheme.{scheme};
ghost use Rattle.ds_exporter.specs.Moving.{Moves};
ghost use Rattle.ds_exporter.specs.PlainHosts.{arrived_at, conn_at, host_of, site_of};
ghost use Rattle.ds_exporter.specs.Stamping.{IsBefore, IsUpTo};
ghost use Rattle.ds_hosts.specs.Entering.{IfRunning, StepEnters};
ghost use Rattle.ds_hosts.specs.Nodes.{IsEarlier, IsUntil, IsPlanOf, SameConns, conns_of, node_of, plain_host};

use crate::node::Node;
use ds_base::CalmKeeper;
use ds_exporter::{CoreFault, Exporter, Moved};
use std::alloc::AllocError;

/// A step of an exporter's process, by its place, over a keeper that never fails. It is still where there is no such process.
/// `AllocError` where memory runs out; nothing changed then.
fn step_of(exporter: &mut Exporter, stamp: u64, index: u32) -> Result<Moved, AllocError>
    requires later { IsBefore stamp exporter.old }
    ensures ok { IfOk result (λ moved. Moves moved (host_of exporter.old) (host_of exporter.new) (step_proc scheme (site_of exporter.old) (host_of exporter.old) index (slice_get (host_of exporter.old).procs index))) }
    ensures site { site_of exporter.new ≡ site_of exporter.old }
    ensures conns { exporter.new.conns ≡ exporter.old.conns }
    ensures named { (link : List ℕ) (place : ℕ) → conn_at link place exporter.new ≡ conn_at link place exporter.old }
    ensures arrived { (place : ℕ) → arrived_at place exporter.new ≡ arrived_at place exporter.old }
    ensures still { result ≡ Ok Moved.Still → exporter.new ≡ exporter.old }
    ensures err { OnErr result (exporter.new ≡ exporter.old) }
    ensures stamps { IsUpTo stamp exporter.new }
    ensures entered { OnOk result (StepEnters stamp index exporter.old exporter.new) }
{
    if index as usize >= exporter.procs().len() {
        return Ok(Moved::Still);
    }
    let mut keeper = CalmKeeper::new();
    match exporter.step(stamp, index, &mut keeper) {
        Ok(moved) => Ok(moved),
        Err(CoreFault::NoMemory) => Err(AllocError),
        Err(CoreFault::KeeperFault) => unreachable!(),
    }
}

impl Node {
    /// A step of a process, by its place: the operation at its place in its script, or the message that it has in hand onto its
    /// lane. It is still exactly where the host stays as it is, so where there is no such process. `AllocError` where memory runs
    /// out; nothing changed then.
    pub fn step(&mut self, stamp: u64, index: u32) -> Result<Moved, AllocError>
        requires later { IsEarlier stamp (node_of self.old) }
        ensures ok { (plan : HostPlan) → IsPlanOf plan (node_of self.old) → IfOk result (λ moved. Moves moved (plain_host (node_of self.old)) (plain_host (node_of self.new))
            (step_proc scheme plan (plain_host (node_of self.old)) index (slice_get (plain_host (node_of self.old)).procs index))) }
        ensures same { SameConns (node_of self.old) (node_of self.new) }
        ensures plan { (plan : HostPlan) → IsPlanOf plan (node_of self.old) → IsPlanOf plan (node_of self.new) }
        ensures count { length (conns_of (node_of self.new)) ≡ length (conns_of (node_of self.old)) }
        ensures still { result ≡ Ok Moved.Still → node_of self.new ≡ node_of self.old }
        ensures err { OnErr result (node_of self.new ≡ node_of self.old) }
        ensures stamps { IsUntil stamp (node_of self.new) }
        ensures entered { OnOk result (IfRunning (StepEnters stamp index) (node_of self.old) (node_of self.new)) }
    {
        match self {
            Node::Running(exporter) => step_of(exporter, stamp, index),
            Node::Silent(_) => Ok(Moved::Still),
        }
    }
}
