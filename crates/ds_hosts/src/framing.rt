//! Lanes' workers.
#![tactic(auto)]

ghost use Rattle.std.specs.Prelude.{◌≡◌, ◌-◌, ◌<◌, Ok, length, map, slice_get, OnErr, OnOk, IfOk};
ghost use Rattle.ds_model.specs.Plan.{HostPlan};
ghost use Rattle.ds_model.specs.Step.{step_lane};
ghost use Rattle.ds_scheme.specs.TheScheme.{scheme};
ghost use Rattle.ds_exporter.specs.Moving.{Moves};
ghost use Rattle.ds_exporter.specs.PlainHosts.{host_of, site_of};
ghost use Rattle.ds_exporter.specs.Stamping.{IsBefore, IsUpTo};
ghost use Rattle.ds_hosts.specs.Entering.{IfRunning, FrameEnters};
ghost use Rattle.ds_hosts.specs.Nodes.{IsEarlier, IsUntil, IsPlanOf, SameConns, conns_of, node_of, plain_host};

use crate::node::Node;
use ds_base::CalmKeeper;
use ds_exporter::{CoreFault, Exporter, Moved};
use std::alloc::AllocError;

/// A frame event of an exporter's lane, by its number, from 1, over a keeper that never fails. It is still where there is no such
/// lane. `AllocError` where memory runs out; nothing changed then.
fn frame_of(exporter: &mut Exporter, stamp: u64, lane: u32) -> Result<Moved, AllocError>
    requires later { IsBefore stamp exporter.old }
    requires first { 0 < lane }
    ensures ok { IfOk result (λ moved. Moves moved (host_of exporter.old) (host_of exporter.new) (step_lane scheme (site_of exporter.old) (host_of exporter.old) (lane - 1) (slice_get (host_of exporter.old).workers (lane - 1)))) }
    ensures site { site_of exporter.new ≡ site_of exporter.old }
    ensures conns { exporter.new.conns ≡ exporter.old.conns }
    ensures still { result ≡ Ok Moved.Still → exporter.new ≡ exporter.old }
    ensures err { OnErr result (exporter.new ≡ exporter.old) }
    ensures stamps { IsUpTo stamp exporter.new }
    ensures entered { OnOk result (FrameEnters stamp (lane - 1) exporter.old exporter.new) }
{
    if lane as usize > exporter.lanes().len() {
        return Ok(Moved::Still);
    }
    let mut keeper = CalmKeeper::new();
    match exporter.frame(stamp, lane, &mut keeper) {
        Ok(moved) => Ok(moved),
        Err(CoreFault::NoMemory) => Err(AllocError),
        Err(CoreFault::KeeperFault) => unreachable!(),
    }
}

impl Node {
    /// A frame event of a lane, by its number, from 1; 0 is taken as 1. Where the lane's worker has nothing in hand, the first
    /// waiting messages are lifted to it; else what is in hand becomes one frame, or is dropped. It is still exactly where the host
    /// stays as it is, so where there is no such lane. `AllocError` where memory runs out; nothing changed then.
    pub fn frame(&mut self, stamp: u64, lane: u32) -> Result<Moved, AllocError>
        requires later { IsEarlier stamp (node_of self.old) }
        ensures ok { (plan : HostPlan) → IsPlanOf plan (node_of self.old) → IfOk result (λ moved. Moves moved (plain_host (node_of self.old)) (plain_host (node_of self.new))
            (step_lane scheme plan (plain_host (node_of self.old)) (lane - 1) (slice_get (plain_host (node_of self.old)).workers (lane - 1)))) }
        ensures same { SameConns (node_of self.old) (node_of self.new) }
        ensures plan { (plan : HostPlan) → IsPlanOf plan (node_of self.old) → IsPlanOf plan (node_of self.new) }
        ensures count { length (conns_of (node_of self.new)) ≡ length (conns_of (node_of self.old)) }
        ensures still { result ≡ Ok Moved.Still → node_of self.new ≡ node_of self.old }
        ensures err { OnErr result (node_of self.new ≡ node_of self.old) }
        ensures stamps { IsUntil stamp (node_of self.new) }
        ensures entered { OnOk result (IfRunning (FrameEnters stamp (lane - 1)) (node_of self.old) (node_of self.new)) }
    {
        match self {
            Node::Running(exporter) => frame_of(exporter, stamp, lane.max(1)),
            Node::Silent(_) => Ok(Moved::Still),
        }
    }
}
