//! Clocks.
#![tactic(auto)]

ghost use Rattle.std.specs.Prelude.{◌≡◌, Ok, length, OnErr, OnOk, IfOk};
ghost use Rattle.ds_model.specs.Plan.{HostPlan};
ghost use Rattle.ds_model.specs.Step.{ticked};
ghost use Rattle.ds_exporter.specs.Moving.{Moves};
ghost use Rattle.ds_hosts.specs.Entering.{IfRunning, TickEnters};
ghost use Rattle.ds_hosts.specs.Nodes.{IsEarlier, IsUntil, IsPlanOf, SameConns, conns_of, node_of, plain_host};

use crate::node::Node;
use ds_exporter::Moved;
use std::alloc::AllocError;

impl Node {
    /// The host's moment, in seconds, becomes the greater of itself and `to`; a silent host has none. It is still exactly where the
    /// host stays as it is. `AllocError` where memory runs out; nothing changed then.
    pub fn tick(&mut self, stamp: u64, to: u64) -> Result<Moved, AllocError>
        requires later { IsEarlier stamp (node_of self.old) }
        ensures ok { (plan : HostPlan) → IsPlanOf plan (node_of self.old) → IfOk result (λ moved. Moves moved (plain_host (node_of self.old)) (plain_host (node_of self.new))
            (ticked plan to (plain_host (node_of self.old)))) }
        ensures same { SameConns (node_of self.old) (node_of self.new) }
        ensures plan { (plan : HostPlan) → IsPlanOf plan (node_of self.old) → IsPlanOf plan (node_of self.new) }
        ensures count { length (conns_of (node_of self.new)) ≡ length (conns_of (node_of self.old)) }
        ensures still { result ≡ Ok Moved.Still → node_of self.new ≡ node_of self.old }
        ensures err { OnErr result (node_of self.new ≡ node_of self.old) }
        ensures stamps { IsUntil stamp (node_of self.new) }
        ensures entered { OnOk result (IfRunning (TickEnters stamp to) (node_of self.old) (node_of self.new)) }
    {
        match self {
            Node::Running(exporter) => exporter.tick(stamp, to),
            Node::Silent(_) => Ok(Moved::Still),
        }
    }
}
