//! Connections that accept.
#![tactic(auto)]

ghost use Rattle.std.specs.Prelude.{◌≡◌, ◌≢◌, ℕ, List, Ok, length, map, slice_get, OnErr, OnOk, IfOk};
ghost use Rattle.ds_model.specs.Plan.{HostPlan};
ghost use Rattle.ds_model.specs.ConnectionStep.{accept};
ghost use Rattle.ds_model.specs.Step.{perform_conn};
ghost use Rattle.ds_scheme.specs.TheScheme.{scheme};
ghost use Rattle.ds_exporter.specs.Moving.{Moves};
ghost use Rattle.ds_exporter.specs.PlainHosts.{arrived_at, arrived_of, conn_at, ends_of, host_of, site_of};
ghost use Rattle.ds_exporter.specs.Stamping.{IsBefore, IsUpTo};
ghost use Rattle.ds_hosts.specs.Entering.{IfRunning, AcceptEnters};
ghost use Rattle.ds_hosts.specs.Nodes.{IsEarlier, IsUntil, IsPlanOf, arrived_in, conn_in, conns_of, ends_in, node_of, plain_host};

use crate::node::Node;
use ds_exporter::{Exporter, Moved};
use std::alloc::AllocError;

/// A connection to an exporter accepts, by its place. It is still where there is no such connection. `AllocError` where memory
/// runs out; nothing changed then.
fn accept_of(exporter: &mut Exporter, stamp: u64, conn: u32) -> Result<Moved, AllocError>
    requires later { IsBefore stamp exporter.old }
    ensures ok { (link : List ℕ) → IfOk result (λ moved. Moves moved (ends_of link conn exporter.old) (ends_of link conn exporter.new)
        (perform_conn scheme (site_of exporter.old) (host_of exporter.old) (conn_at link conn exporter.old) (accept scheme (site_of exporter.old) (conn_at link conn exporter.old) (arrived_at conn exporter.old)))) }
    ensures others { (place : ℕ) → place ≢ conn → slice_get exporter.new.conns place ≡ slice_get exporter.old.conns place }
    ensures arrived { map arrived_of exporter.new.conns ≡ map arrived_of exporter.old.conns }
    ensures site { site_of exporter.new ≡ site_of exporter.old }
    ensures still { result ≡ Ok Moved.Still → exporter.new ≡ exporter.old }
    ensures err { OnErr result (exporter.new ≡ exporter.old) }
    ensures stamps { IsUpTo stamp exporter.new }
    ensures entered { (link : List ℕ) → OnOk result (AcceptEnters link stamp conn exporter.old exporter.new) }
{
    if conn as usize >= exporter.conns().len() {
        return Ok(Moved::Still);
    }
    exporter.accept(stamp, conn)
}

impl Node {
    /// A connection accepts, by its place in the host's list: with nothing in hand and nothing passed it takes the next hello or
    /// frame. It is still exactly where the host and the connection stay as they are, so where there is no such connection and at
    /// a silent host. `AllocError` where memory runs out; nothing changed then.
    pub fn accept(&mut self, stamp: u64, conn: u32) -> Result<Moved, AllocError>
        requires later { IsEarlier stamp (node_of self.old) }
        // Whatever its link's stream is, of which a part arrived.
        ensures ok { (link : List ℕ) (plan : HostPlan) → IsPlanOf plan (node_of self.old) → IfOk result (λ moved. Moves moved (ends_in link conn (node_of self.old)) (ends_in link conn (node_of self.new))
            (perform_conn scheme plan (plain_host (node_of self.old)) (conn_in link conn (node_of self.old)) (accept scheme plan (conn_in link conn (node_of self.old)) (arrived_in conn (node_of self.old))))) }
        ensures others { (link : List ℕ) (place : ℕ) → place ≢ conn → conn_in link place (node_of self.new) ≡ conn_in link place (node_of self.old) }
        ensures arrived { (place : ℕ) → arrived_in place (node_of self.new) ≡ arrived_in place (node_of self.old) }
        ensures plan { (plan : HostPlan) → IsPlanOf plan (node_of self.old) → IsPlanOf plan (node_of self.new) }
        ensures count { length (conns_of (node_of self.new)) ≡ length (conns_of (node_of self.old)) }
        ensures still { result ≡ Ok Moved.Still → node_of self.new ≡ node_of self.old }
        ensures err { OnErr result (node_of self.new ≡ node_of self.old) }
        ensures stamps { IsUntil stamp (node_of self.new) }
        ensures entered { (link : List ℕ) → OnOk result (IfRunning (AcceptEnters link stamp conn) (node_of self.old) (node_of self.new)) }
    {
        match self {
            Node::Running(exporter) => accept_of(exporter, stamp, conn),
            Node::Silent(_) => Ok(Moved::Still),
        }
    }
}
