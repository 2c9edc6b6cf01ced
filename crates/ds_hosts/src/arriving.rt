//! Bytes that arrive.
#![tactic(auto)]

ghost use Rattle.std.specs.Prelude.{◌≡◌, ◌≢◌, ◌<◌, ◌≤◌, ◌++◌, ℕ, List, Ok, length, map, slice_get, OnOk, OnErr, IfOk};
ghost use Rattle.ds_model.specs.Plan.{HostPlan};
ghost use Rattle.ds_model.specs.Lists.{at};
ghost use Rattle.ds_model.specs.ConnectionStep.{arrive};
ghost use Rattle.ds_inlet.specs.Connections.{arrived_more};
ghost use Rattle.ds_exporter.specs.HostStates.{connection_of};
ghost use Rattle.ds_exporter.specs.Moving.{Moves};
ghost use Rattle.ds_exporter.specs.Stamping.{IsBefore, IsUpTo};
ghost use Rattle.ds_hosts.specs.Nodes.{IsEarlier, IsUntil, IsPlanOf, arrived_in, conn_in, conns_of, node_of, plain_host, with_conns};

use crate::node::Node;
use ds_exporter::{ConnList, Exporter, Moved};
use std::alloc::AllocError;

/// The next bytes of a stream come to a connection of an exporter, by its place. It is still where there is no such connection,
/// and where there are no bytes. `AllocError` where memory runs out; nothing changed then.
fn arrive_of(
    exporter: &mut Exporter,
    stamp: u64,
    conn: u32,
    piece: &[u8],
) -> Result<Moved, AllocError>
    requires later { IsBefore stamp exporter.old }
    ensures past { length exporter.old.conns ≤ conn → result ≡ Ok Moved.Still }
    ensures ok { OnOk result (exporter.new ≡ record exporter.old { conns = at conn (arrived_more piece.now) exporter.old.conns }) }
    ensures moved { IfOk result (λ moved. moved ≡ Moved.Changed → (conn < length exporter.old.conns) × (0 < length piece.now)) }
    ensures still { result ≡ Ok Moved.Still → exporter.new ≡ exporter.old }
    ensures err { OnErr result (exporter.new ≡ exporter.old) }
    ensures stamps { IsUpTo stamp exporter.new }
{
    if conn as usize >= exporter.conns().len() {
        return Ok(Moved::Still);
    }
    exporter.arrive(stamp, conn, piece)
}

/// The next bytes of a stream come to a connection of a silent host, by its place. It is still where there is no such connection,
/// and where there are no bytes. `AllocError` where memory runs out; nothing changed then.
#[tactic(auto, using(ds_exporter::proofs::Places::map_at_here, ds_exporter::proofs::Places::map_same))]
fn arrive_at(conns: &mut ConnList, conn: u32, piece: &[u8]) -> Result<Moved, AllocError>
    ensures past { length (map connection_of conns.old.items) ≤ conn → result ≡ Ok Moved.Still }
    ensures ok { OnOk result (map connection_of conns.new.items ≡ at conn (arrived_more piece.now) (map connection_of conns.old.items)) }
    ensures moved { IfOk result (λ moved. moved ≡ Moved.Changed → (conn < length conns.old.items) × (0 < length piece.now)) }
    ensures still { result ≡ Ok Moved.Still → map connection_of conns.new.items ≡ map connection_of conns.old.items }
    ensures err { OnErr result (map connection_of conns.new.items ≡ map connection_of conns.old.items) }
{
    if conn as usize >= conns.len() {
        return Ok(Moved::Still);
    }
    if piece.is_empty() {
        return Ok(Moved::Still);
    }
    conns[conn as usize].arrive(piece)?;
    Ok(Moved::Changed)
}

impl Node {
    /// The next bytes of its stream come to a connection, by its place in the host's list. It is still exactly where there are none,
    /// or no such connection. `AllocError` where memory runs out; nothing changed then.
    pub fn arrive(&mut self, stamp: u64, conn: u32, piece: &[u8]) -> Result<Moved, AllocError>
        requires later { IsEarlier stamp (node_of self.old) }
        // Whatever its link's stream is, and whatever stream these are the next bytes of.
        ensures ok { (link stream later : List ℕ) → stream ≡ (arrived_in conn (node_of self.old) ++ piece.now) ++ later → conn < length (conns_of (node_of self.old))
            → IfOk result (λ moved. Moves moved (conn_in link conn (node_of self.old)) (conn_in link conn (node_of self.new)) (arrive stream (length piece.now) (conn_in link conn (node_of self.old)))) }
        ensures arrived { OnOk result (conn < length (conns_of (node_of self.old)) → arrived_in conn (node_of self.new) ≡ arrived_in conn (node_of self.old) ++ piece.now) }
        ensures past { length (conns_of (node_of self.old)) ≤ conn → result ≡ Ok Moved.Still }
        ensures host { plain_host (node_of self.new) ≡ plain_host (node_of self.old) }
        ensures others { (link : List ℕ) (place : ℕ) → place ≢ conn → conn_in link place (node_of self.new) ≡ conn_in link place (node_of self.old) }
        ensures bytes { (place : ℕ) → place ≢ conn → arrived_in place (node_of self.new) ≡ arrived_in place (node_of self.old) }
        ensures plan { (plan : HostPlan) → IsPlanOf plan (node_of self.old) → IsPlanOf plan (node_of self.new) }
        ensures count { length (conns_of (node_of self.new)) ≡ length (conns_of (node_of self.old)) }
        ensures still { result ≡ Ok Moved.Still → node_of self.new ≡ node_of self.old }
        ensures err { OnErr result (node_of self.new ≡ node_of self.old) }
        ensures stamps { IsUntil stamp (node_of self.new) }
    {
        self.arrive_next(stamp, conn, piece)
    }

    /// The same, with what it becomes.
    fn arrive_next(&mut self, stamp: u64, conn: u32, piece: &[u8]) -> Result<Moved, AllocError>
        requires later { IsEarlier stamp (node_of self.old) }
        ensures becomes { OnOk result (node_of self.new ≡ with_conns (at conn (arrived_more piece.now) (conns_of (node_of self.old))) (node_of self.old)) }
        ensures moved { IfOk result (λ moved. moved ≡ Moved.Changed → (conn < length (conns_of (node_of self.old))) × (0 < length piece.now)) }
        ensures past { length (conns_of (node_of self.old)) ≤ conn → result ≡ Ok Moved.Still }
        ensures still { result ≡ Ok Moved.Still → node_of self.new ≡ node_of self.old }
        ensures err { OnErr result (node_of self.new ≡ node_of self.old) }
        ensures stamps { IsUntil stamp (node_of self.new) }
    {
        match self {
            Node::Running(exporter) => arrive_of(exporter, stamp, conn, piece),
            Node::Silent(conns) => arrive_at(conns, conn, piece),
        }
    }
}
