//! Connections that accept.
#![tactic(auto)]

ghost use Rattle.std.specs.Prelude.{◌≡◌, ◌≢◌, ◌<◌, ◌↔◌, ℕ, List, [], Some, None, Ok, length, map, slice_get, All, OnOk, OnErr, IfOk, IsTrue};
ghost use Rattle.ds_model.specs.Lists.{at};
ghost use Rattle.ds_model.specs.ConnectionStep.{accept};
ghost use Rattle.ds_model.specs.Step.{fresh_in, perform_conn};
ghost use Rattle.ds_inlet.specs.Connections.{Connection, IsOfferedAt, lane_inlet_of, settled};
ghost use Rattle.ds_scheme.specs.TheScheme.{scheme};
ghost use Rattle.ds_exporter.specs.HostStates.{connection_of, inlet_of};
ghost use Rattle.ds_exporter.specs.PlainHosts.{arrived_at, arrived_of, conn_at, ends_of, host_of, name_of_inlet, plain_inlet, site_of};
ghost use Rattle.ds_exporter.specs.Accepting.{HasRoomAt, IsNext, IsNextAt, counted};
ghost use Rattle.ds_exporter.specs.Moving.{Moves};
ghost use Rattle.ds_exporter.specs.Entering.{Enters, accept_access};
ghost use Rattle.ds_exporter.specs.Stamping.{IsBefore, IsInletBefore, IsUpTo};

use crate::exporter::Exporter;
use crate::moved::Moved;
use crate::parts::{ConnList, InletList};
use ds_frame::ReadEnd;
use ds_inlet::{Conn, Offer};
use ds_script::Actor;
use std::alloc::AllocError;

/// Whether a connection has nothing in hand and nothing passed.
fn is_free(conn: &Conn) -> bool
    ensures { IsTrue result ↔ ((conn.now.conn.hand ≡ []) × (conn.now.conn.passed ≡ None)) }
{
    conn.front().is_none() && !conn.has_passed()
}

/// Makes room for a number at the inlet at a place.
#[tactic(auto, using(crate::proofs::Places::map_same))]
fn reserve_inlet(inlets: &mut InletList, place: usize) -> Result<(), AllocError>
    requires { place < length inlets.old.items }
    ensures same { map inlet_of inlets.new.items ≡ map inlet_of inlets.old.items }
    ensures room { OnOk result (HasRoomAt place inlets.new.items) }
{
    inlets[place].reserve()?;
    Ok(())
}

/// Makes room for a number at the inlet of a connection's lane, once its hello was read.
fn reserve_number(conn: &Conn, inlets: &mut InletList) -> Result<(), AllocError>
    requires { conn.now.conn.inlets ≡ map name_of_inlet (map inlet_of inlets.old.items) }
    ensures same { map inlet_of inlets.new.items ≡ map inlet_of inlets.old.items }
    ensures room { OnOk result ((place : ℕ) → lane_inlet_of conn.now.conn.inlets conn.now.conn.reader.lane ≡ Some place → HasRoomAt place inlets.new.items) }
{
    let Some(lane) = conn.cert() else {
        return Ok(());
    };
    let Some(place) = conn.inlets().find(lane) else {
        return Ok(());
    };
    reserve_inlet(inlets, place as usize)
}

/// A frame's number comes to the inlet at a place, which says whether it is fresh. It takes no memory.
#[tactic(auto, using(crate::proofs::Places::map_at_here))]
fn number_at(inlets: &mut InletList, place: usize, stamp: u64, who: Actor, number: u32) -> bool
    requires place { place < length inlets.old.items }
    requires room { HasRoomAt place inlets.old.items }
    requires later { All (IsInletBefore stamp) (map inlet_of inlets.old.items) }
    ensures inlets { map inlet_of inlets.new.items ≡ at place (counted stamp who number) (map inlet_of inlets.old.items) }
    ensures fresh { result ≡ fresh_in number (slice_get (map plain_inlet (map inlet_of inlets.old.items)) place) }
{
    match inlets[place].accept(stamp, who, number) {
        Ok(()) => true,
        Err(_stale) => false,
    }
}

/// The frame that a connection offers is settled by its inlet. It takes no memory.
fn settle_offered(conn: &mut Conn, inlets: &mut InletList, stamp: u64, inlet: u32, number: u32)
    requires offered { IsOfferedAt inlet number conn.old.conn.offered }
    requires room { 0 < conn.old.spare }
    requires place { inlet < length inlets.old.items }
    requires number { HasRoomAt inlet inlets.old.items }
    requires later { All (IsInletBefore stamp) (map inlet_of inlets.old.items) }
    ensures inlets { map inlet_of inlets.new.items ≡ at inlet (counted stamp conn.old.conn.who number) (map inlet_of inlets.old.items) }
    ensures conn { conn.new.conn ≡ settled (fresh_in number (slice_get (map plain_inlet (map inlet_of inlets.old.items)) inlet)) conn.old.conn }
{
    let who = conn.who();
    let fresh = number_at(inlets, inlet as usize, stamp, who, number);
    conn.settle(fresh);
}

/// A connection with nothing in hand or passed reads on: a hello is taken, a frame is settled by its inlet, and where the stream
/// is broken the connection fails. `AllocError` where memory runs out; nothing changed then.
fn read_next(conn: &mut Conn, inlets: &mut InletList, stamp: u64) -> Result<Moved, AllocError>
    requires hand { conn.old.conn.hand ≡ [] }
    requires free { conn.old.conn.passed ≡ None }
    requires room { 0 < conn.old.spare }
    requires number { (place : ℕ) → lane_inlet_of conn.old.conn.inlets conn.old.conn.reader.lane ≡ Some place → HasRoomAt place inlets.old.items }
    requires names { conn.old.conn.inlets ≡ map name_of_inlet (map inlet_of inlets.old.items) }
    requires later { All (IsInletBefore stamp) (map inlet_of inlets.old.items) }
    ensures ok { IfOk result (λ moved. IsNext moved stamp conn.old.conn conn.new.conn (map inlet_of inlets.old.items) (map inlet_of inlets.new.items)) }
    ensures conn { OnErr result (conn.new.conn ≡ conn.old.conn) }
    ensures inlets { OnErr result (map inlet_of inlets.new.items ≡ map inlet_of inlets.old.items) }
{
    let failed = conn.failure().is_some();
    match conn.read() {
        Ok(Offer::Hello) => Ok(Moved::Changed),
        Ok(Offer::Frame { inlet, number }) => {
            settle_offered(conn, inlets, stamp, inlet, number);
            Ok(Moved::Changed)
        }
        Err(ReadEnd::NotYet) => Ok(Moved::Still),
        Err(ReadEnd::BadFrame(_cause, _place)) => {
            if failed {
                return Ok(Moved::Still);
            }
            Ok(Moved::Changed)
        }
        Err(ReadEnd::NoMemory) => Err(AllocError),
    }
}

/// A connection accepts: with something in hand or passed it waits, and else it reads on. All memory that this may take at the
/// inlets and for its entry is there before it reads. `AllocError` where memory runs out; nothing changed then.
fn accept_next(conn: &mut Conn, inlets: &mut InletList, stamp: u64) -> Result<Moved, AllocError>
    requires names { conn.old.conn.inlets ≡ map name_of_inlet (map inlet_of inlets.old.items) }
    requires later { All (IsInletBefore stamp) (map inlet_of inlets.old.items) }
    ensures ok { IfOk result (λ moved. IsNext moved stamp conn.old.conn conn.new.conn (map inlet_of inlets.old.items) (map inlet_of inlets.new.items)) }
    ensures conn { OnErr result (conn.new.conn ≡ conn.old.conn) }
    ensures inlets { OnErr result (map inlet_of inlets.new.items ≡ map inlet_of inlets.old.items) }
{
    if !is_free(conn) {
        return Ok(Moved::Still);
    }
    conn.reserve()?;
    reserve_number(conn, inlets)?;
    let moved = read_next(conn, inlets, stamp)?;
    Ok(moved)
}

/// The same of the connection at a place.
fn accept_at(
    conns: &mut ConnList,
    inlets: &mut InletList,
    place: usize,
    stamp: u64,
) -> Result<Moved, AllocError>
    requires place { place < length conns.old.items }
    requires names { (k : Connection) → slice_get (map connection_of conns.old.items) place ≡ Some k → k.inlets ≡ map name_of_inlet (map inlet_of inlets.old.items) }
    requires later { All (IsInletBefore stamp) (map inlet_of inlets.old.items) }
    ensures ok { IfOk result (λ moved. IsNextAt moved stamp place (map connection_of conns.old.items) (map connection_of conns.new.items) (map inlet_of inlets.old.items) (map inlet_of inlets.new.items)) }
    ensures conns { OnErr result (map connection_of conns.new.items ≡ map connection_of conns.old.items) }
    ensures inlets { OnErr result (map inlet_of inlets.new.items ≡ map inlet_of inlets.old.items) }
{
    let moved = accept_next(&mut conns[place], inlets, stamp)?;
    Ok(moved)
}

impl Exporter {
    /// A connection accepts, by its place in the host's list: with nothing in hand and nothing passed it reads on. A hello is
    /// taken; a frame is fresh where its number is above its inlet's, and then its messages come to hand, and else it is stale
    /// and dropped; a stream that is broken fails the connection for good. It is still exactly where the host and the connection
    /// stay as they are. `AllocError` where memory runs out; nothing changed then.
    pub fn accept(&mut self, stamp: u64, conn: u32) -> Result<Moved, AllocError>
        requires there { conn < length self.old.conns }
        requires later { IsBefore stamp self.old }
        // Whatever its link's stream is, of which a part arrived.
        ensures ok { (link : List ℕ) → IfOk result (λ moved. Moves moved (ends_of link conn self.old) (ends_of link conn self.new)
            (perform_conn scheme (site_of self.old) (host_of self.old) (conn_at link conn self.old) (accept scheme (site_of self.old) (conn_at link conn self.old) (arrived_at conn self.old)))) }
        ensures others { (place : ℕ) → place ≢ conn → slice_get self.new.conns place ≡ slice_get self.old.conns place }
        ensures arrived { map arrived_of self.new.conns ≡ map arrived_of self.old.conns }
        ensures site { site_of self.new ≡ site_of self.old }
        ensures still { result ≡ Ok Moved.Still → self.new ≡ self.old }
        ensures err { OnErr result (self.new ≡ self.old) }
        ensures stamps { IsUpTo stamp self.new }
        ensures entered { (link : List ℕ) → OnOk result ((k : Connection) → slice_get self.old.conns conn ≡ Some k
            → Enters stamp k.who (accept_access link conn self.old) self.old self.new) }
    {
        let moved = accept_at(
            &mut self.parts.conns,
            &mut self.parts.inlets,
            conn as usize,
            stamp,
        )?;
        Ok(moved)
    }
}
