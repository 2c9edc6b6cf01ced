//! Connections that deliver.
#![tactic(auto)]

ghost use Rattle.std.specs.Prelude.{◌≡◌, ◌≢◌, ◌<◌, ℕ, List, [], Some, None, Ok, true, is_some, length, map, slice_get, IsTrue, OnOk, OnErr, IfOk, ◌↔◌};
ghost use Rattle.ds_model.specs.Desk.{Looked};
ghost use Rattle.ds_model.specs.ConnectionStep.{deliver};
ghost use Rattle.ds_model.specs.Step.{perform_conn};
ghost use Rattle.ds_desk.specs.Desks.{entered};
ghost use Rattle.ds_inlet.specs.Connections.{Connection};
ghost use Rattle.ds_scheme.specs.TheScheme.{scheme};
ghost use Rattle.ds_exporter.specs.HostStates.{connection_of};
ghost use Rattle.ds_exporter.specs.PlainHosts.{arrived_at, arrived_of, conn_at, ends_of, host_of, site_of};
ghost use Rattle.ds_exporter.specs.Moving.{Moves};
ghost use Rattle.ds_exporter.specs.Entering.{Enters, deliver_access};
ghost use Rattle.ds_exporter.specs.Stamping.{IsBefore, IsUpTo};

use crate::exporter::Exporter;
use crate::judging::judge_at;
use crate::moved::Moved;
use crate::parts::ConnList;
use crate::posting::put_passed;
use ds_script::Actor;
use std::alloc::AllocError;

/// Whether a message of the connection at a place passed and isn't put yet.
fn has_passed(conns: &ConnList, place: usize) -> bool
    requires { place < length conns.now.items }
    ensures { (k : Connection) → slice_get (map connection_of conns.now.items) place ≡ Some k → result ≡ is_some k.passed }
{
    conns[place].has_passed()
}

/// Whether the connection at a place has nothing in hand.
fn has_empty_hand(conns: &ConnList, place: usize) -> bool
    requires { place < length conns.now.items }
    ensures { (k : Connection) → slice_get (map connection_of conns.now.items) place ≡ Some k → (IsTrue result ↔ (k.hand ≡ [])) }
{
    conns[place].front().is_none()
}

/// The actor of the connection at a place.
fn who_at(conns: &ConnList, place: usize) -> Actor
    requires { place < length conns.now.items }
    ensures { (k : Connection) → slice_get (map connection_of conns.now.items) place ≡ Some k → result ≡ k.who }
{
    conns[place].who()
}

impl Exporter {
    /// The message of a connection that passed is put into its mailbox. `AllocError` where memory runs out; nothing changed then.
    fn put(&mut self, stamp: u64, place: usize) -> Result<(), AllocError>
        requires there { place < length self.old.conns }
        requires passed { (k : Connection) → slice_get self.old.conns place ≡ Some k → is_some k.passed ≡ true }
        requires later { IsBefore stamp self.old }
        ensures ends { (link : List ℕ) → OnOk result (ends_of link place self.new ≡
            perform_conn scheme (site_of self.old) (host_of self.old) (conn_at link place self.old) (deliver scheme (site_of self.old) (conn_at link place self.old) (arrived_at place self.old))) }
        ensures changed { (link : List ℕ) → OnOk result (ends_of link place self.new ≢ ends_of link place self.old) }
        ensures others { (other : ℕ) → other ≢ place → slice_get self.new.conns other ≡ slice_get self.old.conns other }
        ensures arrived { map arrived_of self.new.conns ≡ map arrived_of self.old.conns }
        ensures site { site_of self.new ≡ site_of self.old }
        ensures err { OnErr result (self.new ≡ self.old) }
        ensures stamps { IsUpTo stamp self.new }
        ensures entered { (link : List ℕ) → OnOk result ((k : Connection) → slice_get self.old.conns place ≡ Some k
            → Enters stamp k.who (deliver_access link place self.old) self.old self.new) }
    {
        put_passed(&mut self.parts.conns, place, &mut self.parts.boxes, stamp)?;
        Ok(())
    }

    /// The first message of a connection's hand is judged, and the desk enters that it was read. `AllocError` where memory runs
    /// out; nothing changed then.
    fn judge(&mut self, stamp: u64, place: usize) -> Result<(), AllocError>
        requires there { place < length self.old.conns }
        requires ready { (k : Connection) → slice_get self.old.conns place ≡ Some k → (k.passed ≡ None) × (0 < length k.hand) }
        requires later { IsBefore stamp self.old }
        ensures ends { (link : List ℕ) → OnOk result (ends_of link place self.new ≡
            perform_conn scheme (site_of self.old) (host_of self.old) (conn_at link place self.old) (deliver scheme (site_of self.old) (conn_at link place self.old) (arrived_at place self.old))) }
        ensures changed { (link : List ℕ) → OnOk result (ends_of link place self.new ≢ ends_of link place self.old) }
        ensures looked { OnOk result ((k : Connection) → slice_get self.old.conns place ≡ Some k → self.new.desk ≡ entered stamp k.who Looked self.old.desk) }
        ensures others { (other : ℕ) → other ≢ place → slice_get self.new.conns other ≡ slice_get self.old.conns other }
        ensures arrived { map arrived_of self.new.conns ≡ map arrived_of self.old.conns }
        ensures site { site_of self.new ≡ site_of self.old }
        ensures err { OnErr result (self.new ≡ self.old) }
        ensures stamps { IsUpTo stamp self.new }
        ensures entered { (link : List ℕ) → OnOk result ((k : Connection) → slice_get self.old.conns place ≡ Some k
            → Enters stamp k.who (deliver_access link place self.old) self.old self.new) }
    {
        self.parts.desk.reserve()?;
        let who = who_at(&self.parts.conns, place);
        judge_at(
            &mut self.parts.conns,
            place,
            &mut self.parts.desk,
            &self.parts.boxes,
        )?;
        self.parts.desk.look(stamp, who);
        Ok(())
    }

    /// A connection delivers, by its place in the host's list. A message that passed is put into the mailbox with its slot, or
    /// dropped where that is full. Where none is, the first message in hand is judged by the desk, on the lane whose certificate
    /// the hello had, and by that mailbox's label: it passes, or is dropped by the first rule that fails. It is still exactly where
    /// there is neither, and the host and the connection stay as they are. `AllocError` where memory runs out; nothing changed
    /// then.
    pub fn deliver(&mut self, stamp: u64, conn: u32) -> Result<Moved, AllocError>
        requires there { conn < length self.old.conns }
        requires later { IsBefore stamp self.old }
        // Whatever its link's stream is, of which a part arrived.
        ensures ok { (link : List ℕ) → IfOk result (λ moved. Moves moved (ends_of link conn self.old) (ends_of link conn self.new)
            (perform_conn scheme (site_of self.old) (host_of self.old) (conn_at link conn self.old) (deliver scheme (site_of self.old) (conn_at link conn self.old) (arrived_at conn self.old)))) }
        ensures others { (place : ℕ) → place ≢ conn → slice_get self.new.conns place ≡ slice_get self.old.conns place }
        ensures arrived { map arrived_of self.new.conns ≡ map arrived_of self.old.conns }
        ensures site { site_of self.new ≡ site_of self.old }
        ensures still { result ≡ Ok Moved.Still → self.new ≡ self.old }
        ensures err { OnErr result (self.new ≡ self.old) }
        ensures stamps { IsUpTo stamp self.new }
        ensures entered { (link : List ℕ) → OnOk result ((k : Connection) → slice_get self.old.conns conn ≡ Some k
            → Enters stamp k.who (deliver_access link conn self.old) self.old self.new) }
    {
        let place = conn as usize;
        if has_passed(&self.parts.conns, place) {
            self.put(stamp, place)?;
            return Ok(Moved::Changed);
        }
        if has_empty_hand(&self.parts.conns, place) {
            return Ok(Moved::Still);
        }
        self.judge(stamp, place)?;
        Ok(Moved::Changed)
    }
}
