//! Bytes that arrive.
#![tactic(auto)]

ghost use Rattle.std.specs.Prelude.{◌≡◌, ◌↔◌, ◌<◌, ◌++◌, ℕ, List, [], length, map, OnOk, OnErr, IfOk, Ok};
ghost use Rattle.ds_model.specs.Lists.{at};
ghost use Rattle.ds_script.specs.declared.actor.Actor.{Actor};
ghost use Rattle.ds_model.specs.ConnectionStep.{arrive};
ghost use Rattle.ds_model.specs.Access.{NoAccess};
ghost use Rattle.ds_inlet.specs.Connections.{arrived_more};
ghost use Rattle.ds_exporter.specs.HostStates.{connection_of};
ghost use Rattle.ds_exporter.specs.PlainHosts.{arrived_at, conn_at};
ghost use Rattle.ds_exporter.specs.Entering.{Enters};
ghost use Rattle.ds_exporter.specs.Stamping.{IsBefore, IsUpTo};

use crate::exporter::Exporter;
use crate::moved::Moved;
use crate::parts::ConnList;
use std::alloc::AllocError;

/// The next bytes of the stream come to the connection at a place. `AllocError` where memory runs out.
#[tactic(auto, using(crate::proofs::Places::map_at_here, crate::proofs::Places::map_same))]
fn arrive_at(conns: &mut ConnList, place: usize, piece: &[u8]) -> Result<(), AllocError>
    requires { place < length conns.old.items }
    ensures ok { OnOk result (map connection_of conns.new.items ≡ at place (arrived_more piece.now) (map connection_of conns.old.items)) }
    ensures err { OnErr result (map connection_of conns.new.items ≡ map connection_of conns.old.items) }
{
    conns[place].arrive(piece)
}

impl Exporter {
    /// The next bytes of its stream come to a connection, by its place in the host's list. It is still exactly where there are
    /// none. `AllocError` where memory runs out; nothing changed then.
    pub fn arrive(&mut self, stamp: u64, conn: u32, piece: &[u8]) -> Result<Moved, AllocError>
        requires there { conn < length self.old.conns }
        requires later { IsBefore stamp self.old }
        ensures ok { OnOk result (self.new ≡ record self.old { conns = at conn (arrived_more piece.now) self.old.conns }) }
        // Whatever stream it is of which these are the next bytes.
        ensures plain { OnOk result ((link later : List ℕ) → link ≡ (arrived_at conn self.old ++ piece.now) ++ later
            → conn_at link conn self.new ≡ arrive link (length piece.now) (conn_at link conn self.old)) }
        ensures none { IfOk result (λ moved. (moved ≡ Moved.Still) ↔ (piece.now ≡ [])) }
        ensures still { result ≡ Ok Moved.Still → self.new ≡ self.old }
        ensures err { OnErr result (self.new ≡ self.old) }
        ensures stamps { IsUpTo stamp self.new }
        ensures entered { (who : Actor) → OnOk result (Enters stamp who NoAccess self.old self.new) }
    {
        if piece.is_empty() {
            return Ok(Moved::Still);
        }
        arrive_at(&mut self.parts.conns, conn as usize, piece)?;
        Ok(Moved::Changed)
    }
}
