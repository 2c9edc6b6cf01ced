//! A message that passed comes to its mailbox.
#![tactic(auto)]

ghost use Rattle.std.specs.Prelude.{◌≡◌, ◌<◌, ℕ, Some, length, map, slice_get, true, is_some, All, IfErr, OnOk, OnErr};
ghost use Rattle.std.specs.List.{Any};
ghost use Rattle.ds_model.specs.Lists.{at};
ghost use Rattle.ds_inlet.specs.Connections.{Connection, IsShortMessage};
ghost use Rattle.ds_exporter.specs.HostStates.{box_of, connection_of};
ghost use Rattle.ds_exporter.specs.Conditions.{HasBox};
ghost use Rattle.ds_exporter.specs.Stamping.{IsBoxBefore};
ghost use Rattle.ds_exporter.specs.Mailboxes.{HasSpareAt, place_of, put_in};
ghost use Rattle.ds_exporter.specs.Delivering.{IsPut, IsPutAt};

use crate::finding::box_for;
use crate::parts::{BoxList, ConnList};
use ds_inlet::Conn;
use ds_msg::LocalMessage;
use ds_script::Actor;
use std::alloc::AllocError;

/// Makes room for a message in the mailbox at a place.
#[tactic(auto, using(crate::proofs::Places::map_same))]
pub(crate) fn reserve_box(boxes: &mut BoxList, place: usize) -> Result<(), AllocError>
    requires { place < length boxes.old.items }
    ensures same { map box_of boxes.new.items ≡ map box_of boxes.old.items }
    ensures room { OnOk result (HasSpareAt place boxes.new.items) }
{
    boxes[place].state.reserve()?;
    Ok(())
}

/// A message comes to the mailbox at a place. It takes no memory.
#[tactic(auto, using(crate::proofs::Places::map_at_here))]
pub(crate) fn put_at(
    boxes: &mut BoxList,
    place: usize,
    stamp: u64,
    who: Actor,
    message: LocalMessage,
    kept: LocalMessage,
)
    requires place { place < length boxes.old.items }
    requires room { HasSpareAt place boxes.old.items }
    requires later { All (IsBoxBefore stamp) (map box_of boxes.old.items) }
    requires short { IsShortMessage message }
    requires same { kept ≡ message }
    ensures { map box_of boxes.new.items ≡ at place (put_in stamp who message) (map box_of boxes.old.items) }
{
    boxes[place].state.put(stamp, who, message, kept);
}

/// A message comes to the mailbox with that slot, of which there is one. Where memory runs out the message is returned; nothing
/// changed then.
fn post(
    boxes: &mut BoxList,
    stamp: u64,
    who: Actor,
    slot: u32,
    message: LocalMessage,
) -> Result<(), LocalMessage>
    requires there { Any (λ b. b.slot ≡ slot) (map box_of boxes.old.items) }
    requires later { All (IsBoxBefore stamp) (map box_of boxes.old.items) }
    requires short { IsShortMessage message }
    ensures ok { OnOk result ((place : ℕ) × (place_of (map box_of boxes.old.items) slot ≡ Some place) × (map box_of boxes.new.items ≡ at place (put_in stamp who message) (map box_of boxes.old.items))) }
    ensures back { IfErr result (λ m. m ≡ message) }
    ensures err { OnErr result (map box_of boxes.new.items ≡ map box_of boxes.old.items) }
{
    let Ok(kept) = message.copy() else {
        return Err(message);
    };
    let Some(place) = box_for(boxes, slot) else {
        unreachable!();
    };
    let Ok(()) = reserve_box(boxes, place) else {
        return Err(message);
    };
    put_at(boxes, place, stamp, who, message, kept);
    Ok(())
}

/// The message of a connection that passed comes to the mailbox with its slot. `AllocError` where memory runs out; nothing
/// changed then.
fn put_next(conn: &mut Conn, boxes: &mut BoxList, stamp: u64) -> Result<(), AllocError>
    requires some { is_some conn.old.conn.passed ≡ true }
    requires mailbox { HasBox (map box_of boxes.old.items) conn.old.conn.passed }
    requires later { All (IsBoxBefore stamp) (map box_of boxes.old.items) }
    ensures ok { OnOk result (IsPut stamp conn.old.conn conn.new.conn (map box_of boxes.old.items) (map box_of boxes.new.items)) }
    ensures conn { OnErr result (conn.new.conn ≡ conn.old.conn) }
    ensures boxes { OnErr result (map box_of boxes.new.items ≡ map box_of boxes.old.items) }
{
    conn.is_read_so_far();
    let who = conn.who();
    let Some((slot, message)) = conn.passed() else {
        unreachable!();
    };
    match post(boxes, stamp, who, slot, message) {
        Ok(()) => Ok(()),
        Err(message) => {
            conn.give_back(slot, message);
            Err(AllocError)
        }
    }
}

/// The same of the connection at a place.
pub(crate) fn put_passed(
    conns: &mut ConnList,
    place: usize,
    boxes: &mut BoxList,
    stamp: u64,
) -> Result<(), AllocError>
    requires place { place < length conns.old.items }
    requires ready { (c : Connection) → slice_get (map connection_of conns.old.items) place ≡ Some c → (is_some c.passed ≡ true) × HasBox (map box_of boxes.old.items) c.passed }
    requires later { All (IsBoxBefore stamp) (map box_of boxes.old.items) }
    ensures ok { OnOk result (IsPutAt stamp place (map connection_of conns.old.items) (map connection_of conns.new.items) (map box_of boxes.old.items) (map box_of boxes.new.items)) }
    ensures conns { OnErr result (map connection_of conns.new.items ≡ map connection_of conns.old.items) }
    ensures boxes { OnErr result (map box_of boxes.new.items ≡ map box_of boxes.old.items) }
{
    put_next(&mut conns[place], boxes, stamp)?;
    Ok(())
}
