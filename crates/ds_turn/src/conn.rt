//! A turn of a connection.

ghost use Rattle.std.specs.Prelude.{◌≡◌, ◌<◌, [], None, Some, length, map, option_copied, slice_get, true, is_some, IfErr, IfOk, IfSome, OnOk, OnErr};
ghost use Rattle.std.specs.Bool.{MatchBool};
ghost use Rattle.ds_inlet.specs.Connections.{IsOfferedAt, IsShortMessage};
ghost use Rattle.ds_share.specs.declared.desk_act.DeskAct.TheVariants as acts;
ghost use Rattle.ds_share.specs.Desks.{IsArrivalAnswer, IsReceiptOfAct};
ghost use Rattle.ds_share.specs.Mailboxes.{IsReceiptOfPut};
ghost use Rattle.ds_turn.specs.ConnAsks.{AsksInTurn, IsSamePlain};
ghost use Rattle.ds_turn.specs.ConnTurns.{HasHelloFirst, IsCounted, IsJudged, IsVerdict, Judges, KeepsBack, LeadsTo, Puts, Rests, TookConnTurn, label_at, name_of_seat, place_of, slot_rule};

use crate::conn_record::RecordedConn;
use crate::node::{BoxSeat, InletSeat, Node};
use ds_base::{CalmKeeper, Gate};
use ds_cert::LaneCert;
use ds_flow::judge_box;
use ds_frame::ReadEnd;
use ds_inlet::Offer;
use ds_label::{LocalLabel, Rule};
use ds_msg::{LocalMessage, Message};
use ds_script::Actor;
use ds_share::{DeskAct, DeskReply, Receipt, SharedDesk, TurnFault};
use ds_wire::Bytes;
use std::alloc::AllocError;
use std::sync::Wait;

/// The frame that is offered goes to the inlet of that seat, whose name is the one at that place, and is settled by what that tells.
/// `AllocError` where memory runs out; nothing changed then, and the frame stays offered.
fn count_at<R: Wait>(
    rt: &R,
    seat: &InletSeat,
    conn: &mut RecordedConn,
    inlet: u32,
    number: u32,
) -> Result<(), AllocError>
    requires seat { slice_get conn.old.link.conn.inlets inlet ≡ Some (name_of_seat seat.now) }
    requires room { (0 < conn.old.spare) × (0 < conn.old.entries) }
    requires offered { IsOfferedAt inlet number conn.old.link.conn.offered }
    ensures ok { OnOk result (IsCounted inlet number conn.old.link conn.new.link) }
    ensures err { OnErr result (conn.new.link ≡ conn.old.link) }
{
    let who = conn.conn().who();
    let (receipt, told) = seat.inlet.accept(rt, conn.stamp(), who, number)?;
    conn.counted(inlet, number, receipt, told);
    Ok(())
}

/// The same with the inlet at that place.
fn count_turn<R: Wait>(
    rt: &R,
    node: &Node,
    conn: &mut RecordedConn,
    inlet: u32,
    number: u32,
) -> Result<(), AllocError>
    requires room { (0 < conn.old.spare) × (0 < conn.old.entries) }
    requires offered { IsOfferedAt inlet number conn.old.link.conn.offered }
    requires names { conn.old.link.conn.inlets ≡ map name_of_seat node.now.inlets.items }
    requires place { inlet < length node.now.inlets.items }
    ensures ok { OnOk result (IsCounted inlet number conn.old.link conn.new.link) }
    ensures err { OnErr result (conn.new.link ≡ conn.old.link) }
{
    let seat = &node.inlets[inlet as usize];
    count_at(rt, seat, conn, inlet, number)?;
    Ok(())
}

/// A turn with an empty hand and nothing passed: the connection reads on. A hello is taken, a frame is settled by the inlet of its
/// lane, and a stream that is broken fails the connection for good. False where there is nothing to be read. `AllocError` where
/// memory runs out; nothing changed then but that the next frame may be offered.
fn accept_turn<R: Wait>(rt: &R, node: &Node, conn: &mut RecordedConn) -> Result<bool, AllocError>
    requires hand { conn.old.link.conn.hand ≡ [] }
    requires free { conn.old.link.conn.passed ≡ None }
    requires leads { LeadsTo node.now conn.old.link.conn }
    ensures ok { IfOk result (λ made. MatchBool made (TookConnTurn node.now.boxes.items conn.old.link conn.new.link)
        (Rests conn.old.link conn.new.link)) }
    ensures err { OnErr result (KeepsBack conn.old.link conn.new.link) }
{
    conn.reserve()?;
    let failed = conn.conn().failure().is_some();
    match conn.read() {
        Ok(Offer::Hello) => {
            conn.noted(rt);
            Ok(true)
        }
        Ok(Offer::Frame { inlet, number }) => {
            count_turn(rt, node, conn, inlet, number)?;
            Ok(true)
        }
        Err(ReadEnd::NotYet) => Ok(false),
        Err(ReadEnd::BadFrame(_cause, _place)) => {
            if failed {
                return Ok(false);
            }
            conn.noted(rt);
            Ok(true)
        }
        Err(ReadEnd::NoMemory) => Err(AllocError),
    }
}

/// The place of the mailbox with that slot.
fn place_for(boxes: &[BoxSeat], slot: u32) -> Option<usize>
    ensures place { result ≡ place_of boxes.now slot }
    ensures within { IfSome result (λ place. place < length boxes.now) }
{
    boxes.iter().position(|seat| seat.slot == slot)
}

/// The label of the mailbox at a place, where there is one.
fn label_of(boxes: &[BoxSeat], place: Option<usize>) -> Option<&LocalLabel>
    requires { IfSome place (λ p. p < length boxes.now) }
    ensures { option_copied result ≡ label_at boxes.now place }
{
    let place = place?;
    Some(&boxes[place].label)
}

/// Puts a message into the mailbox of that seat, which has that slot. `AllocError` with the message where memory runs out; nothing
/// is entered then.
fn put_at<G: Gate, R: Wait>(
    rt: &R,
    gate: &G,
    seat: &BoxSeat,
    slot: u32,
    stamp: u64,
    who: Actor,
    message: LocalMessage,
) -> Result<Receipt, (LocalMessage, AllocError)>
    requires seat { seat.now.slot ≡ slot }
    requires short { IsShortMessage message }
    ensures ok { IfOk result (IsReceiptOfPut stamp message) }
    ensures err { IfErr result (λ e. e.0 ≡ message) }
{
    seat.mailbox.put(rt, gate, slot, stamp, who, message)
}

/// The same with the first mailbox with that slot, of which there is one.
fn put_into<G: Gate, R: Wait>(
    rt: &R,
    gate: &G,
    boxes: &[BoxSeat],
    slot: u32,
    stamp: u64,
    who: Actor,
    message: LocalMessage,
) -> Result<Receipt, (LocalMessage, AllocError)>
    requires there { is_some (place_of boxes.now slot) ≡ true }
    requires short { IsShortMessage message }
    ensures ok { IfOk result (IsReceiptOfPut stamp message) }
    ensures err { IfErr result (λ e. e.0 ≡ message) }
{
    let Some(place) = place_for(boxes, slot) else {
        unreachable!();
    };
    let seat = &boxes[place];
    put_at(rt, gate, seat, slot, stamp, who, message)
}

/// A turn with a message that passed: it is put into the mailbox with its slot. `AllocError` where memory runs out; only the room
/// changed then.
fn put_turn<G: Gate, R: Wait>(
    rt: &R,
    gate: &G,
    node: &Node,
    conn: &mut RecordedConn,
) -> Result<(), AllocError>
    requires some { is_some conn.old.link.conn.passed ≡ true }
    requires leads { LeadsTo node.now conn.old.link.conn }
    ensures ok { OnOk result (Puts conn.old.link conn.new.link) }
    ensures err { OnErr result (conn.new.link ≡ conn.old.link) }
{
    conn.reserve()?;
    let who = conn.conn().who();
    let stamp = conn.stamp();
    let Some((slot, message)) = conn.passed() else {
        unreachable!();
    };
    match put_into(rt, gate, &node.boxes, slot, stamp, who, message) {
        Ok(receipt) => {
            conn.put(slot, receipt);
            Ok(())
        }
        Err((message, fault)) => {
            conn.give_back(slot, message);
            Err(fault)
        }
    }
}

/// Asks the desk to judge a message that arrived on a lane with that certificate. `AllocError` where memory runs out; nothing is
/// entered then.
fn ask_desk<R: Wait>(
    rt: &R,
    desk: &SharedDesk,
    stamp: u64,
    who: Actor,
    lane: &LaneCert,
    message: &Message,
) -> Result<(Receipt, DeskReply), AllocError>
    ensures { IfOk result (λ p. IsReceiptOfAct stamp (acts.JudgeArrive lane.now message.now) p.1 p.0) }
{
    let act = DeskAct::JudgeArrive {
        lane: lane.copy()?,
        message: message.copy()?,
    };
    let mut keeper = CalmKeeper::new();
    match desk.act(rt, &mut keeper, stamp, who, act) {
        Ok(answer) => Ok(answer),
        Err(TurnFault::NoMemory) => Err(AllocError),
        Err(TurnFault::KeeperFault) => unreachable!(),
    }
}

/// The rule of the mailbox with that slot by which it refuses a message with that label, if one fails.
fn slot_rule(boxes: &[BoxSeat], slot: u32, label: &LocalLabel) -> Option<Rule>
    ensures { result ≡ slot_rule boxes.now slot label.now }
{
    let place = place_for(boxes, slot);
    judge_box(label_of(boxes, place), label).err()
}

/// The verdict on a message by the desk's answer and the rule of its mailbox. Its payload is given apart. It takes no memory.
fn verdict_of(
    boxes: &[BoxSeat],
    lane: &LaneCert,
    message: &Message,
    payload: Bytes,
    reply: DeskReply,
) -> Result<LocalMessage, Rule>
    requires answer { IsArrivalAnswer reply }
    requires payload { payload ≡ message.now.payload }
    ensures { IsVerdict boxes.now lane.now message.now reply result }
{
    match reply {
        DeskReply::Refused(rule) => Err(rule),
        DeskReply::Named(label, own, clear) => {
            if let Some(rule) = slot_rule(boxes, message.slot, &label) {
                return Err(rule);
            }
            Ok(LocalMessage {
                from: lane.exporter,
                label,
                own,
                clear,
                payload,
            })
        }
        _ => unreachable!(),
    }
}

/// The verdict on the first message of a connection's hand. All memory that it takes, it takes before the desk is asked.
/// `AllocError` where memory runs out; nothing is entered then.
fn judge<R: Wait>(
    rt: &R,
    node: &Node,
    conn: &RecordedConn,
) -> Result<(Receipt, Result<LocalMessage, Rule>), AllocError>
    requires some { 0 < length conn.now.link.conn.hand }
    requires hello { HasHelloFirst conn.now.link.conn }
    ensures judged { IfOk result (λ p. IsJudged node.now.boxes.items conn.now.link p.0 p.1) }
    ensures short { IfOk result (λ p. IfOk p.1 IsShortMessage) }
{
    let Some(message) = conn.conn().front() else {
        unreachable!();
    };
    let Some(lane) = conn.conn().cert() else {
        unreachable!();
    };
    let payload = message.payload.copy()?;
    let (receipt, reply) = ask_desk(
        rt,
        &node.desk,
        conn.stamp(),
        conn.conn().who(),
        lane,
        message,
    )?;
    let verdict = verdict_of(&node.boxes, lane, message, payload, reply);
    Ok((receipt, verdict))
}

/// A turn with something in hand and nothing passed: the first message is judged by the desk and then by the mailbox with its
/// slot, and passes or is dropped. `AllocError` where memory runs out; only the room changed then.
fn judge_turn<R: Wait>(rt: &R, node: &Node, conn: &mut RecordedConn) -> Result<(), AllocError>
    requires free { conn.old.link.conn.passed ≡ None }
    requires some { 0 < length conn.old.link.conn.hand }
    requires leads { LeadsTo node.now conn.old.link.conn }
    ensures ok { OnOk result (Judges node.now.boxes.items conn.old.link conn.new.link) }
    ensures err { OnErr result (conn.new.link ≡ conn.old.link) }
{
    conn.reserve()?;
    let (receipt, verdict) = judge(rt, node, conn)?;
    conn.judged(receipt, verdict);
    Ok(())
}

/// One turn, without a word of the plain world.
fn one_turn<G: Gate, R: Wait>(
    rt: &R,
    gate: &G,
    node: &Node,
    conn: &mut RecordedConn,
) -> Result<bool, AllocError>
    requires leads { LeadsTo node.now conn.old.link.conn }
    ensures ok { IfOk result (λ made. MatchBool made (TookConnTurn node.now.boxes.items conn.old.link conn.new.link)
        (Rests conn.old.link conn.new.link)) }
    ensures err { OnErr result (KeepsBack conn.old.link conn.new.link) }
    ensures leads { LeadsTo node.now conn.new.link.conn }
{
    if conn.conn().has_passed() {
        put_turn(rt, gate, node, conn)?;
        return Ok(true);
    }
    if conn.conn().front().is_none() {
        let made = accept_turn(rt, node, conn)?;
        return Ok(made);
    }
    judge_turn(rt, node, conn)?;
    Ok(true)
}

/// Tries one event of a connection over what the threads of its host share. With an empty hand and nothing passed it accepts: a
/// hello is taken; a frame is fresh where its number is above its inlet's, and then its messages come to hand, and else it is
/// stale and dropped; a stream that is broken fails the connection for good. Else it delivers: a message that passed is put into
/// the mailbox with its slot, or dropped where that is full; where none is, the first message of the hand is judged by the desk
/// and by that mailbox's label, and passes or is dropped by the first rule that fails. True where that made an event, which the
/// connection recorded at its stamp with the entry that it met and what was handed out; false where it made none: nothing is in
/// hand or passed then, there is nothing to be read, and the connection is as it was. Where no stamp is left it waits.
///
/// # Errors
///
/// `AllocError` where memory runs out. Nothing is entered then, and the connection is as it was, but for room. A frame that was
/// read stays offered then, and a later turn settles it.
pub fn conn_turn<G: Gate, R: Wait>(
    rt: &R,
    gate: &G,
    node: &Node,
    conn: &mut RecordedConn,
) -> Result<bool, AllocError>
    requires leads { LeadsTo node.now conn.old.link.conn }
    ensures ok { IfOk result (λ made. MatchBool made (TookConnTurn node.now.boxes.items conn.old.link conn.new.link)
        (Rests conn.old.link conn.new.link)) }
    ensures err { OnErr result (KeepsBack conn.old.link conn.new.link) }
    ensures leads { LeadsTo node.now conn.new.link.conn }
    ensures asks { IfOk result (AsksInTurn node.now.boxes.items conn.old.link conn.new.link) }
    ensures plain { OnErr result (IsSamePlain conn.old.link.conn conn.new.link.conn) }
{
    conn.conn().is_read_so_far();
    conn.conn().is_admitted();
    let made = one_turn(rt, gate, node, conn)?;
    Ok(made)
}
