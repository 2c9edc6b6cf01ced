//! The first message of a connection's hand is judged.
#![tactic(auto)]

ghost use Rattle.std.specs.Prelude.{◌≡◌, ◌<◌, ◌∷◌, [], length, map, slice_get, All, IfOk, IsTrue, OnOk, OnErr};
ghost use Rattle.ds_msg.specs.Ranges.{MessageRange};
ghost use Rattle.ds_map.specs.Labels.{are_known};
ghost use Rattle.ds_desk.specs.Desks.{kept_of};
ghost use Rattle.ds_inlet.specs.Connections.{Connection};
ghost use Rattle.ds_exporter.specs.HostStates.{box_of, connection_of};
ghost use Rattle.ds_exporter.specs.Conditions.{HasHelloFirst, IsBoxNamed};
ghost use Rattle.ds_exporter.specs.Delivering.{IsFrontJudged, IsJudged, IsJudgedAt, IsVerdict, arrival_rule, local_mail};

use crate::finding::{box_for, label_of};
use crate::parts::{BoxList, ConnList};
use ds_cert::LaneCert;
use ds_desk::DeskState;
use ds_flow::{FlowFault, judge_arrive, judge_box};
use ds_inlet::Conn;
use ds_label::{PubKey, Rule};
use ds_map::MapTable;
use ds_msg::{LocalMessage, Message};
use std::alloc::{AllocError, Global};

/// The first rule of arrival that a message breaks, where its lane has that certificate.
fn arrival_rule(
    alloc: Global,
    desk: &mut DeskState,
    lane: &LaneCert,
    message: &Message,
) -> Result<Option<Rule>, AllocError>
    requires { (kept_of desk.old).table ≡ (kept_of desk.old).here }
    ensures rule { IfOk result (λ rule. rule ≡ arrival_rule (kept_of desk.old) lane.now message.now) }
    ensures same { desk.new ≡ desk.old }
{
    match judge_arrive(
        alloc,
        &mut desk.store,
        &desk.table,
        desk.moment,
        &desk.here,
        lane,
        message,
    ) {
        Ok(()) => Ok(None),
        Err(FlowFault::Drop(rule)) => Ok(Some(rule)),
        Err(FlowFault::NoMemory) => Err(AllocError),
    }
}

/// What a mailbox keeps of a message whose categories are known, in the table's numbers.
fn local_mail(
    table: &MapTable,
    from: &PubKey,
    message: &Message,
) -> Result<LocalMessage, AllocError>
    requires label { IsTrue (are_known table.now.here table.now.rows (message.now.label ∷ [])) }
    requires own { IsTrue (are_known table.now.here table.now.rows (message.now.own ∷ [])) }
    requires clear { IsTrue (are_known table.now.here table.now.rows (message.now.clear ∷ [])) }
    ensures { IfOk result (λ mail. mail ≡ local_mail table.now.here table.now.rows from.now message.now) }
{
    Ok(LocalMessage {
        from: *from,
        label: table.numbers_of(&message.label)?,
        own: table.numbers_of(&message.own)?,
        clear: table.numbers_of(&message.clear)?,
        payload: message.payload.copy()?,
    })
}

/// Judges a message that arrived on a lane with that certificate: by the rules of arrival, then by those of the mailbox with its
/// slot. Where all pass it gives the message in the host's own numbers.
fn judge(
    alloc: Global,
    desk: &mut DeskState,
    boxes: &BoxList,
    lane: &LaneCert,
    message: &Message,
) -> Result<Result<LocalMessage, Rule>, AllocError>
    requires table { (kept_of desk.old).table ≡ (kept_of desk.old).here }
    requires named { All (IsBoxNamed (kept_of desk.old).here (kept_of desk.old).desk.rows) (map box_of boxes.now.items) }
    requires range { MessageRange message.now }
    ensures verdict { IfOk result (λ verdict. IsVerdict (kept_of desk.old) (map box_of boxes.now.items) lane.now message.now verdict) }
    ensures same { desk.new ≡ desk.old }
{
    let _rows = desk.table.rows();
    let _label = message.label.as_slice();
    let _own = message.own.as_slice();
    let _clear = message.clear.as_slice();
    if let Some(rule) = arrival_rule(alloc, desk, lane, message)? {
        return Ok(Err(rule));
    }
    let mail = local_mail(&desk.table, &lane.exporter, message)?;
    let place = box_for(boxes, message.slot);
    if let Err(rule) = judge_box(label_of(boxes, place), &mail.label) {
        return Ok(Err(rule));
    }
    Ok(Ok(mail))
}

/// Judges the first message of a connection's hand.
fn judge_front(
    desk: &mut DeskState,
    boxes: &BoxList,
    conn: &Conn,
) -> Result<Result<LocalMessage, Rule>, AllocError>
    requires table { (kept_of desk.old).table ≡ (kept_of desk.old).here }
    requires named { All (IsBoxNamed (kept_of desk.old).here (kept_of desk.old).desk.rows) (map box_of boxes.now.items) }
    requires some { 0 < length conn.now.conn.hand }
    requires hello { HasHelloFirst conn.now.conn }
    ensures verdict { IfOk result (IsFrontJudged (kept_of desk.old) (map box_of boxes.now.items) conn.now.conn) }
    ensures same { desk.new ≡ desk.old }
{
    conn.is_read_so_far();
    let Some(message) = conn.front() else {
        unreachable!();
    };
    let Some(lane) = conn.cert() else {
        unreachable!();
    };
    let verdict = judge(*boxes.allocator(), desk, boxes, lane, message)?;
    Ok(verdict)
}

/// The first message of a connection's hand is judged: it passes on, or is dropped. `AllocError` where memory runs out; nothing
/// changed then.
fn judge_next(conn: &mut Conn, desk: &mut DeskState, boxes: &BoxList) -> Result<(), AllocError>
    requires table { (kept_of desk.old).table ≡ (kept_of desk.old).here }
    requires named { All (IsBoxNamed (kept_of desk.old).here (kept_of desk.old).desk.rows) (map box_of boxes.now.items) }
    requires some { 0 < length conn.old.conn.hand }
    requires hello { HasHelloFirst conn.old.conn }
    ensures ok { OnOk result (IsJudged (kept_of desk.old) (map box_of boxes.now.items) conn.old.conn conn.new.conn) }
    ensures err { OnErr result (conn.new.conn ≡ conn.old.conn) }
    ensures same { desk.new ≡ desk.old }
{
    conn.reserve()?;
    match judge_front(desk, boxes, conn)? {
        Ok(message) => {
            conn.pass(message);
            Ok(())
        }
        Err(rule) => {
            conn.refuse(rule);
            Ok(())
        }
    }
}

/// The same of the connection at a place.
pub(crate) fn judge_at(
    conns: &mut ConnList,
    place: usize,
    desk: &mut DeskState,
    boxes: &BoxList,
) -> Result<(), AllocError>
    requires place { place < length conns.old.items }
    requires table { (kept_of desk.old).table ≡ (kept_of desk.old).here }
    requires named { All (IsBoxNamed (kept_of desk.old).here (kept_of desk.old).desk.rows) (map box_of boxes.now.items) }
    requires ready { (c : Connection) → slice_get (map connection_of conns.old.items) place ≡ Some c → (0 < length c.hand) × HasHelloFirst c }
    ensures ok { OnOk result (IsJudgedAt (kept_of desk.old) (map box_of boxes.now.items) place (map connection_of conns.old.items) (map connection_of conns.new.items)) }
    ensures err { OnErr result (map connection_of conns.new.items ≡ map connection_of conns.old.items) }
    ensures same { desk.new ≡ desk.old }
{
    judge_next(&mut conns[place], desk, boxes)?;
    Ok(())
}
