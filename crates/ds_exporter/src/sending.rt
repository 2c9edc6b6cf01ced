//! Messages to other hosts are judged.
#![tactic(auto)]

ghost use Rattle.std.specs.Prelude.{◌≡◌, ◌<◌, [], length, map, IfOk, OnOk, OnErr};
ghost use Rattle.ds_msg.specs.declared.message.Message.{Message as MessageValue};
ghost use Rattle.ds_model.specs.Lists.{at};
ghost use Rattle.ds_model.specs.ProcessStep.{AsksJudgement};
ghost use Rattle.ds_script.specs.Fits.{IsShort};
ghost use Rattle.ds_desk.specs.Desks.{kept_of};
ghost use Rattle.ds_exporter.specs.HostStates.{lane_of, process_of};
ghost use Rattle.ds_exporter.specs.Sending.{FindsLane, HasParts, IsSendVerdict, holding, judged_proc, send_rule};
ghost use Rattle.ds_exporter.specs.Stamping.{IsBefore};
ghost use Rattle.ds_exporter.specs.Stepping.{Asks, IsFree, IsReadyAt, IsStepped, always};

use crate::exporter::Exporter;
use crate::noting::{refused_at, reserve_proc};
use crate::parts::{LaneList, ProcList};
use crate::queueing::{goes_onto, lane_for};
use ds_cert::{show_key, show_label};
use ds_desk::DeskState;
use ds_flow::{FlowFault, attach, judge_send};
use ds_label::Rule;
use ds_msg::{CertBytes, Message};
use ds_script::{Actor, ActorKind};
use std::alloc::AllocError;

/// The number of the lane that a message goes onto.
fn number_for(lanes: &LaneList, message: &Message) -> Option<u32>
    ensures { FindsLane (map lane_of lanes.now.items) message.now result }
{
    let place = lane_for(lanes, &message.to, &message.label)?;
    if !goes_onto(lanes, place, message) {
        unreachable!();
    }
    Some(lanes[place].end.who().index)
}

/// The first rule of a send that a message breaks.
fn send_rule(
    desk: &mut DeskState,
    lanes: &LaneList,
    message: &Message,
    lane: Option<u32>,
) -> Result<Option<Rule>, AllocError>
    requires { FindsLane (map lane_of lanes.now.items) message.now lane }
    ensures rule { IfOk result (λ rule. rule ≡ send_rule (kept_of desk.old) (map lane_of lanes.now.items) message.now) }
    ensures same { desk.new ≡ desk.old }
{
    match judge_send(
        *lanes.allocator(),
        lane,
        &desk.addresses,
        &mut desk.store,
        desk.moment,
        &message.to,
        &message.label,
    ) {
        Ok(()) => Ok(None),
        Err(FlowFault::Drop(rule)) => Ok(Some(rule)),
        Err(FlowFault::NoMemory) => Err(AllocError),
    }
}

/// What a message has beside its certificates and its payload is in range. It does nothing.
fn show_parts(message: &Message)
    ensures { HasParts message.now }
{
    show_key(&message.to);
    let _slot = message.slot;
    show_label(&message.label);
    show_label(&message.own);
    show_label(&message.clear);
}

/// Judges a message to another host: the certificates that go with it, or the first rule that fails.
fn judge_message(
    desk: &mut DeskState,
    lanes: &LaneList,
    message: &Message,
) -> Result<Result<CertBytes, Rule>, AllocError>
    ensures verdict { IfOk result (λ verdict. IsSendVerdict (kept_of desk.old) (map lane_of lanes.now.items) message.now verdict) }
    ensures same { desk.new ≡ desk.old }
{
    let lane = number_for(lanes, message);
    if let Some(rule) = send_rule(desk, lanes, message, lane)? {
        return Ok(Err(rule));
    }
    let certs = attach(
        *lanes.allocator(),
        &mut desk.store,
        desk.moment,
        &desk.here,
        &message.label,
        &message.own,
        &message.clear,
    )?;
    show_parts(message);
    Ok(Ok(certs))
}

/// The message with these certificates.
fn with_certs(mut message: Message, certs: CertBytes) -> Message
    ensures { result ≡ record message { certs = certs } }
{
    message.certs = certs;
    message
}

/// A message with its certificates comes to the hand of the process at a place. It takes no memory.
#[tactic(auto, using(crate::proofs::Places::map_at_here))]
fn hold_at(procs: &mut ProcList, place: usize, message: Message, certs: CertBytes)
    requires { place < length procs.old.items }
    ensures { map process_of procs.new.items ≡ at place (holding message certs) (map process_of procs.old.items) }
{
    procs[place].hand = Some(with_certs(message, certs));
}

/// The process at a place, after its message was judged. It takes no memory.
fn judged_at(procs: &mut ProcList, place: usize, message: Message, verdict: Result<CertBytes, Rule>)
    requires place { place < length procs.old.items }
    requires ready { IsReadyAt place procs.old.items }
    ensures { map process_of procs.new.items ≡ at place (judged_proc message verdict) (map process_of procs.old.items) }
{
    match verdict {
        Ok(certs) => hold_at(procs, place, message, certs),
        Err(rule) => refused_at(procs, place, rule),
    }
}

impl Exporter {
    /// A process's message to another host is judged by the desk: it comes to the process's hand with the certificates that go
    /// with it, or the process notes the first rule that fails. `AllocError` where memory runs out; nothing changed then.
    pub(crate) fn judge_sent(
        &mut self,
        stamp: u64,
        index: u32,
        message: Message,
    ) -> Result<(), AllocError>
        requires there { index < length self.old.procs }
        requires free { IsFree index self.old }
        requires asks { Asks index self.old (always (AsksJudgement message)) }
        requires short { IsShort message.payload }
        requires later { IsBefore stamp self.old }
        ensures ok { OnOk result (IsStepped stamp index self.old self.new) }
        ensures leaf { OnOk result (self.new.desk.desk.leaf ≡ self.old.desk.desk.leaf) }
        ensures err { OnErr result (self.new ≡ self.old) }
    {
        let who = Actor {
            kind: ActorKind::Proc,
            host: self.parts.host,
            index,
        };
        self.parts.desk.reserve()?;
        reserve_proc(&mut self.parts.procs, index as usize)?;
        let verdict = judge_message(&mut self.parts.desk, &self.parts.lanes, &message)?;
        judged_at(&mut self.parts.procs, index as usize, message, verdict);
        self.parts.desk.look(stamp, who);
        Ok(())
    }
}
