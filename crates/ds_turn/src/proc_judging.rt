//! A process's messages to other hosts, which the desk judges.

ghost use Rattle.std.specs.Prelude.{◌≡◌, ◌≢◌, ◌≤◌, ◌<◌, Err, None, IfErr, IfOk, IfSome, IsTrue, OnErr, OnOk, length};
ghost use Rattle.ds_base.specs.Counts.{Rose};
ghost use Rattle.ds_script.specs.Fits.{IsShort};
ghost use Rattle.ds_actor.specs.declared.ask.ProcessAsk.TheVariants as asks;
ghost use Rattle.ds_turn.specs.Nodes.{seen_of};
ghost use Rattle.ds_turn.specs.ProcRecords.{HasMemory, IsGoing, stepped};
ghost use Rattle.ds_turn.specs.ProcAsks.{IsAsking};
ghost use Rattle.ds_turn.specs.ProcCerts.{IsInRange, IsVerdict, number_at, send_act};
ghost use Rattle.ds_turn.specs.ProcTurns.{Judges, judged_hand, judged_process};

use crate::node::Node;
use crate::proc_acting::desk_event;
use crate::proc_record::RecordedProc;
use ds_actor::Site;
use ds_base::Keeper;
use ds_merge::Recorded;
use ds_msg::{CertBytes, Message};
use ds_share::{DeskAct, DeskReply, SharedLane, TurnFault};
use ds_wire::Bytes;
use std::alloc::{AllocError, Global};
use std::sync::Wait;

/// The message with these certificates.
fn with_certs(mut message: Message, certs: CertBytes) -> Message
    ensures { result ≡ record message { certs = certs } }
{
    message.certs = certs;
    message
}

/// The number of the lane at a place, where there is one.
fn number_at(lanes: &[SharedLane], place: Option<usize>) -> Option<u32>
    requires { IfSome place (λ p. p < length lanes.now) }
    ensures { result ≡ number_at lanes.now place }
{
    let place = place?;
    Some(lanes[place].cert().lane)
}

/// What is asked of the desk about a message, whose lane is at this place, if it has one. `AllocError` where memory runs out.
fn send_act(
    lanes: &[SharedLane],
    place: Option<usize>,
    message: &Message,
) -> Result<DeskAct, AllocError>
    requires { IfSome place (λ p. p < length lanes.now) }
    ensures { IfOk result (λ act. act ≡ send_act lanes.now place message.now) }
{
    Ok(DeskAct::JudgeSend {
        lane: number_at(lanes, place),
        to: message.to,
        label: message.label.copy()?,
        own: message.own.copy()?,
        clear: message.clear.copy()?,
    })
}

/// The desk judged a message: with its certificates it comes to the hand of the process, or it is refused. It takes no memory.
fn judged_turn(process: &mut RecordedProc, event: Recorded, message: Message, reply: DeskReply)
    requires memory { HasMemory process.old }
    requires going { IsGoing process.old.proc.process }
    requires later { process.old.proc.stamp < event.stamp }
    requires answer { IsVerdict reply }
    requires short { IsShort message.payload }
    ensures process { process.new.proc ≡ stepped (judged_process reply process.old.proc.process)
        (judged_hand message reply process.old.proc.hand) event process.old.proc }
    ensures range { IsInRange message reply }
{
    match reply {
        DeskReply::Attached(certs) => {
            process.hold(with_certs(message, certs));
            process.enter(event);
        }
        DeskReply::Refused(rule) => process.refused(event, rule),
        _ => unreachable!(),
    }
}

/// A turn of a process that sends a message to another host: the desk judges it, and it comes to the hand with the certificates
/// that go with it, or is refused. The process is the same after a fault.
///
/// # Errors
///
/// `NoMemory` where memory runs out. The keeper is as it was.
pub(crate) fn judge_turn<K: Keeper, R: Wait>(
    rt: &R,
    keeper: &mut K,
    node: &Node,
    process: &mut RecordedProc,
    message: Message,
) -> Result<(), TurnFault>
    requires empty { process.old.proc.hand ≡ None }
    requires asks { IsAsking (seen_of node.now) process.old (asks.AsksJudgement message) }
    ensures ok { OnOk result (Judges (seen_of node.now) process.old.proc process.new.proc) }
    ensures err { OnErr result (process.new.proc ≡ process.old.proc) }
    ensures faults { K.faults keeper.old ≤ K.faults keeper.new }
    ensures untouched { IfErr result (λ e. e ≢ TurnFault.KeeperFault → keeper.new ≡ keeper.old) }
    ensures fault { result ≡ Err TurnFault.KeeperFault → Rose (K.faults keeper.old) (K.faults keeper.new) }
{
    let place = node.lane_to(&message.to, &message.label);
    let act = send_act(node.lanes.as_slice(), place, &message)?;
    let (receipt, reply) = node
        .desk
        .act(rt, keeper, process.stamp(), process.who(), act)?;
    let event = desk_event(process, receipt);
    judged_turn(process, event, message, reply);
    Ok(())
}
