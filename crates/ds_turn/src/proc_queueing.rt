//! A process's judged message goes onto its lane.

ghost use Rattle.std.specs.Prelude.{◌≡◌, Some, is_some, true, OnOk, OnErr};
ghost use Rattle.ds_msg.specs.Ranges.{MessageRange};
ghost use Rattle.ds_actor.specs.Sites.{is_lane_for};
ghost use Rattle.ds_turn.specs.Nodes.{seen_of};
ghost use Rattle.ds_turn.specs.ProcRecords.{HasMemory, IsGoing};
ghost use Rattle.ds_turn.specs.ProcAsks.{MayStep};
ghost use Rattle.ds_turn.specs.ProcTurns.{Admits, Queues};

use crate::names::lane_name;
use crate::node::{Node, goes_onto};
use crate::proc_record::{RecordedProc, entry_event};
use ds_actor::Site;
use ds_msg::Message;
use ds_share::SharedLane;
use std::alloc::AllocError;
use std::sync::Wait;

/// A message that was in the hand of the process goes onto its lane. `AllocError` where memory runs out; the message is back in
/// the hand then.
fn admit_turn<R: Wait>(
    rt: &R,
    lane: &SharedLane,
    process: &mut RecordedProc,
    message: Message,
) -> Result<(), AllocError>
    requires memory { HasMemory process.old }
    requires going { IsGoing process.old.proc.process }
    requires goes { is_lane_for message.to message.label lane.now ≡ true }
    requires range { MessageRange message }
    ensures ok { OnOk result (Admits lane.now.lane message process.old.proc process.new.proc) }
    ensures err { OnErr result (process.new.proc ≡ record process.old.proc { hand = Some message }) }
{
    if !goes_onto(lane, &message) {
        unreachable!();
    }
    let who = process.who();
    match lane.admit(rt, process.stamp(), who, message) {
        Ok(receipt) => {
            let object = lane_name(who.host, lane.cert().lane);
            process.sent(entry_event(process.allocator(), object, who, receipt));
            Ok(())
        }
        Err((message, _fault)) => {
            process.hold(message);
            Err(AllocError)
        }
    }
}

/// A turn with a judged message in hand: it goes onto its lane, which drops it where it is full. `AllocError` where memory runs
/// out; only the room changed then.
pub(crate) fn queue_turn<R: Wait>(
    rt: &R,
    node: &Node,
    process: &mut RecordedProc,
) -> Result<(), AllocError>
    requires may { MayStep (seen_of node.now) process.old.proc }
    requires hand { is_some process.old.proc.hand ≡ true }
    ensures ok { OnOk result (Queues (seen_of node.now) process.old.proc process.new.proc) }
    ensures err { OnErr result (process.new.proc ≡ process.old.proc) }
{
    process.reserve()?;
    let Some(message) = process.lay_down() else {
        unreachable!();
    };
    let Some(place) = node.lane_to(&message.to, &message.label) else {
        unreachable!();
    };
    admit_turn(rt, &node.lanes[place], process, message)?;
    Ok(())
}
