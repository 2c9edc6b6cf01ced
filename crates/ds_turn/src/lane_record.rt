//! A lane's worker with the record of its events.

ghost use Rattle.std.specs.Prelude.{◌≡◌, ◌≢◌, ◌<◌, ◌≤◌, [], All, Err, true, length, IfErr, OnOk, OnErr};
ghost use Rattle.ds_base.specs.Counts.{Rose};
ghost use Rattle.ds_lane.specs.Lanes.{WaitsOn};
ghost use Rattle.ds_lane.specs.Workers.{IsReady, holding};
ghost use Rattle.ds_share.specs.Desks.{IsFrameAnswer, SaysOfJudging};
ghost use Rattle.ds_share.specs.SharedLanes.{IsReceiptOfLift};
ghost use Rattle.ds_script.specs.Replay.{last_of, rises};
ghost use Rattle.ds_turn.specs.Records.{entry_on, frame_event, stamp_of};
ghost use Rattle.ds_turn.specs.LaneRecords.{fresh_lane, recorded};
ghost use Rattle.ds_turn.specs.LaneTurns.{judged_worker, judge_event, lift_event};

use crate::names::{desk_name, lane_name};
use ds_base::Keeper;
use ds_lane::{BodyBatch, LaneEnd, LaneFault};
use ds_merge::{ActorRecord, Kept, ObjectName, Recorded};
use ds_script::Actor;
use ds_share::{DeskReply, Receipt, TurnFault};
use ds_wire::Bytes;
use std::alloc::{AllocError, Global};
use std::marker::Model;

/// The number of a frame event.
const FRAME: u8 = 2;

/// A lane's worker, the stamp of its last event, and its events in order, whose stamps rise.
#[derive(Drop)]
pub struct RecordedLane {
    alloc: Global,
    end: LaneEnd,
    stamp: u64,
    events: Vec<Recorded>,
}

impl Model for RecordedLane {
    ghost use Rattle.ds_turn.specs.LaneRecords.{RoomyLane};

    ghost Value = { RoomyLane };

    ghost use Rattle.ds_turn.specs.LaneInside.{IsRising, roomy_of};

    ghost view = { roomy_of };

    ghost invariant = { IsRising };
}

impl RecordedLane {
    /// A lane's worker without events. It takes no memory.
    pub fn new(alloc: Global, end: LaneEnd) -> RecordedLane
        ensures { result.lane ≡ fresh_lane end.worker }
    {
        RecordedLane {
            alloc,
            end,
            stamp: 0,
            events: Vec::new(alloc),
        }
    }

    /// What it recorded: who it is, and its events in order. Their stamps rise. It takes no memory.
    pub fn into_record(self) -> ActorRecord
        ensures who { result.who ≡ self.lane.worker.who }
        ensures events { result.events.items ≡ self.lane.events }
        ensures rising { rises stamp_of 0 self.lane.events ≡ true }
    {
        ActorRecord {
            who: self.end.who(),
            events: self.events,
        }
    }

    /// The worker.
    pub fn end(&self) -> &LaneEnd
        ensures { result.now.worker ≡ self.now.lane.worker }
    {
        &self.end
    }

    /// The stamp of its last event, 0 before the first.
    pub fn stamp(&self) -> u64
        ensures { result ≡ self.now.lane.stamp }
    {
        self.stamp
    }

    /// Its events, in order. Their stamps rise, and the last one is the worker's.
    pub fn events(&self) -> &[Recorded]
        ensures events { result.now ≡ self.now.lane.events }
        ensures rising { rises stamp_of 0 self.now.lane.events ≡ true }
        ensures last { self.now.lane.stamp ≡ last_of stamp_of 0 self.now.lane.events }
    {
        self.events.as_slice()
    }

    /// Makes room for one event. `AllocError` where memory runs out; nothing but the room changed then.
    pub(crate) fn reserve(&mut self) -> Result<(), AllocError>
        ensures same { self.new.lane ≡ self.old.lane }
        ensures room { OnOk result ((0 < self.new.spare) × (16 ≤ self.new.entries)) }
    {
        self.end.reserve()?;
        self.events.reserve(1)
    }

    /// Records an event, for which there is room, at its stamp. It takes no memory.
    fn enter(&mut self, event: Recorded)
        requires room { 0 < self.old.spare }
        requires later { self.old.lane.stamp < event.stamp }
        ensures { self.new.lane ≡ recorded self.old.lane.worker event self.old.lane }
    {
        self.stamp = event.stamp;
        self.events.push_reserved(event);
    }

    /// Takes what was lifted into the empty hand, and records the event. It takes no memory.
    pub(crate) fn lifted(&mut self, receipt: Receipt, batch: BodyBatch)
        requires room { 0 < self.old.spare }
        requires empty { self.old.lane.worker.hand ≡ [] }
        requires ready { IsReady self.old.lane.worker.signing }
        requires on { All (WaitsOn self.old.lane.worker.cert) batch }
        requires receipt { IsReceiptOfLift self.old.lane.stamp batch receipt }
        ensures { self.new.lane ≡ recorded (holding batch self.old.lane.worker) (lift_event self.old.lane.worker.who receipt.stamp batch) self.old.lane }
    {
        let who = self.end.who();
        self.end.hold(batch);
        let event = frame_event(self.alloc, lane_name(who.host, who.index), who, receipt);
        self.enter(event);
    }

    /// Frames or drops what is in hand by the desk's answer, and records the event. After a fault only the room changed.
    ///
    /// # Errors
    ///
    /// - `KeeperFault` where the keeper failed to raise the mark of the lane's key: its count of faults rose.
    /// - `NoMemory` where memory runs out. The keeper is as it was.
    pub(crate) fn judged<K: Keeper>(
        &mut self,
        keeper: &mut K,
        receipt: Receipt,
        reply: DeskReply,
    ) -> Result<(), TurnFault>
        requires room { (0 < self.old.spare) × (16 ≤ self.old.entries) }
        requires some { 0 < length self.old.lane.worker.hand }
        requires later { self.old.lane.stamp < receipt.stamp }
        requires says { SaysOfJudging IsFrameAnswer reply receipt.act receipt.body receipt.given }
        ensures ok { OnOk result (self.new.lane ≡
            recorded (judged_worker receipt.stamp reply self.old.lane.worker) (judge_event self.old.lane.worker.who receipt.stamp reply) self.old.lane) }
        ensures err { OnErr result (self.new.lane ≡ self.old.lane) }
        ensures faults { K.faults keeper.old ≤ K.faults keeper.new }
        ensures untouched { IfErr result (λ e. e ≢ TurnFault.KeeperFault → keeper.new ≡ keeper.old) }
        ensures fault { result ≡ Err TurnFault.KeeperFault → Rose (K.faults keeper.old) (K.faults keeper.new) }
    {
        let who = self.end.who();
        settle(&mut self.end, receipt.stamp, reply, keeper)?;
        let event = frame_event(self.alloc, desk_name(who.host), who, receipt);
        self.enter(event);
        Ok(())
    }
}

/// The event of a lane's worker, which that receipt is of. It takes no memory.
fn frame_event(alloc: Global, object: ObjectName, who: Actor, receipt: Receipt) -> Recorded
    ensures { result ≡ frame_event (entry_on object who receipt.stamp receipt.act receipt.body) receipt.given }
{
    let Receipt {
        stamp,
        act,
        body,
        given,
        ..
    } = receipt;
    Recorded {
        who,
        stamp,
        act: FRAME,
        body: Bytes::new(alloc),
        touched: Some(Kept {
            object,
            stamp,
            who,
            act,
            body,
        }),
        given,
    }
}

/// Drops what is in hand where a rule refuses it, and frames it else. After a fault nothing changed.
fn settle<K: Keeper>(
    end: &mut LaneEnd,
    stamp: u64,
    reply: DeskReply,
    keeper: &mut K,
) -> Result<(), TurnFault>
    requires room { 16 ≤ end.old.spare }
    requires some { 0 < length end.old.worker.hand }
    requires answer { IsFrameAnswer reply }
    ensures ok { OnOk result (end.new.worker ≡ judged_worker stamp reply end.old.worker) }
    ensures err { OnErr result (end.new.worker ≡ end.old.worker) }
    ensures faults { K.faults keeper.old ≤ K.faults keeper.new }
    ensures untouched { IfErr result (λ e. e ≢ TurnFault.KeeperFault → keeper.new ≡ keeper.old) }
    ensures fault { result ≡ Err TurnFault.KeeperFault → Rose (K.faults keeper.old) (K.faults keeper.new) }
{
    match reply {
        DeskReply::Refused(rule) => {
            end.drop_all(stamp, rule);
            Ok(())
        }
        DeskReply::Found(_) => match end.frame(stamp, keeper) {
            Ok(()) => Ok(()),
            Err(LaneFault::KeeperFault) => Err(TurnFault::KeeperFault),
            Err(LaneFault::NoMemory) => Err(TurnFault::NoMemory),
        },
        _ => unreachable!(),
    }
}
