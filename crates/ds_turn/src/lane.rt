//! A turn of a lane's worker.

ghost use Rattle.std.specs.Prelude.{◌≡◌, ◌≢◌, ◌<◌, ◌≤◌, [], Err, length, IfErr, IfOk, OnOk, OnErr};
ghost use Rattle.std.specs.Bool.{MatchBool};
ghost use Rattle.ds_base.specs.Counts.{Rose};
ghost use Rattle.ds_share.specs.SharedLanes.{IsSameLane};
ghost use Rattle.ds_turn.specs.LaneTurns.{Checks, Lifts, TookTurn};

use crate::lane_record::RecordedLane;
use ds_base::Keeper;
use ds_lane::LiftEnd;
use ds_share::{DeskAct, SharedDesk, SharedLane, TurnFault};
use std::alloc::AllocError;
use std::sync::Wait;

/// A turn with an empty hand: what waits longest on the lane goes to it, where a leaf of the lane's key is left. False where it
/// isn't, or where nothing waits. `AllocError` where memory runs out; only the room changed then.
fn lift_turn<R: Wait>(
    rt: &R,
    lane: &SharedLane,
    worker: &mut RecordedLane,
) -> Result<bool, AllocError>
    requires lane { IsSameLane lane.now worker.old.lane.worker.cert }
    requires empty { worker.old.lane.worker.hand ≡ [] }
    ensures ok { IfOk result (λ made. MatchBool made (Lifts worker.old.lane worker.new.lane) (worker.new.lane ≡ worker.old.lane)) }
    ensures err { OnErr result (worker.new.lane ≡ worker.old.lane) }
{
    if !worker.end().ready() {
        return Ok(false);
    }
    worker.reserve()?;
    match lane.lift(rt, worker.stamp(), worker.end().who()) {
        Ok((receipt, batch)) => {
            worker.lifted(receipt, batch);
            Ok(true)
        }
        Err(LiftEnd::Idle) => Ok(false),
        Err(LiftEnd::NoMemory) => Err(AllocError),
    }
}

/// A turn with something in hand: the desk judges it, and it becomes one frame or is dropped. After a fault only the room changed.
///
/// # Errors
///
/// - `KeeperFault` where the keeper failed to raise the mark of the lane's key: its count of faults rose.
/// - `NoMemory` where memory runs out. The keeper is as it was.
fn check_turn<K: Keeper, R: Wait>(
    rt: &R,
    keeper: &mut K,
    desk: &SharedDesk,
    worker: &mut RecordedLane,
) -> Result<(), TurnFault>
    requires some { 0 < length worker.old.lane.worker.hand }
    ensures ok { OnOk result (Checks worker.old.lane worker.new.lane) }
    ensures err { OnErr result (worker.new.lane ≡ worker.old.lane) }
    ensures faults { K.faults keeper.old ≤ K.faults keeper.new }
    ensures untouched { IfErr result (λ e. e ≢ TurnFault.KeeperFault → keeper.new ≡ keeper.old) }
    ensures fault { result ≡ Err TurnFault.KeeperFault → Rose (K.faults keeper.old) (K.faults keeper.new) }
{
    worker.reserve()?;
    let cert = worker.end().cert();
    let act = DeskAct::JudgeFrame {
        to: cert.receiver,
        label: cert.label.copy()?,
    };
    let who = worker.end().who();
    let (receipt, reply) = desk.act(rt, keeper, worker.stamp(), who, act)?;
    worker.judged(keeper, receipt, reply)
}

/// Tries one frame event of a lane's worker over its lane and its host's desk. Where its hand is empty, up to 16 messages that wait
/// longest go to it, if a leaf of the lane's key is left. Else the desk judges what is in hand, and it becomes one frame or is
/// dropped. True where that made an event, which the worker recorded at its stamp with the entry and what was handed out; false
/// where it made none: the hand is empty then, and the worker is as it was.
///
/// # Errors
///
/// - `KeeperFault` where the keeper failed to raise the mark of the lane's key: its count of faults rose.
/// - `NoMemory` where memory runs out. The keeper is as it was.
///
/// The worker is as it was after either, but for room. Where the hand was judged before, the desk's look stays.
pub fn lane_turn<K: Keeper, R: Wait>(
    rt: &R,
    keeper: &mut K,
    desk: &SharedDesk,
    lane: &SharedLane,
    worker: &mut RecordedLane,
) -> Result<bool, TurnFault>
    requires lane { IsSameLane lane.now worker.old.lane.worker.cert }
    ensures ok { IfOk result (λ made. MatchBool made (TookTurn worker.old.lane worker.new.lane)
        ((worker.new.lane ≡ worker.old.lane) × (worker.old.lane.worker.hand ≡ []))) }
    ensures err { OnErr result (worker.new.lane ≡ worker.old.lane) }
    ensures faults { K.faults keeper.old ≤ K.faults keeper.new }
    ensures untouched { IfErr result (λ e. e ≢ TurnFault.KeeperFault → keeper.new ≡ keeper.old) }
    ensures fault { result ≡ Err TurnFault.KeeperFault → Rose (K.faults keeper.old) (K.faults keeper.new) }
{
    if worker.end().hand().is_empty() {
        let made = lift_turn(rt, lane, worker)?;
        return Ok(made);
    }
    check_turn(rt, keeper, desk, worker)?;
    Ok(true)
}
