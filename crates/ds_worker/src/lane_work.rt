//! What one thread does in a phase with a lane's worker.

ghost use Rattle.std.specs.Prelude.{◌≡◌, ◌≤◌, Err, IfErr, IfOk, ℕ};
ghost use Rattle.ds_base.specs.Counts.{Rose};
ghost use Rattle.ds_share.specs.SharedLanes.{IsSameLane};
ghost use Rattle.ds_worker.specs.Actors.{LaneStopped, LaneWorked, SparesKeeper};

use crate::limit::TURN_LIMIT;
use ds_base::Keeper;
use ds_share::{SharedDesk, SharedLane, TurnFault};
use ds_turn::{RecordedLane, lane_turn};
use std::sync::Wait;

/// Lets a lane's worker make turns over its lane and its host's desk until one makes no event, at most 16. Answers how many
/// events it made, each of which is recorded; fewer than 16 only where nothing is in its hand.
///
/// It needs what a turn needs, and leaves it so.
///
/// # Errors
///
/// - `KeeperFault` where the keeper failed to raise the mark of the lane's key: its count of faults rose.
/// - `NoMemory` where memory runs out. Where that was in the first turn, the keeper is as it was.
///
/// What was done before the fault stays and is recorded, and the turn that met it changed nothing but room.
#[tactic(auto, using(crate::proofs::Turning::lane_turns_in_a_loop))]
pub fn work_lane<K: Keeper, R: Wait>(
    rt: &R,
    keeper: &mut K,
    desk: &SharedDesk,
    lane: &SharedLane,
    worker: &mut RecordedLane,
) -> Result<u32, TurnFault>
    requires lane { IsSameLane lane.now worker.old.lane.worker.cert }
    ensures ok { IfOk result (λ n. LaneWorked n worker.old.lane worker.new.lane) }
    ensures err { IfErr result (λ e. (n : ℕ) × LaneStopped n worker.old.lane worker.new.lane
        × SparesKeeper e n keeper.old keeper.new) }
    ensures lane { IsSameLane lane.now worker.new.lane.worker.cert }
    ensures faults { K.faults keeper.old ≤ K.faults keeper.new }
    ensures fault { result ≡ Err TurnFault.KeeperFault → Rose (K.faults keeper.old) (K.faults keeper.new) }
{
    for made in 0..TURN_LIMIT {
        if !lane_turn(rt, keeper, desk, lane, worker)? {
            return Ok(made);
        }
    }
    Ok(TURN_LIMIT)
}
