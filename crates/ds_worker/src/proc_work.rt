//! What one thread does in a phase with a process.

ghost use Rattle.std.specs.Prelude.{◌≡◌, ◌≤◌, Err, IfErr, IfOk, ℕ};
ghost use Rattle.ds_base.specs.Counts.{Rose};
ghost use Rattle.ds_turn.specs.Nodes.{seen_of};
ghost use Rattle.ds_turn.specs.ProcAsks.{MayStep};
ghost use Rattle.ds_worker.specs.Actors.{ProcStopped, ProcWorked, SparesKeeper};

use crate::limit::TURN_LIMIT;
use ds_base::{Gate, Keeper};
use ds_share::TurnFault;
use ds_turn::{Node, RecordedProc, proc_turn};
use std::sync::Wait;

/// Lets a process make turns over its host's shared objects until one makes no event, at most 16. Answers how many events
/// it made, each of which is recorded; fewer than 16 only where the process rests.
///
/// It needs what a turn needs, and leaves it so.
///
/// # Errors
///
/// - `KeeperFault` where the keeper failed to raise the mark of the host's identity key, for a delegation: its count of
///   faults rose.
/// - `NoMemory` where memory runs out. Where that was in the first turn, the keeper is as it was.
///
/// What was done before the fault stays and is recorded, and the turn that met it changed nothing but room.
#[tactic(auto, using(crate::proofs::Running::turns_in_a_loop))]
pub fn work_proc<K: Keeper, G: Gate, R: Wait>(
    rt: &R,
    gate: &G,
    keeper: &mut K,
    node: &Node,
    process: &mut RecordedProc,
) -> Result<u32, TurnFault>
    requires may { MayStep (seen_of node.now) process.old.proc }
    ensures ok { IfOk result (λ n. ProcWorked (seen_of node.now) n process.old.proc process.new.proc) }
    ensures err { IfErr result (λ e. (n : ℕ) × ProcStopped (seen_of node.now) n process.old.proc process.new.proc
        × SparesKeeper e n keeper.old keeper.new) }
    ensures may { MayStep (seen_of node.now) process.new.proc }
    ensures faults { K.faults keeper.old ≤ K.faults keeper.new }
    ensures fault { result ≡ Err TurnFault.KeeperFault → Rose (K.faults keeper.old) (K.faults keeper.new) }
{
    for made in 0..TURN_LIMIT {
        if !proc_turn(rt, gate, keeper, node, process)? {
            return Ok(made);
        }
    }
    Ok(TURN_LIMIT)
}
