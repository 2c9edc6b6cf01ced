//! What one thread does with an actor at work.

ghost use Rattle.std.specs.Prelude.{◌≡◌, ◌≢◌, ◌+◌, ◌≤◌, Some, length};
ghost use Rattle.ds_share.specs.declared.desk_act.TurnFault.TheVariants.{KeeperFault};
ghost use Rattle.ds_turn.specs.Nodes.{seen_of};
ghost use Rattle.ds_turn.specs.ProcAsks.{MayStep};
ghost use Rattle.ds_turn.specs.ConnTurns.{LeadsTo};
ghost use Rattle.ds_worker.specs.declared.limit.TheConstants.{TURN_LIMIT};
ghost use Rattle.ds_worker.specs.Tasks.{ConnMade, HasWorked, IsKept, IsWorked, IsWorkerOf, LaneMade, MayTurn, MayWork, ProcMade};

use crate::conn_work::work_conn;
use crate::lane_work::work_lane;
use crate::proc_work::work_proc;
use crate::task::{Task, TaskActor};
use ds_base::{Gate, Keeper};
use ds_merge::Recorded;
use ds_share::TurnFault;
use ds_turn::{Node, RecordedConn, RecordedLane, RecordedProc};
use std::alloc::AllocError;
use std::sync::Wait;

/// How many events stand behind so many of a record.
fn made_since(events: &[Recorded], before: usize) -> u32
    requires grew { before ≤ length events.now }
    requires few { length events.now ≤ before + TURN_LIMIT }
    ensures { result + before ≡ length events.now }
{
    (events.len() - before) as u32
}

/// A process at work: how many events it made, and the fault that it met.
fn proc_at<K: Keeper, G: Gate, R: Wait>(
    rt: &R,
    gate: &G,
    node: &Node,
    process: &mut RecordedProc,
    keeper: &mut K,
) -> (u32, Option<TurnFault>)
    requires may { MayStep (seen_of node.now) process.old.proc }
    ensures made { ProcMade (seen_of node.now) result.1 result.0 process.old.proc process.new.proc }
    ensures kept { IsKept K.faults result.1 result.0 keeper.old keeper.new }
    ensures may { MayStep (seen_of node.now) process.new.proc }
{
    let before = process.events().len();
    match work_proc(rt, gate, keeper, node, process) {
        Ok(made) => (made, None),
        Err(fault) => (made_since(process.events(), before), Some(fault)),
    }
}

/// A lane's worker at work: how many events it made, and the fault that it met.
fn lane_at<K: Keeper, R: Wait>(
    rt: &R,
    node: &Node,
    place: u32,
    worker: &mut RecordedLane,
    keeper: &mut K,
) -> (u32, Option<TurnFault>)
    requires may { IsWorkerOf node.now.lanes.items place worker.old.lane.worker.cert }
    ensures made { LaneMade result.1 result.0 worker.old.lane worker.new.lane }
    ensures kept { IsKept K.faults result.1 result.0 keeper.old keeper.new }
    ensures may { IsWorkerOf node.now.lanes.items place worker.new.lane.worker.cert }
{
    let lane = &node.lanes[place as usize];
    let before = worker.events().len();
    match work_lane(rt, keeper, &node.desk, lane, worker) {
        Ok(made) => (made, None),
        Err(fault) => (made_since(worker.events(), before), Some(fault)),
    }
}

/// A connection at work: how many events it made, and the fault that it met.
fn conn_at<G: Gate, R: Wait>(
    rt: &R,
    gate: &G,
    node: &Node,
    conn: &mut RecordedConn,
) -> (u32, Option<TurnFault>)
    requires leads { LeadsTo node.now conn.old.link.conn }
    ensures made { ConnMade node.now.boxes.items result.1 result.0 conn.old.link conn.new.link }
    ensures fault { result.1 ≢ Some KeeperFault }
    ensures leads { LeadsTo node.now conn.new.link.conn }
{
    let before = conn.events().len();
    match work_conn(rt, gate, node, conn) {
        Ok(made) => (made, None),
        Err(AllocError) => (made_since(conn.events(), before), Some(TurnFault::NoMemory)),
    }
}

/// An actor at work on its host: how many events it made, and the fault that it met.
fn work_at<K: Keeper, G: Gate, R: Wait>(
    rt: &R,
    gate: &G,
    node: &Node,
    actor: &mut TaskActor<K>,
) -> (u32, Option<TurnFault>)
    requires may { MayTurn node.now actor.old }
    ensures worked { IsWorked K.faults node.now result.1 result.0 actor.old actor.new }
    ensures may { MayTurn node.now actor.new }
{
    match actor {
        TaskActor::Proc { process, keeper } => proc_at(rt, gate, node, process, keeper),
        TaskActor::Lane {
            place,
            worker,
            keeper,
        } => lane_at(rt, node, *place, worker, keeper),
        TaskActor::Conn { conn } => conn_at(rt, gate, node, conn),
    }
}

/// Lets an actor work on its host, one of those nodes: a process by `work_proc`, a lane's worker by `work_lane` over its
/// lane and its host's desk, a connection by `work_conn`. The task tells then how many events it made, and the fault that it
/// met, if any: the events before it are recorded and counted.
///
/// It needs that the host is there and what a turn of the actor needs, and leaves it so.
pub fn work<K: Keeper, G: Gate, R: Wait>(rt: &R, gate: &G, nodes: &[Node], task: &mut Task<K>)
    requires may { MayWork nodes.now task.old }
    ensures worked { HasWorked K.faults nodes.now task.old task.new }
    ensures may { MayWork nodes.now task.new }
{
    let node = &nodes[task.host as usize];
    let (made, fault) = work_at(rt, gate, node, &mut task.actor);
    task.made = made;
    task.fault = fault;
}
