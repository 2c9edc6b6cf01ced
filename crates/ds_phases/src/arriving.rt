//! What arrives between phases.

ghost use Rattle.std.specs.Prelude.{◌≡◌, ◌<◌, ◌≤◌, ◌+◌, ◌^◌, [], drop, length, All, IfOk, IsTrue, OnErr, List};
ghost use Rattle.ds_turn.specs.declared.node.Node.{Node};
ghost use Rattle.ds_worker.specs.Tasks.{MayWork};
ghost use Rattle.ds_phases.specs.Arrivals.{AllArrived, ArrivedOne, IsGiven, SomeArrived, after_arrival, arrived_at, bytes_left, events_of, last_stamp, source_in};

use ds_turn::RecordedConn;
use ds_worker::{Task, TaskActor};
use std::alloc::{AllocError, Global};
use std::sync::Wait;

/// Goes on where that holds; else it waits forever.
fn wait_for<R: Wait>(rt: &R, holds: bool)
    ensures { IsTrue holds }
{
    for _ in rt.forever() {
        if holds {
            return;
        }
    }
    unreachable!()
}

/// A copy of what is behind so many bytes. `AllocError` where memory runs out.
fn copied_behind(alloc: Global, bytes: &[u8], count: usize) -> Result<Vec<u8>, AllocError>
    ensures { IfOk result (λ copy. copy.items ≡ drop count bytes.now) }
{
    if count >= bytes.len() {
        return Ok(Vec::new(alloc));
    }
    bytes[count..].to_vec(alloc)
}

/// What is left of a lane's stream behind so many bytes; nothing where there is no lane's worker, and for what reads nothing.
/// `AllocError` where memory runs out.
fn left_of<K>(
    alloc: Global,
    tasks: &[Task<K>],
    feed: Option<u32>,
    arrived: Option<usize>,
) -> Result<Vec<u8>, AllocError>
    ensures { IfOk result (λ piece. piece.items ≡ bytes_left (source_in tasks.now feed) arrived) }
{
    let Some(place) = feed else {
        return Ok(Vec::new(alloc));
    };
    let Some(arrived) = arrived else {
        return Ok(Vec::new(alloc));
    };
    let Some(task) = tasks.get(place as usize) else {
        return Ok(Vec::new(alloc));
    };
    match &task.actor {
        TaskActor::Lane { worker, .. } => {
            let piece = copied_behind(alloc, worker.end().stream(), arrived)?;
            Ok(piece)
        }
        TaskActor::Proc { .. } => Ok(Vec::new(alloc)),
        TaskActor::Conn { .. } => Ok(Vec::new(alloc)),
    }
}

/// The stamp of a lane's last event; 0 where there is no lane's worker.
fn stamp_of<K>(tasks: &[Task<K>], feed: Option<u32>) -> u64
    ensures { result ≡ last_stamp (source_in tasks.now feed) }
{
    let Some(place) = feed else {
        return 0;
    };
    let Some(task) = tasks.get(place as usize) else {
        return 0;
    };
    match &task.actor {
        TaskActor::Lane { worker, .. } => worker.stamp(),
        TaskActor::Proc { .. } => 0,
        TaskActor::Conn { .. } => 0,
    }
}

/// How many bytes arrived at a connection; nothing of other actors.
fn arrived_at<K>(actor: &TaskActor<K>) -> Option<usize>
    ensures { result ≡ arrived_at actor.now }
{
    match actor {
        TaskActor::Conn { conn } => Some(conn.conn().arrived().len()),
        TaskActor::Proc { .. } => None,
        TaskActor::Lane { .. } => None,
    }
}

/// A connection takes these bytes, as one arrival where there are any; answers how many events that made. Where no stamp is left it
/// waits. `AllocError` where memory runs out; nothing arrived then.
fn take_bytes<R: Wait>(
    rt: &R,
    conn: &mut RecordedConn,
    piece: &[u8],
    least: u64,
) -> Result<u64, AllocError>
    ensures link { IfOk result (λ n. conn.new.link ≡ after_arrival piece.now least conn.old.link) }
    ensures events { IfOk result (λ n. length conn.new.link.events ≡ length conn.old.link.events + n) }
    ensures one { IfOk result (λ n. n ≤ 1) }
    ensures still { IfOk result (λ n. n ≡ 0 → conn.new.link ≡ conn.old.link) }
    ensures err { OnErr result (conn.new.link ≡ conn.old.link) }
{
    if piece.is_empty() {
        return Ok(0);
    }
    wait_for(rt, conn.stamp().max(least) < u64::MAX);
    conn.arrive(piece, least)?;
    Ok(1)
}

/// A task's actor takes these bytes if it is a connection; answers how many events that made. `AllocError` where memory runs out;
/// nothing arrived then.
fn give<K, R: Wait>(rt: &R, task: &mut Task<K>, piece: &[u8], least: u64) -> Result<u64, AllocError>
    ensures given { IfOk result (λ n. IsGiven piece.now least task.old task.new) }
    ensures events { IfOk result (λ n. events_of task.new ≡ events_of task.old + n) }
    ensures one { IfOk result (λ n. n ≤ 1) }
    ensures still { IfOk result (λ n. n ≡ 0 → IsGiven [] 0 task.old task.new) }
    ensures err { OnErr result (IsGiven [] 0 task.old task.new) }
{
    match &mut task.actor {
        TaskActor::Conn { conn } => take_bytes(rt, conn, piece, least),
        TaskActor::Proc { .. } => Ok(0),
        TaskActor::Lane { .. } => Ok(0),
    }
}

/// What is left of its lane's stream arrives at the actor at a place; answers how many events that made. `AllocError` where memory
/// runs out; nothing arrived then.
fn arrive_at<K, R: Wait>(
    rt: &R,
    alloc: Global,
    tasks: &mut [Task<K>],
    place: usize,
    feed: Option<u32>,
) -> Result<u64, AllocError>
    requires within { place < length tasks.old }
    ensures ok { IfOk result (λ n. ArrivedOne place (source_in tasks.old feed) n tasks.old tasks.new) }
    ensures err { OnErr result (ArrivedOne place None 0 tasks.old tasks.new) }
{
    let arrived = arrived_at(&tasks[place].actor);
    let piece = left_of(alloc, tasks, feed, arrived)?;
    let least = stamp_of(tasks, feed);
    let made = give(rt, &mut tasks[place], piece.as_slice(), least)?;
    Ok(made)
}

/// What is left of each lane's stream arrives at the connection that reads it, as one arrival, at a stamp above the connection's
/// last one and above the lane's last one; where nothing is left nothing is recorded. For each task `feeds` has the place among the
/// tasks of the lane that it reads; only connections read. Answers how many arrivals there were.
///
/// It needs of no task anything; what a turn of its actor needs it leaves so. Where no stamp is left for an arrival it waits.
///
/// # Errors
///
/// `AllocError` where memory runs out. What arrived before that stays and is recorded.
pub fn arrive_all<K, R: Wait>(
    rt: &R,
    alloc: Global,
    tasks: &mut [Task<K>],
    feeds: &[Option<u32>],
) -> Result<u64, AllocError>
    requires feeds { length feeds.now ≡ length tasks.old }
    ensures ok { IfOk result (λ n. AllArrived feeds.now n tasks.old tasks.new) }
    ensures err { OnErr result (SomeArrived feeds.now tasks.old tasks.new) }
    ensures count { length tasks.new ≡ length tasks.old }
    ensures may { (nodes : List Node) → All (MayWork nodes) tasks.old → All (MayWork nodes) tasks.new }
{
    let mut made: u64 = 0;
    for place in 0..tasks.len() {
        let feed = feeds[place];
        made += arrive_at(rt, alloc, tasks, place, feed)?;
    }
    Ok(made)
}
