//! What a host's actors recorded.

ghost use Rattle.std.specs.Prelude.{◌≡◌, ◌++◌, map, All, IfOk, OnOk};
ghost use Rattle.ds_crew.specs.ActorEvents.{HasMore, IsRising, of_conn, of_lane, of_proc, of_record};

use ds_merge::ActorRecord;
use ds_turn::{RecordedConn, RecordedLane, RecordedProc};
use std::alloc::{AllocError, Global};

/// Adds the records of processes. `AllocError` where memory runs out.
fn add_procs(out: &mut Vec<ActorRecord>, procs: Vec<RecordedProc>) -> Result<(), AllocError>
    ensures { OnOk result (HasMore (map of_proc procs.items) out.old.items out.new.items) }
{
    for process in procs {
        out.push(process.into_record())?;
    }
    Ok(())
}

/// Adds the records of lanes' workers. `AllocError` where memory runs out.
fn add_lanes(out: &mut Vec<ActorRecord>, lanes: Vec<RecordedLane>) -> Result<(), AllocError>
    ensures { OnOk result (HasMore (map of_lane lanes.items) out.old.items out.new.items) }
{
    for lane in lanes {
        out.push(lane.into_record())?;
    }
    Ok(())
}

/// Adds the records of connections. `AllocError` where memory runs out.
fn add_conns(out: &mut Vec<ActorRecord>, conns: Vec<RecordedConn>) -> Result<(), AllocError>
    ensures { OnOk result (HasMore (map of_conn conns.items) out.old.items out.new.items) }
{
    for conn in conns {
        out.push(conn.into_record())?;
    }
    Ok(())
}

/// What these actors recorded: of the processes, the lanes' workers and the connections, in their order, each with exactly its
/// events. The stamps of an actor's events rise. That each event is the actor's is a clause of the turns that recorded it.
///
/// # Errors
///
/// `AllocError` where memory runs out. The records are lost then.
pub fn records(
    alloc: Global,
    procs: Vec<RecordedProc>,
    lanes: Vec<RecordedLane>,
    conns: Vec<RecordedConn>,
) -> Result<Vec<ActorRecord>, AllocError>
    ensures actors { IfOk result (λ made.
        map of_record made.items ≡ map of_proc procs.items ++ map of_lane lanes.items ++ map of_conn conns.items) }
    ensures rising { IfOk result (λ made. All IsRising made.items) }
{
    let mut out = Vec::new(alloc);
    add_procs(&mut out, procs)?;
    add_lanes(&mut out, lanes)?;
    add_conns(&mut out, conns)?;
    Ok(out)
}
