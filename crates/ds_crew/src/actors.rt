//! An exporter's processes and connections, each with an empty record.

ghost use Rattle.std.specs.Prelude.{◌≡◌, ◌≤◌, ◌^◌, length, map, IfOk};
ghost use Rattle.ds_exporter.specs.HostStates.{connection_of, process_of};
ghost use Rattle.ds_exporter.specs.Stepping.{proc_actor};
ghost use Rattle.ds_turn.specs.ConnRecords.{fresh_conn};
ghost use Rattle.ds_crew.specs.Crews.{begun_proc, begun_procs, link_in, proc_in};

use ds_exporter::{ConnList, ProcList, ProcPart};
use ds_script::{Actor, ActorKind};
use ds_turn::{RecordedConn, RecordedProc};
use std::alloc::{AllocError, Global};

/// The process at a place of that host, with its hand. It takes no memory.
fn begin_proc(alloc: Global, host: u32, place: u32, part: ProcPart) -> RecordedProc
    ensures { proc_in result ≡ begun_proc host place (process_of part) }
{
    let who = Actor {
        kind: ActorKind::Proc,
        host,
        index: place,
    };
    let ProcPart { process, hand } = part;
    RecordedProc::with_hand(alloc, who, process, hand)
}

/// The processes of that host, in their order. `AllocError` where memory runs out.
pub(crate) fn begin_procs(
    alloc: Global,
    host: u32,
    parts: ProcList,
) -> Result<Vec<RecordedProc>, AllocError>
    requires few { length parts.items ≤ 2 ^ 30 }
    ensures { IfOk result (λ procs. map proc_in procs.items ≡ begun_procs host 0 (map process_of parts.items)) }
{
    let mut procs = Vec::with_capacity(alloc, parts.len())?;
    let mut place: u32 = 0;
    for part in parts {
        procs.push(begin_proc(alloc, host, place, part))?;
        place += 1;
    }
    Ok(procs)
}

/// The connections, in their order. `AllocError` where memory runs out.
pub(crate) fn begin_conns(alloc: Global, parts: ConnList) -> Result<Vec<RecordedConn>, AllocError>
    ensures { IfOk result (λ conns. map link_in conns.items ≡ map fresh_conn (map connection_of parts.items)) }
{
    let mut conns = Vec::with_capacity(alloc, parts.len())?;
    for part in parts {
        conns.push(RecordedConn::new(alloc, part))?;
    }
    Ok(conns)
}
