//! Steps of a process that touch no object of its host.

ghost use Rattle.std.specs.Prelude.{◌≡◌, ◌<◌, None, OnErr, IfOk};
ghost use Rattle.ds_turn.specs.ProcRecords.{HasMemory, IsGoing, stepped};
ghost use Rattle.ds_turn.specs.ProcEvents.{lone_event};
ghost use Rattle.ds_turn.specs.ProcTurns.{RanOrStays, refused_process};

use crate::proc_asking::stamp_above;
use crate::proc_record::{RecordedProc, inner_event};
use ds_label::Rule;
use std::alloc::AllocError;
use std::sync::Wait;

/// Records an event that touched no object, at the next stamp; where there is none it waits forever. It takes no memory.
pub(crate) fn enter_alone<R: Wait>(rt: &R, process: &mut RecordedProc)
    requires spare { 0 < process.old.spare }
    ensures { process.new.proc ≡ stepped process.old.proc.process process.old.proc.hand (lone_event process.old.proc) process.old.proc }
{
    let stamp = stamp_above(rt, process.stamp());
    let event = inner_event(process.allocator(), process.who(), stamp);
    process.enter(event);
}

/// The operation was refused by this rule, which touches no object. It takes no memory.
pub(crate) fn refuse_turn<R: Wait>(rt: &R, process: &mut RecordedProc, rule: Rule)
    requires memory { HasMemory process.old }
    requires going { IsGoing process.old.proc.process }
    ensures { process.new.proc ≡ stepped (refused_process rule process.old.proc.process) process.old.proc.hand
        (lone_event process.old.proc) process.old.proc }
{
    let stamp = stamp_above(rt, process.stamp());
    let event = inner_event(process.allocator(), process.who(), stamp);
    process.refused(event, rule);
}

/// A turn of a process with an empty hand, whose next operation stays inside it: true where that led to another place, which is
/// an event; false where it leads to its own place. None where the operation doesn't stay inside, or the script has ended. Where it
/// isn't true the process is the same. `AllocError` where memory runs out; only the room changed then.
pub(crate) fn inner_turn<R: Wait>(
    rt: &R,
    process: &mut RecordedProc,
) -> Result<Option<bool>, AllocError>
    requires empty { process.old.proc.hand ≡ None }
    ensures ok { IfOk result (RanOrStays process.old.proc process.new.proc) }
    ensures err { OnErr result (process.new.proc ≡ process.old.proc) }
{
    process.reserve()?;
    let before = process.process().place();
    if !process.run()? {
        return Ok(None);
    }
    if process.process().place() == before {
        return Ok(Some(false));
    }
    enter_alone(rt, process);
    Ok(Some(true))
}
