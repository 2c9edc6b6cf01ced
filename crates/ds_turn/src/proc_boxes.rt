//! A process's messages to and from mailboxes of its host.

ghost use Rattle.std.specs.Prelude.{◌≡◌, ◌<◌, IfOk, OnOk, OnErr};
ghost use Rattle.std.specs.Bool.{MatchBool};
ghost use Rattle.ds_box.specs.Boxes.{IsShortMail};
ghost use Rattle.ds_turn.specs.ProcRecords.{HasMemory, IsGoing};
ghost use Rattle.ds_turn.specs.ProcTurns.{PutsInto, TakesFrom};

use crate::names::box_name;
use crate::node::BoxSeat;
use crate::proc_record::{RecordedProc, entry_event};
use ds_base::Gate;
use ds_msg::LocalMessage;
use ds_share::TakeEnd;
use std::alloc::AllocError;
use std::sync::Wait;

/// A message of the process comes to a mailbox, which drops it where it is full. `AllocError` where memory runs out; the process
/// is the same then.
pub(crate) fn put_turn<G: Gate, R: Wait>(
    rt: &R,
    gate: &G,
    seat: &BoxSeat,
    process: &mut RecordedProc,
    message: LocalMessage,
) -> Result<(), AllocError>
    requires memory { HasMemory process.old }
    requires going { IsGoing process.old.proc.process }
    requires short { IsShortMail message }
    ensures ok { OnOk result (PutsInto seat.now.slot message process.old.proc process.new.proc) }
    ensures err { OnErr result (process.new.proc ≡ process.old.proc) }
{
    let who = process.who();
    match seat
        .mailbox
        .put(rt, gate, seat.slot, process.stamp(), who, message)
    {
        Ok(receipt) => {
            let object = box_name(who.host, seat.slot);
            process.sent(entry_event(process.allocator(), object, who, receipt));
            Ok(())
        }
        Err(_) => Err(AllocError),
    }
}

/// The process takes the message that waits longest in a mailbox into a register; false where none waits. `AllocError` where memory
/// runs out. The process is the same after either.
pub(crate) fn take_turn<R: Wait>(
    rt: &R,
    seat: &BoxSeat,
    process: &mut RecordedProc,
    reg: u8,
    slot: u32,
) -> Result<bool, AllocError>
    requires memory { HasMemory process.old }
    requires going { IsGoing process.old.proc.process }
    requires reg { reg < 8 }
    ensures ok { IfOk result (λ made.
        MatchBool made (TakesFrom seat.now.slot reg slot process.old.proc process.new.proc) (process.new.proc ≡ process.old.proc)) }
    ensures err { OnErr result (process.new.proc ≡ process.old.proc) }
{
    let who = process.who();
    match seat.mailbox.take(rt, process.stamp(), who) {
        Ok((receipt, message)) => {
            let object = box_name(who.host, seat.slot);
            let event = entry_event(process.allocator(), object, who, receipt);
            process.took(event, reg, slot, message);
            Ok(true)
        }
        Err(TakeEnd::Empty) => Ok(false),
        Err(TakeEnd::NoMemory) => Err(AllocError),
    }
}
