//! A process's public acts.

ghost use Rattle.std.specs.Prelude.{◌≡◌, ◌≢◌, ◌≤◌, ◌<◌, Err, None, IfErr, IfOk, OnErr, OnOk};
ghost use Rattle.ds_base.specs.Counts.{Rose};
ghost use Rattle.ds_actor.specs.declared.ask.ProcessAsk.TheVariants as asks;
ghost use Rattle.ds_actor.specs.Asking.{HasTable};
ghost use Rattle.ds_turn.specs.Nodes.{seen_of};
ghost use Rattle.ds_turn.specs.ProcRecords.{HasMemory, IsGoing, stepped};
ghost use Rattle.ds_turn.specs.ProcEvents.{desk_event};
ghost use Rattle.ds_turn.specs.ProcAsks.{IsAsking, MayStep};
ghost use Rattle.ds_turn.specs.ProcTurns.{Acts, IsAnswerTo, IsDelegationAnswer, IsImportAnswer, IsMappingAnswer, IsRegisterFor};
ghost use Rattle.ds_turn.specs.ProcTurns.{act_for, acted_process, delegated_process, imported_process, mapped_process};

use crate::names::desk_name;
use crate::node::Node;
use crate::proc_asking::wait_for;
use crate::proc_names::has_number;
use crate::proc_record::{RecordedProc, entry_event};
use ds_actor::DeskRequest;
use ds_base::Keeper;
use ds_label::{Category, PubKey};
use ds_merge::Recorded;
use ds_share::{DeskAct, DeskReply, Receipt, TurnFault};
use std::alloc::AllocError;
use std::sync::Wait;

/// The event of a process of which the desk did an act. It takes no memory.
pub(crate) fn desk_event(process: &RecordedProc, receipt: Receipt) -> Recorded
    ensures { result ≡ desk_event process.now.proc.who receipt.stamp receipt.act receipt.body receipt.given }
{
    let who = process.who();
    entry_event(process.allocator(), desk_name(who.host), who, receipt)
}

/// A delegation was made, and its bytes go into a register, or it is refused. It takes no memory.
fn delegated_turn(
    process: &mut RecordedProc,
    event: Recorded,
    category: Category,
    reg: u8,
    host: u32,
    reply: DeskReply,
)
    requires memory { HasMemory process.old }
    requires going { IsGoing process.old.proc.process }
    requires later { process.old.proc.stamp < event.stamp }
    requires reg { reg < 8 }
    requires answer { IsDelegationAnswer reply }
    ensures { process.new.proc ≡ stepped (delegated_process category reg host reply process.old.proc.process)
        process.old.proc.hand event process.old.proc }
{
    match reply {
        DeskReply::Made(bytes) => process.delegated(event, category, host, reg, bytes),
        DeskReply::Refused(rule) => process.refused(event, rule),
        _ => unreachable!(),
    }
}

/// A certificate is kept, or refused. It takes no memory.
fn imported_turn(process: &mut RecordedProc, event: Recorded, reply: DeskReply)
    requires memory { HasMemory process.old }
    requires going { IsGoing process.old.proc.process }
    requires later { process.old.proc.stamp < event.stamp }
    requires answer { IsImportAnswer reply }
    ensures { process.new.proc ≡ stepped (imported_process reply process.old.proc.process) process.old.proc.hand event process.old.proc }
{
    match reply {
        DeskReply::Done => process.imported(event),
        DeskReply::Refused(rule) => process.refused(event, rule),
        _ => unreachable!(),
    }
}

/// A category has a number, and is usable, or is refused one. It takes no memory.
fn mapped_turn<R: Wait>(
    rt: &R,
    here: &PubKey,
    process: &mut RecordedProc,
    event: Recorded,
    category: Category,
    reply: DeskReply,
)
    requires memory { HasMemory process.old }
    requires going { IsGoing process.old.proc.process }
    requires later { process.old.proc.stamp < event.stamp }
    requires answer { IsMappingAnswer reply }
    requires agreed { HasTable here.now process.old.proc.process.names }
    ensures process { process.new.proc ≡ stepped (mapped_process category reply process.old.proc.process)
        process.old.proc.hand event process.old.proc }
    ensures agreed { HasTable here.now process.new.proc.process.names }
{
    match reply {
        DeskReply::Local(number) => {
            wait_for(
                rt,
                has_number(here, process.process().names(), &category, number),
            );
            process.mapped(event, category, number);
        }
        DeskReply::Refused(rule) => process.refused(event, rule),
        _ => unreachable!(),
    }
}

/// What is asked of the desk for a request. `AllocError` where memory runs out.
fn act_for(request: &DeskRequest) -> Result<DeskAct, AllocError>
    ensures { IfOk result (λ act. act ≡ act_for request.now) }
{
    match request {
        DeskRequest::Delegating {
            category,
            to,
            from,
            until,
        } => Ok(DeskAct::Delegate {
            category: *category,
            to: *to,
            from: *from,
            until: *until,
        }),
        DeskRequest::Importing(cert) => Ok(DeskAct::Import { cert: cert.copy()? }),
        DeskRequest::Mapping(category) => Ok(DeskAct::MapForeign { name: *category }),
    }
}

/// The desk answered a request of the process, by which it goes on. It takes no memory.
fn replied_turn<R: Wait>(
    rt: &R,
    here: &PubKey,
    process: &mut RecordedProc,
    event: Recorded,
    request: &DeskRequest,
    reg: u8,
    host: u32,
    reply: DeskReply,
)
    requires memory { HasMemory process.old }
    requires going { IsGoing process.old.proc.process }
    requires later { process.old.proc.stamp < event.stamp }
    requires range { IsRegisterFor request.now reg }
    requires answer { IsAnswerTo request.now reply }
    requires agreed { HasTable here.now process.old.proc.process.names }
    ensures process { process.new.proc ≡ stepped (acted_process request.now reg host reply process.old.proc.process)
        process.old.proc.hand event process.old.proc }
    ensures agreed { HasTable here.now process.new.proc.process.names }
{
    match request {
        DeskRequest::Delegating { category, .. } => {
            delegated_turn(process, event, *category, reg, host, reply);
        }
        DeskRequest::Importing(_) => imported_turn(process, event, reply),
        DeskRequest::Mapping(category) => {
            mapped_turn(rt, here, process, event, *category, reply);
        }
    }
}

/// A turn of a process that asks for a public act: the desk does it, or a rule refuses it. The process is the same after a fault.
///
/// # Errors
///
/// - `KeeperFault` where the keeper failed to raise the mark of the host's identity key: its count of faults rose.
/// - `NoMemory` where memory runs out. The keeper is as it was.
pub(crate) fn act_turn<K: Keeper, R: Wait>(
    rt: &R,
    keeper: &mut K,
    node: &Node,
    process: &mut RecordedProc,
    request: DeskRequest,
    reg: u8,
    host: u32,
) -> Result<(), TurnFault>
    requires may { MayStep (seen_of node.now) process.old.proc }
    requires empty { process.old.proc.hand ≡ None }
    requires asks { IsAsking (seen_of node.now) process.old (asks.PublicAct request reg host) }
    ensures ok { OnOk result (Acts (seen_of node.now) process.old.proc process.new.proc) }
    ensures err { OnErr result (process.new.proc ≡ process.old.proc) }
    ensures faults { K.faults keeper.old ≤ K.faults keeper.new }
    ensures untouched { IfErr result (λ e. e ≢ TurnFault.KeeperFault → keeper.new ≡ keeper.old) }
    ensures fault { result ≡ Err TurnFault.KeeperFault → Rose (K.faults keeper.old) (K.faults keeper.new) }
{
    let act = act_for(&request)?;
    let (receipt, reply) = node
        .desk
        .act(rt, keeper, process.stamp(), process.who(), act)?;
    let event = desk_event(process, receipt);
    replied_turn(
        rt,
        node.desk.here(),
        process,
        event,
        &request,
        reg,
        host,
        reply,
    );
    Ok(())
}
