//! A turn of a process.

ghost use Rattle.std.specs.Prelude.{◌≡◌, ◌≢◌, ◌≤◌, Err, None, IfErr, IfOk, OnErr, OnOk};
ghost use Rattle.std.specs.Bool.{MatchBool};
ghost use Rattle.ds_base.specs.Counts.{Rose};
ghost use Rattle.ds_actor.specs.declared.ask.ProcessAsk.TheVariants as asks;
ghost use Rattle.ds_turn.specs.Nodes.{seen_of};
ghost use Rattle.ds_turn.specs.ProcAsks.{IsAsking, IsOuter, MayStep, is_inside};
ghost use Rattle.ds_turn.specs.ProcTurns.{Puts, Rests, Takes, TookProcTurn};

use crate::node::Node;
use crate::proc_acting::act_turn;
use crate::proc_asking::ask_turn;
use crate::proc_boxes::{put_turn, take_turn};
use crate::proc_inside::{enter_alone, inner_turn, refuse_turn};
use crate::proc_judging::judge_turn;
use crate::proc_queueing::queue_turn;
use crate::proc_record::RecordedProc;
use ds_actor::ProcessAsk;
use ds_base::{Gate, Keeper};
use ds_msg::LocalMessage;
use ds_share::TurnFault;
use std::alloc::AllocError;
use std::sync::Wait;

/// A turn of a process that puts a message into the mailbox at a place. `AllocError` where memory runs out; the process is the
/// same then.
fn put_at<G: Gate, R: Wait>(
    rt: &R,
    gate: &G,
    node: &Node,
    process: &mut RecordedProc,
    place: usize,
    message: LocalMessage,
    copy: LocalMessage,
) -> Result<(), AllocError>
    requires empty { process.old.proc.hand ≡ None }
    requires asks { IsAsking (seen_of node.now) process.old (asks.Put place message copy) }
    ensures ok { OnOk result (Puts (seen_of node.now) process.old.proc process.new.proc) }
    ensures err { OnErr result (process.new.proc ≡ process.old.proc) }
{
    put_turn(rt, gate, &node.boxes[place], process, message)?;
    Ok(())
}

/// A turn of a process that takes from the mailbox at a place; false where that is empty. `AllocError` where memory runs out. The
/// process is the same after either.
fn take_at<R: Wait>(
    rt: &R,
    node: &Node,
    process: &mut RecordedProc,
    place: usize,
    reg: u8,
    slot: u32,
) -> Result<bool, AllocError>
    requires empty { process.old.proc.hand ≡ None }
    requires asks { IsAsking (seen_of node.now) process.old (asks.TakeFrom place reg slot) }
    ensures ok { IfOk result (λ made. MatchBool made (Takes (seen_of node.now) process.old.proc process.new.proc)
        ((process.new.proc ≡ process.old.proc) × Rests (seen_of node.now) process.old.proc)) }
    ensures err { OnErr result (process.new.proc ≡ process.old.proc) }
{
    let made = take_turn(rt, &node.boxes[place], process, reg, slot)?;
    Ok(made)
}

/// A turn of a process that asked this, or took a step inside it.
fn answered_turn<K: Keeper, G: Gate, R: Wait>(
    rt: &R,
    gate: &G,
    keeper: &mut K,
    node: &Node,
    process: &mut RecordedProc,
    ask: ProcessAsk,
) -> Result<bool, TurnFault>
    requires may { MayStep (seen_of node.now) process.old.proc }
    requires empty { process.old.proc.hand ≡ None }
    requires asks { IsAsking (seen_of node.now) process.old ask }
    requires outer { IsOuter ask }
    ensures ok { IfOk result (λ made. MatchBool made (TookProcTurn (seen_of node.now) process.old.proc process.new.proc)
        ((process.new.proc ≡ process.old.proc) × Rests (seen_of node.now) process.old.proc)) }
    ensures err { OnErr result (process.new.proc ≡ process.old.proc) }
    ensures faults { K.faults keeper.old ≤ K.faults keeper.new }
    ensures untouched { IfErr result (λ e. e ≢ TurnFault.KeeperFault → keeper.new ≡ keeper.old) }
    ensures fault { result ≡ Err TurnFault.KeeperFault → Rose (K.faults keeper.old) (K.faults keeper.new) }
{
    match ask {
        ProcessAsk::Refused(rule) => {
            refuse_turn(rt, process, rule);
            Ok(true)
        }
        ProcessAsk::Put(place, message, copy) => {
            put_at(rt, gate, node, process, place, message, copy)?;
            Ok(true)
        }
        ProcessAsk::TakeFrom { place, reg, slot } => {
            let made = take_at(rt, node, process, place, reg, slot)?;
            Ok(made)
        }
        ProcessAsk::PublicAct { request, reg, host } => {
            act_turn(rt, keeper, node, process, request, reg, host)?;
            Ok(true)
        }
        ProcessAsk::AsksJudgement(message) => {
            judge_turn(rt, keeper, node, process, message)?;
            Ok(true)
        }
        _ => unreachable!(),
    }
}

/// Whether it was a step inside the process.
fn is_inside(ask: &ProcessAsk) -> bool
    ensures { result ≡ is_inside ask.now }
{
    match ask {
        ProcessAsk::Internal => true,
        _ => false,
    }
}

/// A turn of a process with an empty hand, whose operation isn't one inside it.
fn outer_turn<K: Keeper, G: Gate, R: Wait>(
    rt: &R,
    gate: &G,
    keeper: &mut K,
    node: &Node,
    process: &mut RecordedProc,
) -> Result<bool, TurnFault>
    requires may { MayStep (seen_of node.now) process.old.proc }
    requires empty { process.old.proc.hand ≡ None }
    ensures ok { IfOk result (λ made. MatchBool made (TookProcTurn (seen_of node.now) process.old.proc process.new.proc)
        ((process.new.proc ≡ process.old.proc) × Rests (seen_of node.now) process.old.proc)) }
    ensures err { OnErr result (process.new.proc ≡ process.old.proc) }
    ensures faults { K.faults keeper.old ≤ K.faults keeper.new }
    ensures untouched { IfErr result (λ e. e ≢ TurnFault.KeeperFault → keeper.new ≡ keeper.old) }
    ensures fault { result ≡ Err TurnFault.KeeperFault → Rose (K.faults keeper.old) (K.faults keeper.new) }
{
    if process.process().ended() {
        return Ok(false);
    }
    let ask = ask_turn(rt, node, process)?;
    if is_inside(&ask) {
        enter_alone(rt, process);
        return Ok(true);
    }
    let made = answered_turn(rt, gate, keeper, node, process, ask)?;
    Ok(made)
}

/// A turn of a process.
fn turn<K: Keeper, G: Gate, R: Wait>(
    rt: &R,
    gate: &G,
    keeper: &mut K,
    node: &Node,
    process: &mut RecordedProc,
) -> Result<bool, TurnFault>
    requires may { MayStep (seen_of node.now) process.old.proc }
    ensures ok { IfOk result (λ made. MatchBool made (TookProcTurn (seen_of node.now) process.old.proc process.new.proc)
        ((process.new.proc ≡ process.old.proc) × (process.old.proc.hand ≡ None) × Rests (seen_of node.now) process.old.proc)) }
    ensures err { OnErr result (process.new.proc ≡ process.old.proc) }
    ensures faults { K.faults keeper.old ≤ K.faults keeper.new }
    ensures untouched { IfErr result (λ e. e ≢ TurnFault.KeeperFault → keeper.new ≡ keeper.old) }
    ensures fault { result ≡ Err TurnFault.KeeperFault → Rose (K.faults keeper.old) (K.faults keeper.new) }
{
    if process.hand().is_some() {
        queue_turn(rt, node, process)?;
        return Ok(true);
    }
    if let Some(made) = inner_turn(rt, process)? {
        return Ok(made);
    }
    let made = outer_turn(rt, gate, keeper, node, process)?;
    Ok(made)
}

/// Tries one step of a process over its host's shared objects; it makes at most one call of one that makes an entry. A judged
/// message in hand goes onto its lane. Else the process does the operation at its place, or notes the rule that refuses it: a step
/// inside it, a message to a mailbox of its host (the gate is passed just before), a take from one, a public act of the desk, or a
/// message to another host, which the desk judges and which then is in hand. True where that made an event, which the process
/// recorded at its stamp with the entry that it met and with what was handed out. False where it made none: the hand is empty then
/// and the script has ended, or the operation leads to its own place, or the mailbox from which it takes is empty; and the process
/// is as it was.
///
/// It needs an index below 2^30, a script whose hosts are the node's, usable names that have the numbers of one table, and of a
/// message in hand that the node has a lane with its receiver and label, and that it is in range. It leaves these so.
///
/// An event that touches no object is at the stamp after the process's own last one; where there is none left the turn waits
/// forever, as a lock does. It also waits forever where the desk gives a mapped category a number that it can't have in a table with
/// the numbers of the usable names, which the process's own desk never does: another call may take its lock at any time, and no
/// contract tells its table. So it does where an operation asks for nothing, or a step inside the process leaves names without a
/// table; none does.
///
/// # Errors
///
/// - `KeeperFault` where the keeper failed to raise the mark of the host's identity key, for a delegation: its count of faults
///   rose.
/// - `NoMemory` where memory runs out. The keeper is as it was.
///
/// Nothing is entered after either, and the process is as it was, but for room.
pub fn proc_turn<K: Keeper, G: Gate, R: Wait>(
    rt: &R,
    gate: &G,
    keeper: &mut K,
    node: &Node,
    process: &mut RecordedProc,
) -> Result<bool, TurnFault>
    requires may { MayStep (seen_of node.now) process.old.proc }
    ensures ok { IfOk result (λ made. MatchBool made (TookProcTurn (seen_of node.now) process.old.proc process.new.proc)
        ((process.new.proc ≡ process.old.proc) × (process.old.proc.hand ≡ None) × Rests (seen_of node.now) process.old.proc)) }
    ensures may { MayStep (seen_of node.now) process.new.proc }
    ensures err { OnErr result (process.new.proc ≡ process.old.proc) }
    ensures faults { K.faults keeper.old ≤ K.faults keeper.new }
    ensures untouched { IfErr result (λ e. e ≢ TurnFault.KeeperFault → keeper.new ≡ keeper.old) }
    ensures fault { result ≡ Err TurnFault.KeeperFault → Rose (K.faults keeper.old) (K.faults keeper.new) }
{
    turn(rt, gate, keeper, node, process)
}
