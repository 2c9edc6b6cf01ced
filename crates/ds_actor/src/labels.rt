//! A change of a process's label, and a category that it makes.

ghost use Rattle.std.specs.Prelude.{◌≡◌, ◌<◌, ◌^◌, ◌∷◌, [], Option, IfOk, OnErr, IsTrue, length};
ghost use Rattle.ds_label.specs.Names.{by_name};
ghost use Rattle.ds_msg.specs.declared.message.Message.{Message};
ghost use Rattle.ds_model.specs.FirstRule.{first_rule};
ghost use Rattle.ds_model.specs.Mapping.{next_category};
ghost use Rattle.ds_model.specs.ExporterRules.{known_rule};
ghost use Rattle.ds_model.specs.ProcessRules.{may_make, may_relabel};
ghost use Rattle.ds_model.specs.ProcessStep.{make, relabel};
ghost use Rattle.ds_map.specs.Labels.{have_names};
ghost use Rattle.ds_actor.specs.Usable.{IsAgreed};
ghost use Rattle.ds_actor.specs.Seen.{UnderTables, process_of, proc_labels};
ghost use Rattle.ds_actor.specs.Asks.{IsAsked, IsInside, StaysUnless};
ghost use Rattle.ds_actor.specs.Asking.{HasTable, MovesInside};

use crate::ask::ProcessAsk;
use crate::names::numbers_of;
use crate::sending::unknown_rule;
use ds_label::{Kind, Label, PubKey};
use ds_monitor::{Monitor, ProcFault};
use ds_script::{Note, Proc};
use std::alloc::{AllocError, Global};

/// Changes the process's label, or says by which rule it may not change: `NotKnown`, then `LabelRefused`. It needs room and a
/// process that hasn't ended. After `AllocError`, which says that memory ran out, and after a refusal the process is the same.
pub(crate) fn set_label(
    alloc: Global,
    here: &PubKey,
    process: &mut Proc,
    label: Label,
) -> Result<ProcessAsk, AllocError>
    requires room { 0 < process.old.room }
    requires going { process.old.process.course.place < length process.old.process.script }
    ensures inside { IfOk result IsInside }
    ensures still { IfOk result (λ a. StaysUnless a process.old process.new) }
    ensures moved { IfOk result (λ a. MovesInside a process.old.process process.new.process) }
    ensures script { process.new.process.script ≡ process.old.process.script }
    ensures err { OnErr result (process.new.process ≡ process.old.process) }
    ensures names { UnderTables here.now [] process.old.process (λ rows. IsAgreed here.now rows process.new.process.names) }
    ensures labels { UnderTables here.now [] process.old.process (λ rows. IsTrue (have_names here.now rows (proc_labels process.new.process))) }
    ensures asked { UnderTables here.now [] process.old.process (λ rows. (hand : Option Message) →
        let x = process_of here.now rows hand process.old.process in let y = process_of here.now rows hand process.new.process in
        IfOk result (λ a. IsAsked here.now rows x y a (relabel x label (first_rule
        (known_rule here.now x.names label [] [] ∷ may_relabel by_name x.label x.own x.clear label ∷ []))))) }
{
    let _label = label.as_slice();
    let none = Label::new(alloc);
    if let Some(rule) = unknown_rule(here, process, &label, &none, &none) {
        return Ok(ProcessAsk::Refused(rule));
    }
    let numbers = numbers_of(alloc, here, process.names(), label.as_slice())?;
    match process.set_label(numbers) {
        Ok(()) => {
            process.finish(Some(Note::SetLabel(label)), None);
            Ok(ProcessAsk::Internal)
        }
        Err(ProcFault::Refused(rule)) => Ok(ProcessAsk::Refused(rule)),
        Err(ProcFault::NoMemory) => unreachable!(),
    }
}

/// Makes a category, or says by which rule the process may not make one: `TooMany`. It needs room, a process that hasn't ended
/// and whose index is below 2^30, and usable names that have the numbers of one table. After `AllocError`, which says that
/// memory ran out, and after a refusal the process is the same.
pub(crate) fn new_category(
    here: &PubKey,
    index: u32,
    process: &mut Proc,
    kind: Kind,
) -> Result<ProcessAsk, AllocError>
    requires room { 0 < process.old.room }
    requires going { process.old.process.course.place < length process.old.process.script }
    requires index { index < 2 ^ 30 }
    requires agreed { HasTable here.now process.old.process.names }
    ensures inside { IfOk result IsInside }
    ensures still { IfOk result (λ a. StaysUnless a process.old process.new) }
    ensures moved { IfOk result (λ a. MovesInside a process.old.process process.new.process) }
    ensures script { process.new.process.script ≡ process.old.process.script }
    ensures err { OnErr result (process.new.process ≡ process.old.process) }
    ensures names { UnderTables here.now [] process.old.process (λ rows. IsAgreed here.now rows process.new.process.names) }
    ensures labels { UnderTables here.now [] process.old.process (λ rows. IsTrue (have_names here.now rows (proc_labels process.new.process))) }
    ensures asked { UnderTables here.now [] process.old.process (λ rows. (hand : Option Message) →
        let x = process_of here.now rows hand process.old.process in let y = process_of here.now rows hand process.new.process in
        let c = next_category here.now index x.made kind in
        IfOk result (λ a. IsAsked here.now rows x y a (make x c (may_make by_name x.own x.made c)))) }
{
    let _own = process.own().as_slice();
    let _made = process.made();
    match process.new_category(here, index, kind) {
        Ok(category) => {
            process.finish(Some(Note::NewCat(category)), None);
            Ok(ProcessAsk::Internal)
        }
        Err(ProcFault::Refused(rule)) => Ok(ProcessAsk::Refused(rule)),
        Err(ProcFault::NoMemory) => Err(AllocError),
    }
}
