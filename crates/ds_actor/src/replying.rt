//! What a process becomes by an answer. Nothing here takes memory.

ghost use Rattle.std.specs.Prelude.{◌≡◌, ◌<◌, ℕ, List, Option, Some, None, IsTrue, length};
ghost use Rattle.ds_label.specs.declared.category.Category.{Category as Name};
ghost use Rattle.ds_label.specs.declared.category.PubKey.{PubKey};
ghost use Rattle.ds_label.specs.Numbers.{by_number};
ghost use Rattle.ds_script.specs.declared.note.Note.TheVariants as notes;
ghost use Rattle.ds_script.specs.Fits.{IsShort};
ghost use Rattle.ds_script.specs.Process.{finished_process};
ghost use Rattle.ds_msg.specs.declared.message.Message.{Message};
ghost use Rattle.ds_model.specs.Desk.{Delegating, Importing, Mapping, Made, Done, Local};
ghost use Rattle.ds_model.specs.Mapping.{to_number};
ghost use Rattle.ds_model.specs.ProcessRules.{can_grant};
ghost use Rattle.ds_model.specs.ProcessStep.{act_after_reply, noted, taken_after_reply};
ghost use Rattle.ds_map.specs.Labels.{have_names};
ghost use Rattle.ds_map.specs.Table.{IsTable};
ghost use Rattle.ds_actor.specs.Usable.{IsAgreed};
ghost use Rattle.ds_actor.specs.Seen.{mail_labels, mail_of, proc_labels, process_of};
ghost use Rattle.ds_actor.specs.Asking.{IsNumbered};
ghost use Rattle.ds_actor.specs.Replying.{MovedOn, granted_if, took_process};

use ds_label::{Category, LocalLabel, Rule};
use ds_monitor::Monitor;
use ds_msg::LocalMessage;
use ds_script::{Note, Proc};
use ds_wire::Bytes;

/// A message was sent, to a mailbox of the own host or onto a lane; whether there was room for it isn't told. It needs room and
/// a process that hasn't ended.
pub fn sent(process: &mut Proc)
    requires room { 0 < process.old.room }
    requires going { process.old.process.course.place < length process.old.process.script }
    ensures process { process.new.process ≡ finished_process (Some notes.Sent) None process.old.process }
    ensures moved { MovedOn process.old.process process.new.process }
    ensures becomes { (here : PubKey) (rows : List Name) (hand : Option Message) →
        process_of here rows hand process.new.process ≡ noted notes.Sent (process_of here rows hand process.old.process) }
{
    process.finish(Some(Note::Sent), None);
}

/// An operation was refused by this rule. It needs room and a process that hasn't ended.
pub fn refuse(process: &mut Proc, rule: Rule)
    requires room { 0 < process.old.room }
    requires going { process.old.process.course.place < length process.old.process.script }
    ensures process { process.new.process ≡ finished_process (Some (notes.Refused rule)) None process.old.process }
    ensures moved { MovedOn process.old.process process.new.process }
    ensures becomes { (here : PubKey) (rows : List Name) (hand : Option Message) →
        process_of here rows hand process.new.process ≡ noted (notes.Refused rule) (process_of here rows hand process.old.process) }
{
    process.finish(Some(Note::Refused(rule)), None);
}

/// Ownership and clearance join the process's, both or neither, and whether they did.
fn grant(process: &mut Proc, own: &LocalLabel, clear: &LocalLabel) -> bool
    requires { 0 < process.old.spare }
    ensures fits { result ≡ can_grant by_number process.old.process.own process.old.process.clear own.now clear.now }
    ensures process { process.new.process ≡ granted_if own.now clear.now process.old.process }
    ensures script { process.new.process.script ≡ process.old.process.script }
    ensures course { process.new.process.course ≡ process.old.process.course }
    ensures names { process.new.process.names ≡ process.old.process.names }
    ensures room { process.new.room ≡ process.old.room }
{
    Monitor::grant(process, own, clear)
}

/// A message was taken from the mailbox with this slot: its payload goes into the register, and what it grants joins ownership
/// and clearance, unless either would get a 65th member; then nothing is granted. It needs room, also for a grant, and a
/// process that hasn't ended.
pub fn took(process: &mut Proc, reg: u8, slot: u32, message: LocalMessage)
    requires room { 0 < process.old.room }
    requires spare { 0 < process.old.spare }
    requires going { process.old.process.course.place < length process.old.process.script }
    requires reg { reg < 8 }
    requires short { IsShort message.payload }
    ensures process { process.new.process ≡ took_process reg slot message process.old.process }
    ensures moved { MovedOn process.old.process process.new.process }
    ensures names { process.new.process.names ≡ process.old.process.names }
    ensures labels { (here : PubKey) (rows : List Name) → IsTrue (have_names here rows (proc_labels process.old.process)) →
        IsTrue (have_names here rows (mail_labels message)) → IsTrue (have_names here rows (proc_labels process.new.process)) }
    ensures becomes { (here : PubKey) (rows : List Name) → IsTable here rows → IsTrue (have_names here rows (proc_labels process.old.process)) →
        IsTrue (have_names here rows (mail_labels message)) → (hand : Option Message) →
        process_of here rows hand process.new.process ≡ taken_after_reply reg slot (Some (mail_of here rows message)) (process_of here rows hand process.old.process) }
{
    let _own = process.own().as_slice();
    let _clear = process.clear().as_slice();
    let size = message.payload.len() as u32;
    let granted = grant(process, &message.own, &message.clear);
    let note = Note::Took {
        slot,
        length: size,
        granted,
    };
    process.finish(Some(note), Some((reg, message.payload)));
}

/// A host was given a certificate for this category: its bytes go into the register. It needs room, a process that hasn't
/// ended, and at most 16,384 bytes.
pub fn delegated(process: &mut Proc, category: Category, host: u32, reg: u8, bytes: Bytes)
    requires room { 0 < process.old.room }
    requires going { process.old.process.course.place < length process.old.process.script }
    requires reg { reg < 8 }
    requires short { IsShort bytes }
    ensures process { process.new.process ≡ finished_process (Some (notes.Delegated category host)) (Some (reg, bytes)) process.old.process }
    ensures moved { MovedOn process.old.process process.new.process }
    ensures becomes { (here : PubKey) (rows : List Name) (hand : Option Message) (to : PubKey) (from until : ℕ) →
        process_of here rows hand process.new.process ≡ act_after_reply reg host (Delegating category to from until) (Made bytes) (process_of here rows hand process.old.process) }
{
    let note = Note::Delegated { category, to: host };
    process.finish(Some(note), Some((reg, bytes)));
}

/// A certificate was kept. It needs room and a process that hasn't ended.
pub fn imported(process: &mut Proc)
    requires room { 0 < process.old.room }
    requires going { process.old.process.course.place < length process.old.process.script }
    ensures process { process.new.process ≡ finished_process (Some notes.Imported) None process.old.process }
    ensures moved { MovedOn process.old.process process.new.process }
    ensures becomes { (here : PubKey) (rows : List Name) (hand : Option Message) (reg host : ℕ) (bytes : List ℕ) →
        process_of here rows hand process.new.process ≡ act_after_reply reg host (Importing bytes) Done (process_of here rows hand process.old.process) }
{
    process.finish(Some(Note::Imported), None);
}

/// The category got this number on the host: the process may use it from now on. It needs room, a process that hasn't ended, and
/// a table in which the category has this number and the usable names have theirs.
pub fn mapped(process: &mut Proc, category: Category, number: u64)
    requires room { 0 < process.old.room }
    requires going { process.old.process.course.place < length process.old.process.script }
    requires joins { IsNumbered category number process.old.process.names }
    ensures process { process.new.process ≡ finished_process (Some (notes.Mapped category number)) None process.old.process }
    ensures moved { MovedOn process.old.process process.new.process }
    ensures names { (here : PubKey) (rows : List Name) → IsAgreed here rows process.old.process.names → to_number here rows category ≡ Some number →
        IsAgreed here rows process.new.process.names }
    ensures becomes { (here : PubKey) (rows : List Name) (hand : Option Message) (reg host : ℕ) →
        process_of here rows hand process.new.process ≡ act_after_reply reg host (Mapping category) (Local number) (process_of here rows hand process.old.process) }
{
    let note = Note::Mapped {
        category,
        local: number,
    };
    process.finish(Some(note), None);
}
