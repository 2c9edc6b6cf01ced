//! A process with the record of its events.

ghost use Rattle.std.specs.Prelude.{◌≡◌, ◌<◌, ◌∷◌, ◌++◌, [], Ok, Some, None, true, false, option_copied, slice_get, IfOk, OnOk, OnErr, if◌then◌else◌};
ghost use Rattle.ds_script.specs.declared.note.Note.TheVariants as notes;
ghost use Rattle.ds_script.specs.Fits.{IsShort};
ghost use Rattle.ds_script.specs.Inner.{inner};
ghost use Rattle.ds_script.specs.Process.{finished_process};
ghost use Rattle.ds_script.specs.Replay.{last_of, rises};
ghost use Rattle.ds_actor.specs.Asking.{IsAnswer, IsNumbered};
ghost use Rattle.ds_actor.specs.Replying.{took_process};
ghost use Rattle.ds_turn.specs.Records.{entry_on, stamp_of, step_event};
ghost use Rattle.ds_turn.specs.Nodes.{seen_of};
ghost use Rattle.ds_turn.specs.ProcAsks.{MayStep};
ghost use Rattle.ds_turn.specs.ProcRecords.{HasMemory, IsGoing, fresh_proc, stepped, view_of};

use crate::node::Node;
use ds_actor::{ProcessAsk, ask_outer, delegated, imported, mapped, refuse, sent, took};
use ds_label::{Category, Rule};
use ds_merge::{ActorRecord, Kept, ObjectName, Recorded};
use ds_msg::{LocalMessage, Message};
use ds_script::{Actor, Proc};
use ds_share::Receipt;
use ds_wire::Bytes;
use std::alloc::{AllocError, Global};
use std::marker::Model;

/// The number of a process's event.
const STEP: u8 = 1;

/// A process, the judged message in its hand that waits for its lane, if there is one, the stamp of its last event, and its
/// events in order, whose stamps rise.
#[derive(Drop)]
pub struct RecordedProc {
    alloc: Global,
    who: Actor,
    process: Proc,
    hand: Option<Message>,
    stamp: u64,
    events: Vec<Recorded>,
}

impl Model for RecordedProc {
    ghost use Rattle.ds_turn.specs.ProcRecords.{RoomyProc};

    ghost Value = { RoomyProc };

    ghost use Rattle.ds_turn.specs.ProcInside.{IsRising, roomy_of};

    ghost view = { roomy_of };

    ghost invariant = { IsRising };
}

impl RecordedProc {
    /// A process with an empty hand and without events. It takes no memory.
    pub fn new(alloc: Global, who: Actor, process: Proc) -> RecordedProc
        ensures { result.proc ≡ fresh_proc who process.process }
    {
        RecordedProc {
            alloc,
            who,
            process,
            hand: None,
            stamp: 0,
            events: Vec::new(alloc),
        }
    }

    /// A process with that judged message in its hand, if there is one, and without events. It takes no memory.
    pub fn with_hand(
        alloc: Global,
        who: Actor,
        process: Proc,
        hand: Option<Message>,
    ) -> RecordedProc
        ensures { result.proc ≡ record (fresh_proc who process.process) { hand = hand } }
    {
        RecordedProc {
            alloc,
            who,
            process,
            hand,
            stamp: 0,
            events: Vec::new(alloc),
        }
    }

    /// What it recorded: who it is, and its events in order. Their stamps rise. It takes no memory.
    pub fn into_record(self) -> ActorRecord
        ensures who { result.who ≡ self.proc.who }
        ensures events { result.events.items ≡ self.proc.events }
        ensures rising { rises stamp_of 0 self.proc.events ≡ true }
    {
        ActorRecord {
            who: self.who,
            events: self.events,
        }
    }

    /// Who it is.
    pub fn who(&self) -> Actor
        ensures { result ≡ self.now.proc.who }
    {
        self.who
    }

    /// The process.
    pub fn process(&self) -> &Proc
        ensures { result.now.process ≡ self.now.proc.process }
    {
        &self.process
    }

    /// The judged message in its hand, which waits for its lane.
    pub fn hand(&self) -> Option<&Message>
        ensures { option_copied result ≡ self.now.proc.hand }
    {
        self.hand.as_ref()
    }

    /// The stamp of its last event, 0 before the first.
    pub fn stamp(&self) -> u64
        ensures { result ≡ self.now.proc.stamp }
    {
        self.stamp
    }

    /// Its events, in order. Their stamps rise, and the last one is the process's.
    pub fn events(&self) -> &[Recorded]
        ensures events { result.now ≡ self.now.proc.events }
        ensures rising { rises stamp_of 0 self.now.proc.events ≡ true }
        ensures last { self.now.proc.stamp ≡ last_of stamp_of 0 self.now.proc.events }
    {
        self.events.as_slice()
    }

    /// Where its memory is from.
    pub(crate) fn allocator(&self) -> Global {
        self.alloc
    }

    /// Makes room for one event and for what it makes of the process. `AllocError` where memory runs out; nothing but the room
    /// changed then.
    pub(crate) fn reserve(&mut self) -> Result<(), AllocError>
        ensures same { self.new.proc ≡ self.old.proc }
        ensures room { OnOk result (HasMemory self.new) }
    {
        self.process.reserve()?;
        self.events.reserve(1)
    }

    /// What it asks by the operation at its place. `AllocError` where memory runs out; the process is the same then.
    pub(crate) fn ask(&mut self, node: &Node) -> Result<ProcessAsk, AllocError>
        requires may { MayStep (seen_of node.now) self.old.proc }
        ensures answer { IfOk result (IsAnswer (seen_of node.now) self.old.proc.who.index
            (slice_get self.old.proc.process.script self.old.proc.process.course.place) (view_of self.old) (view_of self.new)) }
        ensures same { self.new.proc ≡ record self.old.proc { process = self.new.proc.process } }
        ensures script { self.new.proc.process.script ≡ self.old.proc.process.script }
        ensures spare { self.new.spare ≡ self.old.spare }
        ensures err { OnErr result (self.new.proc ≡ self.old.proc) }
    {
        let ask = ask_outer(self.alloc, node, self.who.index, &mut self.process)?;
        Ok(ask)
    }

    /// Runs the next operation where it stays inside the process, and says whether it did. `AllocError` where memory runs out; the
    /// process is the same then.
    pub(crate) fn run(&mut self) -> Result<bool, AllocError>
        ensures ok { IfOk result (λ ran. inner self.old.proc.process.script self.old.proc.process.course ≡
            (if ran then Some self.new.proc.process.course else None)) }
        ensures still { result ≡ Ok false → self.new.proc ≡ self.old.proc }
        ensures rest { self.new.proc ≡ record self.old.proc { process = record self.old.proc.process { course = self.new.proc.process.course } } }
        ensures spare { self.new.spare ≡ self.old.spare }
        ensures err { OnErr result (self.new.proc ≡ self.old.proc) }
    {
        let ran = self.process.inner_step()?;
        Ok(ran)
    }

    /// Takes the message out of its hand. It takes no memory.
    pub(crate) fn lay_down(&mut self) -> Option<Message>
        ensures message { result ≡ self.old.proc.hand }
        ensures proc { self.new.proc ≡ record self.old.proc { hand = None } }
        ensures room { self.new.room ≡ self.old.room }
        ensures grant { self.new.grant ≡ self.old.grant }
        ensures spare { self.new.spare ≡ self.old.spare }
    {
        self.hand.take()
    }

    /// Takes a message into its hand. It takes no memory.
    pub(crate) fn hold(&mut self, message: Message)
        ensures proc { self.new.proc ≡ record self.old.proc { hand = Some message } }
        ensures room { self.new.room ≡ self.old.room }
        ensures grant { self.new.grant ≡ self.old.grant }
        ensures spare { self.new.spare ≡ self.old.spare }
    {
        self.hand = Some(message);
    }

    /// Records an event, for which there is room, at its stamp. It takes no memory.
    pub(crate) fn enter(&mut self, event: Recorded)
        requires room { 0 < self.old.spare }
        requires later { self.old.proc.stamp < event.stamp }
        ensures { self.new.proc ≡ stepped self.old.proc.process self.old.proc.hand event self.old.proc }
    {
        self.stamp = event.stamp;
        self.events.push_reserved(event);
    }

    /// A message was sent, and records the event. It takes no memory.
    pub(crate) fn sent(&mut self, event: Recorded)
        requires memory { HasMemory self.old }
        requires going { IsGoing self.old.proc.process }
        requires later { self.old.proc.stamp < event.stamp }
        ensures { self.new.proc ≡ stepped (finished_process (Some notes.Sent) None self.old.proc.process)
            self.old.proc.hand event self.old.proc }
    {
        sent(&mut self.process);
        self.enter(event);
    }

    /// The operation was refused by this rule, and records the event. It takes no memory.
    pub(crate) fn refused(&mut self, event: Recorded, rule: Rule)
        requires memory { HasMemory self.old }
        requires going { IsGoing self.old.proc.process }
        requires later { self.old.proc.stamp < event.stamp }
        ensures { self.new.proc ≡ stepped (finished_process (Some (notes.Refused rule)) None self.old.proc.process)
            self.old.proc.hand event self.old.proc }
    {
        refuse(&mut self.process, rule);
        self.enter(event);
    }

    /// A message was taken from the mailbox with this slot into a register, and records the event. It takes no memory.
    pub(crate) fn took(&mut self, event: Recorded, reg: u8, slot: u32, message: LocalMessage)
        requires memory { HasMemory self.old }
        requires going { IsGoing self.old.proc.process }
        requires later { self.old.proc.stamp < event.stamp }
        requires reg { reg < 8 }
        requires short { IsShort message.payload }
        ensures { self.new.proc ≡ stepped (took_process reg slot message self.old.proc.process)
            self.old.proc.hand event self.old.proc }
    {
        took(&mut self.process, reg, slot, message);
        self.enter(event);
    }

    /// A host was given a certificate for this category, whose bytes go into a register, and records the event. It takes no
    /// memory.
    pub(crate) fn delegated(
        &mut self,
        event: Recorded,
        category: Category,
        host: u32,
        reg: u8,
        bytes: Bytes,
    )
        requires memory { HasMemory self.old }
        requires going { IsGoing self.old.proc.process }
        requires later { self.old.proc.stamp < event.stamp }
        requires reg { reg < 8 }
        requires short { IsShort bytes }
        ensures { self.new.proc ≡ stepped (finished_process (Some (notes.Delegated category host)) (Some (reg, bytes)) self.old.proc.process)
            self.old.proc.hand event self.old.proc }
    {
        delegated(&mut self.process, category, host, reg, bytes);
        self.enter(event);
    }

    /// A certificate was kept, and records the event. It takes no memory.
    pub(crate) fn imported(&mut self, event: Recorded)
        requires memory { HasMemory self.old }
        requires going { IsGoing self.old.proc.process }
        requires later { self.old.proc.stamp < event.stamp }
        ensures { self.new.proc ≡ stepped (finished_process (Some notes.Imported) None self.old.proc.process)
            self.old.proc.hand event self.old.proc }
    {
        imported(&mut self.process);
        self.enter(event);
    }

    /// A category has this number, and records the event. It takes no memory.
    pub(crate) fn mapped(&mut self, event: Recorded, category: Category, number: u64)
        requires memory { HasMemory self.old }
        requires going { IsGoing self.old.proc.process }
        requires later { self.old.proc.stamp < event.stamp }
        requires joins { IsNumbered category number self.old.proc.process.names }
        ensures { self.new.proc ≡ stepped (finished_process (Some (notes.Mapped category number)) None self.old.proc.process)
            self.old.proc.hand event self.old.proc }
    {
        mapped(&mut self.process, category, number);
        self.enter(event);
    }
}

/// The event of a process, which that receipt is of. It takes no memory.
pub(crate) fn entry_event(
    alloc: Global,
    object: ObjectName,
    who: Actor,
    receipt: Receipt,
) -> Recorded
    ensures { result ≡ step_event who receipt.stamp (Some (entry_on object who receipt.stamp receipt.act receipt.body)) receipt.given }
{
    let Receipt {
        stamp,
        act,
        body,
        given,
        ..
    } = receipt;
    Recorded {
        who,
        stamp,
        act: STEP,
        body: Bytes::new(alloc),
        touched: Some(Kept {
            object,
            stamp,
            who,
            act,
            body,
        }),
        given,
    }
}

/// The event of a process that touched no object. It takes no memory.
pub(crate) fn inner_event(alloc: Global, who: Actor, stamp: u64) -> Recorded
    ensures { result ≡ step_event who stamp None [] }
{
    Recorded {
        who,
        stamp,
        act: STEP,
        body: Bytes::new(alloc),
        touched: None,
        given: Bytes::new(alloc),
    }
}
