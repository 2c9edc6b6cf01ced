//! A process.

ghost use Rattle.std.specs.Prelude.{◌≡◌, ◌+◌, ◌^◌, ◌<◌, ◌≤◌, ◌↔◌, length, IfOk, OnOk, OnErr, IfSome, IsErr, IsTrue, Err, nat_le, ◌&&◌, vec_len, vec_capacity, Ok, Some, None, false, option_copied, slice_get, if◌then◌else◌};
ghost use Rattle.std.specs.Bool.{OnTrue, OnFalse};
ghost use Rattle.ds_script.specs.Inner.{inner, register};
ghost use Rattle.ds_script.specs.Fits.{IsOp, IsScript};
ghost use Rattle.ds_script.specs.Names.{with_name, is_named as is_named_in, AreApart, IsNewNumber, MayJoin};
ghost use Rattle.ds_label.specs.Flow.{with_member, union};
ghost use Rattle.ds_label.specs.Numbers.{by_number};

use crate::course::CourseState;
use crate::note::Note;
use crate::op::{Op, OpList};
use crate::usable::{Usable, UsableList};
use ds_label::{Category, LabelFault, LocalLabel};
use ds_wire::Bytes;
use std::alloc::{AllocError, Global};
use std::marker::Model;

/// A process: its script, where it is in it, its registers and notes, its label, ownership and clearance in the host's
/// own numbers, the names that it may use besides the host's own, and how many categories it has made.
///
/// Contracts see the process, whether there is room for the end of an operation (`room`, 0 or 1) and whether there is
/// room for a grant (`spare`, 0 or 1).
#[derive(Debug, Drop)]
pub struct Proc {
    script: OpList,
    course: CourseState,
    label: LocalLabel,
    own: LocalLabel,
    clear: LocalLabel,
    names: Vec<Usable>,
    made: u32,
    own_room: Vec<u64>,
    clear_room: Vec<u64>,
}

impl Model for Proc {
    ghost use Rattle.ds_script.specs.Process.{ProcView};

    ghost Value = { ProcView };

    ghost use Rattle.ds_script.specs.Inside.{view_of, IsSound};

    ghost view = { view_of };

    ghost invariant = { IsSound };
}

impl Proc {
    ghost use Rattle.ds_script.specs.Process.{fresh, finished_process, made_process, granted_process};

    /// A process at its script's first operation, with empty registers and no note. Takes no memory. It needs a script of at
    /// most 4,096 operations with registers below 8, texts of at most 16,384 bytes, places not past the script's end and,
    /// in each `Map`, a category whose number is below `2^62`, and names of which no two share a category or a number.
    pub fn new(
        alloc: Global,
        script: OpList,
        made: u32,
        label: LocalLabel,
        own: LocalLabel,
        clear: LocalLabel,
        names: UsableList,
    ) -> Proc
        requires script { IsScript script }
        requires names { AreApart names }
        ensures { result.process ≡ fresh script made label own clear names }
    {
        Proc {
            script,
            course: CourseState::new(alloc),
            label,
            own,
            clear,
            names: names.into_vec(),
            made,
            own_room: Vec::new(alloc),
            clear_room: Vec::new(alloc),
        }
    }

    /// The next operation's place in the script, from 0; the script's length where the process has ended.
    pub fn place(&self) -> u32
        ensures place { result ≡ self.now.process.course.place }
        ensures within { result ≤ length self.now.process.script }
    {
        self.course.place()
    }

    /// The registers, eight of them.
    pub fn registers(&self) -> &[Bytes]
        ensures { result.now ≡ self.now.process.course.registers }
    {
        self.course.registers()
    }

    /// The bytes of a register.
    pub fn register(&self, reg: u8) -> &Bytes
        requires { reg < 8 }
        ensures bytes { result.now ≡ register reg self.now.process.course }
        ensures limit { length result.now ≤ 16384 }
    {
        self.course.register(reg)
    }

    /// The notes, in order.
    pub fn notes(&self) -> &[Note]
        ensures { result.now ≡ self.now.process.course.notes }
    {
        self.course.notes()
    }

    /// The script.
    pub fn script(&self) -> &OpList
        ensures script { result.now ≡ self.now.process.script }
        ensures fits { IsScript self.now.process.script }
    {
        &self.script
    }

    /// The next operation; none where the process has ended.
    pub fn current(&self) -> Option<&Op>
        ensures op { option_copied result ≡ slice_get self.now.process.script self.now.process.course.place }
        ensures fits { IfSome result (λ op. IsOp (length self.now.process.script) op.now) }
    {
        self.script.get(self.course.place() as usize)
    }

    /// Whether the process has ended: its place is its script's length.
    pub fn ended(&self) -> bool
        ensures { IsTrue result ↔ (self.now.process.course.place ≡ length self.now.process.script) }
    {
        self.course.place() as usize == self.script.len()
    }

    /// The label, in the host's own numbers.
    pub fn label(&self) -> &LocalLabel
        ensures { result.now ≡ self.now.process.label }
    {
        &self.label
    }

    /// What the process owns, in the host's own numbers.
    pub fn own(&self) -> &LocalLabel
        ensures { result.now ≡ self.now.process.own }
    {
        &self.own
    }

    /// What the process is cleared for, in the host's own numbers.
    pub fn clear(&self) -> &LocalLabel
        ensures { result.now ≡ self.now.process.clear }
    {
        &self.clear
    }

    /// The names that the process may use besides the host's own. No two share a category or a number.
    pub fn names(&self) -> &[Usable]
        ensures names { result.now ≡ self.now.process.names }
        ensures apart { AreApart self.now.process.names }
    {
        self.names.as_slice()
    }

    /// How many categories the process has made.
    pub fn made(&self) -> u32
        ensures { result ≡ self.now.process.made }
    {
        self.made
    }

    /// Runs the next operation where it stays inside the process (Set, Join, IfEq, Jump or Print), and says whether it did.
    /// After `AllocError`, which says that memory ran out, the process is the same.
    pub fn inner_step(&mut self) -> Result<bool, AllocError>
        ensures ok { IfOk result (λ ran. inner self.old.process.script self.old.process.course ≡ (if ran then Some self.new.process.course else None)) }
        ensures still { result ≡ Ok false → self.new.process ≡ self.old.process }
        ensures err { OnErr result (self.new.process ≡ self.old.process) }
        ensures rest { self.new.process ≡ record self.old.process { course = self.new.process.course } }
        ensures room { self.old.room ≤ self.new.room }
        ensures spare { self.new.spare ≡ self.old.spare }
    {
        let Some(op) = self.script.get(self.course.place() as usize) else {
            return Ok(false);
        };
        self.course.step(op)
    }

    /// Makes the room that one event may need: for a note, a name and a grant. After `AllocError`, which says that memory ran
    /// out, the process is the same.
    pub fn reserve(&mut self) -> Result<(), AllocError>
        ensures same { self.new.process ≡ self.old.process }
        ensures room { OnOk result (self.new.room ≡ 1) }
        ensures spare { OnOk result (self.new.spare ≡ 1) }
        ensures kept_room { self.old.room ≤ self.new.room }
        ensures kept_spare { self.old.spare ≤ self.new.spare }
    {
        self.course.reserve(1)?;
        self.names.reserve(1)?;
        self.own_room.clear();
        self.own_room.reserve(64)?;
        self.clear_room.clear();
        self.clear_room.reserve(64)
    }

    /// The end of an operation that isn't run inside the process: its note, what it loads into a register, and the next
    /// place. What was mapped joins the usable names unless its category is among them. It needs room, a process that
    /// hasn't ended, for what is loaded a register below 8 and at most 16,384 bytes, and for what was mapped a number that
    /// no other category among the names has. Takes no memory.
    pub fn finish(&mut self, note: Option<Note>, load: Option<(u8, Bytes)>)
        requires room { 0 < self.old.room }
        requires going { self.old.process.course.place < length self.old.process.script }
        requires fits { IfSome load (λ l. (l.0 < 8) × (length l.1 ≤ 16384)) }
        requires joins { MayJoin note self.old.process.names }
        ensures process { self.new.process ≡ finished_process note load self.old.process }
        ensures spare { self.new.spare ≡ self.old.spare }
    {
        if let Some(Note::Mapped { category, local }) = &note {
            join_names(&mut self.names, *category, *local);
        }
        self.course.finish(note, load);
    }

    /// The label becomes this one. Takes no memory.
    pub fn put_label(&mut self, label: LocalLabel)
        ensures process { self.new.process ≡ record self.old.process { label = label } }
        ensures room { self.new.room ≡ self.old.room }
        ensures spare { self.new.spare ≡ self.old.spare }
    {
        self.label = label;
    }

    /// A category that the process made: it is owned, and it and its number join the usable names unless it is among them.
    /// It needs a number that no other category among the names has.
    /// It is refused where the ownership would get a 65th member: `TooMany`, unless memory runs out, which is `NoMemory`.
    /// After either the process is the same.
    pub fn make(&mut self, category: Category, local: u64) -> Result<(), LabelFault>
        requires made { self.old.process.made + 1 < 2 ^ 32 }
        requires joins { IsNewNumber category local self.old.process.names }
        ensures ok { OnOk result (self.new.process ≡ made_process category local self.old.process) }
        ensures too_many { result ≡ Err LabelFault.TooMany → 64 < length (with_member by_number local self.old.process.own) }
        ensures refused { 64 < length (with_member by_number local self.old.process.own) → IsErr result }
        ensures err { OnErr result (self.new.process ≡ self.old.process) }
        ensures room { self.old.room ≤ self.new.room }
        ensures spare { self.new.spare ≡ self.old.spare }
    {
        if self.names.reserve(2).is_err() {
            return Err(LabelFault::NoMemory);
        }
        self.own.insert(local)?;
        join_names(&mut self.names, category, local);
        self.made += 1;
        Ok(())
    }

    /// Adds to the ownership and the clearance, and says whether it did: neither is added where either would get a 65th
    /// member. It needs room for a grant. Takes no memory.
    pub fn grant(&mut self, own: &LocalLabel, clear: &LocalLabel) -> bool
        requires { 0 < self.old.spare }
        ensures fits { result ≡ (nat_le (length (union by_number self.old.process.own own.now)) 64 && nat_le (length (union by_number self.old.process.clear clear.now)) 64) }
        ensures granted { OnTrue result (self.new.process ≡ granted_process own.now clear.now self.old.process) }
        ensures refused { OnFalse result (self.new.process ≡ self.old.process) }
        ensures room { self.new.room ≡ self.old.room }
    {
        if !self.own.union_into(own, &mut self.own_room) {
            return false;
        }
        if !self.clear.union_into(clear, &mut self.clear_room) {
            return false;
        }
        self.own.exchange(&mut self.own_room);
        self.clear.exchange(&mut self.clear_room);
        true
    }
}

/// The category and its number join the names, for which there is room, unless the category is among them.
fn join_names(names: &mut Vec<Usable>, category: Category, local: u64)
    requires room { vec_len names.old < vec_capacity names.old }
    requires apart { AreApart names.old.items }
    requires joins { IsNewNumber category local names.old.items }
    ensures names { names.new.items ≡ with_name category local names.old.items }
    ensures apart { AreApart names.new.items }
    ensures capacity { vec_capacity names.new ≡ vec_capacity names.old }
{
    if !is_named(names.as_slice(), &category) {
        names.push_reserved(Usable { category, local });
    }
}

/// Whether the category is among the names.
fn is_named(names: &[Usable], category: &Category) -> bool
    ensures { result ≡ is_named_in category.now names.now }
{
    names.iter().any(|name| name.category == *category)
}
