//! Where a process is in its script, with its registers and notes.

ghost use Rattle.std.specs.Prelude.{◌≡◌, min, Ok, false, ◌+◌, ◌<◌, ◌≤◌, ◌^◌, ◌++◌, [], ◌∷◌, length, replicate, OnOk, OnErr, IfOk, IfSome, Some, None, if◌then◌else◌};
ghost use Rattle.ds_script.specs.Inner.{Course, register, loaded, noted, joined, inner_op, finished};
ghost use Rattle.ds_script.specs.Fits.{IsOp};
ghost use Rattle.ds_label.specs.declared.rule.Rule.TheVariants.{TooLong};
ghost use Rattle.ds_script.specs.declared.note.Note.TheVariants.{Refused};

use crate::note::Note;
use crate::op::{Op, REGISTER_LIMIT};
use ds_label::Rule;
use ds_wire::{Buffer, Bytes};
use std::alloc::{AllocError, Global};
use std::marker::Model;

/// The next operation's place, eight registers and the notes. Contracts see these, and for how many notes there is room.
#[derive(Debug, Drop)]
pub struct CourseState {
    place: u32,
    registers: [Bytes; 8],
    notes: Vec<Note>,
}

impl Model for CourseState {
    ghost use Rattle.std.specs.Prelude.{◌-◌, ◌≤◌, ◌≡◌, vec_len, vec_capacity, length, All};
    ghost use Rattle.ds_script.specs.Fits.{Followed, IsShort};

    ghost Value = { Followed };

    ghost view = { λ s. record { course = record { place = s.place; registers = s.registers; notes = s.notes.items }; room = vec_capacity s.notes - vec_len s.notes } };

    ghost invariant = { λ s. All IsShort s.registers × (length s.registers ≡ 8) };
}

impl CourseState {
    /// At the script's first operation, with empty registers and no note. Takes no memory.
    pub fn new(alloc: Global) -> CourseState
        ensures { result.course ≡ record { place = 0; registers = replicate 8 []; notes = [] } }
    {
        CourseState {
            place: 0,
            registers: [
                Bytes::new(alloc),
                Bytes::new(alloc),
                Bytes::new(alloc),
                Bytes::new(alloc),
                Bytes::new(alloc),
                Bytes::new(alloc),
                Bytes::new(alloc),
                Bytes::new(alloc),
            ],
            notes: Vec::new(alloc),
        }
    }

    /// The next operation's place.
    pub fn place(&self) -> u32
        ensures { result ≡ self.now.course.place }
    {
        self.place
    }

    /// The registers, eight of them.
    pub fn registers(&self) -> &[Bytes]
        ensures { result.now ≡ self.now.course.registers }
    {
        &self.registers
    }

    /// The bytes of a register.
    pub fn register(&self, reg: u8) -> &Bytes
        requires { reg < 8 }
        ensures bytes { result.now ≡ register reg self.now.course }
        ensures limit { length result.now ≤ 16384 }
    {
        &self.registers[reg as usize]
    }

    /// The notes.
    pub fn notes(&self) -> &[Note]
        ensures { result.now ≡ self.now.course.notes }
    {
        self.notes.as_slice()
    }

    /// Makes room for that many notes. After `AllocError`, which says that memory ran out, the course is the same.
    pub fn reserve(&mut self, more: usize) -> Result<(), AllocError>
        ensures same { self.new.course ≡ self.old.course }
        ensures room { OnOk result (more ≤ self.new.room) }
        ensures kept { self.old.room ≤ self.new.room }
    {
        self.notes.reserve(more)
    }

    /// A register's new bytes, and the next place. Takes no memory.
    pub fn load(&mut self, reg: u8, bytes: Bytes)
        requires place { self.old.course.place < 4096 }
        requires reg { reg < 8 }
        requires limit { length bytes ≤ 16384 }
        ensures course { self.new.course ≡ loaded reg bytes self.old.course }
        ensures room { self.new.room ≡ self.old.room }
    {
        self.registers[reg as usize] = bytes;
        self.place += 1;
    }

    /// A note for which there is room, and the next place. Takes no memory.
    pub fn note(&mut self, note: Note)
        requires place { self.old.course.place < 4096 }
        requires room { 0 < self.old.room }
        ensures course { self.new.course ≡ noted note self.old.course }
        ensures room { self.new.room + 1 ≡ self.old.room }
    {
        self.notes.push_reserved(note);
        self.place += 1;
    }

    /// The end of an operation: its note, for which there is room, what it loads, and the next place. Takes no memory.
    pub fn finish(&mut self, note: Option<Note>, load: Option<(u8, Bytes)>)
        requires place { self.old.course.place < 4096 }
        requires room { 0 < self.old.room }
        requires fits { IfSome load (λ l. (l.0 < 8) × (length l.1 ≤ 16384)) }
        ensures course { self.new.course ≡ finished note load self.old.course }
    {
        if let Some(note) = note {
            self.notes.push_reserved(note);
        }
        if let Some((reg, bytes)) = load {
            self.registers[reg as usize] = bytes;
        }
        self.place += 1;
    }

    /// The operation at that place is the next one.
    pub fn go_to(&mut self, place: u32)
        ensures course { self.new.course ≡ record self.old.course { place = place } }
        ensures room { self.new.room ≡ self.old.room }
    {
        self.place = place;
    }

    /// The register becomes the bytes of one register and then those of another, unless they are too many, which is
    /// noted. After `AllocError`, which says that memory ran out, the course is the same.
    pub fn join(&mut self, reg: u8, left: u8, right: u8) -> Result<(), AllocError>
        requires place { self.old.course.place < 4096 }
        requires reg { reg < 8 }
        requires left { left < 8 }
        requires right { right < 8 }
        ensures ok { OnOk result (self.new.course ≡ joined reg (register left self.old.course ++ register right self.old.course) self.old.course) }
        ensures err { OnErr result (self.new.course ≡ self.old.course) }
        ensures room { min 1 self.old.room ≤ self.new.room }
    {
        let first = self.register(left);
        let second = self.register(right);
        if first.len() + second.len() > REGISTER_LIMIT {
            self.reserve(2)?;
            self.note(Note::Refused(Rule::TooLong));
            return Ok(());
        }
        let bytes = concatenated(*self.notes.allocator(), first.as_slice(), second.as_slice())?;
        self.load(reg, bytes);
        Ok(())
    }

    /// Runs the operation where it stays inside the process, and says whether it did. After `AllocError`, which says
    /// that memory ran out, the course is the same.
    pub fn step(&mut self, op: &Op) -> Result<bool, AllocError>
        requires place { self.old.course.place < 4096 }
        requires op { IsOp 4096 op.now }
        ensures ok { IfOk result (λ ran. inner_op op.now self.old.course ≡ (if ran then Some self.new.course else None)) }
        ensures still { result ≡ Ok false → self.new ≡ self.old }
        ensures err { OnErr result (self.new.course ≡ self.old.course) }
        ensures room { min 1 self.old.room ≤ self.new.room }
    {
        match op {
            Op::Set { reg, text } => {
                let bytes = text.copy()?;
                self.load(*reg, bytes);
                Ok(true)
            }
            Op::Join { reg, left, right } => {
                self.join(*reg, *left, *right)?;
                Ok(true)
            }
            Op::IfEq { left, right, to } => {
                if self.register(*left).same(self.register(*right)) {
                    self.go_to(*to);
                    return Ok(true);
                }
                self.go_to(self.place() + 1);
                Ok(true)
            }
            Op::Jump { to } => {
                self.go_to(*to);
                Ok(true)
            }
            Op::Print { reg } => {
                let bytes = self.register(*reg).copy()?;
                self.reserve(2)?;
                self.note(Note::Print(bytes));
                Ok(true)
            }
            _ => Ok(false),
        }
    }
}

/// The bytes of both, one after the other, in one allocation. `AllocError` where memory runs out.
fn concatenated(alloc: Global, first: &[u8], second: &[u8]) -> Result<Bytes, AllocError>
    requires { length first.now + length second.now ≤ 16384 }
    ensures { IfOk result (λ b. b ≡ first.now ++ second.now) }
{
    let mut both = Buffer::new(alloc);
    both.reserve(first.len() + second.len())?;
    both.fill(first);
    both.fill(second);
    Ok(both.into_bytes())
}
