//! What a process notes.

ghost use Rattle.std.specs.Prelude.{◌≡◌, ◌++◌, [], ◌∷◌, length, IfOk, OnOk, OnErr, option_copied, slice_get};

use ds_label::{Category, Label, Rule};
use ds_wire::Bytes;
use std::alloc::{AllocError, Global};
use std::marker::Model;

/// What a process notes of an operation. Hosts are numbered by their places in the document.
#[derive(Debug, Drop)]
pub enum Note {
    /// The bytes of a register.
    Print(Bytes),
    /// A message was sent; whether there was room for it isn't told.
    Sent,
    /// A message was taken, of so many bytes; where a grant would have made a 65th member, nothing was granted.
    Took {
        slot: u32,
        length: u32,
        granted: bool,
    },
    /// The label became this.
    SetLabel(Label),
    /// This category was made.
    NewCat(Category),
    /// A host was given a certificate for this category.
    Delegated {
        category: Category,
        to: u32,
    },
    /// This category got this number on the host.
    Mapped {
        category: Category,
        local: u64,
    },
    /// A certificate was kept.
    Imported,
    /// The operation was refused.
    Refused(Rule),
}

impl Note {
    /// An equal note. `AllocError` where memory runs out.
    pub fn copy(&self) -> Result<Note, AllocError>
        ensures { IfOk result (λ note. note ≡ self.now) }
    {
        Ok(match self {
            Note::Print(bytes) => Note::Print(bytes.copy()?),
            Note::Sent => Note::Sent,
            Note::Took {
                slot,
                length,
                granted,
            } => Note::Took {
                slot: *slot,
                length: *length,
                granted: *granted,
            },
            Note::SetLabel(label) => Note::SetLabel(label.copy()?),
            Note::NewCat(category) => Note::NewCat(*category),
            Note::Delegated { category, to } => Note::Delegated {
                category: *category,
                to: *to,
            },
            Note::Mapped { category, local } => Note::Mapped {
                category: *category,
                local: *local,
            },
            Note::Imported => Note::Imported,
            Note::Refused(rule) => Note::Refused(*rule),
        })
    }
}

/// A list of notes. Contracts see the list.
#[derive(Debug, Drop)]
pub struct NoteList {
    items: Vec<Note>,
}

impl Model for NoteList {
    ghost use Rattle.std.specs.Prelude.{List};
    ghost use Rattle.ds_script.specs.declared.note.Note.{Note};

    ghost Value = { List Note };

    ghost view = { λ l. l.items.items };
}

impl NoteList {
    /// No note. Takes no memory.
    pub fn new(alloc: Global) -> NoteList
        ensures { result ≡ [] }
    {
        NoteList {
            items: Vec::new(alloc),
        }
    }

    /// How many notes there are.
    pub fn len(&self) -> usize
        ensures { result ≡ length self.now }
    {
        self.items.len()
    }

    /// The note at a place, from 0.
    pub fn get(&self, place: usize) -> Option<&Note>
        ensures { option_copied result ≡ slice_get self.now place }
    {
        self.items.get(place)
    }

    /// Appends a note. After `AllocError`, which says that memory ran out, nothing changed.
    pub fn push(&mut self, item: Note) -> Result<(), AllocError>
        ensures ok { OnOk result (self.new ≡ self.old ++ item ∷ []) }
        ensures err { OnErr result (self.new ≡ self.old) }
    {
        self.items.push(item)?;
        Ok(())
    }

    /// Copies of notes. `AllocError` where memory runs out.
    pub fn from_slice(alloc: Global, notes: &[Note]) -> Result<NoteList, AllocError>
        ensures { IfOk result (λ l. l ≡ notes.now) }
    {
        Ok(NoteList {
            items: note_copies(alloc, notes)?,
        })
    }

    /// The notes, in order.
    pub fn as_slice(&self) -> &[Note]
        ensures { result.now ≡ self.now }
    {
        self.items.as_slice()
    }
}

/// Equal notes. `AllocError` where memory runs out.
fn note_copies(alloc: Global, notes: &[Note]) -> Result<Vec<Note>, AllocError>
    ensures { IfOk result (λ v. v.items ≡ notes.now) }
{
    let mut copies = Vec::with_capacity(alloc, notes.len())?;
    for note in notes {
        copies.push(note.copy()?)?;
    }
    Ok(copies)
}
