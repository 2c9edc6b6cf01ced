//! The operations of scripts.

ghost use Rattle.std.specs.Prelude.{◌≡◌, ◌++◌, [], ◌∷◌, length, IfOk, OnOk, OnErr, IsTrue, ◌↔◌, option_copied, slice_get};

use crate::fitting::all_fit;
use ds_label::{Category, Kind, Label};
use ds_wire::Bytes;
use std::alloc::{AllocError, Global};
use std::marker::Model;

/// Most bytes of a register.
pub const REGISTER_LIMIT: usize = 16384;

/// Most operations of a script.
pub const SCRIPT_LIMIT: usize = 4096;

/// An operation. Registers are numbered from 0 to 7; a place is an operation's place in the script, from 0; hosts are
/// numbered by their places in the document.
#[derive(Debug, Drop)]
pub enum Op {
    /// The register becomes the text.
    Set {
        reg: u8,
        text: Bytes,
    },
    /// The register becomes the bytes of one register and then those of another.
    Join {
        reg: u8,
        left: u8,
        right: u8,
    },
    /// The next operation is the one at `to` where both registers have the same bytes.
    IfEq {
        left: u8,
        right: u8,
        to: u32,
    },
    /// The next operation is the one at `to`.
    Jump {
        to: u32,
    },
    /// Notes the register's bytes.
    Print {
        reg: u8,
    },
    /// Sends the register's bytes to a mailbox, under a label, with what they grant.
    Send {
        host: u32,
        slot: u32,
        reg: u8,
        label: Label,
        own: Label,
        clear: Label,
    },
    /// The register becomes the payload of the oldest message of a mailbox.
    Take {
        reg: u8,
        slot: u32,
    },
    /// The process's label becomes this one.
    SetLabel {
        label: Label,
    },
    /// Makes a category, which the process owns.
    NewCat {
        kind: Kind,
    },
    /// The register becomes a certificate that a host may act for a category, from a moment on and before another, in seconds.
    Delegate {
        reg: u8,
        category: Category,
        to: u32,
        from: u64,
        until: u64,
    },
    /// Gives a category a number on this host.
    Map {
        category: Category,
    },
    /// Keeps the certificate that the register's bytes spell.
    Import {
        reg: u8,
    },
}

impl Op {
    ghost use Rattle.ds_script.specs.Fits.{IsOp};

    /// Whether the operation may stand in a script of so many: its registers are below 8, its text has at most 16,384 bytes,
    /// its place isn't past the script's end, and what it maps is a category whose number is below `2^62`.
    pub fn fits(&self, size: usize) -> bool
        ensures { IsTrue result ↔ IsOp size self.now }
    {
        match self {
            Op::Set { reg, text } => *reg < 8 && text.len() <= REGISTER_LIMIT,
            Op::Join { reg, left, right } => *reg < 8 && *left < 8 && *right < 8,
            Op::IfEq { left, right, to } => *left < 8 && *right < 8 && *to as usize <= size,
            Op::Jump { to } => *to as usize <= size,
            Op::Print { reg }
            | Op::Send { reg, .. }
            | Op::Take { reg, .. }
            | Op::Delegate { reg, .. }
            | Op::Import { reg } => *reg < 8,
            Op::SetLabel { .. } | Op::NewCat { .. } => true,
            Op::Map { category } => category.number < 1 << 62,
        }
    }

    /// An equal operation. `AllocError` where memory runs out.
    pub fn copy(&self) -> Result<Op, AllocError>
        ensures { IfOk result (λ op. op ≡ self.now) }
    {
        Ok(match self {
            Op::Set { reg, text } => Op::Set {
                reg: *reg,
                text: text.copy()?,
            },
            Op::Join { reg, left, right } => Op::Join {
                reg: *reg,
                left: *left,
                right: *right,
            },
            Op::IfEq { left, right, to } => Op::IfEq {
                left: *left,
                right: *right,
                to: *to,
            },
            Op::Jump { to } => Op::Jump { to: *to },
            Op::Print { reg } => Op::Print { reg: *reg },
            Op::Send {
                host,
                slot,
                reg,
                label,
                own,
                clear,
            } => Op::Send {
                host: *host,
                slot: *slot,
                reg: *reg,
                label: label.copy()?,
                own: own.copy()?,
                clear: clear.copy()?,
            },
            Op::Take { reg, slot } => Op::Take {
                reg: *reg,
                slot: *slot,
            },
            Op::SetLabel { label } => Op::SetLabel {
                label: label.copy()?,
            },
            Op::NewCat { kind } => Op::NewCat { kind: *kind },
            Op::Delegate {
                reg,
                category,
                to,
                from,
                until,
            } => Op::Delegate {
                reg: *reg,
                category: *category,
                to: *to,
                from: *from,
                until: *until,
            },
            Op::Map { category } => Op::Map {
                category: *category,
            },
            Op::Import { reg } => Op::Import { reg: *reg },
        })
    }
}

/// A list of operations. Contracts see the list.
#[derive(Debug, Drop)]
pub struct OpList {
    items: Vec<Op>,
}

impl Model for OpList {
    ghost use Rattle.std.specs.Prelude.{List};
    ghost use Rattle.ds_script.specs.declared.op.Op.{Op};

    ghost Value = { List Op };

    ghost view = { λ l. l.items.items };
}

impl OpList {
    ghost use Rattle.ds_script.specs.Fits.{IsScript};

    /// Whether a process may run them: at most 4,096 operations, each of which may stand in a script of so many.
    pub fn is_script(&self) -> bool
        ensures { IsTrue result ↔ IsScript self.now }
    {
        self.items.len() <= SCRIPT_LIMIT && all_fit(self.items.len(), self.items.as_slice())
    }

    /// No operation. Takes no memory.
    pub fn new(alloc: Global) -> OpList
        ensures { result ≡ [] }
    {
        OpList {
            items: Vec::new(alloc),
        }
    }

    /// How many operations there are.
    pub fn len(&self) -> usize
        ensures { result ≡ length self.now }
    {
        self.items.len()
    }

    /// The operation at a place, from 0.
    pub fn get(&self, place: usize) -> Option<&Op>
        ensures { option_copied result ≡ slice_get self.now place }
    {
        self.items.get(place)
    }

    /// Appends an operation. After `AllocError`, which says that memory ran out, nothing changed.
    pub fn push(&mut self, item: Op) -> Result<(), AllocError>
        ensures ok { OnOk result (self.new ≡ self.old ++ item ∷ []) }
        ensures err { OnErr result (self.new ≡ self.old) }
    {
        self.items.push(item)?;
        Ok(())
    }

    /// The operations, in order.
    pub fn as_slice(&self) -> &[Op]
        ensures { result.now ≡ self.now }
    {
        self.items.as_slice()
    }

    /// An equal list. `AllocError` where memory runs out.
    pub fn copy(&self) -> Result<OpList, AllocError>
        ensures { IfOk result (λ l. l ≡ self.now) }
    {
        Ok(OpList {
            items: op_copies(*self.items.allocator(), self.items.as_slice())?,
        })
    }
}

/// Equal operations. `AllocError` where memory runs out.
fn op_copies(alloc: Global, ops: &[Op]) -> Result<Vec<Op>, AllocError>
    ensures { IfOk result (λ v. v.items ≡ ops.now) }
{
    let mut copies = Vec::with_capacity(alloc, ops.len())?;
    for op in ops {
        copies.push(op.copy()?)?;
    }
    Ok(copies)
}
