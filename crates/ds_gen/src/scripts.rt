//! The scripts of those who send, and of those who take.

ghost use Rattle.std.specs.Prelude.{◌≡◌, ◌++◌, ◌∷◌, [], ◌%◌, ◌==◌, IfOk, OnOk, codes, decimal, if◌then◌else◌};
ghost use Rattle.ds_script.specs.declared.op.Op.TheVariants.{Take as TakeOp, Print as PrintOp};
ghost use Rattle.ds_gen.specs.Generated.{payload, s, send_by, sends, sent, takes};

use crate::labels::label_of;
use ds_label::{Category, Label};
use ds_script::{Op, OpList};
use ds_wire::Bytes;
use itoa::Buffer;
use std::alloc::{AllocError, Global};

/// The payload of a message: `m` and its number. `AllocError` where memory runs out.
fn payload(alloc: Global, number: u32) -> Result<Bytes, AllocError>
    ensures { IfOk result (λ b. b ≡ payload number) }
{
    let mut bytes = Bytes::new(alloc);
    bytes.append(b"m")?;
    bytes.append(Buffer::new().format(number).as_bytes())?;
    Ok(bytes)
}

/// A send of register 0 without grants. Takes no memory.
fn send(alloc: Global, host: u32, slot: u32, label: Label) -> Op
    ensures { result ≡ sent host slot label }
{
    Op::Send {
        host,
        slot,
        reg: 0,
        label,
        own: Label::new(alloc),
        clear: Label::new(alloc),
    }
}

/// The send of a message whose number leaves that remainder by 3. `AllocError` where memory runs out.
fn send_by(alloc: Global, category: Category, turn: u32) -> Result<Op, AllocError>
    requires { category ≡ s }
    ensures { IfOk result (λ op. op ≡ send_by turn) }
{
    if turn == 0 {
        return Ok(send(alloc, 1, 1, Label::new(alloc)));
    }
    let label = label_of(alloc, category)?;
    if turn == 1 {
        return Ok(send(alloc, 1, 2, label));
    }
    Ok(send(alloc, 2, 1, label))
}

/// The script that sends so many messages. `AllocError` where memory runs out.
pub(crate) fn sends(alloc: Global, category: Category, count: u32) -> Result<OpList, AllocError>
    requires { category ≡ s }
    ensures { IfOk result (λ script. script ≡ sends count) }
{
    let mut script = OpList::new(alloc);
    for i in 0..count {
        script.push(Op::Set {
            reg: 0,
            text: payload(alloc, i)?,
        })?;
        script.push(send_by(alloc, category, i % 3)?)?;
    }
    Ok(script)
}

/// Appends a take from a mailbox into register 0 and a print of it.
fn push_take(script: &mut OpList, slot: u32) -> Result<(), AllocError>
    ensures { OnOk result (script.new ≡ script.old ++ TakeOp 0 slot ∷ PrintOp 0 ∷ []) }
{
    script.push(Op::Take { reg: 0, slot })?;
    script.push(Op::Print { reg: 0 })?;
    Ok(())
}

/// The script that takes from a mailbox, and prints, each of so many messages whose turn it is. `AllocError` where memory runs
/// out.
pub(crate) fn takes(alloc: Global, slot: u32, turn: u32, count: u32) -> Result<OpList, AllocError>
    ensures { IfOk result (λ script. script ≡ takes slot turn count) }
{
    let mut script = OpList::new(alloc);
    for i in 0..count {
        if i % 3 == turn {
            push_take(&mut script, slot)?;
        }
    }
    Ok(script)
}
