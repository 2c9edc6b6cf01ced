//! The answer about a signature.

ghost use Rattle.std.specs.Prelude.{◌≡◌, IfOk, IfErr, ◌++◌, codes, Some};
ghost use Rattle.lms_sig.specs.Good.{first_bad};
ghost use Rattle.ds_commands.specs.declared.reply.CommandFault.TheVariants.{NoMemory};
ghost use Rattle.ds_commands.specs.Lines.{signed_message};
ghost use Rattle.ds_commands.specs.Replies.{bad_name, judged, verify_reply};

use crate::lines::{LineFault, SignedMessage, signed_message};
use crate::reply::{CommandFault, Reply};
use ds_wire::Bytes;
use lms_sig::{Bad, verify};
use std::alloc::{AllocError, Global};

/// The name of what is wrong with a signature.
fn bad_name(bad: Bad) -> &'static str
    ensures { result.now ≡ bad_name bad }
{
    match bad {
        Bad::OtherKey => "OtherKey",
        Bad::Length => "Length",
        Bad::OtherParameters => "OtherParameters",
        Bad::LeafRange => "LeafRange",
        Bad::Root => "Root",
    }
}

/// The text of what is wrong with a signature.
fn bad_text(alloc: Global, bad: Bad) -> Result<Vec<u8>, AllocError>
    ensures { IfOk result (λ text. text.items ≡ codes "bad " ++ bad_name bad ++ codes "\n") }
{
    let mut out = Vec::from_slice(alloc, b"bad ")?;
    out.extend_from_slice(bad_name(bad).as_bytes())?;
    out.extend_from_slice(b"\n")?;
    Ok(out)
}

/// The answer about a signature.
fn judged(alloc: Global, signed: &SignedMessage) -> Result<Reply, AllocError>
    ensures { IfOk result (λ reply. reply ≡ judged (first_bad signed.now.key signed.now.message.now signed.now.signature.items)) }
{
    match verify(&signed.key, signed.message, &signed.signature) {
        Ok(()) => Ok(Reply::Prints(Bytes::from_slice(alloc, b"good\n")?)),
        Err(bad) => Ok(Reply::Denies(Bytes::from_vec(bad_text(alloc, bad)?))),
    }
}

/// The answer of `verify`.
pub(crate) fn verified(alloc: Global, input: &[u8]) -> Result<Reply, CommandFault>
    ensures ok { IfOk result (λ reply. reply ≡ verify_reply (signed_message input.now)) }
    ensures err { IfErr result (λ e. e ≡ NoMemory) }
{
    let signed = match signed_message(alloc, input) {
        Ok(signed) => signed,
        Err(LineFault::Line(line)) => return Ok(Reply::Breaks(12, line)),
        Err(LineFault::NoMemory) => return Err(CommandFault::NoMemory),
    };
    match judged(alloc, &signed) {
        Ok(reply) => Ok(reply),
        Err(_) => Err(CommandFault::NoMemory),
    }
}
