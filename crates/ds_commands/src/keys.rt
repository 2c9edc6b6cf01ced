//! The answers about keys.

ghost use Rattle.std.specs.Prelude.{◌≡◌, ◌≤◌, ◌<◌, ◌+◌, ◌^◌, ◌↔◌, ℕ, length, true, false, IfOk, IfErr, OnOk, ◌++◌, codes, decimal};
ghost use Rattle.hex.specs.Hex.{encode_lower};
ghost use Rattle.lms_sig.specs.Parameters.{leaf_count};
ghost use Rattle.lms_sig.specs.Keys.{derived_id};
ghost use Rattle.ds_commands.specs.declared.command.Command.TheVariants.{Keygen, Sign};
ghost use Rattle.ds_base.specs.Marks.{Raised};
ghost use Rattle.lms_state.specs.Signers.{leaves_of, next_signature};
ghost use Rattle.ds_commands.specs.Outcome.{Failed, Replied, Signed, Stopped, Unsigned};
ghost use Rattle.ds_commands.specs.Replies.{key_text, text_of_signature};

use crate::command::Command;
use crate::lines::{LineFault, secret_alone, secret_and_message};
use crate::reply::{CommandFault, Reply};
use ds_base::Keeper;
use ds_wire::{Buffer, Bytes};
use lms_sig::{LmsType, Params, TreeKey, derive};
use lms_state::{SignFault, Signer};
use std::alloc::{AllocError, Global};

/// How many leaves a key of these types has.
fn leaves(params: Params) -> u32
    ensures { result ≡ leaf_count params.lms }
{
    match params.lms {
        LmsType::H5 => 32,
        LmsType::H10 => 1024,
    }
}

/// Appends bytes in hex.
fn push_hex(out: &mut Vec<u8>, bytes: &[u8]) -> Result<(), AllocError>
    ensures { OnOk result (out.new.items ≡ out.old.items ++ encode_lower bytes.now) }
{
    let text = hex::encode(*out.allocator(), bytes)?;
    out.extend_from_slice(text.as_bytes())
}

/// Appends a number in decimal.
pub(crate) fn push_number(out: &mut Vec<u8>, number: u64) -> Result<(), AllocError>
    ensures { OnOk result (out.new.items ≡ out.old.items ++ decimal number) }
{
    let mut buffer = itoa::Buffer::new();
    out.extend_from_slice(buffer.format(number).as_bytes())
}

/// The public key, and the next leaf.
fn key_text(
    alloc: Global,
    params: Params,
    index: u32,
    mark: u64,
    secret: &[u8; 32],
) -> Result<Vec<u8>, AllocError>
    ensures { IfOk result (λ text. text.items ≡ key_text params index mark secret.now) }
{
    let (seed, id) = derive(secret, index);
    let key = TreeKey::make(alloc, params, seed, id)?;
    let mut out = Vec::from_slice(alloc, b"key ")?;
    push_hex(&mut out, &key.public())?;
    out.extend_from_slice(b"\nnext ")?;
    push_number(&mut out, mark.min(u64::from(leaves(params))))?;
    out.extend_from_slice(b"\n")?;
    Ok(out)
}

/// The most bytes of a signature.
const SIGNATURE_LIMIT: usize = 2508;

/// The most bytes of the text of `sign`: a letter and a space, the leaf in decimal, the signature in hex, and two line feeds.
const TEXT_LIMIT: usize = 2 * SIGNATURE_LIMIT + 24;

/// Appends bytes in hex. It takes no memory.
fn fill_hex(text: &mut Buffer, bytes: &[u8])
    requires short { length bytes.now ≤ 2508 }
    requires room { 5016 ≤ text.old.spare }
    ensures bytes { text.new.bytes ≡ text.old.bytes ++ encode_lower bytes.now }
    ensures room { text.old.spare ≤ text.new.spare + 5016 }
{
    let mut digits = [0; 2 * SIGNATURE_LIMIT];
    let room = &mut digits[..2 * bytes.len()];
    match hex::encode_to_slice(bytes, room) {
        Ok(()) => {}
        Err(_) => unreachable!(),
    }
    text.fill(&digits[..2 * bytes.len()]);
}

/// Writes the leaf and the signature. It takes no memory.
fn fill_signature(text: &mut Buffer, leaf: u32, signature: &[u8])
    requires short { length signature.now ≤ 2508 }
    requires room { 5040 ≤ text.old.spare }
    ensures { text.new.bytes ≡ text.old.bytes ++ (codes "q " ++ decimal leaf ++ codes "\n" ++ encode_lower signature.now ++ codes "\n") }
{
    let mut number = itoa::Buffer::new();
    text.fill(b"q ");
    text.fill(number.format(leaf).as_bytes());
    text.fill(b"\n");
    fill_hex(text, signature);
    text.fill(b"\n");
}

/// The answer of `keygen`.
pub(crate) fn keygen<K: Keeper>(
    alloc: Global,
    keeper: &mut K,
    params: Params,
    index: u32,
    input: &[u8],
) -> Result<Reply, CommandFault>
    ensures faults { K.faults keeper.old ≤ K.faults keeper.new }
    ensures ok { (now : ℕ) → IfOk result (Replied (Keygen params index) now input.now (K.tells keeper.old) (K.tells keeper.new)) }
    ensures err { IfErr result (λ e. Failed e (Keygen params index) input.now (K.faults keeper.old) (K.faults keeper.new) (K.tells keeper.old) (K.tells keeper.new)) }
{
    let secret = match secret_alone(input) {
        Ok(secret) => secret,
        Err(LineFault::Line(line)) => return Ok(Reply::Breaks(12, line)),
        Err(LineFault::NoMemory) => return Err(CommandFault::NoMemory),
    };
    let (_, id) = derive(&secret, index);
    let Ok(mark) = keeper.mark(&id) else {
        return Err(CommandFault::KeeperFault);
    };
    match key_text(alloc, params, index, mark, &secret) {
        Ok(text) => Ok(Reply::Prints(Bytes::from_vec(text))),
        Err(_) => Err(CommandFault::NoMemory),
    }
}

/// The text of `sign`, at the signer's next leaf, where one is left. Its memory is taken first; then the signer signs, which
/// raises the mark past the leaf before it hands the signature out.
fn signed_text<K: Keeper>(
    alloc: Global,
    keeper: &mut K,
    signer: &mut Signer,
    message: &[u8],
) -> Result<Bytes, CommandFault>
    requires left { signer.old.next < leaves_of signer.old.key }
    ensures faults { K.faults keeper.old ≤ K.faults keeper.new }
    ensures text { IfOk result (λ text. text ≡ text_of_signature signer.old.next (next_signature signer.old message.now)) }
    ensures ok { OnOk result (Raised (K.tells keeper.old) signer.old.key.id (signer.old.next + 1) (K.tells keeper.new)) }
    ensures err { IfErr result (λ e. Stopped e (K.faults keeper.old) (K.faults keeper.new) signer.old.key.id signer.old.next (K.tells keeper.old) (K.tells keeper.new)) }
{
    let leaf = signer.next();
    let mut text = Buffer::new(alloc);
    if text.reserve(TEXT_LIMIT).is_err() {
        return Err(CommandFault::NoMemory);
    }
    match signer.sign(keeper, message) {
        Ok(signature) => {
            fill_signature(&mut text, leaf, &signature);
            Ok(text.into_bytes())
        }
        Err(SignFault::KeeperFault) => Err(CommandFault::KeeperFault),
        Err(SignFault::NoMemory) => Err(CommandFault::NoMemory),
        Err(SignFault::Spent) => unreachable!(),
    }
}

/// The answer of `sign`, of a secret and a message.
fn signed<K: Keeper>(
    alloc: Global,
    keeper: &mut K,
    params: Params,
    index: u32,
    secret: &[u8; 32],
    message: &[u8],
) -> Result<Reply, CommandFault>
    ensures faults { K.faults keeper.old ≤ K.faults keeper.new }
    ensures ok { IfOk result (λ reply. Signed params index secret.now message.now (K.tells keeper.old) (K.tells keeper.new) reply) }
    ensures err { IfErr result (λ e. Unsigned e (derived_id secret.now index) (K.faults keeper.old) (K.faults keeper.new) (K.tells keeper.old) (K.tells keeper.new)) }
{
    let (seed, id) = derive(secret, index);
    let Ok(key) = TreeKey::make(alloc, params, seed, id) else {
        return Err(CommandFault::NoMemory);
    };
    let Ok(mut signer) = Signer::resume(key, keeper) else {
        return Err(CommandFault::KeeperFault);
    };
    if signer.left() == 0 {
        return Ok(Reply::Spends);
    }
    let text = signed_text(alloc, keeper, &mut signer, message)?;
    Ok(Reply::Prints(text))
}

/// The answer of `sign`.
pub(crate) fn sign<K: Keeper>(
    alloc: Global,
    keeper: &mut K,
    params: Params,
    index: u32,
    input: &[u8],
) -> Result<Reply, CommandFault>
    ensures faults { K.faults keeper.old ≤ K.faults keeper.new }
    ensures ok { (now : ℕ) → IfOk result (Replied (Sign params index) now input.now (K.tells keeper.old) (K.tells keeper.new)) }
    ensures err { IfErr result (λ e. Failed e (Sign params index) input.now (K.faults keeper.old) (K.faults keeper.new) (K.tells keeper.old) (K.tells keeper.new)) }
{
    let (secret, message) = match secret_and_message(input) {
        Ok(both) => both,
        Err(LineFault::Line(line)) => return Ok(Reply::Breaks(12, line)),
        Err(LineFault::NoMemory) => return Err(CommandFault::NoMemory),
    };
    signed(alloc, keeper, params, index, &secret, message)
}
