//! The lines of an input.

ghost use Rattle.std.specs.Prelude.{◌≡◌, ◌^◌, ◌+◌, ◌<◌, length, drop, IfSome, option_map};
ghost use Rattle.ds_commands.specs.Lines.{feed, cut, bytes_in, some_bytes_in, ended_line, hex_line, or_line, secret_alone, secret_and_message, signed_message, Gives};

use hex::{FromHex, FromHexError};
use std::alloc::Global;

/// Why lines give nothing.
#[derive(Clone, Copy, Drop, Debug, PartialEq, Eq)]
pub(crate) enum LineFault {
    /// The first faulty line, from 0.
    Line(u32),
    /// An allocation was refused.
    NoMemory,
}

/// The place of the first line feed.
fn feed(input: &[u8]) -> Option<usize>
    ensures place { result ≡ feed input.now }
    ensures within { IfSome result (λ place. place < length input.now) }
{
    input.iter().position(|byte| *byte == 10)
}

/// What follows a place of the slice.
fn after(input: &[u8], place: usize) -> &[u8]
    requires { place < length input.now }
    ensures { result.now ≡ drop (place + 1) input.now }
{
    &input[place + 1..]
}

/// The first line, and what follows its line feed, if it has one.
pub(crate) fn cut(input: &[u8]) -> (&[u8], Option<&[u8]>)
    ensures line { result.0.now ≡ (cut input.now).0 }
    ensures rest { option_map (λ rest. rest.now) result.1 ≡ (cut input.now).1 }
{
    match feed(input) {
        None => (input, None),
        Some(place) => (&input[..place], Some(after(input, place))),
    }
}

/// A line that a line feed ends, and what follows.
fn ended_line(input: &[u8]) -> Option<(&[u8], &[u8])>
    ensures { option_map (λ both. (both.0.now, both.1.now)) result ≡ ended_line (cut input.now) }
{
    match cut(input) {
        (_, None) => None,
        (line, Some(rest)) => Some((line, rest)),
    }
}

/// A secret in hex.
fn secret_of(line: &[u8]) -> Option<[u8; 32]>
    ensures { result ≡ bytes_in 32 line.now }
{
    <[u8; 32] as FromHex>::from_hex(line).ok()
}

/// A public key in hex.
pub(crate) fn key_of(line: &[u8]) -> Option<[u8; 56]>
    ensures { result ≡ bytes_in 56 line.now }
{
    <[u8; 56] as FromHex>::from_hex(line).ok()
}

/// Any number of bytes in hex, at this line.
pub(crate) fn bytes_of(alloc: Global, number: u32, line: &[u8]) -> Result<Vec<u8>, LineFault>
    ensures { Gives (λ bytes. bytes.items) result (or_line number (some_bytes_in line.now)) }
{
    match hex::decode(alloc, line) {
        Ok(bytes) => Ok(bytes),
        Err(FromHexError::OutOfMemory) => Err(LineFault::NoMemory),
        Err(_) => Err(LineFault::Line(number)),
    }
}

/// A secret that nothing follows but a line feed.
pub(crate) fn secret_alone(input: &[u8]) -> Result<[u8; 32], LineFault>
    ensures { Gives (λ secret. secret) result (secret_alone input.now) }
{
    let (line, rest) = cut(input);
    let Some(secret) = secret_of(line) else {
        return Err(LineFault::Line(0));
    };
    match rest {
        None => Ok(secret),
        Some([]) => Ok(secret),
        Some([_, ..]) => Err(LineFault::Line(1)),
    }
}

/// A secret, and the message after it.
pub(crate) fn secret_and_message(input: &[u8]) -> Result<([u8; 32], &[u8]), LineFault>
    ensures { Gives (λ both. (both.0, both.1.now)) result (secret_and_message input.now) }
{
    let Some((line, message)) = ended_line(input) else {
        return Err(LineFault::Line(0));
    };
    match secret_of(line) {
        Some(secret) => Ok((secret, message)),
        None => Err(LineFault::Line(0)),
    }
}

/// A key, a signature, and the message after them.
#[derive(Drop)]
pub(crate) struct SignedMessage<'i> {
    pub(crate) key: [u8; 56],
    pub(crate) signature: Vec<u8>,
    pub(crate) message: &'i [u8],
}

/// A key, and what follows its line.
fn key_line(input: &[u8]) -> Result<([u8; 56], &[u8]), LineFault>
    ensures { Gives (λ both. (both.0, both.1.now)) result (hex_line 0 (bytes_in 56) input.now) }
{
    let Some((line, rest)) = ended_line(input) else {
        return Err(LineFault::Line(0));
    };
    match key_of(line) {
        Some(key) => Ok((key, rest)),
        None => Err(LineFault::Line(0)),
    }
}

/// A signature, and what follows its line.
fn signature_line(alloc: Global, input: &[u8]) -> Result<(Vec<u8>, &[u8]), LineFault>
    ensures { Gives (λ both. (both.0.items, both.1.now)) result (hex_line 1 some_bytes_in input.now) }
{
    let Some((line, rest)) = ended_line(input) else {
        return Err(LineFault::Line(1));
    };
    let bytes = bytes_of(alloc, 1, line)?;
    Ok((bytes, rest))
}

/// A key, a signature, and the message after them.
pub(crate) fn signed_message(alloc: Global, input: &[u8]) -> Result<SignedMessage<'_>, LineFault>
    ensures { Gives (λ all. (all.key, all.signature.items, all.message.now)) result (signed_message input.now) }
{
    let (key, rest) = key_line(input)?;
    let (signature, message) = signature_line(alloc, rest)?;
    Ok(SignedMessage {
        key,
        signature,
        message,
    })
}
