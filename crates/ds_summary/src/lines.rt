//! Words, numbers and digests as text.

ghost use Rattle.std.specs.Prelude.{◌≡◌, ◌<◌, ◌++◌, false, OnOk, decimal, flat_map};
ghost use Rattle.std.specs.Fmt.{digit_glyph};
ghost use Rattle.ds_model.specs.Print.{hex_byte};
ghost use Rattle.sha2.specs.Sha256.{sha256};
ghost use Rattle.ds_summary.specs.Summaries.{digest_line, number_line};

use itoa::Buffer;
use sha2::{Digest, Sha256};
use std::alloc::AllocError;

/// Appends bytes.
pub(crate) fn push(out: &mut Vec<u8>, piece: &[u8]) -> Result<(), AllocError>
    ensures { OnOk result (out.new.items ≡ out.old.items ++ piece.now) }
{
    out.extend_from_slice(piece)
}

/// Appends a number in decimal.
pub(crate) fn push_number(out: &mut Vec<u8>, number: u64) -> Result<(), AllocError>
    ensures { OnOk result (out.new.items ≡ out.old.items ++ decimal number) }
{
    push(out, Buffer::new().format(number).as_bytes())
}

/// Appends the line of a word and a number.
pub(crate) fn push_line(out: &mut Vec<u8>, word: &[u8], number: u64) -> Result<(), AllocError>
    ensures { OnOk result (out.new.items ≡ out.old.items ++ number_line word.now number) }
{
    push(out, word)?;
    push_number(out, number)?;
    push(out, b"\n")
}

fn digit(number: u8) -> u8
    requires { number < 16 }
    ensures { result ≡ digit_glyph false number }
{
    if number < 10 {
        b'0' + number
    } else {
        b'a' - 10 + number
    }
}

fn push_hex_byte(out: &mut Vec<u8>, byte: u8) -> Result<(), AllocError>
    ensures { OnOk result (out.new.items ≡ out.old.items ++ hex_byte byte) }
{
    push(out, &[digit(byte / 16), digit(byte % 16)])
}

fn push_hex(out: &mut Vec<u8>, bytes: &[u8]) -> Result<(), AllocError>
    ensures { OnOk result (out.new.items ≡ out.old.items ++ flat_map hex_byte bytes.now) }
{
    for byte in bytes {
        push_hex_byte(out, *byte)?;
    }
    Ok(())
}

fn push_digest(out: &mut Vec<u8>, text: &[u8]) -> Result<(), AllocError>
    ensures { OnOk result (out.new.items ≡ out.old.items ++ flat_map hex_byte (sha256 text.now)) }
{
    push_hex(out, &Sha256::digest(text))
}

/// Appends the line of a text's digest.
pub(crate) fn push_digest_line(out: &mut Vec<u8>, text: &[u8]) -> Result<(), AllocError>
    ensures { OnOk result (out.new.items ≡ out.old.items ++ digest_line text.now) }
{
    push(out, b"sha256 ")?;
    push_digest(out, text)?;
    push(out, b"\n")
}
