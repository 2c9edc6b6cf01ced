//! Bytes, numbers and digests as text.
#![tactic(auto)]

ghost use Rattle.std.specs.Prelude.{◌≡◌, ◌<◌, ◌++◌, false, OnOk, decimal, flat_map};
ghost use Rattle.std.specs.Fmt.{digit_glyph};
ghost use Rattle.ds_model.specs.Print.{hex_byte, shown_byte, shown};

use itoa::Buffer;
use std::alloc::AllocError;

/// Appends bytes.
pub(crate) fn push(out: &mut Vec<u8>, piece: &[u8]) -> Result<(), AllocError>
    ensures { OnOk result (out.new.items ≡ out.old.items ++ piece.now) }
{
    out.extend_from_slice(piece)
}

/// Appends a number in decimal.
pub(crate) fn push_number(out: &mut Vec<u8>, number: u64) -> Result<(), AllocError>
    ensures { OnOk result (out.new.items ≡ out.old.items ++ decimal number) }
{
    push(out, Buffer::new().format(number).as_bytes())
}

/// Appends a word and a number.
pub(crate) fn push_counted(out: &mut Vec<u8>, word: &[u8], number: u64) -> Result<(), AllocError>
    ensures { OnOk result (out.new.items ≡ out.old.items ++ (word.now ++ decimal number)) }
{
    push(out, word)?;
    push_number(out, number)
}

fn digit(number: u8) -> u8
    requires { number < 16 }
    ensures { result ≡ digit_glyph false number }
{
    if number < 10 {
        b'0' + number
    } else {
        b'a' - 10 + number
    }
}

fn push_hex_byte(out: &mut Vec<u8>, byte: u8) -> Result<(), AllocError>
    ensures { OnOk result (out.new.items ≡ out.old.items ++ hex_byte byte) }
{
    push(out, &[digit(byte / 16), digit(byte % 16)])
}

/// Appends bytes in lower-case hex.
pub(crate) fn push_hex(out: &mut Vec<u8>, bytes: &[u8]) -> Result<(), AllocError>
    ensures { OnOk result (out.new.items ≡ out.old.items ++ flat_map hex_byte bytes.now) }
{
    for byte in bytes {
        push_hex_byte(out, *byte)?;
    }
    Ok(())
}

fn push_shown_byte(out: &mut Vec<u8>, byte: u8) -> Result<(), AllocError>
    ensures { OnOk result (out.new.items ≡ out.old.items ++ shown_byte byte) }
{
    if 0x20 <= byte && byte <= 0x7e && byte != b'\\' {
        out.push(byte)?;
        Ok(())
    } else {
        push(out, &[b'\\', digit(byte / 16), digit(byte % 16)])
    }
}

/// Appends bytes as text: those from 0x20 to 0x7e stand for themselves, but the backslash; each other one is a backslash and two
/// hex digits.
pub(crate) fn push_shown(out: &mut Vec<u8>, bytes: &[u8]) -> Result<(), AllocError>
    ensures { OnOk result (out.new.items ≡ out.old.items ++ shown bytes.now) }
{
    for byte in bytes {
        push_shown_byte(out, *byte)?;
    }
    Ok(())
}
