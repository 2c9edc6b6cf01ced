//! The fields of a hello or a frame, read off the front of a slice. `Open` comes exactly where the field isn't whole, `Broken`
//! exactly where it is out of range.

ghost use Rattle.std.specs.Prelude.{◌≡◌, ◌≤◌, IfOk};
ghost use Rattle.std.specs.Int.{w8, w16, w32};
ghost use Rattle.ds_wire.specs.Fields.{bytes_at, number_at};
ghost use Rattle.ds_frame.specs.Fields.{Finds, field, number_from};

use crate::cause::Cause;
use crate::item::ReadFaultOrMemory;
use ds_wire::{get_bytes, get_u8, get_u16, get_u32};

/// This very byte.
#[tactic(auto, unfolding(crate::specs::Fields::number_from))]
pub fn byte_of(
    bytes: &[u8],
    byte: u8,
    cause: Cause,
    offset: usize,
) -> Result<(u8, &[u8]), ReadFaultOrMemory>
    ensures { Finds (λ x. (x.0, x.1.now)) result (number_from w8 byte byte cause offset bytes.now) }
{
    let Ok((number, rest)) = get_u8(bytes) else {
        return Err(ReadFaultOrMemory::Open);
    };
    if number < byte || byte < number {
        return Err(ReadFaultOrMemory::Broken(cause, offset));
    }
    Ok((number, rest))
}

/// A number of two bytes from 1 to `high`.
#[tactic(auto, unfolding(crate::specs::Fields::number_from))]
pub fn short_of(
    bytes: &[u8],
    high: u16,
    cause: Cause,
    offset: usize,
) -> Result<(u16, &[u8]), ReadFaultOrMemory>
    ensures gives { Finds (λ x. (x.0, x.1.now)) result (number_from w16 1 high cause offset bytes.now) }
    ensures most { IfOk result (λ x. x.0 ≤ high) }
{
    let Ok((number, rest)) = get_u16(bytes) else {
        return Err(ReadFaultOrMemory::Open);
    };
    if number < 1 || high < number {
        return Err(ReadFaultOrMemory::Broken(cause, offset));
    }
    Ok((number, rest))
}

/// A number of four bytes from 1 to `high`.
#[tactic(auto, unfolding(crate::specs::Fields::number_from))]
pub fn long_of(
    bytes: &[u8],
    high: u32,
    cause: Cause,
    offset: usize,
) -> Result<(u32, &[u8]), ReadFaultOrMemory>
    ensures gives { Finds (λ x. (x.0, x.1.now)) result (number_from w32 1 high cause offset bytes.now) }
    ensures most { IfOk result (λ x. x.0 ≤ high) }
{
    let Ok((number, rest)) = get_u32(bytes) else {
        return Err(ReadFaultOrMemory::Open);
    };
    if number < 1 || high < number {
        return Err(ReadFaultOrMemory::Broken(cause, offset));
    }
    Ok((number, rest))
}

/// Any number of four bytes.
pub fn number_of(bytes: &[u8]) -> Result<(u32, &[u8]), ReadFaultOrMemory>
    ensures { Finds (λ x. (x.0, x.1.now)) result (field (number_at w32 bytes.now)) }
{
    match get_u32(bytes) {
        Ok((number, rest)) => Ok((number, rest)),
        Err(_) => Err(ReadFaultOrMemory::Open),
    }
}

/// That many bytes.
pub fn run_of(bytes: &[u8], count: usize) -> Result<(&[u8], &[u8]), ReadFaultOrMemory>
    ensures { Finds (λ x. (x.0.now, x.1.now)) result (field (bytes_at count bytes.now)) }
{
    match get_bytes(bytes, count) {
        Ok((run, rest)) => Ok((run, rest)),
        Err(_) => Err(ReadFaultOrMemory::Open),
    }
}
