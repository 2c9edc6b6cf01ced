//! Fields read off the front of a slice.

ghost use Rattle.std.specs.Prelude.{◌≡◌, MatchResult, Some, None};
ghost use Rattle.ds_wire.specs.Fields.{number_at, bytes_at};
ghost use Rattle.std.specs.Int.{w8, w16, w32, w64};

use thiserror::Error;

/// The input is shorter than the field.
#[derive(Clone, Copy, Debug, PartialEq, Eq, Error)]
#[error("the input is shorter than the field")]
pub struct Short;

/// The first byte, and the rest. `Short` where there is none.
pub fn get_u8(input: &[u8]) -> Result<(u8, &[u8]), Short>
    ensures { MatchResult result (λ x. number_at w8 input.now ≡ Some (x.0, x.1.now)) (λ _. number_at w8 input.now ≡ None) }
{
    if input.is_empty() {
        return Err(Short);
    }
    let (front, rest) = input.split_at(1);
    Ok((u8::from_be_bytes([front[0]]), rest))
}

/// The number of the first two bytes, big-endian, and the rest. `Short` where there are fewer.
pub fn get_u16(input: &[u8]) -> Result<(u16, &[u8]), Short>
    ensures { MatchResult result (λ x. number_at w16 input.now ≡ Some (x.0, x.1.now)) (λ _. number_at w16 input.now ≡ None) }
{
    if input.len() < 2 {
        return Err(Short);
    }
    let (front, rest) = input.split_at(2);
    Ok((u16::from_be_bytes([front[0], front[1]]), rest))
}

/// The number of the first four bytes, big-endian, and the rest. `Short` where there are fewer.
pub fn get_u32(input: &[u8]) -> Result<(u32, &[u8]), Short>
    ensures { MatchResult result (λ x. number_at w32 input.now ≡ Some (x.0, x.1.now)) (λ _. number_at w32 input.now ≡ None) }
{
    if input.len() < 4 {
        return Err(Short);
    }
    let (front, rest) = input.split_at(4);
    let number = u32::from_be_bytes([front[0], front[1], front[2], front[3]]);
    Ok((number, rest))
}

/// The number of the first eight bytes, big-endian, and the rest. `Short` where there are fewer.
pub fn get_u64(input: &[u8]) -> Result<(u64, &[u8]), Short>
    ensures { MatchResult result (λ x. number_at w64 input.now ≡ Some (x.0, x.1.now)) (λ _. number_at w64 input.now ≡ None) }
{
    if input.len() < 8 {
        return Err(Short);
    }
    let (front, rest) = input.split_at(8);
    let number = u64::from_be_bytes([
        front[0], front[1], front[2], front[3], front[4], front[5], front[6], front[7],
    ]);
    Ok((number, rest))
}

/// The first `count` bytes, and the rest. `Short` where there are fewer.
pub fn get_bytes(input: &[u8], count: usize) -> Result<(&[u8], &[u8]), Short>
    ensures { MatchResult result (λ x. bytes_at count input.now ≡ Some (x.0.now, x.1.now)) (λ _. bytes_at count input.now ≡ None) }
{
    if input.len() < count {
        return Err(Short);
    }
    Ok(input.split_at(count))
}
