//! The fields of certificates, read off the front of a slice. Each answers the value and the rest. `Left` comes exactly where
//! the bytes don't begin with such a field, with the number of all the bytes or, in a field behind its count, of those from the
//! part at fault on.

ghost use Rattle.std.specs.Prelude.{◌≡◌, ◌≤◌, IfOk, Some, None, MatchOption};
ghost use Rattle.std.specs.Int.{w8, w16, w32};
ghost use Rattle.std.specs.List.{list_all};
ghost use Rattle.ds_cert.specs.Fields.{Gives, number_within, whole};
ghost use Rattle.ds_cert.specs.Categories.{category_in};
ghost use Rattle.ds_wire.specs.Fields.{bytes_at};
ghost use Rattle.ds_cert.specs.Ranges.{is_letter};
ghost use Rattle.ds_cert.specs.Reading.{address_text_at, category_at, key_at, moment_at, signature_at};

use crate::fault::ReadFault;
use ds_label::{Category, Kind, PubKey};
use ds_wire::{Bytes, get_bytes, get_u8, get_u16, get_u32, get_u64};
use std::alloc::Global;

/// A byte from `low` to `high`.
#[tactic(auto, unfolding(crate::specs::Fields::number_within))]
pub fn byte_of(bytes: &[u8], low: u8, high: u8) -> Result<(u8, &[u8]), ReadFault>
    ensures gives { Gives (λ x. (x.0, x.1.now)) result (number_within w8 low high bytes.now) }
    ensures most { IfOk result (λ x. x.0 ≤ high) }
{
    let Ok((number, rest)) = get_u8(bytes) else {
        return Err(ReadFault::Left(bytes.len()));
    };
    if number < low || high < number {
        return Err(ReadFault::Left(bytes.len()));
    }
    Ok((number, rest))
}

/// A number of two bytes from `low` to `high`.
#[tactic(auto, unfolding(crate::specs::Fields::number_within))]
pub fn short_of(bytes: &[u8], low: u16, high: u16) -> Result<(u16, &[u8]), ReadFault>
    ensures gives { Gives (λ x. (x.0, x.1.now)) result (number_within w16 low high bytes.now) }
    ensures most { IfOk result (λ x. x.0 ≤ high) }
{
    let Ok((number, rest)) = get_u16(bytes) else {
        return Err(ReadFault::Left(bytes.len()));
    };
    if number < low || high < number {
        return Err(ReadFault::Left(bytes.len()));
    }
    Ok((number, rest))
}

/// A number of four bytes from `low` to `high`.
#[tactic(auto, unfolding(crate::specs::Fields::number_within))]
pub fn number_of(bytes: &[u8], low: u32, high: u32) -> Result<(u32, &[u8]), ReadFault>
    ensures gives { Gives (λ x. (x.0, x.1.now)) result (number_within w32 low high bytes.now) }
    ensures most { IfOk result (λ x. x.0 ≤ high) }
{
    let Ok((number, rest)) = get_u32(bytes) else {
        return Err(ReadFault::Left(bytes.len()));
    };
    if number < low || high < number {
        return Err(ReadFault::Left(bytes.len()));
    }
    Ok((number, rest))
}

/// A moment.
pub fn moment_of(bytes: &[u8]) -> Result<(u64, &[u8]), ReadFault>
    ensures { Gives (λ x. (x.0, x.1.now)) result (moment_at bytes.now) }
{
    match get_u64(bytes) {
        Ok((moment, rest)) => Ok((moment, rest)),
        Err(_) => Err(ReadFault::Left(bytes.len())),
    }
}

/// The key that the input begins with, and the rest.
fn get_key(input: &[u8]) -> Option<(PubKey, &[u8])>
    ensures { MatchOption result (bytes_at 56 input.now ≡ None) (λ x. bytes_at 56 input.now ≡ Some (x.0.0, x.1.now)) }
{
    let Ok((front, rest)) = get_bytes(input, 56) else {
        return None;
    };
    let mut key = [0u8; 56];
    key.copy_from_slice(front);
    Some((PubKey(key), rest))
}

/// A key.
#[tactic(auto, unfolding(crate::specs::Reading::key_at))]
pub fn key_of(bytes: &[u8]) -> Result<(PubKey, &[u8]), ReadFault>
    ensures { Gives (λ x. (x.0, x.1.now)) result (key_at bytes.now) }
{
    match get_key(bytes) {
        Some((key, rest)) => Ok((key, rest)),
        None => Err(ReadFault::Left(bytes.len())),
    }
}

/// The kind that a number stands for.
fn kind_from(number: u8) -> Option<Kind>
    ensures { result ≡ Rattle.ds_cert.specs.Categories.kind_from number }
{
    match number {
        0 => Some(Kind::Secrecy),
        1 => Some(Kind::Integrity),
        _ => None,
    }
}

/// The category that the input begins with, 65 bytes, and the rest. None exactly where it doesn't begin with one: where it is
/// shorter, or the byte of the kind is neither 0 nor 1.
#[tactic(auto, unfolding(crate::specs::Categories::category_in))]
pub fn get_category(input: &[u8]) -> Option<(Category, &[u8])>
    ensures { MatchOption result (category_in input.now ≡ None) (λ x. category_in input.now ≡ Some (x.0, x.1.now)) }
{
    let (creator, rest) = get_key(input)?;
    let Ok((kind, rest)) = get_u8(rest) else {
        return None;
    };
    let kind = kind_from(kind)?;
    let Ok((number, rest)) = get_u64(rest) else {
        return None;
    };
    Some((
        Category {
            creator,
            kind,
            number,
        },
        rest,
    ))
}

/// A category.
pub fn category_of(bytes: &[u8]) -> Result<(Category, &[u8]), ReadFault>
    ensures { Gives (λ x. (x.0, x.1.now)) result (category_at bytes.now) }
{
    match get_category(bytes) {
        Some((category, rest)) => Ok((category, rest)),
        None => Err(ReadFault::Left(bytes.len())),
    }
}

/// That many bytes, copied once they are there. `NoMemory` where memory runs out.
pub fn run_of(alloc: Global, bytes: &[u8], count: usize) -> Result<(Bytes, &[u8]), ReadFault>
    ensures { Gives (λ x. (x.0, x.1.now)) result (whole bytes.now (bytes_at count bytes.now)) }
{
    let Ok((run, rest)) = get_bytes(bytes, count) else {
        return Err(ReadFault::Left(bytes.len()));
    };
    Ok((Bytes::from_slice(alloc, run)?, rest))
}

/// A signature behind its count.
#[tactic(auto, unfolding(crate::specs::Fields::counted_at))]
pub fn signature_of(alloc: Global, bytes: &[u8]) -> Result<(Bytes, &[u8]), ReadFault>
    ensures { Gives (λ x. (x.0, x.1.now)) result (signature_at bytes.now) }
{
    let (count, rest) = short_of(bytes, 0, 2508)?;
    run_of(alloc, rest, count as usize)
}

/// Whether all bytes are letters of an address.
fn all_letters(bytes: &[u8]) -> bool
    ensures { result ≡ list_all is_letter bytes.now }
{
    bytes.iter().all(|b| !(*b < 0x21) && !(0x7e < *b))
}

/// The text of an address behind its count.
#[tactic(auto, unfolding(crate::specs::Reading::address_text_at))]
pub fn address_text_of(alloc: Global, bytes: &[u8]) -> Result<(Bytes, &[u8]), ReadFault>
    ensures { Gives (λ x. (x.0, x.1.now)) result (address_text_at bytes.now) }
{
    let (count, rest) = byte_of(bytes, 1, 64)?;
    let Ok((text, after)) = get_bytes(rest, count as usize) else {
        return Err(ReadFault::Left(rest.len()));
    };
    if !all_letters(text) {
        return Err(ReadFault::Left(rest.len()));
    }
    Ok((Bytes::from_slice(alloc, text)?, after))
}
