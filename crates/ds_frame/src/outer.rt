//! The outer spelling of a hello and of a frame: their fields and ranges, with no copy of any bytes.

ghost use Rattle.std.specs.Prelude.{◌≡◌, ◌≤◌, IfOk};
ghost use Rattle.ds_frame.specs.Fields.{Finds};
ghost use Rattle.ds_frame.specs.Outer.{read_outer_frame, read_outer_hello};

use crate::cause::Cause;
use crate::fields::{byte_of, long_of, number_of, run_of, short_of};
use crate::item::ReadFaultOrMemory;

/// A frame's number, how many messages it has, its body and its signature.
pub type OuterFrame<'a> = (u32, u16, &'a [u8], &'a [u8]);

/// The bytes of a hello's certificate, and what follows the hello.
#[tactic(auto, unfolding(crate::specs::Outer::read_outer_hello))]
pub fn outer_hello(bytes: &[u8]) -> Result<(&[u8], &[u8]), ReadFaultOrMemory>
    ensures { Finds (λ x. (x.0.now, x.1.now)) result (read_outer_hello bytes.now) }
{
    let (_, rest) = byte_of(bytes, 0x44, Cause::Magic, 0)?;
    let (_, rest) = byte_of(rest, 0x53, Cause::Magic, 1)?;
    let (_, rest) = byte_of(rest, 0x58, Cause::Magic, 2)?;
    let (_, rest) = byte_of(rest, 0x31, Cause::Magic, 3)?;
    let (count, rest) = short_of(rest, 6860, Cause::HelloCount, 4)?;
    run_of(rest, count as usize)
}

/// A frame's fields, and what follows the frame.
#[tactic(auto, unfolding(crate::specs::Outer::read_outer_frame))]
pub fn outer_frame(bytes: &[u8]) -> Result<(OuterFrame, &[u8]), ReadFaultOrMemory>
    ensures gives { Finds (λ x. (record { number = x.0.0; messages = x.0.1; body = x.0.2.now; signature = x.0.3.now }, x.1.now)) result (read_outer_frame bytes.now) }
    ensures most { IfOk result (λ x. x.0.1 ≤ 16) }
{
    let (_, rest) = byte_of(bytes, 4, Cause::Tag, 0)?;
    let (number, rest) = number_of(rest)?;
    let (messages, rest) = short_of(rest, 16, Cause::Count, 5)?;
    let (size, rest) = long_of(rest, 1155728, Cause::Length, 7)?;
    let (body, rest) = run_of(rest, size as usize)?;
    let (count, rest) = short_of(rest, 2508, Cause::SignatureCount, 11 + size as usize)?;
    let (signature, rest) = run_of(rest, count as usize)?;
    Ok(((number, messages, body, signature), rest))
}
