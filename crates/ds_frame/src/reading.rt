//! The item at the front of a stream's bytes.

ghost use Rattle.std.specs.Prelude.{◌≡◌, ◌≤◌, drop, length, IfOk};
ghost use Rattle.ds_frame.specs.Bodies.{split};
ghost use Rattle.ds_frame.specs.Checks.{checked_bodies, read_frame, read_hello, read_item};
ghost use Rattle.ds_frame.specs.Fields.{Finds, IsAmong, IsOpenBelow};
ghost use Rattle.ds_frame.specs.Laws.{StartsWith};
ghost use Rattle.ds_frame.specs.Spelling.{signed_fields};

use crate::cause::Cause;
use crate::checks::{begins_with, checked_cert, is_good};
use crate::item::{Frame, Item, ReadFaultOrMemory};
use crate::outer::{OuterFrame, outer_frame, outer_hello};
use crate::splitting::split;
use ds_cert::LaneCert;
use ds_label::PubKey;
use std::alloc::Global;

/// The lane certificate of the hello at the front, and what follows the hello.
#[tactic(auto, unfolding(crate::specs::Checks::read_hello))]
pub fn hello_of(alloc: Global, bytes: &[u8]) -> Result<(LaneCert, &[u8]), ReadFaultOrMemory>
    ensures { Finds (λ x. (x.0, x.1.now)) result (read_hello bytes.now) }
{
    let (cert, rest) = outer_hello(bytes)?;
    let lane = checked_cert(alloc, cert)?;
    Ok((lane, rest))
}

/// The frame with these fields, whose signature, over that part, is good under the key.
fn checked_frame(
    alloc: Global,
    key: &PubKey,
    part: &[u8],
    fields: OuterFrame,
) -> Result<Frame, ReadFaultOrMemory>
    requires messages { fields.1 ≤ 16 }
    requires part { part.now ≡ signed_fields fields.0 fields.1 fields.2.now }
    ensures { Finds (λ x. x) result (checked_bodies key.now (record { number = fields.entry.0; messages = fields.entry.1; body = fields.entry.2.now; signature = fields.entry.3.now }) (split fields.entry.1 fields.entry.2.now)) }
{
    let (number, messages, body, signature) = fields;
    let Some(bodies) = split(alloc, messages, body)? else {
        return Err(ReadFaultOrMemory::Broken(Cause::Split, 11));
    };
    if !begins_with(number, signature) {
        return Err(ReadFaultOrMemory::Broken(Cause::Leaf, 13 + body.len()));
    }
    if !is_good(key, part, signature) {
        return Err(ReadFaultOrMemory::Broken(Cause::Signature, 13 + body.len()));
    }
    Ok(Frame { number, bodies })
}

/// The frame at the front, whose signature is good under the key, and what follows the frame.
#[tactic(auto, unfolding(crate::specs::Checks::read_frame))]
pub fn frame_of<'a>(
    alloc: Global,
    key: &PubKey,
    bytes: &'a [u8],
) -> Result<(Frame, &'a [u8]), ReadFaultOrMemory>
    ensures { Finds (λ x. (x.0, x.1.now)) result (read_frame key.now bytes.now) }
{
    let (fields, rest) = outer_frame(bytes)?;
    let part = &bytes[..11 + fields.2.len()];
    let frame = checked_frame(alloc, key, part, fields)?;
    Ok((frame, rest))
}

/// The item at the front, and what follows it.
#[tactic(auto, unfolding(crate::specs::Checks::read_item))]
fn item_and_rest<'a>(
    alloc: Global,
    lane: &Option<LaneCert>,
    bytes: &'a [u8],
) -> Result<(Item, &'a [u8]), ReadFaultOrMemory>
    ensures { Finds (λ x. (x.0, x.1.now)) result (read_item lane.now bytes.now) }
{
    match lane {
        None => {
            let (hello, rest) = hello_of(alloc, bytes)?;
            Ok((Item::Hello(hello), rest))
        }
        Some(lane) => {
            let (frame, rest) = frame_of(alloc, &lane.key, bytes)?;
            Ok((Item::Frame(frame), rest))
        }
    }
}

/// The item at the front and how many bytes it takes: a hello where there is no lane certificate yet, else a frame.
pub fn item_of(
    alloc: Global,
    lane: &Option<LaneCert>,
    bytes: &[u8],
) -> Result<(Item, usize), ReadFaultOrMemory>
    ensures gives { Finds (λ x. (x.0, drop x.1 bytes.now)) result (read_item lane.now bytes.now) }
    ensures size { IfOk result (λ x. x.1 ≤ length bytes.now) }
    ensures starts { IfOk result (λ x. StartsWith lane.now x.0 bytes.now (drop x.1 bytes.now)) }
    ensures among { IsAmong (length bytes.now) result }
    // The longest frame has that many bytes.
    ensures below { IsOpenBelow 1158249 (length bytes.now) result }
{
    let (item, rest) = item_and_rest(alloc, lane, bytes)?;
    Ok((item, bytes.len() - rest.len()))
}
