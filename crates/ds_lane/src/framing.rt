//! From messages to the signed bytes of a frame.
#![tactic(auto)]

ghost use Rattle.std.specs.Prelude.{◌≡◌, ◌≢◌, ◌<◌, ◌≤◌, ◌+◌, ◌++◌, ℕ, List, ◌∷◌, Option, Some, All, Err, map, length, IfOk, OnOk, OnErr, MatchResult};
ghost use Rattle.ds_base.specs.Counts.{Rose};
ghost use Rattle.ds_base.specs.Marks.{Raised, MayBeRaised};
ghost use Rattle.lms_state.specs.Once.{Traced};
ghost use Rattle.lms_state.specs.Signers.{leaves_of, next_signature, one_leaf_on};
ghost use Rattle.ds_cert.specs.Spelling.{spelling_of_signature};
ghost use Rattle.ds_msg.specs.Ranges.{MessageRange};
ghost use Rattle.ds_frame.specs.Ranges.{BodiesRange};
ghost use Rattle.ds_frame.specs.Spelling.{part_of_frame};
ghost use Rattle.ds_lane.specs.Workers.{HasSpelling, spelled, bodies_of};

use crate::batch::Waiting;
use ds_base::Keeper;
use ds_frame::{BodyList, frame_part};
use ds_wire::{Buffer, Bytes};
use lms_state::{SignFault, Signer};
use std::alloc::{AllocError, Global};

/// Most bytes of a signature, and of its count.
const SIGNATURE_ROOM: usize = 2510;

/// The bytes of the messages, from 1 to 16 of them. `AllocError` where memory runs out.
pub(crate) fn bodies_of(alloc: Global, hand: &[Waiting]) -> Result<BodyList, AllocError>
    requires range { All HasSpelling hand.now }
    requires first { 0 < length hand.now }
    requires last { length hand.now ≤ 16 }
    ensures spelled { IfOk result (λ bodies. bodies ≡ bodies_of hand.now) }
    ensures range { IfOk result (λ bodies. BodiesRange bodies) }
{
    let mut bodies = BodyList::new(alloc);
    for waiting in hand {
        bodies.push(waiting.message.encode()?)?;
    }
    Ok(bodies)
}

/// The part of a frame of these messages that is signed, and room for the frame behind the stream. After `AllocError`, which
/// says that memory ran out, the stream has the same bytes.
pub(crate) fn part_with_room(
    alloc: Global,
    number: u32,
    hand: &[Waiting],
    stream: &mut Buffer,
) -> Result<Bytes, AllocError>
    requires range { All HasSpelling hand.now }
    requires first { 0 < length hand.now }
    requires last { length hand.now ≤ 16 }
    ensures part { IfOk result (λ part. part ≡ part_of_frame number (bodies_of hand.now)) }
    ensures room { IfOk result (λ part. length part + 2510 ≤ stream.new.spare) }
    ensures same { stream.new.bytes ≡ stream.old.bytes }
{
    let bodies = bodies_of(alloc, hand)?;
    let part = frame_part(alloc, number, &bodies)?;
    stream.reserve(part.len() + SIGNATURE_ROOM)?;
    Ok(part)
}

/// Appends a frame, from its signed part and its signature. It takes no memory.
#[tactic(auto, unfolding(ds_cert::specs::Spelling::spelling_of_signature))]
pub(crate) fn append_frame(stream: &mut Buffer, part: &[u8], signature: &[u8])
    requires short { length signature.now ≤ 2508 }
    requires room { length part.now + 2510 ≤ stream.old.spare }
    ensures { stream.new.bytes ≡ stream.old.bytes ++ (part.now ++ spelling_of_signature signature.now) }
{
    stream.fill(part);
    let count = signature.len() as u16;
    stream.fill(&count.to_be_bytes());
    stream.fill(signature);
}
