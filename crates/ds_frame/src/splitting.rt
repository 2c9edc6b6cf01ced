//! A frame's body, split into its messages.

ghost use Rattle.std.specs.Prelude.{◌≡◌, ◌≤◌, [], None, Some, IfOk, MatchOption};
ghost use Rattle.ds_frame.specs.Bodies.{bodies_at, body_at, split};

use crate::bodies::BodyList;
use ds_wire::{Bytes, get_bytes, get_u32};
use std::alloc::{AllocError, Global};

/// The message behind its count at the front of the bytes, and the rest.
#[tactic(auto, unfolding(crate::specs::Bodies::body_at))]
fn body_of(bytes: &[u8]) -> Option<(&[u8], &[u8])>
    ensures { MatchOption result (body_at bytes.now ≡ None) (λ x. body_at bytes.now ≡ Some (x.0.now, x.1.now)) }
{
    let Ok((count, rest)) = get_u32(bytes) else {
        return None;
    };
    match get_bytes(rest, count as usize) {
        Ok((body, after)) => Some((body, after)),
        Err(_) => None,
    }
}

/// That many messages, each copied once its bytes are there, and the rest.
fn bodies_of(
    alloc: Global,
    messages: u16,
    bytes: &[u8],
) -> Result<Option<(BodyList, &[u8])>, AllocError>
    requires { messages ≤ 16 }
    ensures { IfOk result (λ o. MatchOption o (bodies_at messages [] bytes.now ≡ None) (λ x. bodies_at messages [] bytes.now ≡ Some (x.0, x.1.now))) }
{
    let mut bodies = BodyList::new(alloc);
    let mut rest = bytes;
    for _ in 0..messages {
        let Some((body, after)) = body_of(rest) else {
            return Ok(None);
        };
        bodies.push(Bytes::from_slice(alloc, body)?)?;
        rest = after;
    }
    Ok(Some((bodies, rest)))
}

/// The messages of a body, if their counts split it whole into that many. `AllocError` where memory runs out.
#[tactic(auto, unfolding(crate::specs::Bodies::split))]
pub fn split(alloc: Global, messages: u16, body: &[u8]) -> Result<Option<BodyList>, AllocError>
    requires { messages ≤ 16 }
    ensures { IfOk result (λ o. o ≡ split messages body.now) }
{
    match bodies_of(alloc, messages, body)? {
        Some((bodies, rest)) if rest.is_empty() => Ok(Some(bodies)),
        _ => Ok(None),
    }
}
