//! What an act of the desk did.

ghost use Rattle.std.specs.Prelude.{◌≡◌, ◌≤◌, ◌++◌, [], length, IfOk};
ghost use Rattle.ds_model.specs.Desk.{Denied};
ghost use Rattle.ds_share.specs.declared.desk_act.DeskReply.TheVariants as replies;
ghost use Rattle.ds_share.specs.Tells.{told};

use crate::desk_act::DeskReply;
use ds_label::Rule;
use ds_wire::{Buffer, Bytes};
use std::alloc::{AllocError, Global};

/// The number of a refusal.
pub(crate) const REFUSED: u8 = 6;

/// What an act of the desk did: the number of its entry's act, what the entry says beside it, what was handed out, and the
/// answer.
#[derive(Drop)]
pub(crate) struct Told {
    pub act: u8,
    pub body: Bytes,
    pub given: Bytes,
    pub reply: DeskReply,
}

/// No bytes, with room for that many. `AllocError` where memory runs out.
pub(crate) fn roomy(alloc: Global, room: usize) -> Result<Buffer, AllocError>
    ensures bytes { IfOk result (λ b. b.bytes ≡ []) }
    ensures room { IfOk result (λ b. room ≤ b.spare) }
{
    let mut buffer = Buffer::new(alloc);
    buffer.reserve(room)?;
    Ok(buffer)
}

/// A copy in a buffer of no bytes. It takes no memory.
pub(crate) fn filled(room: Buffer, bytes: &[u8]) -> Bytes
    requires bytes { room.bytes ≡ [] }
    requires room { length bytes.now ≤ room.spare }
    ensures { result ≡ bytes.now }
{
    let mut room = room;
    room.fill(bytes);
    room.into_bytes()
}

/// That a rule refused an act. It takes no memory.
pub(crate) fn refused(alloc: Global, room: Buffer, rule: Rule) -> Told
    requires bytes { room.bytes ≡ [] }
    requires room { 1 ≤ room.spare }
    ensures { result ≡ told (Denied rule) [] (replies.Refused rule) }
{
    Told {
        act: REFUSED,
        body: filled(room, &rule.number().to_be_bytes()),
        given: Bytes::new(alloc),
        reply: DeskReply::Refused(rule),
    }
}
