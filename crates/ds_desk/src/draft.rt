//! A delegation on its way to be signed, with the memory that it takes.
#![tactic(auto)]

ghost use Rattle.std.specs.Prelude.{◌≡◌, ◌≤◌, ◌++◌, [], length, IfOk};
ghost use Rattle.ds_cert.specs.Spelling.{signed_part_of_delegation, spelling_of_delegation, spelling_of_signature};
ghost use Rattle.ds_desk.specs.Signing.{unsigned, with_signature};

use ds_cert::Delegation;
use ds_label::{Category, PubKey};
use ds_wire::{Buffer, Bytes};
use std::alloc::{AllocError, Global};

/// Most bytes of a signature, and of its spelling.
const SIGNATURE_LIMIT: usize = 2508;

/// A delegation without a signature; what is signed, with room for the rest of its spelling; and room for two more copies of
/// the signature.
#[derive(Drop)]
pub struct Draft {
    pub blank: Delegation,
    pub part: Buffer,
    pub first: Buffer,
    pub second: Buffer,
}

/// A delegation three times, and its spelling.
#[derive(Drop)]
pub struct Signed {
    pub kept: Delegation,
    pub issued: Delegation,
    pub entered: Delegation,
    pub spelling: Bytes,
}

/// No bytes, with room for that many.
fn roomy(alloc: Global, room: usize) -> Result<Buffer, AllocError>
    ensures bytes { IfOk result (λ b. b.bytes ≡ []) }
    ensures room { IfOk result (λ b. room ≤ b.spare) }
{
    let mut buffer = Buffer::new(alloc);
    buffer.reserve(room)?;
    Ok(buffer)
}

/// A delegation that isn't signed, with the memory for all that is made of it. `AllocError` where memory runs out.
pub fn draft_of(
    alloc: Global,
    by: PubKey,
    category: Category,
    to: PubKey,
    from: u64,
    until: u64,
) -> Result<Draft, AllocError>
    ensures blank { IfOk result (λ d. d.blank ≡ unsigned by category to from until) }
    ensures part { IfOk result (λ d. d.part.bytes ≡ signed_part_of_delegation (unsigned by category to from until)) }
    ensures bytes { IfOk result (λ d. (d.first.bytes ≡ []) × (d.second.bytes ≡ [])) }
    ensures room { IfOk result (λ d. (2510 ≤ d.part.spare) × (2508 ≤ d.first.spare) × (2508 ≤ d.second.spare)) }
{
    let blank = Delegation {
        category,
        to,
        from,
        until,
        by,
        signature: Bytes::new(alloc),
    };
    let mut part = Buffer::from_bytes(blank.signed_part()?);
    part.reserve(2 + SIGNATURE_LIMIT)?;
    Ok(Draft {
        blank,
        part,
        first: roomy(alloc, SIGNATURE_LIMIT)?,
        second: roomy(alloc, SIGNATURE_LIMIT)?,
    })
}

/// The same delegation with this signature.
fn with_signature(blank: &Delegation, signature: Bytes) -> Delegation
    ensures { result ≡ with_signature blank.now signature }
{
    Delegation {
        category: blank.category,
        to: blank.to,
        from: blank.from,
        until: blank.until,
        by: blank.by,
        signature,
    }
}

/// The rest of a spelling, behind what was signed. It takes no memory.
#[tactic(auto, unfolding(ds_cert::specs::Spelling::spelling_of_signature))]
fn spelled(part: Buffer, signature: &[u8]) -> Bytes
    requires short { length signature.now ≤ 2508 }
    requires room { 2510 ≤ part.spare }
    ensures { result ≡ part.bytes ++ spelling_of_signature signature.now }
{
    let mut part = part;
    let count = signature.len() as u16;
    part.fill(&count.to_be_bytes());
    part.fill(signature);
    part.into_bytes()
}

/// A copy in a buffer of no bytes. It takes no memory.
fn copied(room: Buffer, signature: &[u8]) -> Bytes
    requires bytes { room.bytes ≡ [] }
    requires room { length signature.now ≤ room.spare }
    ensures { result ≡ signature.now }
{
    let mut room = room;
    room.fill(signature);
    room.into_bytes()
}

/// The delegation with its signature. It takes no memory.
pub fn signed_of(draft: Draft, signature: Vec<u8>) -> Signed
    requires short { length signature.items ≤ 2508 }
    requires part { draft.part.bytes ≡ signed_part_of_delegation draft.blank }
    requires bytes { (draft.first.bytes ≡ []) × (draft.second.bytes ≡ []) }
    requires room { (2510 ≤ draft.part.spare) × (2508 ≤ draft.first.spare) × (2508 ≤ draft.second.spare) }
    ensures kept { result.kept ≡ with_signature draft.blank signature.items }
    ensures issued { result.issued ≡ with_signature draft.blank signature.items }
    ensures entered { result.entered ≡ with_signature draft.blank signature.items }
    ensures spelling { result.spelling ≡ spelling_of_delegation (with_signature draft.blank signature.items) }
    ensures size { length result.spelling ≤ 2704 }
{
    let Draft {
        blank,
        part,
        first,
        second,
    } = draft;
    let spelling = spelled(part, signature.as_slice());
    let issued = with_signature(&blank, copied(first, signature.as_slice()));
    let entered = with_signature(&blank, copied(second, signature.as_slice()));
    let kept = with_signature(&blank, Bytes::from_vec(signature));
    kept.show_fits();
    Signed {
        kept,
        issued,
        entered,
        spelling,
    }
}
