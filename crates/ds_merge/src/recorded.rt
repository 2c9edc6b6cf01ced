//! Events, as their actors recorded them.

ghost use Rattle.std.specs.Prelude.{◌≡◌, ◌↔◌, IfOk, IsTrue};

use crate::kept::Kept;
use ds_script::Actor;
use ds_wire::Bytes;
use std::alloc::AllocError;

/// An event of an actor, with the entry that it made and what was handed out.
#[derive(Debug, Drop)]
pub struct Recorded {
    /// The actor.
    pub who: Actor,
    /// The event's stamp, from 1 on.
    pub stamp: u64,
    /// The number of the event's act: 1 a step, 2 a frame, 3 an arrival, 4 an accept, 5 a delivery, 6 a tick.
    pub act: u8,
    /// What the event says beside its act: of an arrival the bytes, of a tick the moment, and nothing else.
    pub body: Bytes,
    /// The entry that the event made in a shared object's history; none where it touched no object.
    pub touched: Option<Kept>,
    /// What the object handed out, as bytes.
    pub given: Bytes,
}

impl Recorded {
    /// An equal event. `AllocError` where memory runs out.
    pub fn copy(&self) -> Result<Recorded, AllocError>
        ensures { IfOk result (λ e. e ≡ self.now) }
    {
        Ok(Recorded {
            who: self.who,
            stamp: self.stamp,
            act: self.act,
            body: self.body.copy()?,
            touched: copy_entry(&self.touched)?,
            given: self.given.copy()?,
        })
    }
}

/// An equal entry, or none. `AllocError` where memory runs out.
fn copy_entry(entry: &Option<Kept>) -> Result<Option<Kept>, AllocError>
    ensures { IfOk result (λ x. x ≡ entry.now) }
{
    match entry {
        None => Ok(None),
        Some(kept) => Ok(Some(kept.copy()?)),
    }
}

/// Whether both are one entry, or none.
pub(crate) fn same_entry(one: &Option<Kept>, other: &Option<Kept>) -> bool
    ensures { IsTrue result ↔ (one.now ≡ other.now) }
{
    match (one, other) {
        (None, None) => true,
        (Some(a), Some(b)) => a.same(b),
        _ => false,
    }
}
