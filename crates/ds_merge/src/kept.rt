//! Entries of shared objects, as bytes.

ghost use Rattle.std.specs.Prelude.{◌≡◌, ◌↔◌, IfOk, IsTrue};

use ds_script::Actor;
use ds_wire::Bytes;
use std::alloc::AllocError;

/// The name of a shared object. Names order by host, then by kind, then by id.
#[derive(Clone, Copy, Debug, PartialEq, Eq, PartialOrd, Ord)]
pub struct ObjectName {
    /// Its host's place in the document.
    pub host: u32,
    /// 1 for a desk, 2 for a mailbox, 3 for a lane, 4 for an inlet.
    pub kind: u8,
    /// 0 for the desk; a mailbox's slot, a lane's number, or an inlet's place on its host.
    pub id: u32,
}

/// An entry of a shared object's history.
#[derive(Debug, Drop)]
pub struct Kept {
    /// The object.
    pub object: ObjectName,
    /// The stamp of the event that made it, from 1 on.
    pub stamp: u64,
    /// Who made the event.
    pub who: Actor,
    /// The number of the entry's act. Of a desk: 1 a look, 2 a tick, 3 a delegation, 4 an import, 5 a mapping, 6 a refusal. Of a
    /// mailbox: 1 a put, 2 a put that found it full, 3 a take. Of a lane: 1 a message, 2 a message that found it full, 3 a lift.
    /// Of an inlet: 1 a fresh number, 2 a stale one.
    pub act: u8,
    /// What the entry says beside its act.
    pub body: Bytes,
}

impl Kept {
    /// Whether both are one entry.
    pub fn same(&self, other: &Kept) -> bool
        ensures { IsTrue result ↔ (self.now ≡ other.now) }
    {
        self.object == other.object
            && self.stamp == other.stamp
            && self.who == other.who
            && self.act == other.act
            && self.body.same(&other.body)
    }

    /// An equal entry. `AllocError` where memory runs out.
    pub fn copy(&self) -> Result<Kept, AllocError>
        ensures { IfOk result (λ k. k ≡ self.now) }
    {
        Ok(Kept {
            object: self.object,
            stamp: self.stamp,
            who: self.who,
            act: self.act,
            body: self.body.copy()?,
        })
    }
}
