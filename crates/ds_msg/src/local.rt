//! Messages inside a host.

ghost use Rattle.std.specs.Prelude.{◌≡◌, IfOk};

use ds_label::{LocalLabel, PubKey};
use ds_wire::Bytes;
use std::alloc::AllocError;

/// What a mailbox keeps of a message, in its host's own numbers.
#[derive(Debug, Drop)]
pub struct LocalMessage {
    /// The sending exporter's key.
    pub from: PubKey,
    /// The message's label.
    pub label: LocalLabel,
    /// The ownership that it grants.
    pub own: LocalLabel,
    /// The clearance that it grants.
    pub clear: LocalLabel,
    /// What it says.
    pub payload: Bytes,
}

impl LocalMessage {
    /// An equal one. `AllocError` where memory runs out.
    pub fn copy(&self) -> Result<LocalMessage, AllocError>
        ensures { IfOk result (λ x. x ≡ self.now) }
    {
        Ok(LocalMessage {
            from: self.from,
            label: self.label.copy()?,
            own: self.own.copy()?,
            clear: self.clear.copy()?,
            payload: self.payload.copy()?,
        })
    }
}
