//! An entry of a shared object's history, spelled.

use ds_script::Actor;
use ds_wire::Bytes;

/// An entry of a shared object's history, spelled as receipts spell it.
#[derive(Debug, Drop)]
pub struct SpelledEntry {
    /// The stamp of the event that made it, from 1 on.
    pub stamp: u64,
    /// The actor whose event it is.
    pub who: Actor,
    /// The number of its act.
    pub act: u8,
    /// What it says beside its act.
    pub body: Bytes,
}
