//! What a shared call answers of its event.

use ds_wire::Bytes;

/// What a shared call did: the entry that it made in the object's history, spelled, and what it handed out, spelled.
#[derive(Debug, Drop)]
pub struct Receipt {
    /// The stamp of the event, which is one more than the greater of the caller's and the object's last one.
    pub stamp: u64,
    /// The entry's place in the object's history since its opening, from 0.
    pub place: u64,
    /// The number of the entry's act.
    pub act: u8,
    /// What the entry says beside its act.
    pub body: Bytes,
    /// What the call handed out.
    pub given: Bytes,
}
