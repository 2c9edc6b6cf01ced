//! What a desk enters.
#![tactic(auto)]

use ds_cert::{Cert, Delegation};
use ds_label::{Category, Rule};
use ds_script::Actor;

/// What a call did.
#[derive(Debug, Drop)]
pub enum DeskChange {
    /// A judgement read the desk.
    Look,
    /// The moment became the greater of itself and `to`.
    Tick {
        /// A moment, in seconds.
        to: u64,
    },
    /// This delegation was made and signed at the identity key's next leaf.
    Delegated(Delegation),
    /// This certificate was imported.
    Imported(Cert),
    /// This category was mapped. Its creator isn't the host, or its number is below `2^62`.
    Mapped(Category),
    /// The call was refused by this rule.
    Refused(Rule),
}

/// A call: when it came, who made it and what it did.
#[derive(Debug, Drop)]
pub struct DeskEntry {
    /// The stamp of the call's event.
    pub stamp: u64,
    /// The actor whose event it is.
    pub who: Actor,
    /// What the call did.
    pub act: DeskChange,
}
