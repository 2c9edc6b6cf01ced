//! What is left when all threads are joined: the objects' histories and the actors' records.

use crate::kept::{Kept, ObjectName};
use crate::recorded::Recorded;
use ds_script::Actor;

/// The entries of one object, in the order in which they were made.
#[derive(Debug, Drop)]
pub struct History {
    /// The object.
    pub object: ObjectName,
    /// Its entries.
    pub entries: Vec<Kept>,
}

/// The events of one actor, in the order in which it made them.
#[derive(Debug, Drop)]
pub struct ActorRecord {
    /// The actor.
    pub who: Actor,
    /// Its events.
    pub events: Vec<Recorded>,
}
