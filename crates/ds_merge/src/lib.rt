//! What threads recorded, merged into one list of events: by stamp and actor. A walk goes over the list with a machine beside
//! it, past each event that the histories and the machine's step give as it was recorded. It goes past all of them and leaves
//! no entry, or it stops at a pair of an entry and an event.
//!
//! The machine is a trait, so nothing here knows what an event does. The machine that is given is at the openings of all objects
//! and actors already; histories and records hold none.
//!
//! Sorting takes time in the order of n log n for n events. The walk takes, beside the machine's own steps, a few look-ups in
//! sorted tables for each event: of the actors' last stamps, and of the objects' last stamps, counts and histories.
#![tactic(auto)]

mod index;
mod kept;
mod laws;
mod machine;
mod merging;
mod order;
mod recorded;
mod records;
mod tables;
mod walking;

pub use kept::{Kept, ObjectName};
pub use laws::{merged_once, parts_are_runs};
pub use machine::{Machine, Outcome};
pub use merging::{MergeFault, merge};
pub use order::{EventKey, EventPlace, event_at, merged};
pub use recorded::Recorded;
pub use records::{ActorRecord, History};
