//! An exporter taken apart for threads, and what they leave. [`Crew::of`] gives what the threads of a host share, each object
//! behind its lock, and its actors, each with an empty record. After all threads are joined, [`histories`] spells what the objects
//! entered, and [`records`] gives what the actors recorded, as a merge takes both.
#![tactic(auto)]

mod actor_records;
mod actors;
mod crew;
mod object_histories;
mod objects;

pub use actor_records::records;
pub use crew::Crew;
pub use object_histories::histories;
