//! The outside of an exporter: where bytes come from and go to, where marks are kept, how connections are made.
//!
//! Each object of the outside is a trait, so that the crates above are proved over any of them. A trait tells by ghost
//! members what contracts may know of an object, and counts its faults; a call fails only where that count rose.
//!
//! The objects in memory are for tests and for runs that meet no outside. `MemSource`, `MemSink`, `MemKeeper` and `MemWire`
//! fail at the calls that a list names; `CalmSource`, `CalmSink` and `CalmKeeper` never fail. `ReadSource`, `WriteSink`
//! and `FileKeeper` reach the real outside, over readers, writers and files of the standard library.
#![tactic(auto)]

mod calm_keeper;
mod calm_sink;
mod calm_source;
mod clock;
mod failed;
mod fault_plan;
mod file_keeper;
mod gate;
mod keeper;
mod mark_text;
mod mem_keeper;
mod mem_sink;
mod mem_source;
mod mem_wire;
mod read_source;
mod sink;
mod source;
mod wire;
mod write_sink;

pub use calm_keeper::CalmKeeper;
pub use calm_sink::CalmSink;
pub use calm_source::CalmSource;
pub use clock::{Clock, FixedClock};
pub use failed::Failed;
pub use file_keeper::FileKeeper;
pub use gate::{Gate, NoGate};
pub use keeper::Keeper;
pub use mem_keeper::MemKeeper;
pub use mem_sink::MemSink;
pub use mem_source::MemSource;
pub use mem_wire::MemWire;
pub use read_source::ReadSource;
pub use sink::Sink;
pub use source::Source;
pub use wire::Wire;
pub use write_sink::WriteSink;
