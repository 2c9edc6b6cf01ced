//! Frames: what exporters write to each other's streams, and reading it again in whatever pieces it comes.
//!
//! A stream is one hello, which carries a lane certificate, and then frames, each with up to 16 messages and a signature under
//! the lane's key. [`FrameReader`] takes pieces of a stream and hands out its items; [`hello_bytes`], [`frame_part`] and
//! [`frame_bytes`] write them.
#![tactic(auto)]

mod bodies;
mod cause;
mod checks;
mod fields;
mod item;
mod laws;
mod outer;
mod reader;
mod reading;
mod splitting;
mod writing;

pub use bodies::BodyList;
pub use cause::Cause;
pub use item::{Failure, Frame, Item, ReadEnd, ReadFaultOrMemory};
pub use laws::{
    items_are_read_again, pieces_make_no_difference, prefixes_are_open, reading_undoes_spelling,
    spellings_are_prefix_free, streams_carry_what_was_written,
};
pub use reader::FrameReader;
pub use reading::item_of;
pub use writing::{frame_bytes, frame_part, hello_bytes};
