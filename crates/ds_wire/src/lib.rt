//! Bytes, and numbers as bytes.
//!
//! [`Bytes`] is an owned list of bytes and [`Buffer`] the same with room that was taken beforehand. The `get_` calls read
//! a field off the front of a slice, the `put_` calls append one. Each number is unsigned and big-endian.
#![tactic(auto)]

mod buffer;
mod bytes;
mod laws;
mod reading;
mod writing;

pub use buffer::Buffer;
pub use bytes::Bytes;
pub use laws::{read_again, spelled_so};
pub use reading::{Short, get_bytes, get_u8, get_u16, get_u32, get_u64};
pub use writing::{put_u8, put_u16, put_u32, put_u64};
