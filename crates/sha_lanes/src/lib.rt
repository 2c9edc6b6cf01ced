//! SHA-256 (FIPS 180-4) of eight messages of one length at once, one in each lane of a vector.
//!
//! `digests` hashes eight whole messages; `hashes` hashes eight messages of 55 bytes, and `chains` hashes such messages
//! over and over, each value from the one before. Each lane's answer is `sha256` of its own message, whatever the other
//! lanes hold.
#![tactic(auto)]

mod bytes;
mod one_block;
mod rounds;
mod steps;

pub use bytes::digests;
pub use one_block::{chains, hashes};
