//! Hash-based signatures by RFC 8554 with SHA-256: LMS trees of height 5 and 10 over LM-OTS one-time
//! keys of width 4 and 8, one level (no HSS).
//!
//! A host's secret gives a seed and an identifier (`derive`), these make a tree (`TreeKey::make`), the
//! tree has a public key and signs one message at each leaf (`public`, `sign_at`), and anyone tests a
//! signature (`verify`). Which leaf is used when is the caller's matter. Chains run eight at a time, one in each lane of
//! a vector (`sha_lanes`): for a tree those of eight leaves, for a signature its longest first, so that few lanes idle.
#![tactic(auto)]

mod chain;
mod derivation;
mod hash;
mod lanes;
mod law;
mod leaves;
mod one_time;
mod params;
mod path;
mod tree;
mod verifying;

pub use derivation::derive;
pub use law::signatures_are_good;
pub use params::{LmsType, OtsType, Params};
pub use tree::TreeKey;
pub use verifying::{Bad, verify};
