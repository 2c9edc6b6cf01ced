//! A signing key that signs at each leaf once. Its next leaf is kept by a `Keeper`, so that it outlives the process.
#![tactic(auto)]

mod fault;
mod law;
mod signer;

pub use fault::SignFault;
pub use law::no_leaf_twice;
pub use signer::Signer;
