//! The one error of the outside.
#![tactic(auto)]

use thiserror::Error;

/// A call of an object of the outside failed. It says no more than that: the object's count of faults rose.
#[derive(Clone, Copy, PartialEq, Eq, Debug, Error)]
#[error("a call of the outside failed")]
pub struct Failed;
