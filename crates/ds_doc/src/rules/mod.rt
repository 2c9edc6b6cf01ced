//! The rules that a document of the right forms may break.
mod addresses;
mod certs;
mod events;
mod facts;
mod hosts;
mod named;
mod noted;
mod repeats;
mod secrets;
mod whole;

pub(crate) use addresses::numbers;
pub(crate) use secrets::tree_of;
pub(crate) use whole::{least_broken, least_over_full};
