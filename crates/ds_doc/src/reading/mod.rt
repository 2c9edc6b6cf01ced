//! What the values of a document say.
mod basics;
mod certs;
mod events;
mod hosts;
mod scripts;
mod secrets;
mod whole;

pub(crate) use basics::has_category;
pub(crate) use certs::is_address_in_range;
pub(crate) use whole::read_draft;
