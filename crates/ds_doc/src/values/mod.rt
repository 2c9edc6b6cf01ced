//! The document that a draft is.
mod categories;
mod certs;
mod events;
mod hosts;
mod whole;

pub(crate) use categories::Keys;
pub(crate) use whole::doc_of;
