//! Messages: what exporters carry to each other, and what a mailbox keeps of it.
#![tactic(auto)]

mod certs;
mod fields;
mod laws;
mod local;
mod message;
mod writing;

pub use certs::CertBytes;
pub use laws::{messages_are_short, reading_undoes_spelling, spellings_are_prefix_free};
pub use local::LocalMessage;
pub use message::Message;
