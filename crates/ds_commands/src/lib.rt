//! The commands that answer from one key, one signature, or one list of certificates: `keygen`, `sign`, `verify` and `chain`.
//! Each is a function of the whole input; `keygen` and `sign` look besides at the mark of their key, and `sign` raises it
//! past the leaf that it used, before its answer is handed out.
#![tactic(auto)]

mod answering;
mod chains;
mod command;
mod keys;
mod lines;
mod reply;
mod scan;
mod verifying;
mod words;

pub use answering::answer;
pub use command::Command;
pub use reply::{CommandFault, Reply};
pub use words::{command_of, number_of};
