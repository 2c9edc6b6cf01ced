//! A host's objects behind locks, for hosts that run on threads: mailboxes, lanes, inlets and the desk. Each locked object keeps
//! that its state is the replay of its history and that the stamps rise. Each shared call makes one event, enters it in the
//! object's history and answers a receipt of it.
//!
//! A call takes the lock, and does the rest in a function on the state that the lock lends, whose contract says all that it
//! does. What a call says of its receipt hangs on its arguments and on what it hands out alone, since other callers may take the
//! lock at any time. Where no stamp is left the call takes the lock again and again.
#![tactic(auto)]

mod desk;
mod desk_act;
mod desk_acts;
mod desk_history;
mod desk_judging;
mod entry;
mod inlet;
mod lane;
mod lending;
mod mailbox;
mod receipt;
mod spelling;
mod told;

pub use desk::{LockedDesk, SharedDesk, act_in, desk_entries};
pub use desk_act::{DeskAct, DeskReply, TurnFault};
pub use entry::SpelledEntry;
pub use inlet::{SharedInlet, accept_in, inlet_entries};
pub use lane::{SharedLane, admit_in, lane_entries, lift_in};
pub use mailbox::{SharedBox, TakeEnd, box_entries, put_in, take_in};
pub use receipt::Receipt;
