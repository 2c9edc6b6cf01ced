//! A host's public state, the desk: its moment, the certificates that it keeps, those that it issued, its table of foreign
//! categories and its identity key, with the history of all that touched them.
#![tactic(auto)]

mod act;
mod calls;
mod delegating;
mod draft;
mod fault;
mod history;
mod importing;
mod issued;
mod laws;
mod mapping;
mod opening;
mod state;

pub use act::{DeskChange, DeskEntry};
pub use fault::{DeskFault, EntryFault};
pub use history::DeskHistory;
pub use issued::IssuedList;
pub use laws::made_delegations_are_good;
pub use opening::DeskOpening;
pub use state::DeskState;
