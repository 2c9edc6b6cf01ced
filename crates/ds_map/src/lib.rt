//! A host's own numbers of categories: the table of the foreign ones, the two ways between names and numbers, and that
//! whatever is asked of labels is answered alike over both.
#![tactic(auto)]

mod fault;
mod labels;
mod laws;
mod number;
mod table;

pub use fault::MapFault;
pub use laws::{answers_are_the_same, labels_are_one_to_one, names_stay, numbers_are_one_to_one};
pub use number::{ROW_LIMIT, home_number};
pub use table::MapTable;
