//! Categories, labels, the flow of information between labels, and the rules by which an event is refused.
#![tactic(auto)]

mod category;
mod fault;
mod label;
mod laws;
mod local_label;
mod rule;
mod search;

pub use category::{Category, Kind, PubKey};
pub use fault::{LabelFault, MEMBER_LIMIT};
pub use label::Label;
pub use laws::{flow_is_membership, names_are_sets, numbers_are_sets};
pub use local_label::LocalLabel;
pub use rule::Rule;
