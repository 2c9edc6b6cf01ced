//! What setup makes of a document: the plan, which no event changes, and the world before the first event. Definitions
//! alone, and the laws that every document's setup fits what the theorems about runs ask of it.
#![tactic(auto)]

mod laws;

pub use laws::{
    connections_are_in_order, desks_begin_so, lanes_are_received, runs_are_one, setups_fit,
};
