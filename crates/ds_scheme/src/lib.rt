//! The one scheme: the plain world's open functions as the other crates define them. It is what the law over two runs and
//! lawful delivery ask of a scheme, so both hold of it.
#![tactic(auto)]

mod laws;

pub use laws::{
    an_example, chains_stand_in_the_list, delivered_lawfully, good_is_signed,
    messages_have_spellings, parts_have_this_scheme, reads_what_was_written, receivers_read_all,
    serves_the_two_run_law, signed_frames_stand, two_runs,
};
