//! All actors of all hosts in phases over locked objects: what happens between phases. What is left of the streams that lanes wrote
//! arrives at the connections that read them, and all that an actor records in phases with arrivals between them is one run.
#![tactic(auto)]

mod arrival_laws;
mod arriving;

pub use arrival_laws::arrivals_run;
pub use arriving::arrive_all;
