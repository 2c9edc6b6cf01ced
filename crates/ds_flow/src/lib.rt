//! What an exporter judges: whether a message may go onto a lane, whether messages may be framed, and whether a message that
//! arrived may be put into its mailbox; and the certificates that it attaches to a message.
#![tactic(auto)]

mod attaching;
mod fault;
mod holding;
mod judging;
mod shown;

pub use attaching::attach;
pub use fault::FlowFault;
pub use judging::{judge_arrive, judge_box, judge_frame, judge_send};
