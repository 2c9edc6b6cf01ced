//! What a process asks.

use ds_label::{Category, PubKey, Rule};
use ds_msg::{LocalMessage, Message};
use ds_wire::Bytes;

/// A public act of a process, which its host's desk does.
#[derive(Debug, Drop)]
pub enum DeskRequest {
    /// A certificate that the key may act for the category, from a moment on and before another.
    Delegating {
        category: Category,
        to: PubKey,
        from: u64,
        until: u64,
    },
    /// The certificate that these bytes spell is kept.
    Importing(Bytes),
    /// The category gets a number on this host.
    Mapping(Category),
}

/// What a process asks of at most one shared object of its host. Mailboxes and lanes are told by their places, from 0.
#[derive(Debug, Drop)]
pub enum ProcessAsk {
    /// Nothing: the process has ended, or has nothing to do.
    Waits,
    /// A step inside the process, which is done already.
    Internal,
    /// The operation is refused; the process notes the rule and moves on.
    Refused(Rule),
    /// The message goes into the mailbox at this place; and an equal one for its entry.
    Put(usize, LocalMessage, LocalMessage),
    /// The judged message goes onto the lane at this place; and an equal one for its entry.
    Admit(usize, Message, Message),
    /// The oldest message of the mailbox at this place goes into the register.
    TakeFrom {
        place: usize,
        reg: u8,
        slot: u32,
    },
    /// A public act, with the register and the host of a delegation.
    PublicAct {
        request: DeskRequest,
        reg: u8,
        host: u32,
    },
    /// The desk judges a message to another host.
    AsksJudgement(Message),
}
