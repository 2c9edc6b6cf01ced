//! What a connection offers and enters.
#![tactic(auto)]

use ds_label::Rule;
use ds_msg::Message;
use std::collections::VecDeque;
use std::marker::Model;

/// What was read of a connection.
#[derive(Clone, Copy, Debug, PartialEq, Eq)]
pub enum Offer {
    /// The hello, which is taken.
    Hello,
    /// A frame, which stays offered until it is settled.
    Frame {
        /// The place of its inlet among the host's.
        inlet: u32,
        /// Its number.
        number: u32,
    },
}

/// What a connection enters.
#[derive(Clone, Copy, Debug, PartialEq, Eq)]
pub enum ConnEntry {
    /// A fresh frame was taken.
    Frame {
        /// Its number.
        number: u32,
        /// How many messages it has.
        count: usize,
    },
    /// A stale frame was dropped.
    Stale {
        /// Its number.
        number: u32,
    },
    /// A message passed.
    Pass {
        /// The mailbox for which it is.
        slot: u32,
    },
    /// A message was dropped.
    Drop {
        /// The rule that failed.
        rule: Rule,
        /// The mailbox for which it was.
        slot: u32,
    },
}

/// A frame that was read and isn't settled yet.
#[derive(Debug, Drop)]
pub(crate) struct Pending {
    /// The place of its inlet among the host's.
    pub inlet: u32,
    /// Its number.
    pub number: u32,
    /// Its messages, in order.
    pub messages: VecDeque<Message>,
}

impl Model for Pending {
    ghost use Rattle.ds_inlet.specs.OfferedFrames.{OfferedFrame};

    ghost Value = { OfferedFrame };

    ghost view = { λ o. record { inlet = o.inlet; number = o.number; messages = o.messages.items } };
}
