//! A mailbox and its history.
#![tactic(auto)]

ghost use Rattle.std.specs.Prelude.{◌≡◌, ◌<◌, ◌≤◌, [], ◌∷◌, length, nat_lt, not, slice_get, IfOk, OnOk, OnErr, IfSome, MatchResult, MatchOption, Some};
ghost use Rattle.ds_model.specs.Mailbox.{put_entry, TookOut};
ghost use Rattle.ds_box.specs.Boxes.{IsReplay, IsShortMail, last_stamp, entered, checkpointed, fresh_mailbox};

use crate::copying::copies_of;
use crate::entry::{BoxAct, BoxEntry, BoxSegment};
use ds_label::LocalLabel;
use ds_msg::LocalMessage;
use ds_queue::Queue;
use ds_script::Actor;
use std::alloc::{AllocError, Global};
use std::marker::Model;
use std::mem;
use thiserror::Error;

/// No message waits.
#[derive(Clone, Copy, PartialEq, Eq, Debug, Error)]
#[error("no message waits")]
pub struct Empty;

/// A mailbox of a host: its label, the process that owns it, how many messages it has room for, what waits, and the
/// history since its opening. What waits is the replay of the history from the opening, and its stamps rise.
#[derive(Drop)]
pub struct BoxState {
    label: LocalLabel,
    owner: u32,
    room: u32,
    waiting: Queue<LocalMessage>,
    opening: Vec<LocalMessage>,
    before: u64,
    history: Vec<BoxEntry>,
    last: u64,
}

impl Model for BoxState {
    ghost use Rattle.ds_box.specs.Boxes.{MailboxWithCapacity};

    ghost Value = { MailboxWithCapacity };

    ghost use Rattle.ds_box.specs.Inside.{seen_of, IsSound};

    ghost view = { seen_of };

    ghost invariant = { IsSound };
}

impl BoxState {
    /// A mailbox in which nothing waits, without entries. It takes no memory.
    pub fn new(alloc: Global, label: LocalLabel, owner: u32, room: u32) -> BoxState
        ensures { result.mailbox ≡ fresh_mailbox label owner room }
    {
        BoxState {
            label,
            owner,
            room,
            waiting: Queue::new(alloc, room as usize),
            opening: Vec::new(alloc),
            before: 0,
            history: Vec::new(alloc),
            last: 0,
        }
    }

    /// Its label.
    pub fn label(&self) -> &LocalLabel
        ensures { result.now ≡ self.now.mailbox.label }
    {
        &self.label
    }

    /// The place of the process that owns it.
    pub fn owner(&self) -> u32
        ensures { result ≡ self.now.mailbox.owner }
    {
        self.owner
    }

    /// How many messages it has room for.
    pub fn room(&self) -> u32
        ensures { result ≡ self.now.mailbox.room }
    {
        self.room
    }

    /// How many messages wait.
    pub fn waits(&self) -> usize
        ensures { result ≡ length self.now.mailbox.waiting }
    {
        self.waiting.len()
    }

    /// Whether as many messages wait as it has room for.
    pub fn is_full(&self) -> bool
        ensures { result ≡ not (nat_lt (length self.now.mailbox.waiting) self.now.mailbox.room) }
    {
        self.waiting.len() >= self.room as usize
    }

    /// The message that waits longest.
    pub fn oldest(&self) -> Option<&LocalMessage>
        ensures oldest { MatchOption result (self.now.mailbox.waiting ≡ []) (λ m. slice_get self.now.mailbox.waiting 0 ≡ Some m.now) }
        ensures short { IfSome result (λ m. IsShortMail m.now) }
    {
        self.waiting.oldest()
    }

    /// The entries since the opening, in order.
    pub fn history(&self) -> &[BoxEntry]
        ensures { result.now ≡ self.now.mailbox.history }
    {
        self.history.as_slice()
    }

    /// The stamp of the last entry; where there is none, of the last one before the opening, 0 at first.
    pub fn last(&self) -> u64
        ensures { result ≡ last_stamp self.now.mailbox }
    {
        self.last
    }

    /// What every mailbox keeps: what waits is the replay of its history, each entry where it may stand, the stamps rise,
    /// no more wait than there is room for, and each message has at most 16,384 bytes.
    pub fn is_replay(&self)
        ensures { IsReplay self.now.mailbox }
    {
        let _room = self.room;
    }

    /// Makes room for one `put` or `take`. `AllocError` where memory runs out; nothing but the room changed then.
    pub fn reserve(&mut self) -> Result<(), AllocError>
        ensures same { self.new.mailbox ≡ self.old.mailbox }
        ensures room { OnOk result (0 < self.new.spare) }
    {
        self.history.reserve(1)?;
        self.waiting.reserve()
    }

    /// Queues a message, or drops it where the mailbox is full. The entry, put or full, holds `kept`, which is equal to the
    /// message. It takes no memory.
    pub fn put(&mut self, stamp: u64, who: Actor, message: LocalMessage, kept: LocalMessage)
        requires room { 0 < self.old.spare }
        requires later { last_stamp self.old.mailbox < stamp }
        requires short { IsShortMail message }
        requires same { kept ≡ message }
        ensures { self.new.mailbox ≡ entered stamp who (put_entry self.old.mailbox.room message self.old.mailbox.waiting) self.old.mailbox }
    {
        if self.is_full() {
            let act = BoxAct::Full(kept);
            self.history.push_reserved(BoxEntry { stamp, who, act });
            self.last = stamp;
            return;
        }
        let Ok(()) = self.waiting.push(message) else {
            unreachable!();
        };
        let act = BoxAct::Put(kept);
        self.history.push_reserved(BoxEntry { stamp, who, act });
        self.last = stamp;
    }

    /// Takes the message that waits longest. It takes no memory.
    ///
    /// # Errors
    ///
    /// `Empty` exactly where none waits. Nothing is entered then, and nothing changed.
    pub fn take(&mut self, stamp: u64, who: Actor) -> Result<LocalMessage, Empty>
        requires room { 0 < self.old.spare }
        requires later { last_stamp self.old.mailbox < stamp }
        ensures taken { MatchResult result (λ m. slice_get self.old.mailbox.waiting 0 ≡ Some m) (λ _. self.old.mailbox.waiting ≡ []) }
        ensures short { IfOk result IsShortMail }
        ensures ok { OnOk result (self.new.mailbox ≡ entered stamp who TookOut self.old.mailbox) }
        ensures err { OnErr result (self.new ≡ self.old) }
    {
        let Some(message) = self.waiting.pop() else {
            return Err(Empty);
        };
        let act = BoxAct::Took;
        self.history.push_reserved(BoxEntry { stamp, who, act });
        self.last = stamp;
        Ok(message)
    }

    /// Hands out the history, and makes a copy of the present state the opening. `AllocError` where memory runs out;
    /// nothing changed then.
    pub fn checkpoint(&mut self) -> Result<BoxSegment, AllocError>
        ensures segment { IfOk result (λ segment. segment.items ≡ self.old.mailbox.history) }
        ensures ok { OnOk result (self.new.mailbox ≡ checkpointed self.old.mailbox) }
        ensures err { OnErr result (self.new ≡ self.old) }
    {
        let alloc = *self.history.allocator();
        self.opening = copies_of(alloc, &self.waiting)?;
        self.before = self.last;
        Ok(mem::replace(&mut self.history, Vec::new(alloc)))
    }
}
