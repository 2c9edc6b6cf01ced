//! What waits on a lane, and its history.
#![tactic(auto)]

ghost use Rattle.std.specs.Prelude.{vec_len, vec_capacity, ◌+◌, ◌≡◌, ◌↔◌, ◌<◌, ◌≤◌, ◌++◌, [], ◌∷◌, length, min, take, drop, nat_lt, not, slice_get, option_copied, All, Err, IfOk, OnOk, OnErr, IfSome};
ghost use Rattle.ds_model.specs.Lane.{admit_entry, front};
ghost use Rattle.ds_lane.specs.Lanes.{IsReplay, IsOn, WaitsOn, sent_by, last_stamp, entered, lift_entry, checkpointed, fresh_lane};

use crate::batch::{BodyBatch, Waiting};
use crate::copying::copies_of;
use crate::entry::{LaneAct, LaneEntry, LaneSegment};
use ds_cert::LaneCert;
use ds_msg::Message;
use ds_queue::Queue;
use ds_script::Actor;
use std::alloc::{AllocError, Global};
use std::marker::Model;
use std::mem;
use thiserror::Error;

/// Most messages of a frame.
const FRAME_LIMIT: usize = 16;

/// Why nothing is lifted. Nothing changed then.
#[derive(Clone, Copy, PartialEq, Eq, Debug, Error)]
pub enum LiftEnd {
    /// No message waits.
    #[error("no message waits")]
    Idle,
    /// Memory ran out.
    #[error("out of memory")]
    NoMemory,
}

/// The part of a lane that the processes that send share with its worker: its certificate, how many messages it has room
/// for, what waits, and the history since its opening. What waits is the replay of the history from the opening, its stamps
/// rise, and each message has the certificate's receiver and label and a spelling.
#[derive(Drop)]
pub struct LaneState {
    cert: LaneCert,
    room: u32,
    waiting: Queue<Waiting>,
    opening: Vec<Waiting>,
    before: u64,
    history: Vec<LaneEntry>,
    last: u64,
}

impl Model for LaneState {
    ghost use Rattle.ds_lane.specs.Lanes.{LaneWithCapacity};

    ghost Value = { LaneWithCapacity };

    ghost use Rattle.ds_lane.specs.LaneInside.{seen_of, IsSound};

    ghost view = { seen_of };

    ghost invariant = { IsSound };
}

/// Moves that many messages from the front of one list into the other, which is empty. It takes no memory.
#[tactic(auto, using(crate::proofs::Fronts::front_moved, crate::proofs::Fronts::rest_left, crate::proofs::Fronts::one_moved))]
fn move_front(waiting: &mut Queue<Waiting>, count: usize, moved: &mut Vec<Waiting>)
    requires there { count ≤ length waiting.old.items }
    requires room { count ≤ vec_capacity moved.old }
    requires none { moved.old.items ≡ [] }
    ensures moved { moved.new.items ≡ take count waiting.old.items }
    ensures left { waiting.new ≡ record waiting.old { items = drop count waiting.old.items } }
{
    for _ in 0..count {
        if let Some(oldest) = waiting.pop() {
            moved.push_reserved(oldest);
        }
    }
}

impl LaneState {
    /// A lane on which nothing waits, without entries. It takes no memory.
    pub fn new(alloc: Global, cert: LaneCert, room: u32) -> LaneState
        ensures { result.lane ≡ fresh_lane cert room }
    {
        LaneState {
            cert,
            room,
            waiting: Queue::new(alloc, room as usize),
            opening: Vec::new(alloc),
            before: 0,
            history: Vec::new(alloc),
            last: 0,
        }
    }

    /// Its certificate.
    pub fn cert(&self) -> &LaneCert
        ensures { result.now ≡ self.now.lane.cert }
    {
        &self.cert
    }

    /// How many messages it has room for.
    pub fn room(&self) -> u32
        ensures { result ≡ self.now.lane.room }
    {
        self.room
    }

    /// How many messages wait.
    pub fn waits(&self) -> usize
        ensures { result ≡ length self.now.lane.waiting }
    {
        self.waiting.len()
    }

    /// Whether as many messages wait as it has room for.
    pub fn is_full(&self) -> bool
        ensures { result ≡ not (nat_lt (length self.now.lane.waiting) self.now.lane.room) }
    {
        self.waiting.len() >= self.room as usize
    }

    /// The waiting message at a place; the oldest is at 0.
    pub fn waiting(&self, place: usize) -> Option<&Waiting>
        ensures { option_copied result ≡ slice_get self.now.lane.waiting place }
    {
        self.waiting.get(place)
    }

    /// The entries since the opening, in order.
    pub fn history(&self) -> &[LaneEntry]
        ensures { result.now ≡ self.now.lane.history }
    {
        self.history.as_slice()
    }

    /// The stamp of the last entry; where there is none, of the last one before the opening, 0 at first.
    pub fn last(&self) -> u64
        ensures { result ≡ last_stamp self.now.lane }
    {
        self.last
    }

    /// What every lane keeps: what waits is the replay of its history, each entry where it may stand, the stamps rise, no
    /// more wait than there is room for, and each message has the certificate's receiver and label and a spelling.
    pub fn is_replay(&self)
        ensures { IsReplay self.now.lane }
    {
        let _room = self.room;
    }

    /// Makes room for one `admit` or `lift`. `AllocError` where memory runs out; nothing but the room changed then.
    pub fn reserve(&mut self) -> Result<(), AllocError>
        ensures same { self.new.lane ≡ self.old.lane }
        ensures room { OnOk result (0 < self.new.spare) }
    {
        self.history.reserve(1)?;
        self.waiting.reserve()
    }

    /// Queues a message of the process that `who` names, or drops it where as many wait as there is room for. The message
    /// has the certificate's receiver and label, and a spelling. The entry, queued or full, holds `kept`, which is equal to
    /// the message. It takes no memory.
    pub fn admit(&mut self, stamp: u64, who: Actor, message: Message, kept: Message)
        requires room { 0 < self.old.spare }
        requires later { last_stamp self.old.lane < stamp }
        requires on { IsOn self.old.lane.cert message }
        requires same { kept ≡ message }
        ensures { self.new.lane ≡ entered stamp who (admit_entry self.old.lane.room (sent_by who.index message) self.old.lane.waiting) self.old.lane }
    {
        let from = who.index;
        let kept = Waiting {
            from,
            message: kept,
        };
        if self.is_full() {
            let act = LaneAct::Full(kept);
            self.history.push_reserved(LaneEntry { stamp, who, act });
            self.last = stamp;
            return;
        }
        let Ok(()) = self.waiting.push(Waiting { from, message }) else {
            unreachable!();
        };
        let act = LaneAct::Queued(kept);
        self.history.push_reserved(LaneEntry { stamp, who, act });
        self.last = stamp;
    }

    /// Hands out the messages that wait longest: all that wait, and at most 16.
    ///
    /// # Errors
    ///
    /// - `Idle` exactly where none waits.
    /// - `NoMemory` where there is no memory for them.
    ///
    /// Nothing is entered after either, and nothing changed.
    pub fn lift(&mut self, stamp: u64, who: Actor) -> Result<BodyBatch, LiftEnd>
        requires room { 0 < self.old.spare }
        requires later { last_stamp self.old.lane < stamp }
        ensures lifted { IfOk result (λ batch. batch ≡ front self.old.lane.waiting) }
        ensures on { IfOk result (λ batch. All (WaitsOn self.old.lane.cert) batch) }
        ensures some { IfOk result (λ batch. 0 < length batch) }
        ensures ok { OnOk result (self.new.lane ≡ entered stamp who (lift_entry self.old.lane.waiting) self.old.lane) }
        ensures idle { (result ≡ Err LiftEnd.Idle) ↔ (self.old.lane.waiting ≡ []) }
        ensures err { OnErr result (self.new ≡ self.old) }
    {
        let count = FRAME_LIMIT.min(self.waiting.len());
        if count == 0 {
            return Err(LiftEnd::Idle);
        }
        let Ok(mut items) = Vec::with_capacity(*self.history.allocator(), count) else {
            return Err(LiftEnd::NoMemory);
        };
        move_front(&mut self.waiting, count, &mut items);
        let act = LaneAct::Lifted(count as u32);
        self.history.push_reserved(LaneEntry { stamp, who, act });
        self.last = stamp;
        Ok(BodyBatch::of(items))
    }

    /// Hands out the history, and makes a copy of the present state the opening. `AllocError` where memory runs out;
    /// nothing changed then.
    pub fn checkpoint(&mut self) -> Result<LaneSegment, AllocError>
        ensures segment { IfOk result (λ segment. segment.items ≡ self.old.lane.history) }
        ensures ok { OnOk result (self.new.lane ≡ checkpointed self.old.lane) }
        ensures err { OnErr result (self.new ≡ self.old) }
    {
        let alloc = *self.history.allocator();
        self.opening = copies_of(alloc, &self.waiting)?;
        self.before = self.last;
        Ok(mem::replace(&mut self.history, Vec::new(alloc)))
    }
}
