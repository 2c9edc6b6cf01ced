//! A connection: the bytes that arrived, what was read of them, and what became of its messages.
#![tactic(auto)]

ghost use Rattle.std.specs.Prelude.{◌≡◌, ◌<◌, ◌≤◌, ◌+◌, drop, length, Bool, true, false, is_some, [], ◌∷◌, slice_get, IfOk, IfSome, MatchOption, None, Ok, OnOk, OnErr, Some};
ghost use Rattle.std.specs.List.{All};
ghost use Rattle.ds_msg.specs.Ranges.{MessageRange};
ghost use Rattle.ds_frame.specs.Reader.{fed};
ghost use Rattle.ds_inlet.specs.Connections.{AreSeenInRange, Fails, IsAccepted, IsForHost, IsForLane, IsOffered, IsShortMessage, IsShortPassed, Reads, arrived_more, frame_seen, new_connection, passed_on, refused_by, lane_inlet, lane_inlet_of, settled, seen_step};
ghost use Rattle.std.specs.Prelude.{ℕ, List};
ghost use Rattle.ds_model.specs.Scheme.{Scheme};
ghost use Rattle.ds_model.specs.Plan.{HostPlan};
ghost use Rattle.ds_model.specs.ConnectionStep.{accept};
ghost use Rattle.ds_inlet.specs.PlainConnections.{plain_conn};
ghost use Rattle.ds_inlet.specs.Accepting.{Accepts, IsReadSoFar, inlet_plan, inlet_scheme};
ghost use Rattle.ds_inlet.specs.Hosts.{inlet_at};
ghost use Rattle.ds_inlet.specs.ItemInside.{seen_of};

use crate::hosts::{Seen, seen_reading};
use crate::names::InletNames;
use crate::offer::{ConnEntry, Offer, Pending};
use ds_cert::LaneCert;
use ds_frame::{Cause, Failure, ReadEnd, ReadFaultOrMemory};
use ds_label::{PubKey, Rule};
use ds_msg::{LocalMessage, Message};
use ds_script::Actor;
use std::alloc::{AllocError, Global};
use std::collections::VecDeque;
use std::marker::Model;

/// A connection to a host: the bytes of its stream that arrived, and how far they are read; the frame that is offered; the
/// messages of the last fresh frame that aren't judged yet, its hand; the message that passed and isn't put yet; and its
/// entries.
#[derive(Drop)]
pub struct Conn {
    who: Actor,
    here: PubKey,
    inlets: InletNames,
    // All bytes so far, and where those that are not read yet begin.
    bytes: Vec<u8>,
    at: usize,
    lane: Option<LaneCert>,
    failure: Option<Failure>,
    offered: Option<Pending>,
    hand: VecDeque<Message>,
    passed: Option<(u32, LocalMessage)>,
    entries: Vec<ConnEntry>,
}

impl Model for Conn {
    ghost use Rattle.ds_inlet.specs.Connections.{ConnectionWithCapacity};

    ghost Value = { ConnectionWithCapacity };

    ghost use Rattle.ds_inlet.specs.ConnInside.{roomy_of, IsKept};

    ghost view = { roomy_of };

    ghost invariant = { IsKept };
}

impl Conn {
    /// A connection of which nothing arrived, to the host with this key and these inlets. It takes no memory.
    pub fn new(alloc: Global, who: Actor, here: PubKey, inlets: InletNames) -> Conn
        ensures { result.conn ≡ new_connection who here inlets }
    {
        Conn {
            who,
            here,
            inlets,
            bytes: Vec::new(alloc),
            at: 0,
            lane: None,
            failure: None,
            offered: None,
            hand: VecDeque::new(alloc),
            passed: None,
            entries: Vec::new(alloc),
        }
    }

    /// The actor for which it stands.
    pub fn who(&self) -> Actor
        ensures { result ≡ self.now.conn.who }
    {
        self.who
    }

    /// Its host's key.
    pub fn here(&self) -> &PubKey
        ensures { result.now ≡ self.now.conn.here }
    {
        &self.here
    }

    /// The names of its host's inlets.
    pub fn inlets(&self) -> &InletNames
        ensures { result.now ≡ self.now.conn.inlets }
    {
        &self.inlets
    }

    /// The lane certificate of the hello, once that was read.
    pub fn cert(&self) -> &Option<LaneCert>
        ensures { result.now ≡ self.now.conn.reader.lane }
    {
        &self.lane
    }

    /// All bytes that arrived.
    pub fn arrived(&self) -> &[u8]
        ensures { result.now ≡ self.now.conn.arrived }
    {
        self.bytes.as_slice()
    }

    /// Its entries, in order.
    pub fn entries(&self) -> &[ConnEntry]
        ensures { result.now ≡ self.now.conn.entries }
    {
        self.entries.as_slice()
    }

    /// Why and where its stream is broken, once that was read.
    pub fn failure(&self) -> Option<Failure>
        ensures { result ≡ self.now.conn.reader.failure }
    {
        self.failure
    }

    /// Whether a message passed and isn't put yet.
    pub fn has_passed(&self) -> bool
        ensures { result ≡ is_some self.now.conn.passed }
    {
        self.passed.is_some()
    }

    /// Whether a frame is offered.
    pub fn is_offered(&self) -> bool
        ensures { result ≡ is_some self.now.conn.offered }
    {
        self.offered.is_some()
    }

    /// What every connection keeps: a hello that was read has an inlet, an offered frame is for that inlet, and messages are in
    /// range.
    pub fn is_admitted(&self)
        ensures { IsAccepted self.now.conn }
    {
        let _at = self.at;
    }

    /// What every connection keeps: of all that arrived it took the items that its host reads first, and goes on behind them.
    pub fn is_read_so_far(&self)
        ensures { IsReadSoFar self.now.conn }
    {
        let _at = self.at;
    }

    /// The first message of the hand.
    pub fn front(&self) -> Option<&Message>
        ensures first { MatchOption result (self.now.conn.hand ≡ []) (λ m. slice_get self.now.conn.hand 0 ≡ Some m.now) }
        ensures range { IfSome result (λ m. MessageRange m.now) }
    {
        self.hand.front()
    }

    /// Makes room for the entry of one `settle`, `pass` or `refuse`. `AllocError` where memory runs out; nothing but the room
    /// changed then.
    pub fn reserve(&mut self) -> Result<(), AllocError>
        ensures same { self.new.conn ≡ self.old.conn }
        ensures room { OnOk result (0 < self.new.spare) }
        ensures space { self.new.space ≡ self.old.space }
    {
        self.entries.reserve(1)
    }

    /// Makes room for that many bytes. `AllocError` where memory runs out; nothing but the room changed then.
    pub fn reserve_bytes(&mut self, count: usize) -> Result<(), AllocError>
        ensures same { self.new.conn ≡ self.old.conn }
        ensures room { OnOk result (count ≤ self.new.space) }
        ensures spare { self.new.spare ≡ self.old.spare }
    {
        self.bytes.reserve(count)
    }

    /// Takes the next bytes of the stream, for which there is room. It takes no memory.
    pub fn arrive_reserved(&mut self, piece: &[u8])
        requires { length piece.now ≤ self.old.space }
        ensures state { self.new.conn ≡ arrived_more piece.now self.old.conn }
        ensures spare { self.new.spare ≡ self.old.spare }
    {
        self.bytes.extend_from_slice(piece).unwrap();
    }

    /// Takes the next bytes of the stream. After `AllocError`, which says that memory ran out, nothing changed but the room.
    pub fn arrive(&mut self, piece: &[u8]) -> Result<(), AllocError>
        ensures ok { OnOk result (self.new.conn ≡ arrived_more piece.now self.old.conn) }
        ensures err { OnErr result (self.new.conn ≡ self.old.conn) }
        ensures spare { self.new.spare ≡ self.old.spare }
    {
        self.reserve_bytes(piece.len())?;
        self.arrive_reserved(piece);
        Ok(())
    }

    /// Reads on. A hello is taken by this call; a frame is offered, and stays so until it is settled. `NotYet` comes exactly
    /// where the next item isn't whole and each field of it that is whole is in range; `BadFrame` exactly where it breaks the
    /// stream for this host, with the first cause and its place, and from then on for ever. After `NoMemory`, which says that
    /// memory ran out, nothing changed. A frame is offered for the inlet of the hello's lane, and there is one.
    pub fn read(&mut self) -> Result<Offer, ReadEnd>
        requires hand { self.old.conn.hand ≡ [] }
        requires free { self.old.conn.passed ≡ None }
        ensures exact { Reads self.old.conn result self.new.conn }
        ensures accepts { (s : Scheme) (plan : HostPlan) (link : List ℕ) → Accepts link self.old.conn.reader.failure result self.new.conn (accept (inlet_scheme s) (inlet_plan plan self.old.conn) (plain_conn link None self.old.conn) self.old.conn.arrived) }
        ensures offered { IfOk result (λ offer. IsOffered offer self.new.conn.offered) }
        ensures inlet { IfOk result (λ offer. IsForLane offer (lane_inlet_of self.new.conn.inlets self.new.conn.reader.lane)) }
        ensures room { (self.new.spare ≡ self.old.spare) × (self.new.space ≡ self.old.space) }
    {
        self.is_read_so_far();
        self.is_admitted();
        self.read_on()
    }

    /// The same, without a word of the plain world.
    fn read_on(&mut self) -> Result<Offer, ReadEnd>
        requires hand { self.old.conn.hand ≡ [] }
        requires free { self.old.conn.passed ≡ None }
        ensures exact { Reads self.old.conn result self.new.conn }
        ensures offered { IfOk result (λ offer. IsOffered offer self.new.conn.offered) }
        ensures inlet { IfOk result (λ offer. IsForLane offer (lane_inlet_of self.new.conn.inlets self.new.conn.reader.lane)) }
        ensures room { (self.new.spare ≡ self.old.spare) × (self.new.space ≡ self.old.space) }
    {
        if let Some(offered) = &self.offered {
            return Ok(Offer::Frame {
                inlet: offered.inlet,
                number: offered.number,
            });
        }
        if let Some(failure) = self.failure {
            return Err(ReadEnd::BadFrame(failure.cause, failure.place));
        }
        let alloc = *self.bytes.allocator();
        match seen_reading(
            alloc,
            &self.here,
            &self.inlets,
            &self.lane,
            &self.bytes[self.at..],
        ) {
            Ok((seen, size)) => Ok(self.take_seen(seen, size)),
            Err(ReadFaultOrMemory::Open) => Err(ReadEnd::NotYet),
            Err(ReadFaultOrMemory::NoMemory) => Err(ReadEnd::NoMemory),
            Err(ReadFaultOrMemory::Broken(cause, offset)) => Err(self.fail(cause, offset)),
        }
    }

    /// Takes a hello, or offers a frame, of that many bytes.
    fn take_seen(&mut self, seen: Seen, size: usize) -> Offer
        requires size { size ≤ length self.old.conn.reader.rest }
        requires free { self.old.conn.offered ≡ None }
        requires host { IsForHost self.old.conn.inlets self.old.conn.reader.lane (seen_of seen) }
        requires range { AreSeenInRange (seen_of seen) }
        requires so_far { IsReadSoFar (seen_step self.old.conn (seen_of seen) (drop size self.old.conn.reader.rest)).conn }
        ensures told { seen_step self.old.conn (seen_of seen) (drop size self.old.conn.reader.rest) ≡ record { answer = Ok result; conn = self.new.conn } }
        ensures offered { IsOffered result self.new.conn.offered }
        ensures inlet { IsForLane result (lane_inlet_of self.new.conn.inlets self.new.conn.reader.lane) }
        ensures room { (self.new.spare ≡ self.old.spare) × (self.new.space ≡ self.old.space) }
    {
        match seen {
            Seen::Hello(lane) => self.take_hello(lane, size),
            Seen::Frame(number, messages) => self.offer_frame(number, messages, size),
        }
    }

    /// Takes a hello of that many bytes.
    fn take_hello(&mut self, lane: LaneCert, size: usize) -> Offer
        requires size { size ≤ length self.old.conn.reader.rest }
        requires free { self.old.conn.offered ≡ None }
        requires inlet { is_some (inlet_at self.old.conn.inlets lane) ≡ true }
        requires so_far { IsReadSoFar (record self.old.conn { reader = record self.old.conn.reader { rest = drop size self.old.conn.reader.rest; passed = self.old.conn.reader.passed + size; lane = Some lane } }) }
        ensures state { self.new.conn ≡ record self.old.conn { reader = record self.old.conn.reader { rest = drop size self.old.conn.reader.rest; passed = self.old.conn.reader.passed + size; lane = Some lane } } }
        ensures offer { result ≡ Offer.Hello }
        ensures room { (self.new.spare ≡ self.old.spare) × (self.new.space ≡ self.old.space) }
    {
        self.lane = Some(lane);
        self.at += size;
        Offer::Hello
    }

    /// The place of the inlet of the lane whose certificate was read.
    fn lane_inlet(&self) -> u32
        requires { is_some self.now.conn.reader.lane ≡ true }
        ensures inlet { lane_inlet_of self.now.conn.inlets self.now.conn.reader.lane ≡ Some result }
        ensures place { result ≡ lane_inlet self.now.conn.inlets self.now.conn.reader.lane }
    {
        let Some(lane) = &self.lane else {
            unreachable!();
        };
        let Some(place) = self.inlets.find(lane) else {
            unreachable!();
        };
        place
    }

    /// Offers a frame of that many bytes.
    fn offer_frame(&mut self, number: u32, messages: VecDeque<Message>, size: usize) -> Offer
        requires size { size ≤ length self.old.conn.reader.rest }
        requires hello { is_some self.old.conn.reader.lane ≡ true }
        requires range { All MessageRange messages.items }
        requires so_far { IsReadSoFar (record self.old.conn { reader = record self.old.conn.reader { rest = drop size self.old.conn.reader.rest; passed = self.old.conn.reader.passed + size }; offered = Some (frame_seen self.old.conn number messages.items) }) }
        ensures state { self.new.conn ≡ record self.old.conn { reader = record self.old.conn.reader { rest = drop size self.old.conn.reader.rest; passed = self.old.conn.reader.passed + size }; offered = Some (frame_seen self.old.conn number messages.items) } }
        ensures offer { result ≡ Offer.Frame (lane_inlet self.old.conn.inlets self.old.conn.reader.lane) number }
        ensures inlet { lane_inlet_of self.old.conn.inlets self.old.conn.reader.lane ≡ Some (lane_inlet self.old.conn.inlets self.old.conn.reader.lane) }
        ensures room { (self.new.spare ≡ self.old.spare) × (self.new.space ≡ self.old.space) }
    {
        let inlet = self.lane_inlet();
        self.offered = Some(Pending {
            inlet,
            number,
            messages,
        });
        self.at += size;
        Offer::Frame { inlet, number }
    }

    /// Fails at that many bytes behind the front, for ever.
    fn fail(&mut self, cause: Cause, offset: usize) -> ReadEnd
        requires among { offset ≤ length self.old.conn.reader.rest }
        requires so_far { IsReadSoFar (record self.old.conn { reader = record self.old.conn.reader { failure = Some (record { cause = cause; place = self.old.conn.reader.passed + offset }) } }) }
        ensures end { Fails self.old.conn cause offset result self.new.conn }
        ensures room { (self.new.spare ≡ self.old.spare) × (self.new.space ≡ self.old.space) }
    {
        let place = (self.at + offset) as u64;
        self.failure = Some(Failure { cause, place });
        ReadEnd::BadFrame(cause, place)
    }

    /// Settles the offered frame: its messages go to the hand where it is fresh, and are dropped with it where it is stale. It
    /// takes no memory.
    pub fn settle(&mut self, fresh: bool)
        requires room { 0 < self.old.spare }
        requires offered { is_some self.old.conn.offered ≡ true }
        ensures { self.new.conn ≡ settled fresh self.old.conn }
    {
        let Some(offered) = self.offered.take() else {
            unreachable!();
        };
        let number = offered.number;
        if !fresh {
            self.entries.push_reserved(ConnEntry::Stale { number });
            return;
        }
        let count = offered.messages.len();
        self.hand = offered.messages;
        self.entries
            .push_reserved(ConnEntry::Frame { number, count });
    }

    /// Takes the first message of the hand, which passed as this one, of at most 16,384 bytes. It takes no memory.
    pub fn pass(&mut self, message: LocalMessage)
        requires short { IsShortMessage message }
        requires room { 0 < self.old.spare }
        requires front { 0 < length self.old.conn.hand }
        ensures { self.new.conn ≡ passed_on message self.old.conn }
    {
        let Some(first) = self.hand.pop_front() else {
            unreachable!();
        };
        let slot = first.slot;
        self.passed = Some((slot, message));
        self.entries.push_reserved(ConnEntry::Pass { slot });
    }

    /// Drops the first message of the hand, by that rule. It takes no memory.
    pub fn refuse(&mut self, rule: Rule)
        requires room { 0 < self.old.spare }
        requires front { 0 < length self.old.conn.hand }
        ensures { self.new.conn ≡ refused_by rule self.old.conn }
    {
        let Some(first) = self.hand.pop_front() else {
            unreachable!();
        };
        let slot = first.slot;
        self.entries.push_reserved(ConnEntry::Drop { rule, slot });
    }

    /// Hands out the message that passed and isn't put yet, with its slot. It takes no memory.
    pub fn passed(&mut self) -> Option<(u32, LocalMessage)>
        ensures message { result ≡ self.old.conn.passed }
        ensures short { IsShortPassed result }
        ensures state { self.new ≡ record self.old { conn = record self.old.conn { passed = None } } }
    {
        self.passed.take()
    }

    /// Makes a message, of at most 16,384 bytes, the passed one again. It takes no memory.
    pub fn give_back(&mut self, slot: u32, message: LocalMessage)
        requires free { self.old.conn.passed ≡ None }
        requires short { IsShortMessage message }
        ensures { self.new ≡ record self.old { conn = record self.old.conn { passed = Some (slot, message) } } }
    {
        self.passed = Some((slot, message));
    }
}
