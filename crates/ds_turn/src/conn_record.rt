//! A connection with the record of its events.

ghost use Rattle.std.specs.Prelude.{◌≡◌, ◌<◌, ◌+◌, ◌-◌, ◌^◌, [], max, None, Some, true, is_some, length, IfOk, OnOk, OnErr};
ghost use Rattle.std.specs.Option.{is_none};
ghost use Rattle.ds_inlet.specs.Connections.{IsForLane, IsOffered, IsShortMessage, IsShortPassed, Reads, arrived_more, lane_inlet_of, settled};
ghost use Rattle.ds_script.specs.Replay.{last_of, rises};
ghost use Rattle.ds_share.specs.Receipts.{next_stamp};
ghost use Rattle.ds_share.specs.SharedInlets.{IsReceiptOfAccept};
ghost use Rattle.ds_turn.specs.Records.{box_name, desk_name, entry_on, stamp_of};
ghost use Rattle.ds_turn.specs.ConnRecords.{fresh_conn, recorded, with_conn};
ghost use Rattle.ds_turn.specs.ConnTurns.{after_verdict, arrive_event, conn_event, count_event, read_event};

use crate::names::{box_name, desk_name, inlet_name};
use ds_frame::ReadEnd;
use ds_inlet::{Conn, Offer, Stale};
use ds_label::Rule;
use ds_merge::{ActorRecord, Kept, ObjectName, Recorded};
use ds_msg::LocalMessage;
use ds_script::Actor;
use ds_share::Receipt;
use ds_wire::Bytes;
use std::alloc::{AllocError, Global};
use std::marker::Model;
use std::sync::Wait;

/// The numbers of an arrival, an accept and a delivery.
const ARRIVE: u8 = 3;

const ACCEPT: u8 = 4;

const DELIVER: u8 = 5;

/// A connection, the stamp of its last event, and its events in order, whose stamps rise.
#[derive(Drop)]
pub struct RecordedConn {
    alloc: Global,
    conn: Conn,
    stamp: u64,
    events: Vec<Recorded>,
}

impl Model for RecordedConn {
    ghost use Rattle.ds_turn.specs.ConnRecords.{RoomyConn};

    ghost Value = { RoomyConn };

    ghost use Rattle.ds_turn.specs.ConnInside.{IsRising, roomy_of};

    ghost view = { roomy_of };

    ghost invariant = { IsRising };
}

impl RecordedConn {
    /// A connection without events. It takes no memory.
    pub fn new(alloc: Global, conn: Conn) -> RecordedConn
        ensures { result.link ≡ fresh_conn conn.conn }
    {
        RecordedConn {
            alloc,
            conn,
            stamp: 0,
            events: Vec::new(alloc),
        }
    }

    /// What it recorded: who it is, and its events in order. Their stamps rise. It takes no memory.
    pub fn into_record(self) -> ActorRecord
        ensures who { result.who ≡ self.link.conn.who }
        ensures events { result.events.items ≡ self.link.events }
        ensures rising { rises stamp_of 0 self.link.events ≡ true }
    {
        ActorRecord {
            who: self.conn.who(),
            events: self.events,
        }
    }

    /// The connection.
    pub fn conn(&self) -> &Conn
        ensures { result.now.conn ≡ self.now.link.conn }
    {
        &self.conn
    }

    /// The stamp of its last event, 0 before the first.
    pub fn stamp(&self) -> u64
        ensures { result ≡ self.now.link.stamp }
    {
        self.stamp
    }

    /// Its events, in order. Their stamps rise, and the last one is the connection's.
    pub fn events(&self) -> &[Recorded]
        ensures events { result.now ≡ self.now.link.events }
        ensures rising { rises stamp_of 0 self.now.link.events ≡ true }
        ensures last { self.now.link.stamp ≡ last_of stamp_of 0 self.now.link.events }
    {
        self.events.as_slice()
    }

    /// Makes room for one event. `AllocError` where memory runs out; nothing but the room changed then.
    pub(crate) fn reserve(&mut self) -> Result<(), AllocError>
        ensures same { self.new.link ≡ self.old.link }
        ensures room { OnOk result ((0 < self.new.spare) × (0 < self.new.entries)) }
    {
        self.conn.reserve()?;
        self.events.reserve(1)
    }

    /// Records an event, for which there is room, at its stamp. It takes no memory.
    fn enter(&mut self, event: Recorded)
        requires room { 0 < self.old.spare }
        requires later { self.old.link.stamp < event.stamp }
        ensures { self.new.link ≡ recorded self.old.link.conn event self.old.link }
    {
        self.stamp = event.stamp;
        self.events.push_reserved(event);
    }

    /// Takes the next bytes of the stream, and records the event. Its stamp is one above the greater of its last one and `least`,
    /// which is the stamp of the event that wrote these bytes.
    ///
    /// # Errors
    ///
    /// `AllocError` where memory runs out. Nothing but the room changed then.
    pub fn arrive(&mut self, piece: &[u8], least: u64) -> Result<(), AllocError>
        requires left { max self.old.link.stamp least < 2 ^ 64 - 1 }
        ensures ok { OnOk result (self.new.link ≡ recorded (arrived_more piece.now self.old.link.conn)
            (arrive_event self.old.link.conn.who (next_stamp self.old.link.stamp least) piece.now) self.old.link) }
        ensures err { OnErr result (self.new.link ≡ self.old.link) }
    {
        let body = Bytes::from_slice(self.alloc, piece)?;
        self.events.reserve(1)?;
        self.conn.arrive(piece)?;
        let event = arrive_event(self.alloc, self.conn.who(), self.stamp.max(least) + 1, body);
        self.enter(event);
        Ok(())
    }

    /// Reads on: what the connection's call of `read` does, and no event.
    pub(crate) fn read(&mut self) -> Result<Offer, ReadEnd>
        requires hand { self.old.link.conn.hand ≡ [] }
        requires free { self.old.link.conn.passed ≡ None }
        ensures exact { Reads self.old.link.conn result self.new.link.conn }
        ensures offered { IfOk result (λ offer. IsOffered offer self.new.link.conn.offered) }
        ensures inlet { IfOk result (λ offer. IsForLane offer (lane_inlet_of self.new.link.conn.inlets self.new.link.conn.reader.lane)) }
        ensures events { self.new.link ≡ with_conn self.new.link.conn self.old.link }
        ensures room { (self.new.spare ≡ self.old.spare) × (self.new.entries ≡ self.old.entries) }
    {
        self.conn.read()
    }

    /// Records an accept that touched no object, at the next stamp. Where none is left it waits. It takes no memory.
    pub(crate) fn noted<R: Wait>(&mut self, rt: &R)
        requires room { 0 < self.old.spare }
        ensures { self.new.link ≡ recorded self.old.link.conn (read_event self.old.link.conn.who (self.old.link.stamp + 1)) self.old.link }
    {
        let stamp = stamp_above(rt, self.stamp);
        let event = read_event(self.alloc, self.conn.who(), stamp);
        self.enter(event);
    }

    /// Settles the offered frame by what the inlet at that place told, and records the event. It takes no memory.
    pub(crate) fn counted(&mut self, inlet: u32, number: u32, receipt: Receipt, told: Option<Stale>)
        requires room { (0 < self.old.spare) × (0 < self.old.entries) }
        requires offered { is_some self.old.link.conn.offered ≡ true }
        requires receipt { IsReceiptOfAccept self.old.link.stamp number told receipt }
        ensures { self.new.link ≡ recorded (settled (is_none told) self.old.link.conn)
            (count_event self.old.link.conn.who receipt.stamp inlet number told) self.old.link }
    {
        let who = self.conn.who();
        self.conn.settle(told.is_none());
        let event = conn_event(
            self.alloc,
            ACCEPT,
            inlet_name(who.host, inlet),
            who,
            receipt,
        );
        self.enter(event);
    }

    /// Hands out the message that passed and isn't put yet, with its slot. It takes no memory.
    pub(crate) fn passed(&mut self) -> Option<(u32, LocalMessage)>
        ensures message { result ≡ self.old.link.conn.passed }
        ensures short { IsShortPassed result }
        ensures state { self.new ≡ record self.old { link = with_conn (record self.old.link.conn { passed = None }) self.old.link } }
    {
        self.conn.passed()
    }

    /// Makes a message, of at most 16,384 bytes, the passed one again. It takes no memory.
    pub(crate) fn give_back(&mut self, slot: u32, message: LocalMessage)
        requires free { self.old.link.conn.passed ≡ None }
        requires short { IsShortMessage message }
        ensures { self.new ≡ record self.old {
          link = with_conn (record self.old.link.conn { passed = Some (slot, message) }) self.old.link;
        } }
    {
        self.conn.give_back(slot, message);
    }

    /// Records a delivery into the mailbox with that slot. It takes no memory.
    pub(crate) fn put(&mut self, slot: u32, receipt: Receipt)
        requires room { 0 < self.old.spare }
        requires later { self.old.link.stamp < receipt.stamp }
        ensures { self.new.link ≡ recorded self.old.link.conn
            (conn_event 5 (entry_on (box_name self.old.link.conn.who.host slot) self.old.link.conn.who receipt.stamp receipt.act receipt.body)
            receipt.given) self.old.link }
    {
        let who = self.conn.who();
        let event = conn_event(self.alloc, DELIVER, box_name(who.host, slot), who, receipt);
        self.enter(event);
    }

    /// Makes the first message of the hand the passed one, or drops it, by that verdict of which the receipt is, and records the
    /// event. It takes no memory.
    pub(crate) fn judged(&mut self, receipt: Receipt, verdict: Result<LocalMessage, Rule>)
        requires room { (0 < self.old.spare) × (0 < self.old.entries) }
        requires short { IfOk verdict IsShortMessage }
        requires front { 0 < length self.old.link.conn.hand }
        requires later { self.old.link.stamp < receipt.stamp }
        ensures { self.new.link ≡ recorded (after_verdict verdict self.old.link.conn)
            (conn_event 5 (entry_on (desk_name self.old.link.conn.who.host) self.old.link.conn.who receipt.stamp receipt.act receipt.body)
            receipt.given) self.old.link }
    {
        let who = self.conn.who();
        settle(&mut self.conn, verdict);
        let event = conn_event(self.alloc, DELIVER, desk_name(who.host), who, receipt);
        self.enter(event);
    }
}

/// The first message of the hand passes, or is dropped. It takes no memory.
fn settle(conn: &mut Conn, verdict: Result<LocalMessage, Rule>)
    requires room { 0 < conn.old.spare }
    requires short { IfOk verdict IsShortMessage }
    requires front { 0 < length conn.old.conn.hand }
    ensures { conn.new.conn ≡ after_verdict verdict conn.old.conn }
{
    match verdict {
        Ok(message) => conn.pass(message),
        Err(rule) => conn.refuse(rule),
    }
}

/// The next stamp. Where none is left it waits.
fn stamp_above<R: Wait>(rt: &R, stamp: u64) -> u64
    ensures { result ≡ stamp + 1 }
{
    for _ in rt.forever() {
        if stamp < u64::MAX {
            return stamp + 1;
        }
    }
    unreachable!()
}

/// The arrival of these bytes. It takes no memory.
fn arrive_event(alloc: Global, who: Actor, stamp: u64, body: Bytes) -> Recorded
    ensures { result ≡ arrive_event who stamp body }
{
    Recorded {
        who,
        stamp,
        act: ARRIVE,
        body,
        touched: None,
        given: Bytes::new(alloc),
    }
}

/// An accept that touched no object. It takes no memory.
fn read_event(alloc: Global, who: Actor, stamp: u64) -> Recorded
    ensures { result ≡ read_event who stamp }
{
    Recorded {
        who,
        stamp,
        act: ACCEPT,
        body: Bytes::new(alloc),
        touched: None,
        given: Bytes::new(alloc),
    }
}

/// The event of a connection, which that receipt is of. It takes no memory.
fn conn_event(
    alloc: Global,
    event: u8,
    object: ObjectName,
    who: Actor,
    receipt: Receipt,
) -> Recorded
    ensures { result ≡ conn_event event (entry_on object who receipt.stamp receipt.act receipt.body) receipt.given }
{
    let Receipt {
        stamp,
        act,
        body,
        given,
        ..
    } = receipt;
    Recorded {
        who,
        stamp,
        act: event,
        body: Bytes::new(alloc),
        touched: Some(Kept {
            object,
            stamp,
            who,
            act,
            body,
        }),
        given,
    }
}
