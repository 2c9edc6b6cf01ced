//! A reader of a stream that comes in pieces.

ghost use Rattle.std.specs.Prelude.{◌≡◌, ◌≤◌, ◌<◌, ◌+◌, ◌^◌, drop, length, vec_len, Err, IfOk, IfSome, None, OnOk, OnErr, Some};
ghost use Rattle.ds_frame.specs.Laws.{StartsWith};
ghost use Rattle.ds_frame.specs.Reader.{Answered, LeavesSpace, fed, lane_after, new_reader, space_of};

use crate::cause::Cause;
use crate::item::{Failure, Item, ReadEnd, ReadFaultOrMemory};
use crate::reading::item_of;
use ds_cert::LaneCert;
use std::alloc::{AllocError, Global};
use std::marker::Model;

/// How many bytes a reader keeps at most: as many as the longest frame has.
const MOST_BYTES: usize = 1_158_249;

/// Reads a stream's items off its bytes, in whatever pieces they come. It keeps the bytes of the item that it reads and those
/// after it, at most 1,158,249, and lets go of what it handed out when the next bytes come. Contracts see the bytes that are not
/// handed out yet, how many there are before them, the lane certificate once the hello was handed out, and the failure once the
/// stream broke.
#[derive(Debug, Drop)]
pub struct FrameReader {
    // The bytes that are kept, how many there were before them, and where among them those that are not handed out yet begin.
    bytes: Vec<u8>,
    before: u64,
    at: usize,
    lane: Option<LaneCert>,
    failure: Option<Failure>,
}

impl Model for FrameReader {
    ghost use Rattle.ds_frame.specs.Reader.{Reader};

    ghost Value = { Reader };

    ghost use Rattle.ds_frame.specs.ReaderInside.{reader_of, IsBounded};

    ghost view = { reader_of };

    ghost invariant = { IsBounded };
}

/// Lets go of that many bytes from the front.
fn remove_front(bytes: &mut Vec<u8>, count: usize)
    requires { count ≤ vec_len bytes.old }
    ensures { bytes.new.items ≡ drop count bytes.old.items }
{
    if count == 0 {
        return;
    }
    let left = bytes.len() - count;
    bytes.copy_within(count.., 0);
    bytes.truncate(left);
}

impl FrameReader {
    /// A reader of a stream of which nothing has come. Takes no memory.
    pub fn new(alloc: Global) -> FrameReader
        ensures { result ≡ new_reader }
    {
        FrameReader {
            bytes: Vec::new(alloc),
            before: 0,
            at: 0,
            lane: None,
            failure: None,
        }
    }

    /// For how many bytes more there is space: 1,158,249 less those that are not handed out yet.
    pub fn space(&self) -> usize
        ensures space { result ≡ space_of self.now }
        ensures within { length self.now.rest ≤ 1158249 }
    {
        MOST_BYTES - (self.bytes.len() - self.at)
    }

    /// How many bytes there are before those that are not handed out yet.
    pub fn passed(&self) -> u64
        ensures passed { result ≡ self.now.passed }
        ensures places { self.now.passed + length self.now.rest < 2 ^ 64 }
    {
        self.before + self.at as u64
    }

    /// Takes the next bytes of the stream, for which there is space. After `AllocError`, which says that memory ran out, nothing
    /// changed.
    pub fn feed(&mut self, piece: &[u8]) -> Result<(), AllocError>
        requires space { length piece.now ≤ space_of self.old }
        // Each place in the stream is a number of 64 bits.
        requires places { self.old.passed + length self.old.rest + length piece.now < 2 ^ 64 }
        ensures ok { OnOk result (self.new ≡ fed piece.now self.old) }
        ensures err { OnErr result (self.new ≡ self.old) }
    {
        remove_front(&mut self.bytes, self.at);
        self.before += self.at as u64;
        self.at = 0;
        self.bytes.extend_from_slice(piece)?;
        Ok(())
    }

    /// The next item of the stream. `NotYet` comes exactly where it isn't whole and each field of it that is whole is in range;
    /// `BadFrame` exactly where it breaks the stream, with the first cause and its place, and from then on for ever, whatever
    /// memory there is. After `NoMemory`, which says that memory ran out, nothing changed. After `NotYet` there is space for at
    /// least one byte.
    pub fn next(&mut self) -> Result<Item, ReadEnd>
        // What the definition says of the bytes at hand.
        ensures exact { Answered self.old result self.new }
        // A reader that failed answers its failure, and never that memory ran out.
        ensures failed { IfSome self.old.failure (λ failure. result ≡ Err (ReadEnd.BadFrame failure.cause failure.place)) }
        // The bytes at hand are the item's spelling, signed as it must be, and the rest.
        ensures starts { IfOk result (λ item. StartsWith self.old.lane item self.old.rest self.new.rest) }
        // What isn't whole yet can become whole.
        ensures space { LeavesSpace result self.new }
    {
        if let Some(failure) = self.failure {
            return Err(ReadEnd::BadFrame(failure.cause, failure.place));
        }
        match item_of(*self.bytes.allocator(), &self.lane, &self.bytes[self.at..]) {
            Ok((item, size)) => {
                if self.pass(&item, size).is_err() {
                    return Err(ReadEnd::NoMemory);
                }
                Ok(item)
            }
            Err(ReadFaultOrMemory::Open) => Err(ReadEnd::NotYet),
            Err(ReadFaultOrMemory::NoMemory) => Err(ReadEnd::NoMemory),
            Err(ReadFaultOrMemory::Broken(cause, offset)) => Err(self.fail(cause, offset)),
        }
    }

    /// Passes an item of that many bytes.
    fn pass(&mut self, item: &Item, size: usize) -> Result<(), AllocError>
        requires { size ≤ length self.old.rest }
        ensures ok { OnOk result (self.new ≡ record self.old { rest = drop size self.old.rest; passed = self.old.passed + size; lane = lane_after item.now self.old.lane }) }
        ensures err { OnErr result (self.new ≡ self.old) }
    {
        if let Item::Hello(lane) = item {
            self.lane = Some(lane.copy()?);
        }
        self.at += size;
        Ok(())
    }

    /// Fails at that many bytes behind the front, for ever.
    fn fail(&mut self, cause: Cause, offset: usize) -> ReadEnd
        requires { offset ≤ length self.old.rest }
        ensures failed { self.new ≡ record self.old { failure = Some (record { cause = cause; place = self.old.passed + offset }) } }
        ensures end { result ≡ ReadEnd.BadFrame cause (self.old.passed + offset) }
    {
        let place = self.before + (self.at + offset) as u64;
        self.failure = Some(Failure { cause, place });
        ReadEnd::BadFrame(cause, place)
    }
}
