//! An inlet and its history.
#![tactic(auto)]

ghost use Rattle.std.specs.Prelude.{◌≡◌, ◌<◌, nat_lt, false, true, IfOk, OnOk, OnErr, IfErr, MatchOption, Some};
ghost use Rattle.ds_model.specs.Inlet.{is_fresh, number_entry};
ghost use Rattle.ds_inlet.specs.Inlets.{IsReplay, last_stamp, entered, checkpointed, fresh_inlet};

use crate::entry::{InletAct, InletEntry, InletHistory};
use ds_label::PubKey;
use ds_script::Actor;
use std::alloc::{AllocError, Global};
use std::marker::Model;
use std::mem;
use thiserror::Error;

/// A frame's number isn't above the inlet's last one.
#[derive(Clone, Copy, PartialEq, Eq, Debug, Error)]
#[error("the last number is {last}")]
pub struct Stale {
    /// The inlet's last number.
    pub last: u32,
}

/// An inlet of a host, for one lane of one exporter: the number of the last frame that was taken from the lane, if any, and
/// the history since its opening. The last number is the replay of the history from the opening, and its stamps rise.
#[derive(Drop)]
pub struct Inlet {
    /// The exporter whose lane it is.
    pub exporter: PubKey,
    /// The number of the lane at its exporter.
    pub lane: u32,
    number: Option<u32>,
    opening: Option<u32>,
    before: u64,
    history: Vec<InletEntry>,
    last_stamp: u64,
}

impl Model for Inlet {
    ghost use Rattle.ds_inlet.specs.Inlets.{InletWithCapacity};

    ghost Value = { InletWithCapacity };

    ghost use Rattle.ds_inlet.specs.InletInside.{seen_of, IsSound};

    ghost view = { seen_of };

    ghost invariant = { IsSound };
}

impl Inlet {
    /// An inlet for the lane of that number of an exporter, of which no frame was taken, without entries. It takes no memory.
    pub fn new(alloc: Global, exporter: PubKey, lane: u32) -> Inlet
        ensures { result.inlet ≡ fresh_inlet exporter lane }
    {
        Inlet {
            exporter,
            lane,
            number: None,
            opening: None,
            before: 0,
            history: Vec::new(alloc),
            last_stamp: 0,
        }
    }

    /// The exporter whose lane it is.
    pub fn exporter(&self) -> &PubKey
        ensures { result.now ≡ self.now.inlet.exporter }
    {
        &self.exporter
    }

    /// The lane's number at its exporter.
    pub fn lane(&self) -> u32
        ensures { result ≡ self.now.inlet.lane }
    {
        self.lane
    }

    /// The number of the last frame that was taken from the lane, if any.
    pub fn last(&self) -> Option<u32>
        ensures { result ≡ self.now.inlet.number }
    {
        self.number
    }

    /// The entries since the opening, in order.
    pub fn history(&self) -> &[InletEntry]
        ensures { result.now ≡ self.now.inlet.history }
    {
        self.history.as_slice()
    }

    /// The stamp of the last entry; where there is none, of the last one before the opening, 0 at first.
    pub fn last_stamp(&self) -> u64
        ensures { result ≡ last_stamp self.now.inlet }
    {
        self.last_stamp
    }

    /// What every inlet keeps: the last number is the replay of its history, each entry where it may stand, and the stamps
    /// rise.
    pub fn is_replay(&self)
        ensures { IsReplay self.now.inlet }
    {
        let _lane = self.lane;
    }

    /// Whether a frame with this number is fresh: its number is above the last one, or there is none.
    pub fn is_fresh(&self, number: u32) -> bool
        ensures { result ≡ is_fresh number self.now.inlet.number }
    {
        match self.number {
            None => true,
            Some(last) => last < number,
        }
    }

    /// The last number, where there is one and it isn't below this one.
    fn not_below(&self, number: u32) -> Option<u32>
        ensures { MatchOption result (is_fresh number self.now.inlet.number ≡ true) (λ last. (self.now.inlet.number ≡ Some last) × (nat_lt last number ≡ false)) }
    {
        match self.number {
            Some(last) if last >= number => Some(last),
            _ => None,
        }
    }

    /// Makes room for one `accept`. `AllocError` where memory runs out; nothing but the room changed then.
    pub fn reserve(&mut self) -> Result<(), AllocError>
        ensures same { self.new.inlet ≡ self.old.inlet }
        ensures room { OnOk result (0 < self.new.spare) }
    {
        self.history.reserve(1)
    }

    /// Takes a frame's number: it becomes the last one where it is above the last one, or there is none. The entry is fresh
    /// then, and else stale. It takes no memory.
    ///
    /// # Errors
    ///
    /// `Stale`, with the last number, exactly where there is one and it isn't below the frame's. The last number stays then.
    pub fn accept(&mut self, stamp: u64, who: Actor, number: u32) -> Result<(), Stale>
        requires room { 0 < self.old.spare }
        requires later { last_stamp self.old.inlet < stamp }
        ensures entry { self.new.inlet ≡ entered stamp who (number_entry number self.old.inlet.number) self.old.inlet }
        ensures fresh { OnOk result (is_fresh number self.old.inlet.number ≡ true) }
        ensures stale { IfErr result (λ s. (self.old.inlet.number ≡ Some s.last) × (nat_lt s.last number ≡ false)) }
    {
        if let Some(last) = self.not_below(number) {
            let act = InletAct::Stale(number);
            self.history.push_reserved(InletEntry { stamp, who, act });
            self.last_stamp = stamp;
            return Err(Stale { last });
        }
        let act = InletAct::Fresh(number);
        self.history.push_reserved(InletEntry { stamp, who, act });
        self.number = Some(number);
        self.last_stamp = stamp;
        Ok(())
    }

    /// Hands out the history, and makes the present state the opening. It takes no memory.
    pub fn checkpoint(&mut self) -> InletHistory
        ensures segment { result.items ≡ self.old.inlet.history }
        ensures state { self.new.inlet ≡ checkpointed self.old.inlet }
    {
        let alloc = *self.history.allocator();
        self.opening = self.number;
        self.before = self.last_stamp;
        mem::replace(&mut self.history, Vec::new(alloc))
    }
}
