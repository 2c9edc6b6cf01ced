//! The worker's own part of a lane.
#![tactic(auto)]

ghost use Rattle.std.specs.Prelude.{◌≡◌, ◌≢◌, ◌⊎◌, ◌↔◌, ◌<◌, ◌≤◌, ◌+◌, ◌-◌, ◌++◌, ℕ, List, [], ◌∷◌, Option, Some, All, Err, map, length, vec_len, vec_capacity, nat_lt, IfOk, OnOk, OnErr, MatchResult};
ghost use Rattle.ds_base.specs.Counts.{Rose};
ghost use Rattle.ds_base.specs.Marks.{Raised, MayBeRaised};
ghost use Rattle.lms_state.specs.Once.{Traced};
ghost use Rattle.lms_state.specs.Signers.{leaves_of};
ghost use Rattle.ds_cert.specs.Ranges.{LaneCertRange};
ghost use Rattle.ds_lane.specs.Lanes.{WaitsOn};
ghost use Rattle.ds_lane.specs.Workers.{IsHolding, IsKeyOf, IsReady, fresh_worker, holding, framed, dropped, dropped_entry};

use crate::batch::{BodyBatch, Waiting};
use crate::framing::{append_frame, part_with_room};
use crate::worker_entry::{WorkerAct, WorkerEntry};
use ds_base::Keeper;
use ds_cert::LaneCert;
use ds_frame::hello_bytes;
use ds_label::Rule;
use ds_script::Actor;
use ds_wire::Buffer;
use lms_state::{SignFault, Signer};
use std::alloc::{AllocError, Global};
use std::marker::Model;
use thiserror::Error;

/// Most messages of a hand.
const HAND_LIMIT: usize = 16;

/// Why a hand isn't framed. Nothing was written then, and the lane's worker is as it was.
#[derive(Clone, Copy, PartialEq, Eq, Debug, Error)]
pub enum LaneFault {
    /// The keeper failed to raise the mark of the lane's key: its count of faults rose.
    #[error("the keeper failed to raise the mark")]
    KeeperFault,
    /// Memory ran out.
    #[error("out of memory")]
    NoMemory,
}

impl From<AllocError> for LaneFault {
    ghost use Rattle.ds_lane.specs.declared.lane_end.LaneFault.TheVariants.{NoMemory};

    ghost from_gives = { λ _ e. e ≡ NoMemory };

    fn from(_fault: AllocError) -> LaneFault {
        LaneFault::NoMemory
    }
}

/// The part of a lane that is its worker's own: the lane's key, the messages that it lifted, the stream that it wrote, and
/// what is printed of it. Where something is in hand a leaf is left, and each message in hand has the certificate's receiver
/// and label and a spelling.
#[derive(Drop)]
pub struct LaneEnd {
    alloc: Global,
    who: Actor,
    cert: LaneCert,
    signer: Signer,
    hand: BodyBatch,
    stream: Buffer,
    entries: Vec<WorkerEntry>,
}

impl Model for LaneEnd {
    ghost use Rattle.ds_lane.specs.Workers.{WorkerWithCapacity};

    ghost Value = { WorkerWithCapacity };

    ghost use Rattle.ds_lane.specs.WorkerInside.{roomy_of, IsHeld};

    ghost view = { roomy_of };

    ghost invariant = { IsHeld };
}

/// An entry for each message that a rule drops, in order. It takes no memory.
fn enter_dropped(entries: &mut Vec<WorkerEntry>, stamp: u64, rule: Rule, hand: &[Waiting])
    requires { vec_len entries.old + length hand.now ≤ vec_capacity entries.old }
    ensures { entries.new.items ≡ entries.old.items ++ map (dropped_entry stamp rule) hand.now }
{
    for waiting in hand {
        let act = WorkerAct::Dropped {
            rule,
            from: waiting.from,
            slot: waiting.message.slot,
        };
        entries.push_reserved(WorkerEntry { stamp, act });
    }
}

impl LaneEnd {
    /// A worker of a lane with this certificate, whose key is the signer's public key, with nothing in hand. Its stream is the
    /// hello. `AllocError` where memory runs out.
    pub fn new(
        alloc: Global,
        who: Actor,
        cert: &LaneCert,
        signer: Signer,
    ) -> Result<LaneEnd, AllocError>
        requires range { LaneCertRange cert.now }
        requires key { IsKeyOf signer cert.now }
        ensures { IfOk result (λ e. e.worker ≡ fresh_worker who cert.now signer) }
    {
        let hello = hello_bytes(cert)?;
        Ok(LaneEnd {
            alloc,
            who,
            cert: cert.copy()?,
            signer,
            hand: BodyBatch::new(alloc),
            stream: Buffer::from_bytes(hello),
            entries: Vec::new(alloc),
        })
    }

    /// The actor that it is.
    pub fn who(&self) -> Actor
        ensures { result ≡ self.now.worker.who }
    {
        self.who
    }

    /// The lane's certificate, whose key is the signer's public key.
    pub fn cert(&self) -> &LaneCert
        ensures cert { result.now ≡ self.now.worker.cert }
        ensures key { IsKeyOf self.now.worker.signing self.now.worker.cert }
    {
        &self.cert
    }

    /// Whether a leaf of the lane's key is left.
    pub fn ready(&self) -> bool
        ensures { result ≡ nat_lt self.now.worker.signing.next (leaves_of self.now.worker.signing.key) }
    {
        self.signer.left() > 0
    }

    /// The number of the next frame: the leaf at which the lane's key signs next.
    pub fn next(&self) -> u32
        ensures { result ≡ self.now.worker.signing.next }
    {
        self.signer.next()
    }

    /// The messages in hand. Where there is one a leaf is left, and each has the certificate's receiver and label and a
    /// spelling.
    pub fn hand(&self) -> &BodyBatch
        ensures hand { result.now ≡ self.now.worker.hand }
        ensures holding { IsHolding self.now.worker }
    {
        &self.hand
    }

    /// What it wrote: the hello, and its frames.
    pub fn stream(&self) -> &[u8]
        ensures { result.now ≡ self.now.worker.stream }
    {
        self.stream.as_slice()
    }

    /// What is printed of it, in order.
    pub fn entries(&self) -> &[WorkerEntry]
        ensures { result.now ≡ self.now.worker.entries }
    {
        self.entries.as_slice()
    }

    /// Makes room for what one event enters. `AllocError` where memory runs out; nothing but the room changed then.
    pub fn reserve(&mut self) -> Result<(), AllocError>
        ensures same { self.new.worker ≡ self.old.worker }
        ensures room { OnOk result (16 ≤ self.new.spare) }
    {
        self.entries.reserve(HAND_LIMIT)
    }

    /// Takes messages that were lifted into the empty hand, where a leaf is left. They have the certificate's receiver and
    /// label, and a spelling. It takes no memory.
    pub fn hold(&mut self, batch: BodyBatch)
        requires empty { self.old.worker.hand ≡ [] }
        requires ready { IsReady self.old.worker.signing }
        requires on { All (WaitsOn self.old.worker.cert) batch }
        ensures held { self.new.worker ≡ holding batch self.old.worker }
        ensures room { self.new.spare ≡ self.old.spare }
    {
        self.hand = batch;
    }

    /// Writes what is in hand as one frame, whose number is the leaf of its signature: the next one of the lane's key. The
    /// hand is empty then, and the frame is entered.
    ///
    /// # Errors
    ///
    /// - `KeeperFault` where the keeper failed to raise the mark of the lane's key: its count of faults rose, and the mark may
    ///   be raised all the same.
    /// - `NoMemory` where memory runs out. The keeper is as it was.
    ///
    /// After both nothing was written, and the worker is as it was.
    #[tactic(auto, using(crate::proofs::Sizes::have_spelling))]
    pub fn frame<K: Keeper>(&mut self, stamp: u64, keeper: &mut K) -> Result<(), LaneFault>
        requires room { 16 ≤ self.old.spare }
        requires some { 0 < length self.old.worker.hand }
        ensures faults { K.faults keeper.old ≤ K.faults keeper.new }
        ensures ok { OnOk result (self.new.worker ≡ framed stamp self.old.worker) }
        ensures raised { OnOk result (Raised (K.tells keeper.old) self.old.worker.signing.key.id (self.old.worker.signing.next + 1) (K.tells keeper.new)) }
        ensures err { OnErr result (self.new ≡ self.old) }
        ensures untouched { result ≡ Err LaneFault.NoMemory → keeper.new ≡ keeper.old }
        ensures fault { result ≡ Err LaneFault.KeeperFault → Rose (K.faults keeper.old) (K.faults keeper.new) }
        ensures may_be_raised { result ≡ Err LaneFault.KeeperFault
            → MayBeRaised (K.tells keeper.old) self.old.worker.signing.key.id (self.old.worker.signing.next + 1) (K.tells keeper.new) }
        ensures traced { (released : List ℕ) → Traced (K.tells keeper.old) self.old.worker.signing.key (Some self.old.worker.signing.next) released
            → MatchResult result
            (λ _. Traced (K.tells keeper.new) self.old.worker.signing.key (Some self.new.worker.signing.next) (self.old.worker.signing.next ∷ released))
            (λ _. Traced (K.tells keeper.new) self.old.worker.signing.key (Some self.new.worker.signing.next) released) }
    {
        let number = self.signer.next();
        let count = self.hand.len() as u32;
        let hand = self.hand.as_slice();
        let part = part_with_room(self.alloc, number, hand, &mut self.stream)?;
        let signature = match self.signer.sign(keeper, part.as_slice()) {
            Ok(signature) => signature,
            Err(SignFault::KeeperFault) => return Err(LaneFault::KeeperFault),
            Err(SignFault::NoMemory) => return Err(LaneFault::NoMemory),
            Err(SignFault::Spent) => unreachable!(),
        };
        append_frame(&mut self.stream, part.as_slice(), signature.as_slice());
        self.hand = BodyBatch::new(self.alloc);
        let act = WorkerAct::Framed { number, count };
        self.entries.push_reserved(WorkerEntry { stamp, act });
        Ok(())
    }

    /// Drops what is in hand, by this rule, and enters each message. It takes no memory.
    pub fn drop_all(&mut self, stamp: u64, rule: Rule)
        requires { 16 ≤ self.old.spare }
        ensures { self.new.worker ≡ dropped stamp rule self.old.worker }
    {
        enter_dropped(&mut self.entries, stamp, rule, self.hand.as_slice());
        let none = BodyBatch::new(self.alloc);
        self.hand = none;
    }
}
