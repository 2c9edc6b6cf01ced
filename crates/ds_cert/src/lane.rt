//! Lane certificates.

ghost use Rattle.std.specs.Prelude.{◌≡◌, ◌≤◌, ◌<◌, ◌↔◌, length, IfOk, IsTrue, Ok};
ghost use Rattle.lms_sig.specs.Good.{IsGood};
ghost use Rattle.ds_cert.specs.declared.lane.LaneCert.{LaneCert};
ghost use Rattle.ds_cert.specs.Fields.{Answers, Gives, alone};
ghost use Rattle.ds_cert.specs.Ranges.{LaneCertFits, LaneCertRange};
ghost use Rattle.ds_cert.specs.Reading.{lane_cert_at, read_lane_cert};
ghost use Rattle.ds_cert.specs.Spelling.{signed_part_of_lane_cert, spelling_of_lane_cert};

use crate::fault::{CertFault, ReadFault, at_place};
use crate::fields::{byte_of, key_of, moment_of, number_of, signature_of};
use crate::label::label_of;
use crate::writing::{append_label, append_signature};
use ds_label::{Label, PubKey};
use ds_wire::{Bytes, put_u8, put_u32, put_u64};
use lms_sig::verify;
use std::alloc::{AllocError, Global};

/// A lane certificate: an exporter says that one of its lanes carries messages of one label to a receiver, in frames
/// signed by the lane's own key, from a moment on and before another, in seconds.
#[derive(Debug, Drop)]
pub struct LaneCert {
    /// The sending exporter's key, which signs.
    pub exporter: PubKey,
    /// The lane's number, from 1 to 32.
    pub lane: u32,
    /// The receiving exporter's key.
    pub receiver: PubKey,
    /// The label of each message of the lane.
    pub label: Label,
    /// The key that signs the lane's frames.
    pub key: PubKey,
    /// The first moment at which it is valid.
    pub from: u64,
    /// The first moment at which it is no longer valid.
    pub until: u64,
    /// The signature over all other fields.
    pub signature: Bytes,
}

impl LaneCert {
    /// The one spelling. `AllocError` where memory runs out.
    pub fn encode(&self) -> Result<Bytes, AllocError>
        requires { LaneCertRange self.now }
        ensures { IfOk result (λ b. b ≡ spelling_of_lane_cert self.now) }
    {
        let mut out = self.signed_with_room(2 + self.signature.len())?;
        append_signature(&mut out, &self.signature)?;
        Ok(out)
    }

    /// A lane certificate, of which the whole input is the spelling. `Malformed` comes exactly where the input is none.
    pub fn decode(alloc: Global, input: &[u8]) -> Result<LaneCert, CertFault>
        // What is read is spelled so.
        ensures found { IfOk result (λ x. LaneCertRange x × (input.now ≡ spelling_of_lane_cert x)) }
        // What is spelled so is read, unless memory runs out.
        ensures only { (x : LaneCert) → LaneCertFits x → input.now ≡ spelling_of_lane_cert x → Answers {Y = LaneCert} (λ y. y) result (Ok x) }
        // Which fault it is.
        ensures exact { Answers (λ y. y) result (read_lane_cert input.now) }
    {
        read(alloc, input)
    }

    /// What the signature is over: the bytes before the signature's count. `AllocError` where memory runs out.
    pub fn signed_part(&self) -> Result<Bytes, AllocError>
        ensures { IfOk result (λ b. b ≡ signed_part_of_lane_cert self.now) }
    {
        self.signed_with_room(0)
    }

    /// Whether the signature is good under the key `exporter`. `AllocError` where memory runs out.
    pub fn good(&self) -> Result<bool, AllocError>
        ensures { IfOk result (λ b. IsTrue b ↔ IsGood self.now.exporter.0 (signed_part_of_lane_cert self.now) self.now.signature) }
    {
        let part = self.signed_part()?;
        Ok(verify(&self.exporter.0, part.as_slice(), self.signature.as_slice()).is_ok())
    }

    /// Whether it is valid at a moment: from `from` on, and before `until`.
    pub fn valid_at(&self, moment: u64) -> bool
        ensures { IsTrue result ↔ ((self.now.from ≤ moment) × (moment < self.now.until)) }
    {
        self.from <= moment && moment < self.until
    }

    /// Whether both are equal.
    pub fn same(&self, other: &LaneCert) -> bool
        ensures { IsTrue result ↔ (self.now ≡ other.now) }
    {
        self.exporter == other.exporter
            && self.lane == other.lane
            && self.receiver == other.receiver
            && self.label.same(&other.label)
            && self.key == other.key
            && self.from == other.from
            && self.until == other.until
            && self.signature.same(&other.signature)
    }

    /// An equal one. `AllocError` where memory runs out.
    pub fn copy(&self) -> Result<LaneCert, AllocError>
        ensures { IfOk result (λ x. x ≡ self.now) }
    {
        Ok(LaneCert {
            exporter: self.exporter,
            lane: self.lane,
            receiver: self.receiver,
            label: self.label.copy()?,
            key: self.key,
            from: self.from,
            until: self.until,
            signature: self.signature.copy()?,
        })
    }

    /// The bytes before the signature's count, with room for that many more.
    #[tactic(auto, unfolding(crate::specs::Spelling::signed_part_of_lane_cert))]
    fn signed_with_room(&self, more: usize) -> Result<Bytes, AllocError>
        requires { more ≤ 2510 }
        ensures { IfOk result (λ b. b ≡ signed_part_of_lane_cert self.now) }
    {
        let mut out = Bytes::with_room(
            self.signature.allocator(),
            190 + 65 * self.label.len() + more,
        )?;
        put_u8(&mut out, 3)?;
        out.append(&self.exporter.0)?;
        put_u32(&mut out, self.lane)?;
        out.append(&self.receiver.0)?;
        append_label(&mut out, &self.label)?;
        out.append(&self.key.0)?;
        put_u64(&mut out, self.from)?;
        put_u64(&mut out, self.until)?;
        Ok(out)
    }
}

/// A lane certificate at the front of the bytes.
#[tactic(auto, unfolding(crate::specs::Reading::lane_cert_at))]
fn lane_of(alloc: Global, bytes: &[u8]) -> Result<(LaneCert, &[u8]), ReadFault>
    ensures { Gives (λ x. (x.0, x.1.now)) result (lane_cert_at bytes.now) }
{
    let (_, rest) = byte_of(bytes, 3, 3)?;
    let (exporter, rest) = key_of(rest)?;
    let (lane, rest) = number_of(rest, 1, 32)?;
    let (receiver, rest) = key_of(rest)?;
    let (label, rest) = label_of(alloc, rest)?;
    let (key, rest) = key_of(rest)?;
    let (from, rest) = moment_of(rest)?;
    let (until, rest) = moment_of(rest)?;
    let (signature, rest) = signature_of(alloc, rest)?;
    Ok((
        LaneCert {
            exporter,
            lane,
            receiver,
            label,
            key,
            from,
            until,
            signature,
        },
        rest,
    ))
}

/// A lane certificate that nothing follows.
fn lane_alone(alloc: Global, bytes: &[u8]) -> Result<LaneCert, ReadFault>
    ensures { Gives (λ x. x) result (alone (lane_cert_at bytes.now)) }
{
    let (x, rest) = lane_of(alloc, bytes)?;
    if !rest.is_empty() {
        return Err(ReadFault::Left(rest.len()));
    }
    Ok(x)
}

/// A lane certificate, or the place of the first fault.
#[tactic(auto, unfolding(crate::specs::Reading::read_lane_cert))]
fn read(alloc: Global, input: &[u8]) -> Result<LaneCert, CertFault>
    ensures { Answers (λ y. y) result (read_lane_cert input.now) }
{
    match lane_alone(alloc, input) {
        Ok(x) => Ok(x),
        Err(fault) => Err(at_place(input.len(), fault)),
    }
}
