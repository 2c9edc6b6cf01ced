//! Delegations.

ghost use Rattle.std.specs.Prelude.{◌≡◌, ◌≤◌, ◌<◌, ◌↔◌, length, IfOk, IsTrue, Ok};
ghost use Rattle.lms_sig.specs.Good.{IsGood};
ghost use Rattle.ds_cert.specs.declared.delegation.Delegation.{Delegation};
ghost use Rattle.ds_cert.specs.Fields.{Answers, Gives, alone};
ghost use Rattle.ds_cert.specs.Good.{is_good_delegation};
ghost use Rattle.ds_cert.specs.Ranges.{DelegationFits, DelegationRange};
ghost use Rattle.ds_cert.specs.Reading.{delegation_at, read_delegation};
ghost use Rattle.ds_cert.specs.Spelling.{signed_part_of_delegation, spelling_of_delegation};

use crate::array::{category_bytes, put};
use crate::fault::{CertFault, ReadFault, at_place};
use crate::fields::{byte_of, category_of, key_of, moment_of, signature_of};
use crate::writing::{append_category, append_signature};
use ds_label::{Category, PubKey};
use ds_wire::{Bytes, put_u8, put_u64};
use lms_sig::verify;
use std::alloc::{AllocError, Global};

/// A delegation: its signer says that an exporter may act for a category, from a moment on and before another, in seconds.
#[derive(Debug, Drop)]
pub struct Delegation {
    /// The category.
    pub category: Category,
    /// The key of the exporter that may act for it.
    pub to: PubKey,
    /// The first moment at which it is valid.
    pub from: u64,
    /// The first moment at which it is no longer valid.
    pub until: u64,
    /// The signer's key.
    pub by: PubKey,
    /// The signature over all other fields.
    pub signature: Bytes,
}

impl Delegation {
    /// The one spelling. `AllocError` where memory runs out.
    pub fn encode(&self) -> Result<Bytes, AllocError>
        requires { DelegationRange self.now }
        ensures { IfOk result (λ b. b ≡ spelling_of_delegation self.now) }
    {
        let mut out = self.signed_with_room(2 + self.signature.len())?;
        append_signature(&mut out, &self.signature)?;
        Ok(out)
    }

    /// A delegation, of which the whole input is the spelling. `Malformed` comes exactly where the input is none.
    pub fn decode(alloc: Global, input: &[u8]) -> Result<Delegation, CertFault>
        // What is read is spelled so.
        ensures found { IfOk result (λ x. DelegationRange x × (input.now ≡ spelling_of_delegation x)) }
        // What is spelled so is read, unless memory runs out.
        ensures only { (x : Delegation) → DelegationFits x → input.now ≡ spelling_of_delegation x → Answers {Y = Delegation} (λ y. y) result (Ok x) }
        // Which fault it is.
        ensures exact { Answers (λ y. y) result (read_delegation input.now) }
    {
        read(alloc, input)
    }

    /// What the signature is over: the bytes before the signature's count. `AllocError` where memory runs out.
    pub fn signed_part(&self) -> Result<Bytes, AllocError>
        ensures { IfOk result (λ b. b ≡ signed_part_of_delegation self.now) }
    {
        self.signed_with_room(0)
    }

    /// Whether the signature is good under the key `by`. `AllocError` where memory runs out.
    pub fn good(&self) -> Result<bool, AllocError>
        ensures { IfOk result (λ b. IsTrue b ↔ IsGood self.now.by.0 (signed_part_of_delegation self.now) self.now.signature) }
    {
        let part = self.signed_part()?;
        Ok(verify(&self.by.0, part.as_slice(), self.signature.as_slice()).is_ok())
    }

    /// Whether the signature is good under the key `by`. Takes no memory.
    pub fn is_good(&self) -> bool
        ensures good { IsTrue result ↔ IsGood self.now.by.0 (signed_part_of_delegation self.now) self.now.signature }
        ensures test { result ≡ is_good_delegation self.now }
    {
        verify(&self.by.0, &self.signed_array(), self.signature.as_slice()).is_ok()
    }

    /// Whether it is valid at a moment: from `from` on, and before `until`.
    pub fn valid_at(&self, moment: u64) -> bool
        ensures { IsTrue result ↔ ((self.now.from ≤ moment) × (moment < self.now.until)) }
    {
        self.from <= moment && moment < self.until
    }

    /// Whether both are equal.
    pub fn same(&self, other: &Delegation) -> bool
        ensures { IsTrue result ↔ (self.now ≡ other.now) }
    {
        self.category == other.category
            && self.to == other.to
            && self.from == other.from
            && self.until == other.until
            && self.by == other.by
            && self.signature.same(&other.signature)
    }

    /// An equal one. `AllocError` where memory runs out.
    pub fn copy(&self) -> Result<Delegation, AllocError>
        ensures { IfOk result (λ x. x ≡ self.now) }
    {
        Ok(Delegation {
            category: self.category,
            to: self.to,
            from: self.from,
            until: self.until,
            by: self.by,
            signature: self.signature.copy()?,
        })
    }

    /// The bytes before the signature's count. Takes no memory.
    #[tactic(auto, unfolding(crate::specs::Spelling::signed_part_of_delegation))]
    fn signed_array(&self) -> [u8; 194]
        ensures { result ≡ signed_part_of_delegation self.now }
    {
        let mut out = [0u8; 194];
        put(&mut out, 0, &[1]);
        put(&mut out, 1, &category_bytes(&self.category));
        put(&mut out, 66, &self.to.0);
        put(&mut out, 122, &self.from.to_be_bytes());
        put(&mut out, 130, &self.until.to_be_bytes());
        put(&mut out, 138, &self.by.0);
        out
    }

    /// The bytes before the signature's count, with room for that many more.
    #[tactic(auto, unfolding(crate::specs::Spelling::signed_part_of_delegation))]
    fn signed_with_room(&self, more: usize) -> Result<Bytes, AllocError>
        requires { more ≤ 2510 }
        ensures { IfOk result (λ b. b ≡ signed_part_of_delegation self.now) }
    {
        let mut out = Bytes::with_room(self.signature.allocator(), 194 + more)?;
        put_u8(&mut out, 1)?;
        append_category(&mut out, &self.category)?;
        out.append(&self.to.0)?;
        put_u64(&mut out, self.from)?;
        put_u64(&mut out, self.until)?;
        out.append(&self.by.0)?;
        Ok(out)
    }
}

/// A delegation at the front of the bytes.
#[tactic(auto, unfolding(crate::specs::Reading::delegation_at))]
fn delegation_of(alloc: Global, bytes: &[u8]) -> Result<(Delegation, &[u8]), ReadFault>
    ensures { Gives (λ x. (x.0, x.1.now)) result (delegation_at bytes.now) }
{
    let (_, rest) = byte_of(bytes, 1, 1)?;
    let (category, rest) = category_of(rest)?;
    let (to, rest) = key_of(rest)?;
    let (from, rest) = moment_of(rest)?;
    let (until, rest) = moment_of(rest)?;
    let (by, rest) = key_of(rest)?;
    let (signature, rest) = signature_of(alloc, rest)?;
    Ok((
        Delegation {
            category,
            to,
            from,
            until,
            by,
            signature,
        },
        rest,
    ))
}

/// A delegation that nothing follows.
fn delegation_alone(alloc: Global, bytes: &[u8]) -> Result<Delegation, ReadFault>
    ensures { Gives (λ x. x) result (alone (delegation_at bytes.now)) }
{
    let (x, rest) = delegation_of(alloc, bytes)?;
    if !rest.is_empty() {
        return Err(ReadFault::Left(rest.len()));
    }
    Ok(x)
}

/// A delegation, or the place of the first fault.
#[tactic(auto, unfolding(crate::specs::Reading::read_delegation))]
fn read(alloc: Global, input: &[u8]) -> Result<Delegation, CertFault>
    ensures { Answers (λ y. y) result (read_delegation input.now) }
{
    match delegation_alone(alloc, input) {
        Ok(x) => Ok(x),
        Err(fault) => Err(at_place(input.len(), fault)),
    }
}
