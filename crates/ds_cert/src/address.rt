//! Address certificates.

ghost use Rattle.std.specs.Prelude.{◌≡◌, ◌+◌, ◌≤◌, ◌<◌, ◌↔◌, length, take, IfOk, IsTrue, Ok};
ghost use Rattle.lms_sig.specs.Good.{IsGood};
ghost use Rattle.ds_cert.specs.declared.address.Address.{Address};
ghost use Rattle.ds_cert.specs.Fields.{Answers, Gives, alone};
ghost use Rattle.ds_cert.specs.Good.{is_good_address};
ghost use Rattle.ds_cert.specs.Ranges.{AddressFits, AddressRange};
ghost use Rattle.ds_cert.specs.Reading.{address_at, read_address};
ghost use Rattle.ds_cert.specs.Spelling.{signed_part_of_address, spelling_of_address};

use crate::array::put;
use crate::fault::{CertFault, ReadFault, at_place};
use crate::fields::{address_text_of, byte_of, key_of, moment_of, signature_of};
use crate::writing::{append_address_text, append_signature};
use ds_label::PubKey;
use ds_wire::{Bytes, put_u8, put_u64};
use lms_sig::verify;
use std::alloc::{AllocError, Global};

/// An address certificate: an exporter says where it is reached, from a moment on and before another, in seconds.
#[derive(Debug, Drop)]
pub struct Address {
    /// The exporter's key, which signs.
    pub exporter: PubKey,
    /// Where it is reached.
    pub address: Bytes,
    /// The first moment at which it is valid.
    pub from: u64,
    /// The first moment at which it is no longer valid.
    pub until: u64,
    /// The signature over all other fields.
    pub signature: Bytes,
}

impl Address {
    /// The one spelling. `AllocError` where memory runs out.
    pub fn encode(&self) -> Result<Bytes, AllocError>
        requires { AddressRange self.now }
        ensures { IfOk result (λ b. b ≡ spelling_of_address self.now) }
    {
        let mut out = self.signed_with_room(2 + self.signature.len())?;
        append_signature(&mut out, &self.signature)?;
        Ok(out)
    }

    /// An address certificate, of which the whole input is the spelling. `Malformed` comes exactly where the input is none.
    pub fn decode(alloc: Global, input: &[u8]) -> Result<Address, CertFault>
        // What is read is spelled so.
        ensures found { IfOk result (λ x. AddressRange x × (input.now ≡ spelling_of_address x)) }
        // What is spelled so is read, unless memory runs out.
        ensures only { (x : Address) → AddressFits x → input.now ≡ spelling_of_address x → Answers {Y = Address} (λ y. y) result (Ok x) }
        // Which fault it is.
        ensures exact { Answers (λ y. y) result (read_address input.now) }
    {
        read(alloc, input)
    }

    /// What the signature is over: the bytes before the signature's count. `AllocError` where memory runs out.
    pub fn signed_part(&self) -> Result<Bytes, AllocError>
        requires { length self.now.address ≤ 64 }
        ensures { IfOk result (λ b. b ≡ signed_part_of_address self.now) }
    {
        self.signed_with_room(0)
    }

    /// Whether the signature is good under the key `exporter`. `AllocError` where memory runs out.
    pub fn good(&self) -> Result<bool, AllocError>
        requires { length self.now.address ≤ 64 }
        ensures { IfOk result (λ b. IsTrue b ↔ IsGood self.now.exporter.0 (signed_part_of_address self.now) self.now.signature) }
    {
        let part = self.signed_part()?;
        Ok(verify(&self.exporter.0, part.as_slice(), self.signature.as_slice()).is_ok())
    }

    /// Whether the signature is good under the key `exporter`. Takes no memory.
    pub fn is_good(&self) -> bool
        requires { length self.now.address ≤ 64 }
        ensures good { IsTrue result ↔ IsGood self.now.exporter.0 (signed_part_of_address self.now) self.now.signature }
        ensures test { result ≡ is_good_address self.now }
    {
        let array = self.signed_array();
        let part = &array[..74 + self.address.len()];
        verify(&self.exporter.0, part, self.signature.as_slice()).is_ok()
    }

    /// Whether it is valid at a moment: from `from` on, and before `until`.
    pub fn valid_at(&self, moment: u64) -> bool
        ensures { IsTrue result ↔ ((self.now.from ≤ moment) × (moment < self.now.until)) }
    {
        self.from <= moment && moment < self.until
    }

    /// Whether both are equal.
    pub fn same(&self, other: &Address) -> bool
        ensures { IsTrue result ↔ (self.now ≡ other.now) }
    {
        self.exporter == other.exporter
            && self.address.same(&other.address)
            && self.from == other.from
            && self.until == other.until
            && self.signature.same(&other.signature)
    }

    /// An equal one. `AllocError` where memory runs out.
    pub fn copy(&self) -> Result<Address, AllocError>
        ensures { IfOk result (λ x. x ≡ self.now) }
    {
        Ok(Address {
            exporter: self.exporter,
            address: self.address.copy()?,
            from: self.from,
            until: self.until,
            signature: self.signature.copy()?,
        })
    }

    /// The bytes before the signature's count, at the front of an array. Takes no memory.
    #[tactic(auto, unfolding(crate::specs::Spelling::signed_part_of_address))]
    fn signed_array(&self) -> [u8; 138]
        requires { length self.now.address ≤ 64 }
        ensures { take (74 + length self.now.address) result ≡ signed_part_of_address self.now }
    {
        let mut out = [0u8; 138];
        let end = 58 + self.address.len();
        put(&mut out, 0, &[2]);
        put(&mut out, 1, &self.exporter.0);
        put(&mut out, 57, &[self.address.len() as u8]);
        put(&mut out, 58, self.address.as_slice());
        put(&mut out, end, &self.from.to_be_bytes());
        put(&mut out, end + 8, &self.until.to_be_bytes());
        out
    }

    /// The bytes before the signature's count, with room for that many more.
    #[tactic(auto, unfolding(crate::specs::Spelling::signed_part_of_address))]
    fn signed_with_room(&self, more: usize) -> Result<Bytes, AllocError>
        requires address { length self.now.address ≤ 64 }
        requires more { more ≤ 2510 }
        ensures { IfOk result (λ b. b ≡ signed_part_of_address self.now) }
    {
        let mut out = Bytes::with_room(self.signature.allocator(), 74 + self.address.len() + more)?;
        put_u8(&mut out, 2)?;
        out.append(&self.exporter.0)?;
        append_address_text(&mut out, &self.address)?;
        put_u64(&mut out, self.from)?;
        put_u64(&mut out, self.until)?;
        Ok(out)
    }
}

/// An address certificate at the front of the bytes.
#[tactic(auto, unfolding(crate::specs::Reading::address_at))]
fn address_of(alloc: Global, bytes: &[u8]) -> Result<(Address, &[u8]), ReadFault>
    ensures { Gives (λ x. (x.0, x.1.now)) result (address_at bytes.now) }
{
    let (_, rest) = byte_of(bytes, 2, 2)?;
    let (exporter, rest) = key_of(rest)?;
    let (address, rest) = address_text_of(alloc, rest)?;
    let (from, rest) = moment_of(rest)?;
    let (until, rest) = moment_of(rest)?;
    let (signature, rest) = signature_of(alloc, rest)?;
    Ok((
        Address {
            exporter,
            address,
            from,
            until,
            signature,
        },
        rest,
    ))
}

/// An address certificate that nothing follows.
fn address_alone(alloc: Global, bytes: &[u8]) -> Result<Address, ReadFault>
    ensures { Gives (λ x. x) result (alone (address_at bytes.now)) }
{
    let (x, rest) = address_of(alloc, bytes)?;
    if !rest.is_empty() {
        return Err(ReadFault::Left(rest.len()));
    }
    Ok(x)
}

/// An address certificate, or the place of the first fault.
#[tactic(auto, unfolding(crate::specs::Reading::read_address))]
fn read(alloc: Global, input: &[u8]) -> Result<Address, CertFault>
    ensures { Answers (λ y. y) result (read_address input.now) }
{
    match address_alone(alloc, input) {
        Ok(x) => Ok(x),
        Err(fault) => Err(at_place(input.len(), fault)),
    }
}
