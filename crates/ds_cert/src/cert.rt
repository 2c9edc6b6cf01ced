//! The certificates that a host keeps.

ghost use Rattle.std.specs.Prelude.{◌≡◌, ◌↔◌, IfOk, IsTrue, Ok};
ghost use Rattle.ds_cert.specs.declared.cert.Cert.{Cert};
ghost use Rattle.ds_cert.specs.Fields.{Answers};
ghost use Rattle.ds_cert.specs.Ranges.{CertFits, CertRange};
ghost use Rattle.ds_cert.specs.Reading.{read_cert};
ghost use Rattle.ds_cert.specs.Spelling.{spelling_of_cert};

use crate::address::Address;
use crate::delegation::Delegation;
use crate::fault::CertFault;
use std::alloc::{AllocError, Global};

/// A certificate that a host keeps, of either kind.
#[derive(Debug, Drop)]
pub enum Cert {
    /// A delegation.
    Delegation(Delegation),
    /// An address certificate.
    Address(Address),
}

impl Cert {
    /// A certificate of either kind, of which the whole input is the spelling. `Malformed` comes exactly where the input is
    /// none.
    pub fn decode(alloc: Global, input: &[u8]) -> Result<Cert, CertFault>
        // What is read is spelled so.
        ensures found { IfOk result (λ x. CertRange x × (input.now ≡ spelling_of_cert x)) }
        // What is spelled so is read, unless memory runs out.
        ensures only { (x : Cert) → CertFits x → input.now ≡ spelling_of_cert x → Answers {Y = Cert} (λ y. y) result (Ok x) }
        // Which fault it is.
        ensures exact { Answers (λ y. y) result (read_cert input.now) }
    {
        read(alloc, input)
    }

    /// Whether both are equal.
    pub fn same(&self, other: &Cert) -> bool
        ensures { IsTrue result ↔ (self.now ≡ other.now) }
    {
        match (self, other) {
            (Cert::Delegation(first), Cert::Delegation(second)) => first.same(second),
            (Cert::Address(first), Cert::Address(second)) => first.same(second),
            _ => false,
        }
    }

    /// An equal one. `AllocError` where memory runs out.
    pub fn copy(&self) -> Result<Cert, AllocError>
        ensures { IfOk result (λ x. x ≡ self.now) }
    {
        match self {
            Cert::Delegation(delegation) => Ok(Cert::Delegation(delegation.copy()?)),
            Cert::Address(address) => Ok(Cert::Address(address.copy()?)),
        }
    }
}

/// A certificate of either kind, or the place of the first fault.
#[tactic(auto, unfolding(crate::specs::Reading::read_cert))]
fn read(alloc: Global, input: &[u8]) -> Result<Cert, CertFault>
    ensures found { IfOk result (λ x. CertRange x × (input.now ≡ spelling_of_cert x)) }
    ensures exact { Answers (λ y. y) result (read_cert input.now) }
{
    match input {
        [1, ..] => Ok(Cert::Delegation(Delegation::decode(alloc, input)?)),
        [2, ..] => Ok(Cert::Address(Address::decode(alloc, input)?)),
        _ => Err(CertFault::Malformed(0)),
    }
}
