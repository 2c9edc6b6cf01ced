//! The delegations that a host keeps.

ghost use Rattle.std.specs.Prelude.{◌≡◌, ◌≤◌, ◌<◌, ◌++◌, [], ◌∷◌, ◌↔◌, ◌≢◌, false, length, map, slice_get, option_copied, vec_items, Err, IfOk, IsOk, OnOk, OnErr, IfSome, IsTrue, IsErrOf};
ghost use Rattle.ds_cert.specs.declared.delegation.Delegation.{Delegation};
ghost use Rattle.ds_cert.specs.Good.{is_good_delegation};
ghost use Rattle.ds_cert.specs.NoDoubles.{is_kept as is_kept_in, same_delegation, with_delegation};
ghost use Rattle.ds_cert.specs.Ranges.{DelegationRange};
ghost use Rattle.ds_chain.specs.Stored.{IsStore};

use crate::fault::{CERT_LIMIT, ListFault};
use ds_cert::Delegation;
use std::alloc::{AllocError, Global};
use std::marker::Model;

/// The delegations that a host keeps: at most 256, in the order in which they came, none twice, each in the ranges of the
/// format. Contracts see the list, and whether there is room for one more (`spare`, 0 or 1).
///
/// The list knows of each whether it is good, so that a search verifies no signature.
#[derive(Debug, Drop)]
pub struct CertList {
    certs: Vec<Delegation>,
    good_flags: Vec<bool>,
}

impl Model for CertList {
    ghost use Rattle.std.specs.Prelude.{◌≡◌, ◌-◌, min, map, vec_len, vec_capacity};
    ghost use Rattle.ds_cert.specs.declared.delegation.Delegation.{Delegation};
    ghost use Rattle.ds_cert.specs.Good.{is_good_delegation};
    ghost use Rattle.ds_cert.specs.Ranges.{DelegationRange};
    ghost use Rattle.ds_chain.specs.Stored.{Stored, IsStore};

    ghost Value = { Stored Delegation };

    ghost view = { λ l. record { items = l.certs.items; spare = min 1 (min (vec_capacity l.certs - vec_len l.certs) (vec_capacity l.good_flags - vec_len l.good_flags)) } };

    ghost invariant = { λ l. IsStore 256 DelegationRange l.certs.items × (l.good_flags.items ≡ map is_good_delegation l.certs.items) };
}

impl CertList {
    /// No delegation. Takes no memory.
    pub fn new(alloc: Global) -> CertList
        ensures { result.items ≡ [] }
    {
        CertList {
            certs: Vec::new(alloc),
            good_flags: Vec::new(alloc),
        }
    }

    /// How many delegations there are.
    pub fn len(&self) -> usize
        ensures count { result ≡ length self.now.items }
        ensures limit { length self.now.items ≤ 256 }
    {
        self.certs.len()
    }

    /// Whether there is none.
    pub fn is_empty(&self) -> bool
        ensures { IsTrue result ↔ (self.now.items ≡ []) }
    {
        self.certs.as_slice().is_empty()
    }

    /// Whether there are 256, so that no new one is taken.
    pub fn is_full(&self) -> bool
        ensures full { IsTrue result ↔ (length self.now.items ≡ 256) }
        ensures limit { length self.now.items ≤ 256 }
    {
        self.certs.len() == CERT_LIMIT
    }

    /// The delegation at a place, from 0.
    pub fn get(&self, place: usize) -> Option<&Delegation>
        ensures cert { option_copied result ≡ slice_get self.now.items place }
        ensures range { IfSome result (λ d. DelegationRange d.now) }
    {
        self.certs.get(place)
    }

    /// The delegations, in order.
    pub fn as_slice(&self) -> &[Delegation]
        ensures items { result.now ≡ self.now.items }
        ensures store { IsStore 256 DelegationRange self.now.items }
    {
        self.certs.as_slice()
    }

    /// Whether the delegation is in the list.
    pub fn is_kept(&self, cert: &Delegation) -> bool
        ensures { result ≡ is_kept_in cert.now self.now.items }
    {
        is_among(self.certs.as_slice(), cert)
    }

    /// Of each delegation, in order, whether it is good. It verifies nothing.
    pub(crate) fn good_flags(&self) -> &[bool]
        ensures { result.now ≡ map is_good_delegation self.now.items }
    {
        self.good_flags.as_slice()
    }

    /// Makes room for one delegation. After `AllocError`, which says that memory ran out, the delegations are the same.
    pub fn reserve(&mut self) -> Result<(), AllocError>
        ensures same { self.new.items ≡ self.old.items }
        ensures room { OnOk result (self.new.spare ≡ 1) }
        ensures there { 0 < self.old.spare → IsOk result }
        ensures kept { self.old.spare ≤ self.new.spare }
    {
        self.certs.reserve(1)?;
        self.good_flags.reserve(1)
    }

    /// Adds a delegation in the ranges of the format behind the others. One that is there already changes nothing.
    /// `ListFull` comes exactly where it would be the 257th, `NoMemory` where memory runs out, which it can't after
    /// `reserve`. After either nothing changed.
    pub fn add(&mut self, cert: Delegation) -> Result<(), ListFault>
        requires { DelegationRange cert }
        ensures ok { OnOk result (self.new.items ≡ with_delegation cert self.old.items) }
        ensures there { IsTrue (is_kept_in cert self.old.items) → IsOk result }
        ensures full { IsErrOf result ListFault.ListFull ↔ (256 < length (with_delegation cert self.old.items)) }
        ensures reserved { 0 < self.old.spare → result ≢ Err ListFault.NoMemory }
        ensures err { OnErr result (self.new.items ≡ self.old.items) }
    {
        let full = self.is_full();
        if self.is_kept(&cert) {
            return Ok(());
        }
        if full {
            return Err(ListFault::ListFull);
        }
        if self.reserve().is_err() {
            return Err(ListFault::NoMemory);
        }
        self.keep(cert);
        Ok(())
    }

    /// The allocator that the list came with.
    pub(crate) fn allocator(&self) -> Global {
        *self.certs.allocator()
    }

    /// Adds a new delegation, for which there is room. Takes no memory.
    pub(crate) fn keep(&mut self, cert: Delegation)
        requires range { DelegationRange cert }
        requires few { length self.old.items < 256 }
        requires new { is_kept_in cert self.old.items ≡ false }
        requires room { 0 < self.old.spare }
        ensures { self.new.items ≡ self.old.items ++ cert ∷ [] }
    {
        let good = cert.is_good();
        self.certs.push_reserved(cert);
        self.good_flags.push_reserved(good);
    }

    /// An equal list. `AllocError` where memory runs out.
    pub fn copy(&self) -> Result<CertList, AllocError>
        ensures { IfOk result (λ l. l.items ≡ self.now.items) }
    {
        let alloc = *self.certs.allocator();
        Ok(CertList {
            certs: copies_of(alloc, self.certs.as_slice())?,
            good_flags: self.good_flags.as_slice().to_vec(alloc)?,
        })
    }
}

/// Whether both are equal in all fields.
fn is_same(first: &Delegation, second: &Delegation) -> bool
    ensures { result ≡ same_delegation first.now second.now }
{
    first.same(second)
}

/// Whether the delegation is among the others.
fn is_among(certs: &[Delegation], cert: &Delegation) -> bool
    ensures { result ≡ is_kept_in cert.now certs.now }
{
    certs.iter().any(|other| is_same(cert, other))
}

/// Equal delegations. `AllocError` where memory runs out.
fn copies_of(alloc: Global, certs: &[Delegation]) -> Result<Vec<Delegation>, AllocError>
    ensures { IfOk result (λ copies. copies.items ≡ certs.now) }
{
    let mut copies = Vec::with_capacity(alloc, certs.len())?;
    for cert in certs {
        copies.push(cert.copy()?)?;
    }
    Ok(copies)
}
