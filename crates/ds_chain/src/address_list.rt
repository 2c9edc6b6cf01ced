//! The address certificates that a host keeps.

ghost use Rattle.std.specs.Prelude.{◌≡◌, ◌≤◌, ◌<◌, ◌++◌, [], ◌∷◌, ◌↔◌, ◌≢◌, false, length, slice_index, slice_get, option_copied, vec_items, map, Err, IfOk, IsOk, OnOk, OnErr, IfSome, IsTrue, IsErrOf};
ghost use Rattle.ds_cert.specs.declared.address.Address.{Address};
ghost use Rattle.ds_cert.specs.Good.{is_good_address};
ghost use Rattle.ds_cert.specs.NoDoubles.{is_kept_address, same_address, with_address};
ghost use Rattle.ds_cert.specs.Ranges.{AddressRange};
ghost use Rattle.ds_chain.specs.Addresses.{find_address, tells};
ghost use Rattle.ds_chain.specs.Stored.{IsStore};

use crate::fault::{ADDRESS_LIMIT, ListFault};
use ds_cert::Address;
use ds_label::PubKey;
use std::alloc::{AllocError, Global};
use std::marker::Model;

/// The address certificates that a host keeps: at most 64, in the order in which they came, none twice, each in the ranges of
/// the format. Contracts see the list, and whether there is room for one more (`spare`, 0 or 1).
///
/// The list knows of each whether it is good, so that a look-up verifies no signature.
#[derive(Debug, Drop)]
pub struct AddressList {
    certs: Vec<Address>,
    good_flags: Vec<bool>,
}

impl Model for AddressList {
    ghost use Rattle.std.specs.Prelude.{◌≡◌, ◌-◌, min, map, vec_len, vec_capacity};
    ghost use Rattle.ds_cert.specs.declared.address.Address.{Address};
    ghost use Rattle.ds_cert.specs.Good.{is_good_address};
    ghost use Rattle.ds_cert.specs.Ranges.{AddressRange};
    ghost use Rattle.ds_chain.specs.Stored.{Stored, IsStore};

    ghost Value = { Stored Address };

    ghost view = { λ l. record { items = l.certs.items; spare = min 1 (min (vec_capacity l.certs - vec_len l.certs) (vec_capacity l.good_flags - vec_len l.good_flags)) } };

    ghost invariant = { λ l. IsStore 64 AddressRange l.certs.items × (l.good_flags.items ≡ map is_good_address l.certs.items) };
}

impl AddressList {
    /// No address certificate. Takes no memory.
    pub fn new(alloc: Global) -> AddressList
        ensures { result.items ≡ [] }
    {
        AddressList {
            certs: Vec::new(alloc),
            good_flags: Vec::new(alloc),
        }
    }

    /// How many address certificates there are.
    pub fn len(&self) -> usize
        ensures count { result ≡ length self.now.items }
        ensures limit { length self.now.items ≤ 64 }
    {
        self.certs.len()
    }

    /// Whether there is none.
    pub fn is_empty(&self) -> bool
        ensures { IsTrue result ↔ (self.now.items ≡ []) }
    {
        self.certs.as_slice().is_empty()
    }

    /// Whether there are 64, so that no new one is taken.
    pub fn is_full(&self) -> bool
        ensures full { IsTrue result ↔ (length self.now.items ≡ 64) }
        ensures limit { length self.now.items ≤ 64 }
    {
        self.certs.len() == ADDRESS_LIMIT
    }

    /// The address certificate at a place, from 0.
    pub fn get(&self, place: usize) -> Option<&Address>
        ensures cert { option_copied result ≡ slice_get self.now.items place }
        ensures range { IfSome result (λ a. AddressRange a.now) }
    {
        self.certs.get(place)
    }

    /// The address certificates, in order.
    pub fn as_slice(&self) -> &[Address]
        ensures items { result.now ≡ self.now.items }
        ensures store { IsStore 64 AddressRange self.now.items }
    {
        self.certs.as_slice()
    }

    /// Whether the address certificate is in the list.
    pub fn is_kept(&self, cert: &Address) -> bool
        ensures { result ≡ is_kept_address cert.now self.now.items }
    {
        is_among(self.certs.as_slice(), cert)
    }

    /// The first address certificate of the exporter that is good, and valid at the moment; none where there is none.
    pub fn find(&self, exporter: &PubKey, now: u64) -> Option<&Address>
        ensures { option_copied result ≡ find_address self.now.items now exporter.now }
    {
        first_telling(
            self.certs.as_slice(),
            self.good_flags.as_slice(),
            exporter,
            now,
        )
    }

    /// Makes room for one address certificate. After `AllocError`, which says that memory ran out, the certificates are the
    /// same.
    pub fn reserve(&mut self) -> Result<(), AllocError>
        ensures same { self.new.items ≡ self.old.items }
        ensures room { OnOk result (self.new.spare ≡ 1) }
        ensures there { 0 < self.old.spare → IsOk result }
        ensures kept { self.old.spare ≤ self.new.spare }
    {
        self.certs.reserve(1)?;
        self.good_flags.reserve(1)
    }

    /// Adds an address certificate in the ranges of the format behind the others. One that is there already changes nothing.
    /// `ListFull` comes exactly where it would be the 65th, `NoMemory` where memory runs out, which it can't after
    /// `reserve`. After either nothing changed.
    pub fn add(&mut self, cert: Address) -> Result<(), ListFault>
        requires { AddressRange cert }
        ensures ok { OnOk result (self.new.items ≡ with_address cert self.old.items) }
        ensures there { IsTrue (is_kept_address cert self.old.items) → IsOk result }
        ensures full { IsErrOf result ListFault.ListFull ↔ (64 < length (with_address cert self.old.items)) }
        ensures reserved { 0 < self.old.spare → result ≢ Err ListFault.NoMemory }
        ensures err { OnErr result (self.new.items ≡ self.old.items) }
    {
        let full = self.is_full();
        if self.is_kept(&cert) {
            return Ok(());
        }
        if full {
            return Err(ListFault::ListFull);
        }
        if self.reserve().is_err() {
            return Err(ListFault::NoMemory);
        }
        self.keep(cert);
        Ok(())
    }

    /// Adds a new address certificate, for which there is room. Takes no memory.
    fn keep(&mut self, cert: Address)
        requires range { AddressRange cert }
        requires few { length self.old.items < 64 }
        requires new { is_kept_address cert self.old.items ≡ false }
        requires room { 0 < self.old.spare }
        ensures { self.new.items ≡ self.old.items ++ cert ∷ [] }
    {
        let good = cert.is_good();
        self.certs.push_reserved(cert);
        self.good_flags.push_reserved(good);
    }

    /// An equal list. `AllocError` where memory runs out.
    pub fn copy(&self) -> Result<AddressList, AllocError>
        ensures { IfOk result (λ l. l.items ≡ self.now.items) }
    {
        let alloc = *self.certs.allocator();
        Ok(AddressList {
            certs: copies_of(alloc, self.certs.as_slice())?,
            good_flags: self.good_flags.as_slice().to_vec(alloc)?,
        })
    }
}

/// Whether both are equal in all fields.
fn is_same(first: &Address, second: &Address) -> bool
    ensures { result ≡ same_address first.now second.now }
{
    first.same(second)
}

/// Whether the address certificate is among the others.
fn is_among(certs: &[Address], cert: &Address) -> bool
    ensures { result ≡ is_kept_address cert.now certs.now }
{
    certs.iter().any(|other| is_same(cert, other))
}

/// Equal address certificates. `AllocError` where memory runs out.
fn copies_of(alloc: Global, certs: &[Address]) -> Result<Vec<Address>, AllocError>
    ensures { IfOk result (λ copies. copies.items ≡ certs.now) }
{
    let mut copies = Vec::with_capacity(alloc, certs.len())?;
    for cert in certs {
        copies.push(cert.copy()?)?;
    }
    Ok(copies)
}

/// Whether a certificate of which it is known whether it is good says where the exporter is reached.
fn says_where(cert: &Address, good: bool, exporter: &PubKey, now: u64) -> bool
    requires { good ≡ is_good_address cert.now }
    ensures { result ≡ tells now exporter.now cert.now }
{
    cert.exporter == *exporter && cert.valid_at(now) && good
}

/// The first certificate that says where the exporter is reached.
fn first_telling<'a>(
    certs: &'a [Address],
    good_flags: &[bool],
    exporter: &PubKey,
    now: u64,
) -> Option<&'a Address>
    requires { good_flags.now ≡ map is_good_address certs.now }
    ensures { option_copied result ≡ find_address certs.now now exporter.now }
{
    for (place, cert) in certs.iter().enumerate() {
        if says_where(cert, good_flags[place], exporter, now) {
            return Some(cert);
        }
    }
    None
}
