//! The certificates that go with a message.

ghost use Rattle.std.specs.Prelude.{◌≡◌, ◌++◌, [], ◌∷◌, map, filter, filter_map, slice_get, IfOk, OnOk};
ghost use Rattle.std.specs.List.{AllByRecursion};
ghost use Rattle.ds_wire.specs.Fields.{IsBytes};
ghost use Rattle.ds_cert.specs.Ranges.{DelegationRange};
ghost use Rattle.ds_cert.specs.Spelling.{spelling_of_delegation};
ghost use Rattle.ds_msg.specs.Ranges.{CertsFit};
ghost use Rattle.ds_model.specs.ExporterRules.{attach, attach_all, with_attached};
ghost use Rattle.ds_model.specs.Scheme.{Scheme};
ghost use Rattle.ds_flow.specs.Asked.{attach_each, is_integrity, spelled_chain};
ghost use Rattle.ds_flow.specs.Chains.{flow_scheme};

use ds_cert::Delegation;
use ds_chain::{CertBook, CertList};
use ds_label::{Category, Kind, Label, PubKey};
use ds_msg::CertBytes;
use std::alloc::{AllocError, Global};
use std::marker::Model;

/// The most certificates of a message.
const ATTACH_LIMIT: usize = 16;

/// A slice of bytes is a list of bytes. It does nothing: its contract is what the type says.
fn show_bytes(bytes: &[u8])
    ensures { IsBytes bytes.now }
{
    let _size = bytes.len();
}

/// What is attached so far: at most 16 spelled delegations in range, none twice. Contracts see the list.
#[derive(Drop)]
struct Attachments {
    certs: CertBytes,
}

impl Model for Attachments {
    ghost use Rattle.std.specs.Prelude.{ℕ, List};
    ghost use Rattle.ds_flow.specs.Carried.{MayCarry};

    ghost Value = { List (List ℕ) };

    ghost view = { λ a. a.certs };

    ghost invariant = { λ a. MayCarry a.certs };
}

impl Attachments {
    /// Nothing. Takes no memory.
    fn none(alloc: Global) -> Attachments
        ensures { result ≡ [] }
    {
        Attachments {
            certs: CertBytes::new(alloc),
        }
    }

    /// Appends a delegation, unless it is there or there are 16.
    fn add(&mut self, cert: &Delegation) -> Result<(), AllocError>
        requires { DelegationRange cert.now }
        ensures { OnOk result (self.new ≡ with_attached (spelling_of_delegation cert.now) self.old) }
    {
        cert.show_fits();
        let spelled = cert.encode()?;
        show_bytes(spelled.as_slice());
        if self.certs.has(spelled.as_slice()) || self.certs.len() >= ATTACH_LIMIT {
            return Ok(());
        }
        self.certs.push(spelled)?;
        Ok(())
    }

    /// The certificates. Takes no memory.
    fn into_certs(self) -> CertBytes
        ensures certs { result ≡ self }
        ensures fits { CertsFit self }
        ensures bytes { AllByRecursion IsBytes self }
    {
        self.certs
    }
}

/// Attaches the delegation at a place, where there is one.
fn attach_place(certs: &mut Attachments, store: &CertList, place: u32) -> Result<(), AllocError>
    ensures { OnOk result (certs.new ≡ attach_all certs.old (map spelling_of_delegation (filter_map (slice_get store.now.items) (place ∷ [])))) }
{
    let Some(cert) = store.get(place as usize) else {
        return Ok(());
    };
    certs.add(cert)
}

/// Attaches the delegations at these places.
fn attach_places(
    certs: &mut Attachments,
    store: &CertList,
    places: &[u32],
) -> Result<(), AllocError>
    ensures { OnOk result (certs.new ≡ attach_all certs.old (map spelling_of_delegation (filter_map (slice_get store.now.items) places.now))) }
{
    for place in places {
        attach_place(certs, store, *place)?;
    }
    Ok(())
}

/// Attaches the delegations of the shortest chain by which the exporter `here` holds the category.
fn attach_chain(
    alloc: Global,
    certs: &mut Attachments,
    store: &mut CertBook,
    now: u64,
    here: &PubKey,
    category: &Category,
) -> Result<(), AllocError>
    ensures certs { OnOk result (certs.new ≡ attach_all certs.old (spelled_chain store.old.items now here.now category.now)) }
    ensures same { store.new ≡ store.old }
{
    let none = CertList::new(alloc);
    match store.search(&none, now, category, here)? {
        None => Ok(()),
        Some(chain) => attach_places(certs, store.list(), chain.places()),
    }
}

/// Attaches what shows that the exporter `here` holds each of these categories.
fn attach_members(
    alloc: Global,
    certs: &mut Attachments,
    store: &mut CertBook,
    now: u64,
    here: &PubKey,
    members: &[Category],
) -> Result<(), AllocError>
    ensures certs { OnOk result (certs.new ≡ attach_each (spelled_chain store.old.items now here.now) certs.old members.now) }
    ensures same { store.new ≡ store.old }
{
    for c in members {
        attach_chain(alloc, certs, store, now, here, c)?;
    }
    Ok(())
}

/// The same for the integrity categories of a label.
fn attach_integrity(
    alloc: Global,
    certs: &mut Attachments,
    store: &mut CertBook,
    now: u64,
    here: &PubKey,
    label: &[Category],
) -> Result<(), AllocError>
    ensures certs { OnOk result (certs.new ≡ attach_each (spelled_chain store.old.items now here.now) certs.old (filter is_integrity label.now)) }
    ensures same { store.new ≡ store.old }
{
    for c in label {
        if c.kind != Kind::Secrecy {
            attach_chain(alloc, certs, store, now, here, c)?;
        }
    }
    Ok(())
}

/// The same for a label's integrity categories, an ownership and a clearance.
fn attached(
    alloc: Global,
    store: &mut CertBook,
    now: u64,
    here: &PubKey,
    label: &Label,
    own: &Label,
    clear: &Label,
) -> Result<Attachments, AllocError>
    ensures certs { IfOk result (λ certs. certs ≡ attach_each (spelled_chain store.old.items now here.now)
        (attach_each (spelled_chain store.old.items now here.now) (attach_each (spelled_chain store.old.items now here.now) [] (filter is_integrity label.now)) own.now) clear.now) }
    ensures same { store.new ≡ store.old }
{
    let mut certs = Attachments::none(alloc);
    attach_integrity(alloc, &mut certs, store, now, here, label.as_slice())?;
    attach_members(alloc, &mut certs, store, now, here, own.as_slice())?;
    attach_members(alloc, &mut certs, store, now, here, clear.as_slice())?;
    Ok(certs)
}

/// The certificates that the exporter `here` attaches to a message with these labels at the moment `now`: for each integrity
/// category of the label, then each granted ownership and each granted clearance, in label order, the delegations of its
/// own shortest chain by what the host keeps, in chain order, each once, until there are 16. So they are fit for a message: at
/// most 16, none twice, and each spells a delegation in range. `AllocError` where memory runs out.
pub fn attach(
    alloc: Global,
    store: &mut CertBook,
    now: u64,
    here: &PubKey,
    label: &Label,
    own: &Label,
    clear: &Label,
) -> Result<CertBytes, AllocError>
    ensures certs { (s : Scheme) → IfOk result (λ certs. certs ≡ attach (flow_scheme s) store.old.items now here.now label.now own.now clear.now) }
    ensures fits { IfOk result CertsFit }
    ensures bytes { IfOk result (AllByRecursion IsBytes) }
    ensures same { store.new ≡ store.old }
{
    let certs = attached(alloc, store, now, here, label, own, clear)?;
    Ok(certs.into_certs())
}
