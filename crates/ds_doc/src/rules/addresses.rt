//! Address certificates for which a host has no room.

ghost use Rattle.std.specs.Prelude.{◌≡◌, ◌++◌, [], ◌∷◌, true, ◌≤◌, ◌-◌, ◌^◌, map, flat_map, length, bytes_eq, OnOk, IfOk};
ghost use Rattle.lms_sig.specs.Merkle.{signature};
ghost use Rattle.ds_cert.specs.Spelling.{spelling_of_address};
ghost use Rattle.ds_plan.specs.Documents as documents;
ghost use Rattle.ds_plan.specs.Documents.{stood};
ghost use Rattle.ds_plan.specs.Signed.{signed_address};
ghost use Rattle.ds_plan.specs.declared.host.Secret.TheVariants.{Seed};
ghost use Rattle.ds_doc.specs.Rules as of_rules;
ghost use Rattle.ds_doc.specs.Shapes.{unless};

use crate::draft::{DraftCert, DraftHost, HostNames};
use crate::fault::Fault;
use crate::reading::is_address_in_range;
use crate::rules::facts::GivenAt;
use crate::rules::hosts::is_silent;
use crate::rules::noted::note;
use crate::rules::secrets::tree_of;
use crate::text::is_address;
use ds_cert::{Address, Cert};
use ds_label::PubKey;
use ds_plan::{PartList, PlaceList, Secret};
use ds_wire::Bytes;
use lms_sig::{Params, TreeKey};
use std::alloc::{AllocError, Global};

/// Most different address certificates of a host.
const ADDRESS_MOST: usize = 64;

/// The places of hosts by their names.
pub(crate) fn numbers(alloc: Global, names: &HostNames) -> Result<PlaceList, AllocError>
    ensures { IfOk result (λ l. l ≡ of_rules.numbers names.now) }
{
    let mut numbers = PlaceList::new(alloc);
    for name in names.as_slice() {
        numbers.push(name.value.number())?;
    }
    Ok(numbers)
}

/// The one spelling.
fn spelling(address: &Address) -> Result<Bytes, AllocError>
    requires { documents.is_address_in_range address.now ≡ true }
    ensures { IfOk result (λ b. b ≡ spelling_of_address address.now) }
{
    address.encode()
}

fn push_address(
    alloc: Global,
    given: &mut PartList<GivenAt>,
    place: u32,
    cert: &Cert,
    keepers: &HostNames,
) -> Result<(), AllocError>
    ensures { OnOk result (given.new ≡ given.old ++ of_rules.if_address place (of_rules.numbers keepers.now) cert.now) }
{
    if let Cert::Address(address) = cert {
        if is_address_in_range(address) {
            let bytes = spelling(address)?;
            given.push(GivenAt {
                at: place,
                bytes,
                keepers: numbers(alloc, keepers)?,
            })?;
        }
    }
    Ok(())
}

#[tactic(auto, unfolding(crate::specs::Rules::given_in))]
fn push_given(
    alloc: Global,
    given: &mut PartList<GivenAt>,
    cert: &DraftCert,
) -> Result<(), AllocError>
    ensures { OnOk result (given.new ≡ given.old ++ of_rules.given_in cert.now) }
{
    if let DraftCert::Given { cert, at } = cert {
        push_address(alloc, given, cert.at, &cert.value, at)?;
    }
    Ok(())
}

/// The address certificates in hex.
pub(crate) fn given_of(alloc: Global, certs: &[DraftCert]) -> Result<PartList<GivenAt>, AllocError>
    ensures { IfOk result (λ l. l ≡ flat_map of_rules.given_in certs.now) }
{
    let mut given = PartList::new(alloc);
    for cert in certs {
        push_given(alloc, &mut given, cert)?;
    }
    Ok(given)
}

/// An own address certificate without its signature.
fn unsigned(alloc: Global, exporter: PubKey, address: &Bytes) -> Result<Address, AllocError>
    ensures { IfOk result (λ a. a ≡ record { exporter = exporter; address = address.now; from = 0; until = 2 ^ 64 - 1; signature = [] }) }
{
    Ok(Address {
        exporter,
        address: address.copy()?,
        from: 0,
        until: u64::MAX,
        signature: Bytes::new(alloc),
    })
}

/// The signature at leaf 0.
#[tactic(auto, using(crate::proofs::Heads::short_signature))]
fn first_signature(key: &TreeKey, message: &Bytes) -> Result<Bytes, AllocError>
    ensures value { IfOk result (λ b. b ≡ signature key.now.params key.now.seed key.now.id 0 message.now) }
    ensures short { IfOk result (λ b. length b ≤ 2508) }
{
    Ok(Bytes::from_vec(key.sign_at(0, message.as_slice())?))
}

fn with_signature(part: Address, signature: Bytes) -> Address
    ensures { result ≡ record part { signature = signature } }
{
    let mut whole = part;
    whole.signature = signature;
    whole
}

/// The bytes of the own address certificate of a running host.
#[tactic(auto, using(crate::proofs::Heads::whole_in_range))]
fn signed(
    alloc: Global,
    identity: Params,
    secret: &[u8; 32],
    address: &Bytes,
) -> Result<Bytes, AllocError>
    requires { documents.is_address address.now ≡ true }
    ensures { IfOk result (λ b. b ≡ spelling_of_address (signed_address identity (Seed secret.now) address.now)) }
{
    let key = tree_of(alloc, identity, secret)?;
    let part = unsigned(alloc, PubKey(key.public()), address)?;
    let message = part.signed_part()?;
    let signature = first_signature(&key, &message)?;
    spelling(&with_signature(part, signature))
}

fn has_bytes(before: &[Bytes], bytes: &Bytes) -> bool
    ensures { result ≡ stood bytes_eq before.now bytes.now }
{
    before
        .iter()
        .any(|other| other.as_slice() == bytes.as_slice())
}

/// Appends bytes, unless they are there.
fn add_bytes(kept: &mut PartList<Bytes>, bytes: Bytes) -> Result<(), AllocError>
    ensures { OnOk result (kept.new ≡ documents.each_once bytes_eq kept.old (bytes ∷ [])) }
{
    if has_bytes(kept.as_slice(), &bytes) {
        return Ok(());
    }
    kept.push(bytes)
}

fn add_made(alloc: Global, made: &mut PartList<Bytes>, host: &DraftHost) -> Result<(), AllocError>
    ensures { OnOk result (made.new ≡ documents.each_once bytes_eq made.old (of_rules.host_address host.now)) }
{
    if let Secret::Seed(secret) = &host.secret.value {
        if let Some(address) = &host.address {
            if is_address(address.value.as_slice()) {
                let bytes = signed(alloc, host.identity, secret, &address.value)?;
                add_bytes(made, bytes)?;
            }
        }
    }
    Ok(())
}

/// The bytes of the address certificates that setup makes, each once.
pub(crate) fn made_of(alloc: Global, hosts: &[DraftHost]) -> Result<PartList<Bytes>, AllocError>
    ensures { IfOk result (λ l. l ≡ documents.each_once bytes_eq [] (flat_map of_rules.host_address hosts.now)) }
{
    let mut made = PartList::new(alloc);
    for host in hosts {
        add_made(alloc, &mut made, host)?;
    }
    Ok(made)
}

fn copies(alloc: Global, list: &[Bytes]) -> Result<PartList<Bytes>, AllocError>
    ensures { IfOk result (λ l. l ≡ list.now) }
{
    let mut copies = PartList::new(alloc);
    for bytes in list {
        copies.push(bytes.copy()?)?;
    }
    Ok(copies)
}

fn is_among(here: usize, places: &[u32]) -> bool
    ensures { result ≡ documents.is_among here places.now }
{
    places.iter().any(|n| *n as usize == here)
}

/// One more that is given to a host, behind those that it has.
fn room_rule(
    faults: &mut Vec<Fault>,
    kept: &mut PartList<Bytes>,
    given: &GivenAt,
) -> Result<(), AllocError>
    ensures kept { OnOk result (kept.new ≡ of_rules.with_bytes kept.old given.now.bytes) }
    ensures faults { OnOk result (faults.new.items ≡ faults.old.items ++ unless (documents.has_at_most 64 (of_rules.with_bytes kept.old given.now.bytes)) 5 given.now.at) }
{
    add_bytes(kept, given.bytes.copy()?)?;
    note(faults, kept.len() <= ADDRESS_MOST, 5, given.at)
}

/// The certificates that are one too many for the host at a place.
fn no_room(
    alloc: Global,
    faults: &mut Vec<Fault>,
    here: usize,
    made: &[Bytes],
    given: &[GivenAt],
) -> Result<(), AllocError>
    ensures { OnOk result (faults.new.items ≡ faults.old.items ++ of_rules.no_room here made.now given.now) }
{
    let mut kept = copies(alloc, made)?;
    for cert in given {
        if is_among(here, cert.keepers.as_slice()) {
            room_rule(faults, &mut kept, cert)?;
        }
    }
    Ok(())
}

fn no_room_at(
    alloc: Global,
    faults: &mut Vec<Fault>,
    made: &[Bytes],
    given: &[GivenAt],
    here: usize,
    host: &DraftHost,
) -> Result<(), AllocError>
    ensures { OnOk result (faults.new.items ≡ faults.old.items ++ of_rules.no_room_at made.now given.now here host.now) }
{
    if is_silent(&host.secret.value) {
        return Ok(());
    }
    no_room(alloc, faults, here, made, given)
}

/// The certificates that are one too many for any host.
pub(crate) fn no_room_in_each(
    alloc: Global,
    faults: &mut Vec<Fault>,
    made: &[Bytes],
    given: &[GivenAt],
    hosts: &[DraftHost],
) -> Result<(), AllocError>
    ensures { OnOk result (faults.new.items ≡ faults.old.items ++ of_rules.each_place (of_rules.no_room_at made.now given.now) 0 hosts.now) }
{
    for (here, host) in hosts.iter().enumerate() {
        no_room_at(alloc, faults, made, given, here, host)?;
    }
    Ok(())
}
