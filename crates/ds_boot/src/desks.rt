//! A running host's desk.
#![tactic(auto)]

ghost use Rattle.std.specs.Prelude.{◌≡◌, ◌++◌, ◌+◌, ◌≤◌, ◌<◌, true, false, [], ◌∷◌, length, flat_map, IfOk, OnOk, Some, slice_get, All};
ghost use Rattle.std.specs.List.{AllByRecursion};
ghost use Rattle.ds_label.specs.Flow.{has};
ghost use Rattle.ds_label.specs.Names.{by_name};
ghost use Rattle.ds_cert.specs.NoDoubles.{with_address, with_delegation};
ghost use Rattle.ds_cert.specs.Ranges.{AddressRange, CertRange, DelegationRange, KeyFits};
ghost use Rattle.ds_desk.specs.Desks.{kept_of};
ghost use Rattle.ds_plan.specs.Keys.{host_key, same_key};
ghost use Rattle.ds_plan.specs.Documents.{IsDocument, are_rows, is_among as is_among_of, is_silent};
ghost use Rattle.ds_setup.specs.Signed.{doc_certs, leaf_behind};
ghost use Rattle.ds_setup.specs.Starts.{addresses_in, delegations_in, is_by as is_by_host, own_addresses};
ghost use Rattle.ds_boot.specs.Desks.{IsDeskOf, IsTyped, IsTypedAddress, IsTypedCert, addresses_for, delegations_for, issued_for, with_addresses, with_delegations};
ghost use Rattle.ds_boot.specs.Signers.{identity_tree, signing_at};

use crate::certs::KeptCert;
use ds_cert::{Address, Cert, Delegation, show_key};
use ds_chain::{AddressList, CertBook, ListFault};
use ds_desk::{DeskState, IssuedList};
use ds_label::{Category, PubKey};
use ds_map::{MapFault, MapTable};
use ds_plan::{CertSpec, Doc, HostSpec, PlaceList};
use lms_state::Signer;
use std::alloc::{AllocError, Global};

/// Whether a host is among those of a list.
fn is_among(place: u32, places: &PlaceList) -> bool
    ensures { result ≡ is_among_of place places.now }
{
    places.as_slice().iter().any(|p| *p == place)
}

/// Whether it is the host that signed.
fn is_by(place: u32, by: Option<u32>) -> bool
    ensures { result ≡ is_by_host place by }
{
    match by {
        Some(by) => by == place,
        None => false,
    }
}

// ---- the table

/// A new row of a table.
fn add_row(table: &mut MapTable, row: Category) -> Result<(), AllocError>
    requires few { length table.old.rows < 1024 }
    requires foreign { same_key row.creator table.old.here ≡ false }
    requires new { has by_name row table.old.rows ≡ false }
    ensures here { table.new.here ≡ table.old.here }
    ensures rows { OnOk result (table.new.rows ≡ table.old.rows ++ row ∷ []) }
{
    match table.add(row) {
        Ok(_) => Ok(()),
        Err(MapFault::NoMemory) => Err(AllocError),
        Err(MapFault::NotHome) => unreachable!(),
        Err(MapFault::TableFull) => unreachable!(),
    }
}

/// The table of the host with this key. `AllocError` where memory runs out.
pub fn table_of(alloc: Global, here: PubKey, rows: &[Category]) -> Result<MapTable, AllocError>
    requires few { length rows.now ≤ 1024 }
    requires rows { are_rows here rows.now ≡ true }
    ensures here { IfOk result (λ t. t.here ≡ here) }
    ensures rows { IfOk result (λ t. t.rows ≡ rows.now) }
{
    let mut table = MapTable::new(alloc, here);
    for row in rows {
        add_row(&mut table, *row)?;
    }
    Ok(table)
}

// ---- certificates

/// Keeps a delegation, of fewer than 256.
fn keep_delegation(store: &mut CertBook, delegation: Delegation) -> Result<(), AllocError>
    requires range { DelegationRange delegation }
    requires few { length store.old.items < 256 }
    ensures kept { OnOk result (store.new.items ≡ with_delegation delegation store.old.items) }
    ensures more { OnOk result (length store.new.items ≤ length store.old.items + 1) }
{
    match store.add(delegation) {
        Ok(()) => Ok(()),
        Err(ListFault::NoMemory) => Err(AllocError),
        Err(ListFault::ListFull) => unreachable!(),
    }
}

/// Keeps a certificate of the document where it is a delegation for the host at a place.
fn store_cert(store: &mut CertBook, place: u32, kept: &KeptCert) -> Result<(), AllocError>
    requires range { CertRange kept.now.cert }
    requires few { length store.old.items < 256 }
    ensures kept { OnOk result (store.new.items ≡ with_delegations store.old.items (delegations_for place kept.now)) }
    ensures more { OnOk result (length store.new.items ≤ length store.old.items + 1) }
{
    if !is_among(place, &kept.at) {
        return Ok(());
    }
    match &kept.cert {
        Cert::Delegation(delegation) => keep_delegation(store, delegation.copy()?),
        Cert::Address(_) => Ok(()),
    }
}

/// The delegations that the host at a place keeps. `AllocError` where memory runs out.
fn store_of(alloc: Global, place: u32, certs: &[KeptCert]) -> Result<CertBook, AllocError>
    requires range { All (λ c. CertRange c.cert) certs.now }
    requires few { length certs.now ≤ 256 }
    ensures { IfOk result (λ l. l.items ≡ with_delegations [] (flat_map (delegations_for place) certs.now)) }
{
    let mut store = CertBook::new(alloc)?;
    for kept in certs {
        store_cert(&mut store, place, kept)?;
    }
    Ok(store)
}

/// Keeps an address certificate, for which there is room.
fn keep_address(list: &mut AddressList, address: Address) -> Result<(), AllocError>
    requires range { AddressRange address }
    requires few { length (with_address address list.old.items) ≤ 64 }
    ensures kept { OnOk result (list.new.items ≡ with_address address list.old.items) }
{
    match list.add(address) {
        Ok(()) => Ok(()),
        Err(ListFault::NoMemory) => Err(AllocError),
        Err(ListFault::ListFull) => unreachable!(),
    }
}

/// Keeps each of these address certificates, for which there is room.
fn keep_addresses(list: &mut AddressList, addresses: &[Address]) -> Result<(), AllocError>
    requires range { All AddressRange addresses.now }
    requires few { length (with_addresses list.old.items addresses.now) ≤ 64 }
    ensures kept { OnOk result (list.new.items ≡ with_addresses list.old.items addresses.now) }
{
    for address in addresses {
        keep_address(list, address.copy()?)?;
    }
    Ok(())
}

/// Keeps a certificate of the document where it is an address certificate for the host at a place.
fn list_cert(list: &mut AddressList, place: u32, kept: &KeptCert) -> Result<(), AllocError>
    requires range { CertRange kept.now.cert }
    requires few { length (with_addresses list.old.items (addresses_for place kept.now)) ≤ 64 }
    ensures kept { OnOk result (list.new.items ≡ with_addresses list.old.items (addresses_for place kept.now)) }
{
    if !is_among(place, &kept.at) {
        return Ok(());
    }
    match &kept.cert {
        Cert::Delegation(_) => Ok(()),
        Cert::Address(address) => keep_address(list, address.copy()?),
    }
}

/// Keeps those of the document's certificates that are address certificates for the host at a place.
fn list_certs(list: &mut AddressList, place: u32, certs: &[KeptCert]) -> Result<(), AllocError>
    requires range { All (λ c. CertRange c.cert) certs.now }
    requires few { length (with_addresses list.old.items (flat_map (addresses_for place) certs.now)) ≤ 64 }
    ensures kept { OnOk result (list.new.items ≡ with_addresses list.old.items (flat_map (addresses_for place) certs.now)) }
{
    for kept in certs {
        list_cert(list, place, kept)?;
    }
    Ok(())
}

/// The address certificates that the host at a place keeps: each host's own one, and those of the document. `AllocError`
/// where memory runs out.
fn addresses_of(
    alloc: Global,
    place: u32,
    own: &[Address],
    certs: &[KeptCert],
) -> Result<AddressList, AllocError>
    requires own { All AddressRange own.now }
    requires range { All (λ c. CertRange c.cert) certs.now }
    requires few { length (with_addresses (with_addresses [] own.now) (flat_map (addresses_for place) certs.now)) ≤ 64 }
    ensures { IfOk result (λ l. l.items ≡ with_addresses (with_addresses [] own.now) (flat_map (addresses_for place) certs.now)) }
{
    let mut list = AddressList::new(alloc);
    keep_addresses(&mut list, own)?;
    list_certs(&mut list, place, certs)?;
    Ok(list)
}

/// Enters a certificate of the document where the host at a place signed it.
fn issue_cert(issued: &mut IssuedList, place: u32, kept: &KeptCert) -> Result<(), AllocError>
    ensures { OnOk result (issued.new.items ≡ issued.old.items ++ issued_for place kept.now) }
{
    if !is_by(place, kept.by) {
        return Ok(());
    }
    match &kept.cert {
        Cert::Delegation(delegation) => issued.push(delegation.copy()?),
        Cert::Address(_) => Ok(()),
    }
}

/// The delegations of the document that the host at a place signed. `AllocError` where memory runs out.
fn issued_of(alloc: Global, place: u32, certs: &[KeptCert]) -> Result<IssuedList, AllocError>
    ensures { IfOk result (λ l. l.items ≡ flat_map (issued_for place) certs.now) }
{
    let mut issued = IssuedList::new(alloc);
    for kept in certs {
        issue_cert(&mut issued, place, kept)?;
    }
    Ok(issued)
}

// ---- the desk

/// What its type says of an address certificate. It does nothing.
fn show_address(address: &Address)
    ensures { IsTypedAddress address.now }
{
    show_key(&address.exporter);
    let _from = address.from;
    let _until = address.until;
}

/// What its type says of a certificate. It does nothing.
fn show_cert(cert: &Cert)
    ensures { IsTypedCert cert.now }
{
    match cert {
        Cert::Delegation(_) => {}
        Cert::Address(address) => show_address(address),
    }
}

/// What its type says of a certificate of the document. It does nothing.
fn show_spec(spec: &CertSpec)
    ensures { IsTyped spec.now }
{
    match spec {
        CertSpec::Made { .. } => {}
        CertSpec::Given { cert, .. } => show_cert(cert),
    }
}

/// What their types say of the document's certificates. It does nothing.
fn show_specs(specs: &[CertSpec])
    ensures { AllByRecursion IsTyped specs.now }
{
    for spec in specs {
        show_spec(spec);
    }
}

/// The desk of the running host at a place, whose key is behind all that it signs: it keeps what the document says, and
/// nothing is entered. `AllocError` where memory runs out.
pub fn begin_desk(
    alloc: Global,
    doc: &Doc,
    place: u32,
    host: &HostSpec,
    own: &[Address],
    certs: &[KeptCert],
    signer: Signer,
) -> Result<DeskState, AllocError>
    requires document { IsDocument doc.now }
    requires there { slice_get doc.now.hosts place ≡ Some host.now }
    requires runs { is_silent host.now.secret ≡ false }
    requires own { own.now ≡ own_addresses doc.now.hosts }
    requires certs { certs.now ≡ doc_certs doc.now.hosts doc.now.certs }
    requires signer { signer ≡ signing_at (leaf_behind host.now place doc.now.certs) (identity_tree host.now) }
    ensures { IfOk result (λ s. IsDeskOf doc.now place host.now (kept_of s)) }
{
    show_specs(doc.certs.as_slice());
    let here = PubKey(signer.public());
    let table = table_of(alloc, here, host.map.as_slice())?;
    let _rows = table.rows();
    let store = store_of(alloc, place, certs)?;
    let addresses = addresses_of(alloc, place, own, certs)?;
    let issued = issued_of(alloc, place, certs)?;
    let desk = DeskState::new(here, doc.moment, store, addresses, issued, table, signer)?;
    Ok(desk)
}
