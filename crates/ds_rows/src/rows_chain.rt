//! Chains of certificates, and the lists that keep these.

ghost use Rattle.std.specs.Prelude.{◌≡◌, ◌≤◌, length, IfOk};
ghost use Rattle.ds_cert.specs.Ranges.{DelegationRange};

use crate::names::{Names, pieces};
use crate::reading::{Stop, at, small};
use crate::row::Row;
use ds_cert::{Address, Delegation};
use ds_chain::{AddressList, CertBook, CertList, Chain, EdgeList, ListFault, holds, search};
use ds_label::{Category, PubKey};
use ds_wire::Bytes;
use std::alloc::{AllocError, Global};

/// Says a chain's places.
fn say_chain(row: &mut Row<'_>, chain: Result<Option<Chain>, AllocError>) {
    match chain {
        Ok(Some(chain)) => {
            row.say("by");
            for place in chain.places() {
                row.say_number(*place as u64);
            }
        }
        Ok(None) => row.say("none"),
        Err(_) => row.full(),
    }
}

/// Adds a certificate by its signer and the key that it names, as in `0:1`; `-` is one that doesn't count.
fn add_edge(list: &mut EdgeList, parts: &[&[u8]]) -> Result<(), Stop> {
    if parts.len() == 1 {
        list.skip()?;
        return Ok(());
    }
    let (by, to) = (
        small(at(parts, 0), 255)? as u8,
        small(at(parts, 1), 255)? as u8,
    );
    list.add(&PubKey([by; 56]), &PubKey([to; 56]))?;
    Ok(())
}

/// Says the chain from key 0 to a key.
fn say_found(row: &mut Row<'_>, list: &EdgeList, to: u8) {
    if list.len() > 1_000 {
        return row.bad();
    }
    let found = list.search(row.alloc, &PubKey([0; 56]), &PubKey([to; 56]));
    say_chain(row, found);
}

/// The chain over certificates by their signers and keys.
fn edges(row: &mut Row<'_>) {
    let mut list = EdgeList::new(row.alloc);
    for place in 4..row.len() {
        let parts = row.parts(place, b':');
        let added = add_edge(&mut list, &parts);
        let _ = row.got(added);
    }
    let to = row.byte(2);
    say_found(row, &list, to);
}

/// The chain over so many certificates, each from a key to the next.
fn ladder(row: &mut Row<'_>) {
    let mut list = EdgeList::new(row.alloc);
    let to = row.small(1, 200) as u8;
    for name in 0..to {
        if list
            .add(&PubKey([name; 56]), &PubKey([name + 1; 56]))
            .is_err()
        {
            row.full();
        }
    }
    say_found(row, &list, to);
}

/// Adds the delegation that bytes spell.
fn add_spelled(alloc: Global, list: &mut CertList, bytes: &[u8]) -> Result<(), Stop> {
    match Delegation::decode(alloc, bytes) {
        Ok(cert) => {
            let _ = list.add(cert);
            Ok(())
        }
        Err(_) => Err(Stop::BadLine),
    }
}

/// The list of the delegations of these names, `-` for none.
pub(crate) fn store(row: &mut Row<'_>, names: &Names, place: usize) -> CertList {
    let mut list = CertList::new(row.alloc);
    if row.is(place, "-") {
        return list;
    }
    for name in &row.parts(place, b',') {
        let bytes = pieces(row.alloc, names, &[*name], 0);
        if let Some(bytes) = row.got(bytes) {
            let added = add_spelled(row.alloc, &mut list, &bytes);
            let _ = row.got(added);
        }
    }
    list
}

/// Adds the delegation that bytes spell to a book.
fn add_kept(alloc: Global, book: &mut CertBook, bytes: &[u8]) -> Result<(), Stop> {
    match Delegation::decode(alloc, bytes) {
        Ok(cert) => {
            let _ = book.add(cert);
            Ok(())
        }
        Err(_) => Err(Stop::BadLine),
    }
}

/// Adds the delegations of these names to a book.
fn add_named(row: &mut Row<'_>, names: &Names, book: &mut CertBook, place: usize) {
    for name in &row.parts(place, b',') {
        let bytes = pieces(row.alloc, names, &[*name], 0);
        if let Some(bytes) = row.got(bytes) {
            let added = add_kept(row.alloc, book, &bytes);
            let _ = row.got(added);
        }
    }
}

/// A book of the delegations of these names; none where memory ran out.
pub(crate) fn kept(row: &mut Row<'_>, names: &Names, place: usize) -> Option<CertBook> {
    let Ok(mut book) = CertBook::new(row.alloc) else {
        row.full();
        return None;
    };
    add_named(row, names, &mut book, place);
    Some(book)
}

/// Asks a book for the chain to a key.
fn asks(row: &mut Row<'_>, names: &Names, book: &mut CertBook, place: usize) {
    let named = row.category(names, 1);
    let holder = row.key(names, 2);
    let now = row.number(place.saturating_add(1));
    let extra = store(row, names, place.saturating_add(2));
    let found = book.search(&extra, now, &named, &holder);
    say_chain(row, found);
}

/// Adds to a book and asks it, as the words say.
fn book(row: &mut Row<'_>, names: &Names) {
    let Ok(mut book) = CertBook::new(row.alloc) else {
        return row.full();
    };
    for place in 3..row.len() {
        if row.is(place, "adds") {
            add_named(row, names, &mut book, place.saturating_add(1));
        }
        if row.is(place, "at") {
            asks(row, names, &mut book, place);
        }
    }
}

/// Adds the address certificate that bytes spell.
fn add_address(
    alloc: Global,
    list: &mut AddressList,
    bytes: &[u8],
) -> Result<Result<(), ListFault>, Stop> {
    match Address::decode(alloc, bytes) {
        Ok(cert) => Ok(list.add(cert)),
        Err(_) => Err(Stop::BadLine),
    }
}

/// The list of the address certificates of these names.
pub(crate) fn addresses(row: &mut Row<'_>, names: &Names, place: usize) -> AddressList {
    let mut list = AddressList::new(row.alloc);
    for name in &row.parts(place, b',') {
        let bytes = pieces(row.alloc, names, &[*name], 0);
        if let Some(bytes) = row.got(bytes) {
            let added = add_address(row.alloc, &mut list, &bytes);
            let _ = row.got(added);
        }
    }
    list
}

/// Says what a list answered, and how many it keeps then.
fn say_added(row: &mut Row<'_>, added: Result<(), ListFault>, count: usize) {
    match added {
        Ok(()) => row.say("kept"),
        Err(ListFault::ListFull) => row.say("ListFull"),
        Err(ListFault::NoMemory) => row.full(),
    }
    row.say_number(count as u64);
}

/// A delegation without a signature that is valid from this moment on.
fn unsigned(alloc: Global, named: Category, from: u64) -> Delegation
    ensures { DelegationRange result }
{
    Delegation {
        category: named,
        to: PubKey([9; 56]),
        from,
        until: 1_000,
        by: named.creator,
        signature: Bytes::new(alloc),
    }
}

/// Adds delegations without a signature from each moment below `count`, and then one from `last`.
fn fills(row: &mut Row<'_>, named: Category, count: u32, last: u64) {
    let mut list = CertList::new(row.alloc);
    for from in 0..count {
        let _ = list.add(unsigned(row.alloc, named, from as u64));
    }
    let added = list.add(unsigned(row.alloc, named, last));
    say_added(row, added, list.len());
}

/// The bytes of an address certificate without a signature: all up to its last moment, and then that.
fn until(alloc: Global, front: &[u8], moment: u64) -> Result<Vec<u8>, AllocError> {
    let mut bytes = Vec::from_slice(alloc, front)?;
    bytes.extend_from_slice(&moment.to_be_bytes())?;
    bytes.extend_from_slice(&[0, 0])?;
    Ok(bytes)
}

/// Adds the address certificate with this front that is valid until a moment.
fn add_until(row: &mut Row<'_>, list: &mut AddressList, front: &[u8], moment: u64, says: bool) {
    let Ok(bytes) = until(row.alloc, front, moment) else {
        return row.full();
    };
    match add_address(row.alloc, list, &bytes) {
        Ok(added) => if says {
            say_added(row, added, list.len());
        },
        Err(_) => row.bad(),
    }
}

/// Adds address certificates without a signature until each moment below `count`, and then one until `last`.
fn fills_addresses(row: &mut Row<'_>, front: &[u8], count: u32, last: u64) {
    let mut list = AddressList::new(row.alloc);
    for moment in 0..count {
        add_until(row, &mut list, front, moment as u64, false);
    }
    add_until(row, &mut list, front, last, true);
}

/// Whether a key holds a category, and by which chain.
fn chain(row: &mut Row<'_>, names: &Names) {
    let list = store(row, names, 1);
    let extra = store(row, names, 2);
    let now = row.number(4);
    let named = row.category(names, 5);
    let holder = row.key(names, 6);
    match holds(row.alloc, &list, &extra, now, &named, &holder) {
        Ok(held) => row.say_if(held),
        Err(_) => row.full(),
    }
    let found = search(row.alloc, &list, &extra, now, &named, &holder);
    say_chain(row, found);
}

/// Where an exporter is reached.
fn address(row: &mut Row<'_>, names: &Names) {
    let list = addresses(row, names, 1);
    let now = row.number(3);
    let exporter = row.key(names, 4);
    match list.find(&exporter, now) {
        Some(cert) => row.say_hex(cert.address.as_slice()),
        None => row.say("none"),
    }
}

/// `edges to KEY by SIGNER:KEY ..`, `ladder N`, `chain LIST EXTRA at MOMENT CATEGORY KEY`, `store LIST`,
/// `book CATEGORY KEY` and then any of `adds LIST` and `at MOMENT EXTRA`,
/// `store CATEGORY fills N then MOMENT`, `addresses FRONT fills N then MOMENT`, `addresses LIST at MOMENT KEY`.
pub(crate) fn row(row: &mut Row<'_>, names: &Names) {
    if row.is(0, "edges") {
        edges(row);
        return;
    }
    if row.is(0, "ladder") {
        ladder(row);
        return;
    }
    if row.is(0, "chain") {
        chain(row, names);
        return;
    }
    if row.is(0, "book") {
        book(row, names);
        return;
    }
    if row.fits("store _ fills _ then _") {
        let named = row.category(names, 1);
        let (count, last) = (row.small(3, 300), row.number(5));
        fills(row, named, count, last);
        return;
    }
    if row.is(0, "store") {
        let list = store(row, names, 1);
        row.say_number(list.len() as u64);
        return;
    }
    if row.fits("addresses _ fills _ then _") {
        let front = row.bytes(names, 1);
        let (count, last) = (row.small(3, 300), row.number(5));
        fills_addresses(row, &front, count, last);
        return;
    }
    address(row, names);
}
