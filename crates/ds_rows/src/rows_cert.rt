//! Certificates and messages: bytes that are read and spelled again.

use crate::names::Names;
use crate::reading::is;
use crate::row::Row;
use ds_cert::{Address, Cert, CertFault, Delegation, LaneCert, get_label, put_label};
use ds_msg::Message;
use ds_wire::Bytes;
use std::alloc::Global;

/// What is read of the bytes of a delegation and spelled again.
fn delegation(alloc: Global, bytes: &[u8]) -> Result<Bytes, CertFault> {
    let read = Delegation::decode(alloc, bytes)?;
    read.encode().or(Err(CertFault::NoMemory))
}

fn address(alloc: Global, bytes: &[u8]) -> Result<Bytes, CertFault> {
    let read = Address::decode(alloc, bytes)?;
    read.encode().or(Err(CertFault::NoMemory))
}

fn lane(alloc: Global, bytes: &[u8]) -> Result<Bytes, CertFault> {
    let read = LaneCert::decode(alloc, bytes)?;
    read.encode().or(Err(CertFault::NoMemory))
}

fn message(alloc: Global, bytes: &[u8]) -> Result<Bytes, CertFault> {
    let read = Message::decode(alloc, bytes)?;
    read.encode().or(Err(CertFault::NoMemory))
}

/// The bytes themselves, where they are a certificate of either kind and the same as its copy.
fn either(alloc: Global, bytes: &[u8]) -> Result<Bytes, CertFault> {
    let read = Cert::decode(alloc, bytes)?;
    let copied = read.copy().or(Err(CertFault::NoMemory))?;
    let bytes = if read.same(&copied) { bytes } else { &[] };
    Bytes::from_slice(alloc, bytes).or(Err(CertFault::NoMemory))
}

/// A label, with what follows it.
fn members(alloc: Global, bytes: &[u8]) -> Result<Bytes, CertFault> {
    let (read, rest) = get_label(alloc, bytes)?;
    let mut out = Bytes::new(alloc);
    put_label(&mut out, &read).or(Err(CertFault::NoMemory))?;
    out.append(rest).or(Err(CertFault::NoMemory))?;
    Ok(out)
}

/// What is read of the bytes of a kind and spelled again.
fn spelled(alloc: Global, kind: &[u8], bytes: &[u8]) -> Result<Bytes, CertFault> {
    if is(kind, "delegation") {
        delegation(alloc, bytes)
    } else if is(kind, "address") {
        address(alloc, bytes)
    } else if is(kind, "lane") {
        lane(alloc, bytes)
    } else if is(kind, "message") {
        message(alloc, bytes)
    } else if is(kind, "either") {
        either(alloc, bytes)
    } else {
        members(alloc, bytes)
    }
}

/// Whether the bytes are read and spelled again, and else which fault they have.
fn reads(row: &mut Row<'_>, bytes: &[u8]) {
    match spelled(row.alloc, row.word(1), bytes) {
        Ok(again) => {
            row.say(if again.as_slice() == bytes {
                "the same"
            } else {
                "others"
            });
            row.say_number(again.len() as u64);
        }
        Err(CertFault::Malformed(place)) => {
            row.say("Malformed");
            row.say_number(place as u64);
        }
        Err(CertFault::NoMemory) => row.full(),
    }
}

/// How many of the fronts of these bytes that are shorter are read.
fn fronts(row: &mut Row<'_>, bytes: &[u8]) {
    let mut count = 0u64;
    for end in 0..bytes.len() {
        if spelled(row.alloc, row.word(1), bytes.get(..end).unwrap_or(&[])).is_ok() {
            count = count.saturating_add(1);
        }
    }
    row.say_number(count);
}

/// Whether a certificate is good, and valid at a moment.
fn goodness(
    alloc: Global,
    kind: &[u8],
    bytes: &[u8],
    moment: u64,
) -> Result<(bool, bool), CertFault> {
    if is(kind, "delegation") {
        let read = Delegation::decode(alloc, bytes)?;
        Ok((
            read.good().or(Err(CertFault::NoMemory))?,
            read.valid_at(moment),
        ))
    } else if is(kind, "address") {
        let read = Address::decode(alloc, bytes)?;
        Ok((
            read.good().or(Err(CertFault::NoMemory))?,
            read.valid_at(moment),
        ))
    } else {
        let read = LaneCert::decode(alloc, bytes)?;
        Ok((
            read.good().or(Err(CertFault::NoMemory))?,
            read.valid_at(moment),
        ))
    }
}

/// Says whether a certificate is good, and valid at a moment.
fn says_good(row: &mut Row<'_>, bytes: &[u8]) {
    let moment = row.number(4);
    match goodness(row.alloc, row.word(1), bytes, moment) {
        Ok((good, valid)) => {
            row.say("good");
            row.say_if(good);
            row.say("valid");
            row.say_if(valid);
        }
        Err(_) => row.bad(),
    }
}

/// `read KIND BYTES`, `fronts KIND BYTES`, `good KIND BYTES at MOMENT`. A kind is `delegation`, `address`, `either` of the
/// two, `lane`, `message` or `label`.
pub(crate) fn row(row: &mut Row<'_>, names: &Names) {
    let bytes = row.bytes(names, 2);
    if row.is(0, "read") {
        reads(row, &bytes);
        return;
    }
    if row.is(0, "fronts") {
        fronts(row, &bytes);
        return;
    }
    says_good(row, &bytes);
}
