//! Numbers as bytes, and buffers.

use crate::names::Names;
use crate::reading::{Stop, at, is, number, small};
use crate::row::Row;
use ds_wire::{
    Buffer, Bytes, Short, get_bytes, get_u8, get_u16, get_u32, get_u64, put_u8, put_u16, put_u32,
    put_u64,
};

/// Appends a number, as in `u16:258`.
fn put(out: &mut Bytes, tag: &[u8], word: &[u8]) -> Result<(), Stop> {
    if is(tag, "u8") {
        put_u8(out, small(word, 255)? as u8)?;
    } else if is(tag, "u16") {
        put_u16(out, small(word, 65_535)? as u16)?;
    } else if is(tag, "u32") {
        put_u32(out, small(word, u32::MAX)?)?;
    } else {
        put_u64(out, number(word)?)?;
    }
    Ok(())
}

/// Appends numbers, each after its tag.
fn puts(row: &mut Row<'_>) {
    let Ok(mut bytes) = Bytes::with_room(row.alloc, 4) else {
        return row.full();
    };
    for place in 2..row.len() {
        let parts = row.parts(place, b':');
        let done = put(&mut bytes, at(&parts, 0), at(&parts, 1));
        let _ = row.got(done);
    }
    row.say_hex(bytes.as_slice());
}

/// Reads a number off the front: `u8`, `u16`, `u32`, `u64`.
fn field<'a>(bytes: &'a [u8], word: &[u8]) -> Result<(u64, &'a [u8]), Short> {
    if is(word, "u8") {
        let (value, others) = get_u8(bytes)?;
        Ok((value as u64, others))
    } else if is(word, "u16") {
        let (value, others) = get_u16(bytes)?;
        Ok((value as u64, others))
    } else if is(word, "u32") {
        let (value, others) = get_u32(bytes)?;
        Ok((value as u64, others))
    } else {
        get_u64(bytes)
    }
}

/// Reads a field off the front, a number or a count of bytes, says it, and gives the rest. None where it is short.
fn get<'a>(row: &mut Row<'_>, bytes: &'a [u8], word: &[u8]) -> Option<&'a [u8]> {
    if let Ok(count) = small(word, 1_000) {
        let (run, others) = get_bytes(bytes, count as usize).ok()?;
        row.say_hex(run);
        return Some(others);
    }
    let (value, others) = field(bytes, word).ok()?;
    row.say_number(value);
    Some(others)
}

/// Reads fields.
fn gets(row: &mut Row<'_>, names: &Names) {
    let bytes = row.bytes(names, 2);
    let mut rest = bytes.as_slice();
    for place in 3..row.len() {
        let word = row.word(place);
        match get(row, rest, word) {
            Some(others) => rest = others,
            None => return row.say("short"),
        }
    }
    row.say("rest");
    row.say_number(rest.len() as u64);
}

/// Fills a buffer and says its bytes.
fn fills(row: &mut Row<'_>, names: &Names) {
    let mut buffer = Buffer::from_bytes(Bytes::from_vec(row.bytes(names, 2)));
    let more = row.bytes(names, 3);
    if buffer.reserve(more.len()).is_err() {
        return row.full();
    }
    buffer.fill(&more);
    row.say_number(buffer.len() as u64);
    row.say_hex(buffer.into_bytes().as_slice());
}

/// `wire puts u8:1 ..`, `wire gets BYTES u8 ..`, `wire fills BYTES MORE`, `wire same BYTES BYTES`.
pub(crate) fn row(row: &mut Row<'_>, names: &Names) {
    if row.fits("wire puts ..") {
        puts(row);
        return;
    }
    if row.fits("wire gets _ ..") {
        gets(row, names);
        return;
    }
    if row.fits("wire fills _ _") {
        fills(row, names);
        return;
    }
    if row.fits("wire same _ _") {
        let one = Bytes::from_vec(row.bytes(names, 2));
        let other = Bytes::from_vec(row.bytes(names, 3));
        row.say_if(one.same(&other));
        return;
    }
    row.bad();
}
