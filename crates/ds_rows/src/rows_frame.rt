//! Frames: streams that are read in pieces, and frames that are written.

ghost use Rattle.std.specs.Prelude.{◌≡◌, ◌≤◌, length, IfOk};
ghost use Rattle.ds_frame.specs.Ranges.{BodiesRange};

use crate::names::Names;
use crate::row::Row;
use ds_cert::LaneCert;
use ds_frame::{BodyList, Cause, FrameReader, Item, ReadEnd, frame_bytes, frame_part, hello_bytes};
use ds_wire::Bytes;
use std::alloc::{AllocError, Global};

/// Says why no item comes.
pub(crate) fn say_end(row: &mut Row<'_>, end: ReadEnd) {
    match end {
        ReadEnd::NotYet => row.say("NotYet"),
        ReadEnd::BadFrame(cause, place) => {
            row.say(cause.name());
            row.say("at");
            row.say_number(place);
        }
        ReadEnd::NoMemory => row.full(),
    }
}

/// Says an item.
fn say_item(row: &mut Row<'_>, item: Item) {
    match item {
        Item::Hello(cert) => {
            row.say("hello of lane");
            row.say_number(cert.lane as u64);
        }
        Item::Frame(frame) => {
            row.say("frame");
            row.say_number(frame.number as u64);
            row.say("of");
            row.say_number(frame.bodies.len() as u64);
        }
    }
    row.say(";");
}

/// Says what is read until nothing is.
fn reads(row: &mut Row<'_>, reader: &mut FrameReader) {
    for _ in 0..9 {
        match reader.next() {
            Ok(item) => say_item(row, item),
            Err(end) => return say_end(row, end),
        }
    }
}

/// Has the reader take bytes for which there is space.
fn feed(row: &mut Row<'_>, reader: &mut FrameReader, part: &[u8]) {
    if reader.space() < part.len() {
        return row.bad();
    }
    if reader.passed() > u64::MAX / 2 {
        return row.bad();
    }
    if reader.feed(part).is_err() {
        row.full();
    }
}

/// Says for how many bytes more there is space, where that is asked.
fn say_space(row: &mut Row<'_>, reader: &FrameReader, asked: bool) {
    if asked {
        row.say("space");
        row.say_number(reader.space() as u64);
    }
}

/// Feeds a piece, in parts for which there is space, and says what is read after each part.
fn feed_all(row: &mut Row<'_>, reader: &mut FrameReader, piece: &[u8], asked: bool) {
    let mut left = piece;
    for _ in 0..9 {
        let (part, rest) = left.split_at(reader.space().min(left.len()));
        feed(row, reader, part);
        say_space(row, reader, asked);
        reads(row, reader);
        say_space(row, reader, asked);
        if part.is_empty() || rest.is_empty() {
            return;
        }
        left = rest;
    }
}

/// Says what is read after each piece of a stream, and what is answered once more.
fn stream(row: &mut Row<'_>, names: &Names, asked: bool) {
    let mut reader = FrameReader::new(row.alloc);
    for place in 1..row.len() {
        let piece = row.bytes(names, place);
        feed_all(row, &mut reader, &piece, asked);
        row.say("|");
    }
    reads(row, &mut reader);
}

/// So many of this message.
fn messages(alloc: Global, message: &[u8], count: usize) -> Result<BodyList, AllocError>
    requires some { 1 ≤ count }
    requires most { count ≤ 16 }
    requires short { length message.now ≤ 72229 }
    ensures { IfOk result (λ bodies. BodiesRange bodies) }
{
    let mut bodies = BodyList::new(alloc);
    for _ in 0..count {
        bodies.push(Bytes::from_slice(alloc, message)?)?;
    }
    Ok(bodies)
}

/// The bytes of a frame with this number of so many of this message.
fn frame(
    alloc: Global,
    number: u32,
    message: &[u8],
    count: u32,
    signature: &[u8],
) -> Result<Bytes, AllocError> {
    let misfit = signature.is_empty() || signature.len() > 2508;
    if count == 0 || count > 16 || message.len() > 72_229 || misfit {
        return Ok(Bytes::new(alloc));
    }
    let bodies = messages(alloc, message, count as usize)?;
    let part = frame_part(alloc, number, &bodies)?;
    frame_bytes(alloc, part.as_slice(), signature)
}

/// Whether a frame has these bytes.
fn is_frame(row: &mut Row<'_>, names: &Names) {
    let (number, count) = (row.small(1, 1023), row.small(3, 99));
    let message = row.bytes(names, 4);
    let signature = row.bytes(names, 6);
    let bytes = row.bytes(names, 8);
    match frame(row.alloc, number, &message, count, &signature) {
        Ok(made) => row.say_if(made.as_slice() == bytes.as_slice()),
        Err(_) => row.full(),
    }
}

/// Whether the hello of a lane certificate has these bytes.
fn is_hello(row: &mut Row<'_>, names: &Names) {
    let cert = row.bytes(names, 1);
    let bytes = row.bytes(names, 3);
    let Ok(cert) = LaneCert::decode(row.alloc, &cert) else {
        return row.bad();
    };
    match hello_bytes(&cert) {
        Ok(made) => row.say_if(made.as_slice() == bytes.as_slice()),
        Err(_) => row.full(),
    }
}

/// Each cause's number and name.
fn say_causes(row: &mut Row<'_>) {
    for cause in [
        Cause::Magic,
        Cause::HelloCount,
        Cause::HelloCert,
        Cause::HelloSignature,
        Cause::HelloReceiver,
        Cause::NoInlet,
        Cause::Tag,
        Cause::Count,
        Cause::Length,
        Cause::SignatureCount,
        Cause::Split,
        Cause::Leaf,
        Cause::Signature,
        Cause::Body,
    ] {
        row.say_number(cause.number() as u64);
        row.say(cause.name());
    }
}

/// `stream PIECE ..`, `spaces PIECE ..`, `frame N of COUNT MESSAGE signed SIGNATURE is BYTES`, `hello CERT is BYTES`, `causes`.
pub(crate) fn row(row: &mut Row<'_>, names: &Names) {
    if row.is(0, "stream") {
        stream(row, names, false);
        return;
    }
    if row.is(0, "spaces") {
        stream(row, names, true);
        return;
    }
    if row.is(0, "frame") {
        is_frame(row, names);
        return;
    }
    if row.is(0, "hello") {
        is_hello(row, names);
        return;
    }
    say_causes(row);
}
