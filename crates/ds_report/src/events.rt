//! Events, a line each.
#![tactic(auto)]

ghost use Rattle.std.specs.Prelude.{◌≡◌, ◌++◌, OnOk, codes, decimal, flat_map};
ghost use Rattle.ds_model.specs.Print.{hex_byte};
ghost use Rattle.ds_report.specs.Events.{event_line, line_of_conn, line_of_host, line_with, three_numbers};

use crate::names::push_host_name;
use crate::plain::{push, push_hex, push_number};
use ds_plan::{Doc, Event};
use std::alloc::AllocError;

/// Appends a line of a word, a host's name and a number.
fn push_of_host(
    out: &mut Vec<u8>,
    doc: &Doc,
    word: &[u8],
    host: u32,
    number: u64,
) -> Result<(), AllocError>
    ensures { OnOk result (out.new.items ≡ out.old.items ++ line_of_host word.now doc.now host number) }
{
    push(out, word)?;
    push_host_name(out, doc, host as usize)?;
    push(out, b" ")?;
    push_number(out, number)?;
    push(out, b"\n")
}

/// Appends a line of a word and a connection's number.
fn push_of_conn(out: &mut Vec<u8>, word: &[u8], conn: u32) -> Result<(), AllocError>
    ensures { OnOk result (out.new.items ≡ out.old.items ++ line_of_conn word.now conn) }
{
    push(out, word)?;
    push_number(out, u64::from(conn))?;
    push(out, b"\n")
}

/// Appends the line of an arrival.
fn push_arrive(out: &mut Vec<u8>, conn: u32, count: u64) -> Result<(), AllocError>
    ensures { OnOk result (out.new.items ≡ out.old.items ++ line_with (codes "arrive ") conn (decimal count)) }
{
    push(out, b"arrive ")?;
    push_number(out, u64::from(conn))?;
    push(out, b" ")?;
    push_number(out, count)?;
    push(out, b"\n")
}

/// Appends the line of bytes that outsiders write, in hex.
fn push_inject(out: &mut Vec<u8>, conn: u32, bytes: &[u8]) -> Result<(), AllocError>
    ensures { OnOk result (out.new.items ≡ out.old.items ++ line_with (codes "inject ") conn (flat_map hex_byte bytes.now)) }
{
    push(out, b"inject ")?;
    push_number(out, u64::from(conn))?;
    push(out, b" ")?;
    push_hex(out, bytes)?;
    push(out, b"\n")
}

/// Appends three numbers with single spaces between.
fn push_three(out: &mut Vec<u8>, source: u32, from: u64, until: u64) -> Result<(), AllocError>
    ensures { OnOk result (out.new.items ≡ out.old.items ++ three_numbers source from until) }
{
    push_number(out, u64::from(source))?;
    push(out, b" ")?;
    push_number(out, from)?;
    push(out, b" ")?;
    push_number(out, until)
}

/// Appends the line of bytes that are copied.
fn push_copy(
    out: &mut Vec<u8>,
    conn: u32,
    source: u32,
    from: u64,
    until: u64,
) -> Result<(), AllocError>
    ensures { OnOk result (out.new.items ≡ out.old.items ++ line_with (codes "copy ") conn (three_numbers source from until)) }
{
    push(out, b"copy ")?;
    push_number(out, u64::from(conn))?;
    push(out, b" ")?;
    push_three(out, source, from, until)?;
    push(out, b"\n")
}

/// Appends an event's line: its words as documents list them, without brackets, commas and quotes. `AllocError` where memory runs
/// out.
pub fn push_event(out: &mut Vec<u8>, doc: &Doc, event: &Event) -> Result<(), AllocError>
    ensures { OnOk result (out.new.items ≡ out.old.items ++ event_line doc.now event.now) }
{
    match event {
        Event::Step { host, index } => push_of_host(out, doc, b"step ", *host, u64::from(*index)),
        Event::Frame { host, lane } => push_of_host(out, doc, b"frame ", *host, u64::from(*lane)),
        Event::Arrive { conn, count } => push_arrive(out, *conn, *count),
        Event::Accept { conn } => push_of_conn(out, b"accept ", *conn),
        Event::Deliver { conn } => push_of_conn(out, b"deliver ", *conn),
        Event::Tick { host, to } => push_of_host(out, doc, b"tick ", *host, *to),
        Event::Inject { conn, bytes } => push_inject(out, *conn, bytes.as_slice()),
        Event::CopyBytes {
            conn,
            source,
            from,
            until,
        } => push_copy(out, *conn, *source, *from, *until),
    }
}
