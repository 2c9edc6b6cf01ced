//! Connections with their entries.
#![tactic(auto)]

ghost use Rattle.std.specs.Prelude.{◌≡◌, ◌++◌, ℕ, List, Option, OnOk};
ghost use Rattle.ds_model.specs.Print.{entry, conn_words, source_name};
ghost use Rattle.ds_model.specs.World.{Passed};
ghost use Rattle.ds_inlet.specs.Hosts.{seen_failure};
ghost use Rattle.ds_inlet.specs.PlainConnections.{line_of, plain_conn};
ghost use Rattle.ds_plan.specs.Keys.{host_keys};
ghost use Rattle.ds_report.specs.Printings.{printing_of, planned};
ghost use Rattle.ds_report.specs.Conns.{conn_entry, conn_entries, conn_head, conn_pieces, conn_text, drop_line, source_of, state_text};

use crate::names::{push_host_name, push_rule};
use crate::plain::{push, push_counted};
use crate::processes::push_digest_of;
use ds_frame::Failure;
use ds_inlet::{Conn, ConnEntry};
use ds_label::{PubKey, Rule};
use ds_plan::Doc;
use ds_world::Feed;
use std::alloc::AllocError;

fn push_source(out: &mut Vec<u8>, doc: &Doc, from: Feed) -> Result<(), AllocError>
    ensures { OnOk result (out.new.items ≡ out.old.items ++ source_name (printing_of doc.now) (planned doc.now) (source_of from)) }
{
    match from {
        Feed::Lane { host, lane } => {
            push_host_name(out, doc, host as usize)?;
            push_counted(out, b".", u64::from(lane) + 1)
        }
        Feed::Link => push(out, b"link"),
    }
}

/// Appends that a message was dropped, by which rule.
fn push_dropped(
    out: &mut Vec<u8>,
    doc: &Doc,
    keys: &[PubKey],
    rule: &Rule,
    slot: u32,
) -> Result<(), AllocError>
    requires { keys.now ≡ host_keys doc.now.hosts }
    ensures { OnOk result (out.new.items ≡ out.old.items ++ drop_line (printing_of doc.now) (planned doc.now) rule.now slot) }
{
    push(out, b"  drop ")?;
    push_rule(out, doc, keys, rule)?;
    push_counted(out, b" ", u64::from(slot))?;
    push(out, b"\n")
}

/// Appends an entry of a connection.
#[tactic(auto, using(crate::proofs::Ended::drop_words))]
fn push_entry(
    out: &mut Vec<u8>,
    doc: &Doc,
    keys: &[PubKey],
    entry: &ConnEntry,
) -> Result<(), AllocError>
    requires { keys.now ≡ host_keys doc.now.hosts }
    ensures { OnOk result (out.new.items ≡ out.old.items ++ conn_entry (printing_of doc.now) (planned doc.now) entry.now) }
{
    match entry {
        ConnEntry::Frame { number, count } => {
            push_counted(out, b"  frame ", u64::from(*number))?;
            push_counted(out, b" ", *count as u64)?;
            push(out, b"\n")
        }
        ConnEntry::Stale { number } => {
            push_counted(out, b"  stale ", u64::from(*number))?;
            push(out, b"\n")
        }
        ConnEntry::Pass { slot } => {
            push_counted(out, b"  pass ", u64::from(*slot))?;
            push(out, b"\n")
        }
        ConnEntry::Drop { rule, slot } => push_dropped(out, doc, keys, rule, *slot),
    }
}

fn push_entries(
    out: &mut Vec<u8>,
    doc: &Doc,
    keys: &[PubKey],
    entries: &[ConnEntry],
) -> Result<(), AllocError>
    requires { keys.now ≡ host_keys doc.now.hosts }
    ensures { OnOk result (out.new.items ≡ out.old.items ++ conn_entries (printing_of doc.now) (planned doc.now) entries.now) }
{
    for entry in entries {
        push_entry(out, doc, keys, entry)?;
    }
    Ok(())
}

/// Appends the state of a connection: open, or the cause for which it failed, and where.
#[tactic(auto, using(crate::proofs::Ended::cause_at))]
fn push_state(out: &mut Vec<u8>, doc: &Doc, failure: Option<Failure>) -> Result<(), AllocError>
    ensures { OnOk result (out.new.items ≡ out.old.items ++ state_text (printing_of doc.now) (planned doc.now) (seen_failure failure)) }
{
    match failure {
        Some(failure) => {
            push(out, b" state failed ")?;
            push(out, failure.cause.name().as_bytes())?;
            push_counted(out, b" ", failure.place)
        }
        None => push(out, b" state open"),
    }
}

/// Appends the front of a connection's line: its number, where it comes from and where it leads.
fn push_head(
    out: &mut Vec<u8>,
    doc: &Doc,
    number: usize,
    from: Feed,
    host: usize,
    arrived: usize,
) -> Result<(), AllocError>
    ensures { OnOk result (out.new.items ≡ out.old.items ++ conn_head (printing_of doc.now) (planned doc.now) number (source_of from) host arrived) }
{
    push_counted(out, b"conn ", number as u64)?;
    push(out, b" from ")?;
    push_source(out, doc, from)?;
    push(out, b" to ")?;
    push_host_name(out, doc, host)?;
    push_counted(out, b" arrived ", arrived as u64)?;
    push(out, b" stream ")
}

/// Appends a connection, piece by piece.
fn push_pieces(
    out: &mut Vec<u8>,
    doc: &Doc,
    keys: &[PubKey],
    number: usize,
    from: Feed,
    host: usize,
    conn: &Conn,
) -> Result<(), AllocError>
    requires { keys.now ≡ host_keys doc.now.hosts }
    ensures { OnOk result (out.new.items ≡ out.old.items ++ conn_pieces (printing_of doc.now) (planned doc.now) number (source_of from) host conn.now.conn) }
{
    push_head(out, doc, number, from, host, conn.arrived().len())?;
    push_digest_of(out, doc, conn.arrived())?;
    push_state(out, doc, conn.failure())?;
    push(out, b"\n")?;
    push_entries(out, doc, keys, conn.entries())
}

/// Appends a connection: its line, and its entries under it.
pub fn push_conn(
    out: &mut Vec<u8>,
    doc: &Doc,
    keys: &[PubKey],
    number: usize,
    from: Feed,
    host: usize,
    conn: &Conn,
) -> Result<(), AllocError>
    requires { keys.now ≡ host_keys doc.now.hosts }
    // Whatever its link's stream is, and what it has passed.
    ensures { (link : List ℕ) (passed : Option Passed) → OnOk result (out.new.items ≡ out.old.items ++ conn_text (printing_of doc.now) (planned doc.now) number
        (source_of from) host (plain_conn link passed conn.now.conn) conn.now.conn.arrived) }
{
    push_pieces(out, doc, keys, number, from, host, conn)
}
