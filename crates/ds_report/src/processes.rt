//! Processes with their notes.
#![tactic(auto)]

ghost use Rattle.std.specs.Prelude.{◌≡◌, ◌++◌, ◌∷◌, [], List, ℕ, IsTrue, None, OnOk, flat_map};
ghost use Rattle.ds_map.specs.Labels.{have_names, named};
ghost use Rattle.ds_model.specs.Print.{entry, label_text, note_words, proc_section};
ghost use Rattle.ds_plan.specs.Keys.{host_keys};
ghost use Rattle.ds_exporter.specs.HostStates.{process_of};
ghost use Rattle.ds_exporter.specs.PlainHosts.{plain_process};
ghost use Rattle.ds_exporter.specs.Conditions.{IsProcNamed};
ghost use Rattle.ds_report.specs.Printings.{printing_of, planned};
ghost use Rattle.ds_report.specs.Words.{note_line, notes_text, proc_head, proc_labels_text, refused_line, took_words};

use crate::names::{push_category, push_host_name, push_label, push_rule};
use crate::plain::{push, push_counted, push_hex, push_shown};
use ds_exporter::ProcPart;
use ds_label::{LocalLabel, PubKey, Rule};
use ds_map::MapTable;
use ds_plan::Doc;
use ds_script::Note;
use sha2::{Digest, Sha256};
use std::alloc::AllocError;

/// Appends the digest of bytes, in hex.
#[tactic(auto, unfolding(crate::specs::Printings::printing_of, crate::specs::Printings::digest_text))]
pub(crate) fn push_digest_of(out: &mut Vec<u8>, doc: &Doc, bytes: &[u8]) -> Result<(), AllocError>
    ensures { OnOk result (out.new.items ≡ out.old.items ++ (printing_of doc.now).digest bytes.now) }
{
    push_hex(out, &Sha256::digest(bytes))
}

/// Appends that an operation was refused.
fn push_refused(
    out: &mut Vec<u8>,
    doc: &Doc,
    keys: &[PubKey],
    rule: &Rule,
) -> Result<(), AllocError>
    requires { keys.now ≡ host_keys doc.now.hosts }
    ensures { OnOk result (out.new.items ≡ out.old.items ++ refused_line (printing_of doc.now) (planned doc.now) rule.now) }
{
    push(out, b"  refused ")?;
    push_rule(out, doc, keys, rule)?;
    push(out, b"\n")
}

fn push_took(out: &mut Vec<u8>, slot: u32, length: u32, granted: bool) -> Result<(), AllocError>
    ensures { OnOk result (out.new.items ≡ out.old.items ++ took_words slot length granted) }
{
    push_counted(out, b"  took ", u64::from(slot))?;
    push_counted(out, b" ", u64::from(length))?;
    if granted {
        push(out, b"\n")
    } else {
        push(out, b" nogrant\n")
    }
}

/// Appends a note, as a line under its process.
#[tactic(auto, using(crate::proofs::Spaced::refused_words))]
fn push_note(out: &mut Vec<u8>, doc: &Doc, keys: &[PubKey], note: &Note) -> Result<(), AllocError>
    requires { keys.now ≡ host_keys doc.now.hosts }
    ensures { OnOk result (out.new.items ≡ out.old.items ++ note_line (printing_of doc.now) (planned doc.now) note.now) }
{
    match note {
        Note::Print(bytes) => {
            push(out, b"  print ")?;
            push_shown(out, bytes.as_slice())?;
            push(out, b"\n")
        }
        Note::Sent => push(out, b"  sent\n"),
        Note::Took {
            slot,
            length,
            granted,
        } => push_took(out, *slot, *length, *granted),
        Note::SetLabel(label) => {
            push(out, b"  label ")?;
            push_label(out, doc, keys, label.as_slice())?;
            push(out, b"\n")
        }
        Note::NewCat(category) => {
            push(out, b"  newcat ")?;
            push_category(out, doc, keys, category)?;
            push(out, b"\n")
        }
        Note::Delegated { category, to } => {
            push(out, b"  delegated ")?;
            push_category(out, doc, keys, category)?;
            push(out, b" to ")?;
            push_host_name(out, doc, *to as usize)?;
            push(out, b"\n")
        }
        Note::Mapped { category, local } => {
            push(out, b"  mapped ")?;
            push_category(out, doc, keys, category)?;
            push_counted(out, b" as ", *local)?;
            push(out, b"\n")
        }
        Note::Imported => push(out, b"  imported\n"),
        Note::Refused(rule) => push_refused(out, doc, keys, rule),
    }
}

fn push_notes(
    out: &mut Vec<u8>,
    doc: &Doc,
    keys: &[PubKey],
    notes: &[Note],
) -> Result<(), AllocError>
    requires { keys.now ≡ host_keys doc.now.hosts }
    ensures { OnOk result (out.new.items ≡ out.old.items ++ notes_text (printing_of doc.now) (planned doc.now) notes.now) }
{
    for note in notes {
        push_note(out, doc, keys, note)?;
    }
    Ok(())
}

/// Appends a label in a host's own numbers, by the names of its table.
pub(crate) fn push_local(
    out: &mut Vec<u8>,
    doc: &Doc,
    keys: &[PubKey],
    table: &MapTable,
    label: &LocalLabel,
) -> Result<(), AllocError>
    requires keys { keys.now ≡ host_keys doc.now.hosts }
    requires named { IsTrue (have_names table.now.here table.now.rows (label.now ∷ [])) }
    ensures { OnOk result (out.new.items ≡ out.old.items ++ label_text (printing_of doc.now) (planned doc.now) (named table.now.here table.now.rows label.now)) }
{
    let names = table.names_of(label)?;
    push_label(out, doc, keys, names.as_slice())
}

/// Appends the labels of a process: its label, what it owns, and its clearance.
#[tactic(auto, using(crate::proofs::Named::first_named, crate::proofs::Named::second_named, crate::proofs::Named::third_named))]
fn push_labels(
    out: &mut Vec<u8>,
    doc: &Doc,
    keys: &[PubKey],
    table: &MapTable,
    process: &ProcPart,
) -> Result<(), AllocError>
    requires keys { keys.now ≡ host_keys doc.now.hosts }
    requires named { IsProcNamed table.now.here table.now.rows (process_of process.now) }
    ensures { OnOk result (out.new.items ≡ out.old.items ++ proc_labels_text (printing_of doc.now) (planned doc.now) (plain_process table.now.here table.now.rows (process_of process.now))) }
{
    push(out, b" label ")?;
    push_local(out, doc, keys, table, process.process.label())?;
    push(out, b" own ")?;
    push_local(out, doc, keys, table, process.process.own())?;
    push(out, b" clear ")?;
    push_local(out, doc, keys, table, process.process.clear())
}

/// Appends the front of a process's line: its name and its place.
fn push_head(
    out: &mut Vec<u8>,
    doc: &Doc,
    host: usize,
    index: usize,
    place: u32,
) -> Result<(), AllocError>
    ensures { OnOk result (out.new.items ≡ out.old.items ++ proc_head (printing_of doc.now) (planned doc.now) host index place) }
{
    push(out, b"proc ")?;
    push_host_name(out, doc, host)?;
    push_counted(out, b".", index as u64)?;
    push_counted(out, b" at ", u64::from(place))
}

/// Appends a process: its line, and its notes under it.
#[tactic(auto, using(crate::proofs::Named::section_of_process))]
pub fn push_process(
    out: &mut Vec<u8>,
    doc: &Doc,
    keys: &[PubKey],
    table: &MapTable,
    host: usize,
    index: usize,
    process: &ProcPart,
) -> Result<(), AllocError>
    requires keys { keys.now ≡ host_keys doc.now.hosts }
    requires named { IsProcNamed table.now.here table.now.rows (process_of process.now) }
    ensures { OnOk result (out.new.items ≡ out.old.items ++ proc_section (printing_of doc.now) (planned doc.now) host index (plain_process table.now.here table.now.rows (process_of process.now))) }
{
    push_head(out, doc, host, index, process.process.place())?;
    push_labels(out, doc, keys, table, process)?;
    push(out, b"\n")?;
    push_notes(out, doc, keys, process.process.notes())
}
