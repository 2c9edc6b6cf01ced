//! Mailboxes with their entries.
#![tactic(auto)]

ghost use Rattle.std.specs.Prelude.{◌≡◌, ◌++◌, ℕ, List, [], ◌∷◌, drop, IsTrue, OnOk};
ghost use Rattle.ds_map.specs.Labels.{have_names};
ghost use Rattle.ds_model.specs.Print.{shown};
ghost use Rattle.ds_plan.specs.Keys.{host_keys};
ghost use Rattle.ds_exporter.specs.HostStates.{box_of};
ghost use Rattle.ds_exporter.specs.PlainHosts.{plain_box, plan_of_box};
ghost use Rattle.ds_exporter.specs.Conditions.{IsBoxNamed};
ghost use Rattle.ds_report.specs.Printings.{printing_of, planned};
ghost use Rattle.ds_report.specs.Boxes.{act_line, acts_text, box_head, box_line, box_pieces, box_text, mail_line, sizes_after, took_line};

use crate::names::{push_host_name, push_key_name};
use crate::plain::{push, push_counted, push_shown};
use crate::processes::push_local;
use ds_box::{BoxAct, BoxEntry};
use ds_exporter::BoxPart;
use ds_label::PubKey;
use ds_map::MapTable;
use ds_msg::LocalMessage;
use ds_plan::Doc;
use std::alloc::{AllocError, Global};
use std::collections::VecDeque;

/// Appends a message behind a word: the name of the exporter that it came from, and its payload.
fn push_mail(
    out: &mut Vec<u8>,
    doc: &Doc,
    keys: &[PubKey],
    word: &[u8],
    message: &LocalMessage,
) -> Result<(), AllocError>
    requires { keys.now ≡ host_keys doc.now.hosts }
    ensures { OnOk result (out.new.items ≡ out.old.items ++ mail_line (printing_of doc.now) (planned doc.now) word.now message.now) }
{
    push(out, word)?;
    push_key_name(out, doc, keys, &message.from)?;
    push(out, b" ")?;
    push_shown(out, message.payload.as_slice())?;
    push(out, b"\n")
}

/// Appends the size of the message that was taken, the first of those that waited.
fn push_took(out: &mut Vec<u8>, waiting: &mut VecDeque<usize>) -> Result<(), AllocError>
    ensures text { OnOk result (out.new.items ≡ out.old.items ++ took_line waiting.old.items) }
    ensures waiting { OnOk result (waiting.new.items ≡ drop 1 waiting.old.items) }
{
    match waiting.pop_front() {
        Some(size) => {
            push_counted(out, b"  took ", size as u64)?;
            push(out, b"\n")
        }
        None => Ok(()),
    }
}

/// Appends an entry, of which the sizes of the waiting messages are kept.
fn push_act(
    out: &mut Vec<u8>,
    doc: &Doc,
    keys: &[PubKey],
    act: &BoxAct,
    waiting: &mut VecDeque<usize>,
) -> Result<(), AllocError>
    requires { keys.now ≡ host_keys doc.now.hosts }
    ensures text { OnOk result (out.new.items ≡ out.old.items ++ act_line (printing_of doc.now) (planned doc.now) act.now waiting.old.items) }
    ensures waiting { OnOk result (waiting.new.items ≡ sizes_after act.now waiting.old.items) }
{
    match act {
        BoxAct::Put(message) => {
            push_mail(out, doc, keys, b"  put ", message)?;
            waiting.push_back(message.payload.len())?;
            Ok(())
        }
        BoxAct::Full(message) => push_mail(out, doc, keys, b"  full ", message),
        BoxAct::Took => push_took(out, waiting),
    }
}

/// Appends the entries of a mailbox.
fn push_acts(
    out: &mut Vec<u8>,
    alloc: Global,
    doc: &Doc,
    keys: &[PubKey],
    entries: &[BoxEntry],
) -> Result<(), AllocError>
    requires { keys.now ≡ host_keys doc.now.hosts }
    ensures { OnOk result (out.new.items ≡ out.old.items ++ acts_text (printing_of doc.now) (planned doc.now) entries.now []) }
{
    let mut waiting = VecDeque::new(alloc);
    for entry in entries {
        push_act(out, doc, keys, &entry.act, &mut waiting)?;
    }
    Ok(())
}

/// Appends the front of a mailbox's line: its name.
fn push_head(out: &mut Vec<u8>, doc: &Doc, host: usize, slot: u32) -> Result<(), AllocError>
    ensures { OnOk result (out.new.items ≡ out.old.items ++ box_head (printing_of doc.now) (planned doc.now) host slot) }
{
    push(out, b"box ")?;
    push_host_name(out, doc, host)?;
    push_counted(out, b".", u64::from(slot))?;
    push(out, b" label ")
}

/// Appends a mailbox's line to its end.
fn push_line(
    out: &mut Vec<u8>,
    doc: &Doc,
    keys: &[PubKey],
    table: &MapTable,
    host: usize,
    mailbox: &BoxPart,
) -> Result<(), AllocError>
    requires keys { keys.now ≡ host_keys doc.now.hosts }
    requires named { IsTrue (have_names table.now.here table.now.rows (mailbox.now.state.mailbox.label ∷ [])) }
    ensures { OnOk result (out.new.items ≡ out.old.items ++ box_line (printing_of doc.now) (planned doc.now) table.now.here table.now.rows host (box_of mailbox.now)) }
{
    push_head(out, doc, host, mailbox.slot)?;
    push_local(out, doc, keys, table, mailbox.state.label())?;
    push_counted(out, b" room ", u64::from(mailbox.state.room()))?;
    push_counted(out, b" waits ", mailbox.state.waits() as u64)
}

/// Appends a mailbox, piece by piece.
fn push_pieces(
    out: &mut Vec<u8>,
    alloc: Global,
    doc: &Doc,
    keys: &[PubKey],
    table: &MapTable,
    host: usize,
    mailbox: &BoxPart,
) -> Result<(), AllocError>
    requires keys { keys.now ≡ host_keys doc.now.hosts }
    requires named { IsBoxNamed table.now.here table.now.rows (box_of mailbox.now) }
    ensures { OnOk result (out.new.items ≡ out.old.items ++ box_pieces (printing_of doc.now) (planned doc.now) table.now.here table.now.rows host (box_of mailbox.now)) }
{
    push_line(out, doc, keys, table, host, mailbox)?;
    push(out, b"\n")?;
    push_acts(out, alloc, doc, keys, mailbox.state.history())
}

/// Appends a mailbox: its line, and its entries under it.
pub fn push_box(
    out: &mut Vec<u8>,
    alloc: Global,
    doc: &Doc,
    keys: &[PubKey],
    table: &MapTable,
    host: usize,
    mailbox: &BoxPart,
) -> Result<(), AllocError>
    requires keys { keys.now ≡ host_keys doc.now.hosts }
    requires named { IsBoxNamed table.now.here table.now.rows (box_of mailbox.now) }
    ensures { OnOk result (out.new.items ≡ out.old.items ++ box_text (printing_of doc.now) (planned doc.now) host
        (plan_of_box table.now.here table.now.rows (box_of mailbox.now)) (plain_box table.now.here table.now.rows (box_of mailbox.now))) }
{
    push_pieces(out, alloc, doc, keys, table, host, mailbox)
}
