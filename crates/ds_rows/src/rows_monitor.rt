//! What a process may do, over its host's own numbers: an even one is for secrecy, an odd one for integrity.

ghost use Rattle.std.specs.Prelude.{◌≡◌, [], IfSome};

use crate::row::Row;
use ds_label::{Kind, LocalLabel, PubKey, Rule};
use ds_monitor::{Monitor, ProcFault};
use ds_script::{OpList, Proc, UsableList};

/// A process without a script that has made so many categories.
fn process(
    row: &mut Row<'_>,
    made: u32,
    label: LocalLabel,
    own: LocalLabel,
    clear: LocalLabel,
) -> Option<Proc>
    ensures { IfSome result (λ p. p.process.names ≡ []) }
{
    let script = OpList::new(row.alloc);
    if !script.is_script() {
        return None;
    }
    Some(Proc::new(
        row.alloc,
        script,
        made,
        label,
        own,
        clear,
        UsableList::new(row.alloc),
    ))
}

/// Says the rule that refuses, or `may`.
fn say_rule(row: &mut Row<'_>, answer: Result<(), Rule>) {
    match answer {
        Ok(()) => row.say("may"),
        Err(rule) => row.say(rule.name()),
    }
}

/// Changes the label, and says the answer and the label then.
fn changes(row: &mut Row<'_>, process: &mut Proc) {
    let label = row.local(5);
    match process.set_label(label) {
        Ok(()) => row.say("may"),
        Err(ProcFault::Refused(rule)) => row.say(rule.name()),
        Err(ProcFault::NoMemory) => row.full(),
    }
    row.say_local(process.label());
}

/// Grants, and says the ownership and the clearance then.
fn grants(row: &mut Row<'_>, process: &mut Proc) {
    let own = row.local(5);
    let clear = row.local(6);
    if process.reserve().is_err() {
        return row.full();
    }
    row.say_if(Monitor::grant(process, &own, &clear));
    row.say_local(process.own());
    row.say_local(process.clear());
}

/// Judges a send.
fn sends(row: &mut Row<'_>, process: &Proc) {
    let label = row.local(5);
    let own = row.local(6);
    let clear = row.local(7);
    say_rule(row, process.may_send(&label, &own, &clear));
}

/// Makes a category by the process with this index, without usable names, on the host with key 1. Says the category's number or
/// which rule refuses, and then how many are owned, and the last one's number on the host.
#[tactic(auto, using(crate::proofs::Fresh::new_among_none))]
fn makes(row: &mut Row<'_>, process: &mut Proc, index: u32, kind: Kind)
    requires { process.old.process.names ≡ [] }
{
    match process.new_category(&PubKey([1; 56]), index & 65_535, kind) {
        Ok(category) => row.say_number(category.number),
        Err(ProcFault::Refused(rule)) => row.say(rule.name()),
        Err(ProcFault::NoMemory) => row.full(),
    }
    row.say("owns");
    row.say_number(process.own().len() as u64);
    row.say("last");
    row.say_number(process.own().as_slice().last().copied().unwrap_or(0));
}

/// A maker of categories.
fn maker(row: &mut Row<'_>) {
    let made = row.small(1, u32::MAX);
    let label = LocalLabel::new(row.alloc);
    let own = row.local(5);
    let clear = LocalLabel::new(row.alloc);
    let index = row.small(2, 99);
    let kind = if row.is(4, "s") {
        Kind::Secrecy
    } else {
        Kind::Integrity
    };
    if let Some(mut process) = process(row, made, label, own, clear) {
        makes(row, &mut process, index, kind);
    }
}

/// What a process does.
fn acts(row: &mut Row<'_>, process: &mut Proc) {
    if row.is(4, "sends") {
        sends(row, process);
        return;
    }
    if row.is(4, "takes") {
        let mailbox = row.local(5);
        say_rule(row, process.may_take(&mailbox));
        return;
    }
    if row.is(4, "acts") {
        say_rule(row, process.may_publish());
        return;
    }
    if row.is(4, "changes") {
        changes(row, process);
        return;
    }
    grants(row, process);
}

/// `monitor LABEL OWN CLEAR sends LABEL OWN CLEAR`, `monitor LABEL OWN CLEAR takes LABEL`, `monitor LABEL OWN CLEAR acts`,
/// `monitor LABEL OWN CLEAR changes LABEL`, `monitor LABEL OWN CLEAR grants OWN CLEAR`, `monitor MADE INDEX makes KIND OWN`.
pub(crate) fn row(row: &mut Row<'_>) {
    if row.is(3, "makes") {
        return maker(row);
    }
    let label = row.local(1);
    let own = row.local(2);
    let clear = row.local(3);
    if let Some(mut process) = process(row, 0, label, own, clear) {
        acts(row, &mut process);
    }
}
