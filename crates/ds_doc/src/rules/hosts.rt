//! Rules of a host, without what stands once.

ghost use Rattle.std.specs.Prelude.{◌≡◌, ◌++◌, flat_map, length, filter, ◌==◌, is_some, OnOk};
ghost use Rattle.ds_plan.specs.Documents as documents;
ghost use Rattle.ds_doc.specs.Names.{or_empty};
ghost use Rattle.ds_doc.specs.Rules as of_rules;

use crate::draft::{
    CategoryName, DraftBox, DraftHost, DraftInlet, DraftLane, DraftProc, Placed, items_of,
};
use crate::fault::Fault;
use crate::rules::facts::Facts;
use crate::rules::named::{host_rule, lane_category_rules, row_rules, script_rules, state_rules};
use crate::rules::noted::note;
use ds_plan::Secret;
use std::alloc::AllocError;

#[tactic(auto, unfolding(crate::specs::Rules::proc_rules))]
fn proc_rules(
    faults: &mut Vec<Fault>,
    facts: &Facts,
    here: usize,
    rows: &[Placed<CategoryName>],
    process: &DraftProc,
) -> Result<(), AllocError>
    ensures { OnOk result (faults.new.items ≡ faults.old.items ++ of_rules.proc_rules facts.now here rows.now process.now) }
{
    state_rules(faults, facts, here, rows, &process.label)?;
    state_rules(faults, facts, here, rows, &process.own)?;
    state_rules(faults, facts, here, rows, &process.clear)?;
    script_rules(
        faults,
        facts,
        process.script.len(),
        process.script.as_slice(),
    )
}

fn procs_rules(
    faults: &mut Vec<Fault>,
    facts: &Facts,
    here: usize,
    rows: &[Placed<CategoryName>],
    procs: &[DraftProc],
) -> Result<(), AllocError>
    ensures { OnOk result (faults.new.items ≡ faults.old.items ++ flat_map (of_rules.proc_rules facts.now here rows.now) procs.now) }
{
    for process in procs {
        proc_rules(faults, facts, here, rows, process)?;
    }
    Ok(())
}

#[tactic(auto, unfolding(crate::specs::Rules::box_rules))]
fn box_rules(
    faults: &mut Vec<Fault>,
    facts: &Facts,
    here: usize,
    rows: &[Placed<CategoryName>],
    procs: usize,
    mailbox: &DraftBox,
) -> Result<(), AllocError>
    ensures { OnOk result (faults.new.items ≡ faults.old.items ++ of_rules.box_rules facts.now here rows.now procs mailbox.now) }
{
    note(
        faults,
        (mailbox.owner.value as usize) < procs,
        7,
        mailbox.owner.at,
    )?;
    state_rules(faults, facts, here, rows, &mailbox.label)
}

fn boxes_rules(
    faults: &mut Vec<Fault>,
    facts: &Facts,
    here: usize,
    rows: &[Placed<CategoryName>],
    procs: usize,
    boxes: &[DraftBox],
) -> Result<(), AllocError>
    ensures { OnOk result (faults.new.items ≡ faults.old.items ++ flat_map (of_rules.box_rules facts.now here rows.now procs) boxes.now) }
{
    for mailbox in boxes {
        box_rules(faults, facts, here, rows, procs, mailbox)?;
    }
    Ok(())
}

#[tactic(auto, unfolding(crate::specs::Rules::lane_rules))]
fn lane_rules(faults: &mut Vec<Fault>, facts: &Facts, lane: &DraftLane) -> Result<(), AllocError>
    ensures { OnOk result (faults.new.items ≡ faults.old.items ++ of_rules.lane_rules facts.now lane.now) }
{
    host_rule(faults, facts, &lane.to)?;
    lane_category_rules(faults, facts, &lane.label)
}

fn lanes_rules(
    faults: &mut Vec<Fault>,
    facts: &Facts,
    lanes: &[DraftLane],
) -> Result<(), AllocError>
    ensures { OnOk result (faults.new.items ≡ faults.old.items ++ flat_map (of_rules.lane_rules facts.now) lanes.now) }
{
    for lane in lanes {
        lane_rules(faults, facts, lane)?;
    }
    Ok(())
}

fn inlets_rules(
    faults: &mut Vec<Fault>,
    facts: &Facts,
    inlets: &[DraftInlet],
) -> Result<(), AllocError>
    ensures { OnOk result (faults.new.items ≡ faults.old.items ++ flat_map (of_rules.inlet_rules facts.now) inlets.now) }
{
    for inlet in inlets {
        host_rule(faults, facts, &inlet.from)?;
    }
    Ok(())
}

/// How often a host is among the signers.
fn count_of(signers: &[u32], here: usize) -> usize
    ensures { result ≡ length (filter (λ n. n == here) signers.now) }
{
    signers.iter().filter(|n| **n as usize == here).count()
}

/// Whether the host is silent.
pub(crate) fn is_silent(secret: &Secret) -> bool
    ensures { result ≡ documents.is_silent secret.now }
{
    match secret {
        Secret::Seed(_) => false,
        Secret::Key(_) => true,
    }
}

/// Whether the identity key of a running host has a leaf for its address, its lanes, and each certificate by it.
fn has_leaves(facts: &Facts, here: usize, host: &DraftHost) -> bool
    ensures { result ≡ documents.has_leaves facts.now.signers here host.now.identity host.now.secret.value (is_some host.now.address) (of_rules.lane_count host.now) }
{
    if is_silent(&host.secret.value) {
        return true;
    }
    let address = usize::from(host.address.is_some());
    let lanes = items_of(&host.lanes).len();
    let signed = count_of(facts.signers.as_slice(), here);
    address.saturating_add(lanes).saturating_add(signed) <= 1 << host.identity.lms.height()
}

fn silent_part<T>(
    faults: &mut Vec<Fault>,
    silent: bool,
    part: &Option<Placed<T>>,
) -> Result<(), AllocError>
    ensures { OnOk result (faults.new.items ≡ faults.old.items ++ of_rules.silent_part silent part.now) }
{
    match part {
        Some(part) => note(faults, !silent, 11, part.at),
        None => Ok(()),
    }
}

/// What a silent host has not.
#[tactic(auto, unfolding(crate::specs::Rules::silent_parts))]
fn silent_parts(faults: &mut Vec<Fault>, host: &DraftHost) -> Result<(), AllocError>
    ensures { OnOk result (faults.new.items ≡ faults.old.items ++ of_rules.silent_parts host.now) }
{
    let silent = is_silent(&host.secret.value);
    silent_part(faults, silent, &host.procs)?;
    silent_part(faults, silent, &host.boxes)?;
    silent_part(faults, silent, &host.lanes)?;
    silent_part(faults, silent, &host.inlets)?;
    silent_part(faults, silent, &host.map)?;
    silent_part(faults, silent, &host.address)
}

/// The rules of a host at a place.
#[tactic(auto, unfolding(crate::specs::Rules::host_rules))]
pub(crate) fn host_rules(
    faults: &mut Vec<Fault>,
    facts: &Facts,
    here: usize,
    host: &DraftHost,
) -> Result<(), AllocError>
    ensures { OnOk result (faults.new.items ≡ faults.old.items ++ of_rules.host_rules facts.now here host.now) }
{
    let rows = items_of(&host.map);
    let procs = items_of(&host.procs);
    row_rules(faults, facts, here, rows)?;
    procs_rules(faults, facts, here, rows, procs)?;
    boxes_rules(
        faults,
        facts,
        here,
        rows,
        procs.len(),
        items_of(&host.boxes),
    )?;
    lanes_rules(faults, facts, items_of(&host.lanes))?;
    inlets_rules(faults, facts, items_of(&host.inlets))?;
    note(faults, has_leaves(facts, here, host), 10, host.at)?;
    silent_parts(faults, host)
}
