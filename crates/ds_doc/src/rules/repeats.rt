//! What may stand only once.

ghost use Rattle.std.specs.Prelude.{◌≡◌, ◌++◌, [], flat_map, OnOk};
ghost use Rattle.std.specs.List.{list_all};
ghost use Rattle.ds_plan.specs.Documents as documents;
ghost use Rattle.ds_plan.specs.Documents.{stood};
ghost use Rattle.ds_doc.specs.Draft as drafts;
ghost use Rattle.ds_doc.specs.Names.{or_empty};
ghost use Rattle.ds_doc.specs.Rules as of_rules;

use crate::draft::{CategoryName, DraftBox, DraftHost, DraftInlet, DraftLane, Placed, items_of};
use crate::fault::Fault;
use crate::reading::has_category;
use crate::rules::facts::Facts;
use crate::rules::noted::note;
use std::alloc::AllocError;

fn has_name(before: &[DraftHost], host: &DraftHost) -> bool
    ensures { result ≡ stood of_rules.same_name before.now host.now }
{
    before.iter().any(|other| other.name.value.as_slice() == host.name.value.as_slice())
}

pub(crate) fn names(faults: &mut Vec<Fault>, hosts: &[DraftHost]) -> Result<(), AllocError>
    ensures { OnOk result (faults.new.items ≡ faults.old.items ++ of_rules.repeats of_rules.same_name of_rules.name_place [] hosts.now) }
{
    for (place, host) in hosts.iter().enumerate() {
        note(faults, !has_name(&hosts[..place], host), 6, host.name.at)?;
    }
    Ok(())
}

fn has_slot(before: &[DraftBox], mailbox: &DraftBox) -> bool
    ensures { result ≡ stood of_rules.same_slot before.now mailbox.now }
{
    before
        .iter()
        .any(|other| other.slot.value == mailbox.slot.value)
}

fn slots(faults: &mut Vec<Fault>, boxes: &[DraftBox]) -> Result<(), AllocError>
    ensures { OnOk result (faults.new.items ≡ faults.old.items ++ of_rules.repeats of_rules.same_slot of_rules.slot_place [] boxes.now) }
{
    for (place, mailbox) in boxes.iter().enumerate() {
        note(
            faults,
            !has_slot(&boxes[..place], mailbox),
            6,
            mailbox.slot.at,
        )?;
    }
    Ok(())
}

/// Whether the first categories have each of the second.
fn has_each(first: &[Placed<CategoryName>], second: &[Placed<CategoryName>]) -> bool
    ensures { result ≡ of_rules.has_each first.now second.now }
{
    second.iter().all(|category| has_category(first, category))
}

fn same_lane(first: &DraftLane, second: &DraftLane) -> bool
    ensures { result ≡ of_rules.same_lane first.now second.now }
{
    first.to.value.same(&second.to.value)
        && has_each(first.label.as_slice(), second.label.as_slice())
        && has_each(second.label.as_slice(), first.label.as_slice())
}

fn has_lane(before: &[DraftLane], lane: &DraftLane) -> bool
    ensures { result ≡ stood of_rules.same_lane before.now lane.now }
{
    before.iter().any(|other| same_lane(other, lane))
}

fn lanes(faults: &mut Vec<Fault>, lanes: &[DraftLane]) -> Result<(), AllocError>
    ensures { OnOk result (faults.new.items ≡ faults.old.items ++ of_rules.repeats of_rules.same_lane of_rules.lane_place [] lanes.now) }
{
    for (place, lane) in lanes.iter().enumerate() {
        note(faults, !has_lane(&lanes[..place], lane), 6, lane.at)?;
    }
    Ok(())
}

fn same_inlet(first: &DraftInlet, second: &DraftInlet) -> bool
    ensures { result ≡ of_rules.same_inlet first.now second.now }
{
    first.from.value.same(&second.from.value) && first.lane == second.lane
}

fn has_inlet(before: &[DraftInlet], inlet: &DraftInlet) -> bool
    ensures { result ≡ stood of_rules.same_inlet before.now inlet.now }
{
    before.iter().any(|other| same_inlet(other, inlet))
}

fn inlets(faults: &mut Vec<Fault>, inlets: &[DraftInlet]) -> Result<(), AllocError>
    ensures { OnOk result (faults.new.items ≡ faults.old.items ++ of_rules.repeats of_rules.same_inlet of_rules.inlet_place [] inlets.now) }
{
    for (place, inlet) in inlets.iter().enumerate() {
        note(faults, !has_inlet(&inlets[..place], inlet), 6, inlet.at)?;
    }
    Ok(())
}

/// Whether the lane with that number from that host leads to this one.
fn comes_by_lane(facts: &Facts, here: usize, from: u32, number: u32) -> bool
    ensures { result ≡ documents.comes_by_lane facts.now.receivers here from number }
{
    match facts.receivers.get(from as usize) {
        None => false,
        Some(receivers) => match receivers.get(number.saturating_sub(1) as usize) {
            None => false,
            Some(to) => *to as usize == here,
        },
    }
}

fn inlet_rule(
    faults: &mut Vec<Fault>,
    facts: &Facts,
    here: usize,
    inlet: &DraftInlet,
) -> Result<(), AllocError>
    ensures { OnOk result (faults.new.items ≡ faults.old.items ++ of_rules.inlet_of_lane facts.now here inlet.now) }
{
    let comes = comes_by_lane(facts, here, inlet.from.value.number(), inlet.lane);
    note(faults, !comes, 6, inlet.at)
}

/// An inlet that a lane of the document makes isn't declared.
fn lane_inlets(
    faults: &mut Vec<Fault>,
    facts: &Facts,
    here: usize,
    inlets: &[DraftInlet],
) -> Result<(), AllocError>
    ensures { OnOk result (faults.new.items ≡ faults.old.items ++ flat_map (of_rules.inlet_of_lane facts.now here) inlets.now) }
{
    for inlet in inlets {
        inlet_rule(faults, facts, here, inlet)?;
    }
    Ok(())
}

/// What may stand only once in the host at a place.
#[tactic(auto, unfolding(crate::specs::Rules::repeated_in))]
pub(crate) fn repeated_in(
    faults: &mut Vec<Fault>,
    facts: &Facts,
    here: usize,
    host: &DraftHost,
) -> Result<(), AllocError>
    ensures { OnOk result (faults.new.items ≡ faults.old.items ++ of_rules.repeated_in facts.now here host.now) }
{
    slots(faults, items_of(&host.boxes))?;
    lanes(faults, items_of(&host.lanes))?;
    inlets(faults, items_of(&host.inlets))?;
    lane_inlets(faults, facts, here, items_of(&host.inlets))
}
