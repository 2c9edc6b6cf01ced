//! All rules.

ghost use Rattle.std.specs.Prelude.{◌≡◌, ◌++◌, flat_map, IfOk, OnOk};
ghost use Rattle.ds_doc.specs.Rules as of_rules;
ghost use Rattle.ds_doc.specs.Shapes.{least};

use crate::draft::{Draft, DraftEvent, DraftHost};
use crate::fault::Fault;
use crate::rules::addresses::{given_of, made_of, no_room_in_each};
use crate::rules::certs::cert_rules;
use crate::rules::events::event_rules;
use crate::rules::facts::{Facts, facts_of};
use crate::rules::hosts::host_rules;
use crate::rules::named::host_rules as named_hosts;
use crate::rules::noted::least_of;
use crate::rules::repeats::{names, repeated_in};
use crate::rules::secrets::secrets;
use ds_plan::PartList;
use std::alloc::{AllocError, Global};

/// Most different address certificates of a host.
const ADDRESS_MOST: usize = 64;

fn repeated_in_each(
    faults: &mut Vec<Fault>,
    facts: &Facts,
    hosts: &[DraftHost],
) -> Result<(), AllocError>
    ensures { OnOk result (faults.new.items ≡ faults.old.items ++ of_rules.each_place (of_rules.repeated_in facts.now) 0 hosts.now) }
{
    for (here, host) in hosts.iter().enumerate() {
        repeated_in(faults, facts, here, host)?;
    }
    Ok(())
}

#[tactic(auto, unfolding(crate::specs::Rules::repeated))]
fn repeated(
    alloc: Global,
    faults: &mut Vec<Fault>,
    facts: &Facts,
    draft: &Draft,
) -> Result<(), AllocError>
    ensures { OnOk result (faults.new.items ≡ faults.old.items ++ of_rules.repeated facts.now draft.now) }
{
    names(faults, draft.hosts.as_slice())?;
    secrets(alloc, faults, draft.hosts.as_slice())?;
    repeated_in_each(faults, facts, draft.hosts.as_slice())
}

fn host_rules_of_each(
    faults: &mut Vec<Fault>,
    facts: &Facts,
    hosts: &[DraftHost],
) -> Result<(), AllocError>
    ensures { OnOk result (faults.new.items ≡ faults.old.items ++ of_rules.each_place (of_rules.host_rules facts.now) 0 hosts.now) }
{
    for (here, host) in hosts.iter().enumerate() {
        host_rules(faults, facts, here, host)?;
    }
    Ok(())
}

fn given_events(events: &Option<PartList<DraftEvent>>) -> &[DraftEvent]
    ensures { result.now ≡ of_rules.or_none events.now }
{
    match events {
        Some(events) => events.as_slice(),
        None => &[],
    }
}

#[tactic(auto, unfolding(crate::specs::Rules::rules_by))]
fn rules_by(
    alloc: Global,
    faults: &mut Vec<Fault>,
    facts: &Facts,
    draft: &Draft,
) -> Result<(), AllocError>
    ensures { OnOk result (faults.new.items ≡ faults.old.items ++ of_rules.rules_by facts.now draft.now) }
{
    repeated(alloc, faults, facts, draft)?;
    host_rules_of_each(faults, facts, draft.hosts.as_slice())?;
    named_hosts(faults, facts, draft.links.as_slice())?;
    cert_rules(faults, facts, draft.certs.as_slice())?;
    event_rules(faults, facts, given_events(&draft.events))
}

/// The least fault by the rules of codes 6 to 11.
#[tactic(auto, unfolding(crate::specs::Rules::rules))]
pub(crate) fn least_broken(alloc: Global, draft: &Draft) -> Result<Option<Fault>, AllocError>
    ensures { IfOk result (λ f. f ≡ least (of_rules.rules draft.now)) }
{
    let facts = facts_of(alloc, draft)?;
    let mut faults = Vec::new(alloc);
    rules_by(alloc, &mut faults, &facts, draft)?;
    Ok(least_of(faults.as_slice()))
}

/// The first address certificate for which a host has no room. Keys are made only where there could be one.
#[tactic(auto, using(crate::proofs::Rooms::room_enough), unfolding(crate::specs::Rules::over_full))]
pub(crate) fn least_over_full(alloc: Global, draft: &Draft) -> Result<Option<Fault>, AllocError>
    ensures { IfOk result (λ f. f ≡ least (of_rules.over_full draft.now)) }
{
    let given = given_of(alloc, draft.certs.as_slice())?;
    if draft.hosts.len().saturating_add(given.len()) <= ADDRESS_MOST {
        return Ok(None);
    }
    let made = made_of(alloc, draft.hosts.as_slice())?;
    let mut faults = Vec::new(alloc);
    no_room_in_each(
        alloc,
        &mut faults,
        made.as_slice(),
        given.as_slice(),
        draft.hosts.as_slice(),
    )?;
    Ok(least_of(faults.as_slice()))
}
