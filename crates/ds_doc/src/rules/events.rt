//! Rules of events.

ghost use Rattle.std.specs.Prelude.{◌≡◌, ◌++◌, min, ◌-◌, ◌^◌, sum, flat_map, OnOk, option_copied};
ghost use Rattle.ds_plan.specs.Documents as documents;
ghost use Rattle.ds_doc.specs.Rules as of_rules;

use crate::draft::{DraftEvent, Placed};
use crate::fault::Fault;
use crate::rules::certs::runs;
use crate::rules::facts::Facts;
use crate::rules::named::host_rule;
use crate::rules::noted::note;
use ds_plan::Maker;
use std::alloc::AllocError;

fn has_process(maker: Option<&Maker>, place: u32) -> bool
    ensures { result ≡ documents.has_process place (option_copied maker.entry) }
{
    match maker {
        Some(Maker::Processes(made)) => (place as usize) < made.len(),
        _ => false,
    }
}

fn has_lane(lanes: Option<&usize>, number: u32) -> bool
    ensures { result ≡ documents.has_lane number (option_copied lanes.entry) }
{
    match lanes {
        Some(lanes) => 1 <= number && number as usize <= *lanes,
        None => false,
    }
}

/// How many lanes there are, counted to 4,294,967,295 at most.
fn lanes_of(lanes: &[usize]) -> usize
    ensures { result ≡ min (sum lanes.now) (2 ^ 64 - 1) }
{
    let mut count = 0usize;
    for more in lanes {
        count = count.saturating_add(*more);
    }
    count
}

fn is_conn(facts: &Facts, conn: u32) -> bool
    ensures { result ≡ documents.is_conn facts.now.lanes facts.now.links conn }
{
    (conn as usize) < lanes_of(facts.lanes.as_slice()).saturating_add(facts.links)
}

fn is_link(facts: &Facts, conn: u32) -> bool
    ensures { result ≡ documents.is_link facts.now.lanes facts.now.links conn }
{
    lanes_of(facts.lanes.as_slice()) <= conn as usize && is_conn(facts, conn)
}

fn conn_rule(faults: &mut Vec<Fault>, facts: &Facts, conn: &Placed<u32>) -> Result<(), AllocError>
    ensures { OnOk result (faults.new.items ≡ faults.old.items ++ of_rules.unknown_conn facts.now conn.now) }
{
    note(faults, is_conn(facts, conn.value), 7, conn.at)
}

fn link_rule(faults: &mut Vec<Fault>, facts: &Facts, conn: &Placed<u32>) -> Result<(), AllocError>
    ensures { OnOk result (faults.new.items ≡ faults.old.items ++ of_rules.unknown_link facts.now conn.now) }
{
    note(faults, is_link(facts, conn.value), 7, conn.at)
}

#[tactic(auto, unfolding(crate::specs::Rules::event_rules))]
fn event_rule(faults: &mut Vec<Fault>, facts: &Facts, event: &DraftEvent) -> Result<(), AllocError>
    ensures { OnOk result (faults.new.items ≡ faults.old.items ++ of_rules.event_rules facts.now event.now) }
{
    match event {
        DraftEvent::Step { host, index } => {
            host_rule(faults, facts, host)?;
            let maker = facts.makers.get(host.value.number() as usize);
            note(faults, has_process(maker, index.value), 7, index.at)
        }
        DraftEvent::Frame { host, lane } => {
            host_rule(faults, facts, host)?;
            let place = host.value.number() as usize;
            let fine = runs(facts.makers.get(place))
                && has_lane(facts.lanes.get(place), lane.value);
            note(faults, fine, 7, lane.at)
        }
        DraftEvent::Arrive { conn, .. }
        | DraftEvent::Accept { conn }
        | DraftEvent::Deliver { conn } => conn_rule(faults, facts, conn),
        DraftEvent::Tick { host, .. } => host_rule(faults, facts, host),
        DraftEvent::Inject { conn, .. } => link_rule(faults, facts, conn),
        DraftEvent::CopyBytes { conn, source, .. } => {
            link_rule(faults, facts, conn)?;
            conn_rule(faults, facts, source)
        }
    }
}

pub(crate) fn event_rules(
    faults: &mut Vec<Fault>,
    facts: &Facts,
    events: &[DraftEvent],
) -> Result<(), AllocError>
    ensures { OnOk result (faults.new.items ≡ faults.old.items ++ flat_map (of_rules.event_rules facts.now) events.now) }
{
    for event in events {
        event_rule(faults, facts, event)?;
    }
    Ok(())
}
