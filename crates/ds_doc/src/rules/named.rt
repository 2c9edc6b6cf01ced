//! What a document names but doesn't have, and categories that aren't made or mapped.

ghost use Rattle.std.specs.Prelude.{◌≡◌, ◌++◌, ◌<◌, ◌≤◌, flat_map, nat_lt, nat_le, length, OnOk, option_copied};
ghost use Rattle.ds_plan.specs.Categories as categories;
ghost use Rattle.ds_doc.specs.Names.{origin_of};
ghost use Rattle.ds_doc.specs.Rules as of_rules;

use crate::draft::{Categories, CategoryName, DraftOp, HostName, Placed};
use crate::fault::Fault;
use crate::reading::has_category;
use crate::rules::facts::Facts;
use crate::rules::noted::note;
use ds_plan::Maker;
use std::alloc::AllocError;

/// Greatest place of a process in a category's name.
const PROCESS_MOST: u32 = 1_000_000;

/// Greatest number of a process's category.
const NUMBER_MOST: u32 = 2_147_483_647;

/// The host that a name names must be there.
pub(crate) fn host_rule(
    faults: &mut Vec<Fault>,
    facts: &Facts,
    name: &Placed<HostName>,
) -> Result<(), AllocError>
    ensures { OnOk result (faults.new.items ≡ faults.old.items ++ of_rules.unknown_host facts.now name.now) }
{
    note(
        faults,
        (name.value.number() as usize) < facts.makers.len(),
        7,
        name.at,
    )
}

pub(crate) fn host_rules(
    faults: &mut Vec<Fault>,
    facts: &Facts,
    names: &[Placed<HostName>],
) -> Result<(), AllocError>
    ensures { OnOk result (faults.new.items ≡ faults.old.items ++ flat_map (of_rules.unknown_host facts.now) names.now) }
{
    for name in names {
        host_rule(faults, facts, name)?;
    }
    Ok(())
}

/// Whether the host that made the category is there, and the process where it runs.
fn is_known(facts: &Facts, category: &CategoryName) -> bool
    ensures { result ≡ categories.is_known facts.now.makers (origin_of category.now) }
{
    category.process <= PROCESS_MOST
        && category.number <= NUMBER_MOST
        && has_maker(facts.makers.get(category.host.number() as usize), category)
}

fn has_maker(maker: Option<&Maker>, category: &CategoryName) -> bool
    ensures { result ≡ categories.has_maker (origin_of category.now) (option_copied maker.entry) }
{
    match maker {
        None => false,
        Some(Maker::Anything) => true,
        Some(Maker::Processes(made)) => (category.process as usize) < made.len(),
    }
}

/// Whether the category is made, as far as a running host makes it.
fn is_made(facts: &Facts, category: &CategoryName) -> bool
    ensures { result ≡ categories.is_made facts.now.makers (origin_of category.now) }
{
    made_by(facts.makers.get(category.host.number() as usize), category)
}

fn made_by(maker: Option<&Maker>, category: &CategoryName) -> bool
    ensures { result ≡ categories.made_by (origin_of category.now) (option_copied maker.entry) }
{
    match maker {
        Some(Maker::Processes(made)) => is_below(
            category.number,
            made.get(category.process as usize),
        ),
        _ => true,
    }
}

fn is_below(number: u32, made: Option<&u32>) -> bool
    ensures { result ≡ categories.is_below number (option_copied made.entry) }
{
    match made {
        None => true,
        Some(made) => number < *made,
    }
}

pub(crate) fn category_rule(
    faults: &mut Vec<Fault>,
    facts: &Facts,
    category: &Placed<CategoryName>,
) -> Result<(), AllocError>
    ensures { OnOk result (faults.new.items ≡ faults.old.items ++ of_rules.unknown_category facts.now category.now) }
{
    note(faults, is_known(facts, &category.value), 7, category.at)
}

fn category_rules(
    faults: &mut Vec<Fault>,
    facts: &Facts,
    categories: &[Placed<CategoryName>],
) -> Result<(), AllocError>
    ensures { OnOk result (faults.new.items ≡ faults.old.items ++ of_rules.unknown_categories facts.now categories.now) }
{
    for category in categories {
        category_rule(faults, facts, category)?;
    }
    Ok(())
}

/// Of a category of a host's map.
#[tactic(auto, unfolding(crate::specs::Rules::row_rules))]
fn row_rule(
    faults: &mut Vec<Fault>,
    facts: &Facts,
    here: usize,
    category: &Placed<CategoryName>,
) -> Result<(), AllocError>
    ensures { OnOk result (faults.new.items ≡ faults.old.items ++ of_rules.row_rules facts.now here category.now) }
{
    category_rule(faults, facts, category)?;
    note(
        faults,
        category.value.host.number() as usize != here,
        9,
        category.at,
    )
}

pub(crate) fn row_rules(
    faults: &mut Vec<Fault>,
    facts: &Facts,
    here: usize,
    rows: &[Placed<CategoryName>],
) -> Result<(), AllocError>
    ensures { OnOk result (faults.new.items ≡ faults.old.items ++ flat_map (of_rules.row_rules facts.now here) rows.now) }
{
    for category in rows {
        row_rule(faults, facts, here, category)?;
    }
    Ok(())
}

/// Of a category of a process's label, ownership or clearance, or of a mailbox's label.
#[tactic(auto, unfolding(crate::specs::Rules::state_rules))]
fn state_rule(
    faults: &mut Vec<Fault>,
    facts: &Facts,
    here: usize,
    rows: &[Placed<CategoryName>],
    category: &Placed<CategoryName>,
) -> Result<(), AllocError>
    ensures { OnOk result (faults.new.items ≡ faults.old.items ++ of_rules.state_rules facts.now here rows.now category.now) }
{
    category_rule(faults, facts, category)?;
    note(faults, is_made(facts, &category.value), 8, category.at)?;
    let mapped = category.value.host.number() as usize == here || has_category(rows, category);
    note(faults, mapped, 9, category.at)
}

pub(crate) fn state_rules(
    faults: &mut Vec<Fault>,
    facts: &Facts,
    here: usize,
    rows: &[Placed<CategoryName>],
    label: &Categories,
) -> Result<(), AllocError>
    ensures { OnOk result (faults.new.items ≡ faults.old.items ++ flat_map (of_rules.state_rules facts.now here rows.now) label.now) }
{
    for category in label.as_slice() {
        state_rule(faults, facts, here, rows, category)?;
    }
    Ok(())
}

/// Of a category of a lane's label.
#[tactic(auto, unfolding(crate::specs::Rules::lane_category_rules))]
fn lane_category_rule(
    faults: &mut Vec<Fault>,
    facts: &Facts,
    category: &Placed<CategoryName>,
) -> Result<(), AllocError>
    ensures { OnOk result (faults.new.items ≡ faults.old.items ++ of_rules.lane_category_rules facts.now category.now) }
{
    category_rule(faults, facts, category)?;
    note(faults, is_made(facts, &category.value), 8, category.at)
}

pub(crate) fn lane_category_rules(
    faults: &mut Vec<Fault>,
    facts: &Facts,
    label: &Categories,
) -> Result<(), AllocError>
    ensures { OnOk result (faults.new.items ≡ faults.old.items ++ flat_map (of_rules.lane_category_rules facts.now) label.now) }
{
    for category in label.as_slice() {
        lane_category_rule(faults, facts, category)?;
    }
    Ok(())
}

/// A jump leads to an operation of its script or to its end.
fn jump_rule(faults: &mut Vec<Fault>, size: usize, to: &Placed<u32>) -> Result<(), AllocError>
    ensures { OnOk result (faults.new.items ≡ faults.old.items ++ of_rules.past_the_end size to.now) }
{
    note(faults, to.value as usize <= size, 7, to.at)
}

/// Of an operation of a script of so many.
#[tactic(auto, unfolding(crate::specs::Rules::unknown_in_op))]
fn op_rules(
    faults: &mut Vec<Fault>,
    facts: &Facts,
    size: usize,
    op: &DraftOp,
) -> Result<(), AllocError>
    ensures { OnOk result (faults.new.items ≡ faults.old.items ++ of_rules.unknown_in_op facts.now size op.now) }
{
    match op {
        DraftOp::IfEq { to, .. } | DraftOp::Jump { to } => jump_rule(faults, size, to),
        DraftOp::Send {
            host,
            label,
            own,
            clear,
            ..
        } => {
            host_rule(faults, facts, host)?;
            category_rules(faults, facts, label.as_slice())?;
            category_rules(faults, facts, own.as_slice())?;
            category_rules(faults, facts, clear.as_slice())
        }
        DraftOp::SetLabel { label } => category_rules(faults, facts, label.as_slice()),
        DraftOp::Delegate { category, to, .. } => {
            category_rule(faults, facts, category)?;
            host_rule(faults, facts, to)
        }
        DraftOp::Map { category } => category_rule(faults, facts, category),
        DraftOp::Set { .. }
        | DraftOp::Join { .. }
        | DraftOp::Print { .. }
        | DraftOp::Take { .. }
        | DraftOp::NewCat { .. }
        | DraftOp::Import { .. } => Ok(()),
    }
}

pub(crate) fn script_rules(
    faults: &mut Vec<Fault>,
    facts: &Facts,
    size: usize,
    ops: &[DraftOp],
) -> Result<(), AllocError>
    ensures { OnOk result (faults.new.items ≡ faults.old.items ++ flat_map (of_rules.unknown_in_op facts.now size) ops.now) }
{
    for op in ops {
        op_rules(faults, facts, size, op)?;
    }
    Ok(())
}
