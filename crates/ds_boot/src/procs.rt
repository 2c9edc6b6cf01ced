//! A running host's processes and mailboxes, over its own numbers.
#![tactic(auto)]

ghost use Rattle.std.specs.Prelude.{◌≡◌, true, [], ◌∷◌, map, All, IfOk, IsTrue};
ghost use Rattle.ds_script.specs.Names.{AreApart};
ghost use Rattle.ds_model.specs.Mapping.{is_known, number_of};
ghost use Rattle.ds_map.specs.Table.{IsTable};
ghost use Rattle.ds_exporter.specs.HostStates.{box_of, process_of};
ghost use Rattle.ds_boot.specs.Parts.{IsBoxKnown, IsProcKnown, box_begun, process_begun, usable_of};

use ds_box::BoxState;
use ds_exporter::{BoxList, BoxPart, ProcList, ProcPart};
use ds_label::Category;
use ds_map::MapTable;
use ds_plan::{BoxSpec, ProcSpec};
use ds_script::{Proc, Usable, UsableList};
use std::alloc::{AllocError, Global};

/// A row's category, with its number.
fn usable_row(table: &MapTable, row: &Category) -> Usable
    requires { is_known table.now.here table.now.rows row.now ≡ true }
    ensures { result ≡ usable_of table.now.here table.now.rows row.now }
{
    let Some(local) = table.to_local(row) else {
        unreachable!();
    };
    Usable {
        category: *row,
        local,
    }
}

/// The categories of the table's rows, with their numbers. `AllocError` where memory runs out.
fn usable_rows(alloc: Global, table: &MapTable) -> Result<UsableList, AllocError>
    ensures names { IfOk result (λ l. l ≡ map (usable_of table.now.here table.now.rows) table.now.rows) }
    ensures apart { IfOk result AreApart }
{
    let mut names = UsableList::new(alloc);
    for row in table.rows() {
        names.push(usable_row(table, row))?;
    }
    Ok(names)
}

/// A process at its script's first operation. `AllocError` where memory runs out.
fn begin_process(alloc: Global, table: &MapTable, spec: &ProcSpec) -> Result<ProcPart, AllocError>
    requires { IsProcKnown table.now.here table.now.rows spec.now }
    ensures { IfOk result (λ p. process_of p ≡ process_begun table.now.here table.now.rows spec.now) }
{
    let script = spec.script.copy()?;
    let label = table.numbers_of(&spec.label)?;
    let own = table.numbers_of(&spec.own)?;
    let clear = table.numbers_of(&spec.clear)?;
    let names = usable_rows(alloc, table)?;
    Ok(ProcPart {
        process: Proc::new(alloc, script, spec.made, label, own, clear, names),
        hand: None,
    })
}

/// A host's processes. `AllocError` where memory runs out.
pub fn begin_processes(
    alloc: Global,
    table: &MapTable,
    specs: &[ProcSpec],
) -> Result<ProcList, AllocError>
    requires { All (IsProcKnown table.now.here table.now.rows) specs.now }
    ensures { IfOk result (λ l. map process_of l.items ≡ map (process_begun table.now.here table.now.rows) specs.now) }
{
    let mut procs = Vec::new(alloc);
    for spec in specs {
        procs.push(begin_process(alloc, table, spec)?)?;
    }
    Ok(procs)
}

/// A mailbox in which nothing waits. `AllocError` where memory runs out.
fn begin_box(alloc: Global, table: &MapTable, spec: &BoxSpec) -> Result<BoxPart, AllocError>
    requires { IsBoxKnown table.now.here table.now.rows spec.now }
    ensures { IfOk result (λ b. box_of b ≡ box_begun table.now.here table.now.rows spec.now) }
{
    let label = table.numbers_of(&spec.label)?;
    Ok(BoxPart {
        slot: spec.slot,
        state: BoxState::new(alloc, label, spec.owner, spec.room),
    })
}

/// A host's mailboxes. `AllocError` where memory runs out.
pub fn begin_boxes(
    alloc: Global,
    table: &MapTable,
    specs: &[BoxSpec],
) -> Result<BoxList, AllocError>
    requires { All (IsBoxKnown table.now.here table.now.rows) specs.now }
    ensures { IfOk result (λ l. map box_of l.items ≡ map (box_begun table.now.here table.now.rows) specs.now) }
{
    let mut boxes = Vec::new(alloc);
    for spec in specs {
        boxes.push(begin_box(alloc, table, spec)?)?;
    }
    Ok(boxes)
}
