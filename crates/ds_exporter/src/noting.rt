//! Processes of a host that note the end of an operation.
#![tactic(auto)]

ghost use Rattle.std.specs.Prelude.{◌≡◌, ◌<◌, length, map, OnOk};
ghost use Rattle.ds_model.specs.Lists.{at};
ghost use Rattle.ds_exporter.specs.HostStates.{process_of};
ghost use Rattle.ds_exporter.specs.Stepping.{GoesOn, IsReadyAt, refused_proc, sent_proc};

use crate::parts::ProcList;
use ds_actor::{refuse, sent};
use ds_label::Rule;
use std::alloc::AllocError;

/// Makes room for the end of an operation of the process at a place.
#[tactic(auto, using(crate::proofs::Places::map_same))]
pub(crate) fn reserve_proc(procs: &mut ProcList, place: usize) -> Result<(), AllocError>
    requires place { place < length procs.old.items }
    requires going { GoesOn place (map process_of procs.old.items) }
    ensures same { map process_of procs.new.items ≡ map process_of procs.old.items }
    ensures ready { OnOk result (IsReadyAt place procs.new.items) }
{
    procs[place].process.reserve()?;
    Ok(())
}

/// The process at a place notes that it sent, and moves on. It takes no memory.
#[tactic(auto, using(crate::proofs::Places::map_at_here))]
pub(crate) fn sent_at(procs: &mut ProcList, place: usize)
    requires place { place < length procs.old.items }
    requires ready { IsReadyAt place procs.old.items }
    ensures { map process_of procs.new.items ≡ at place sent_proc (map process_of procs.old.items) }
{
    sent(&mut procs[place].process);
}

/// The process at a place notes the rule that refused its operation, and moves on. It takes no memory.
#[tactic(auto, using(crate::proofs::Places::map_at_here))]
pub(crate) fn refused_at(procs: &mut ProcList, place: usize, rule: Rule)
    requires place { place < length procs.old.items }
    requires ready { IsReadyAt place procs.old.items }
    ensures { map process_of procs.new.items ≡ at place (refused_proc rule) (map process_of procs.old.items) }
{
    refuse(&mut procs[place].process, rule);
}
