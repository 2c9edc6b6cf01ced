//! Foreign categories get their numbers.
#![tactic(auto)]

ghost use Rattle.std.specs.Prelude.{◌≡◌, ◌<◌, ◌≤◌, ◌||◌, false, length, nat_lt, IfOk, OnOk, OnErr};
ghost use Rattle.ds_label.specs.declared.rule.Rule.TheVariants as rules;
ghost use Rattle.ds_model.specs.Scheme.{Scheme};
ghost use Rattle.ds_model.specs.Plan.{HostPlan};
ghost use Rattle.ds_model.specs.FirstRule.{unless};
ghost use Rattle.ds_model.specs.Mapping.{is_known, number_of, row_limit, with_row};
ghost use Rattle.ds_model.specs.Desk.{Mapping, Local};
ghost use Rattle.ds_map.specs.Table.{is_stray};
ghost use Rattle.ds_desk.specs.Desks.{IsKept, kept_of, last_stamp, entered};
ghost use Rattle.ds_desk.specs.Replies.{Answers, Enters, Ruled, entry_for, reply_for};

use crate::act::{DeskChange, DeskEntry};
use crate::fault::EntryFault;
use crate::state::DeskState;
use ds_label::{Category, Rule};
use ds_map::{MapFault, MapTable};
use ds_script::Actor;

/// The category's number, with a row for it. Nothing changed after a fault.
fn mapped(table: &mut MapTable, name: Category) -> Result<u64, EntryFault>
    requires { is_stray table.old.here name ≡ false }
    ensures number { IfOk result (λ local. local ≡ number_of table.old.here table.old.rows name) }
    ensures rule { Ruled result (unless (is_known table.old.here table.old.rows name || nat_lt (length table.old.rows) row_limit) rules.TableFull) }
    ensures rows { OnOk result (table.new.rows ≡ with_row table.old.here name table.old.rows) }
    ensures err { OnErr result (table.new.rows ≡ table.old.rows) }
    ensures here { table.new.here ≡ table.old.here }
{
    match table.add(name) {
        Ok(local) => Ok(local),
        Err(MapFault::TableFull) => Err(EntryFault::Refused(Rule::TableFull)),
        Err(MapFault::NoMemory) => Err(EntryFault::NoMemory),
        Err(MapFault::NotHome) => unreachable!(),
    }
}

impl DeskState {
    /// The category's number on this host. A foreign category without a row gets the next one. The category's creator isn't
    /// the host, or its number is below `2^62`.
    ///
    /// # Errors
    ///
    /// - `Refused(TableFull)` where a foreign category without a row finds 1,024 rows. That is entered.
    /// - `NoMemory` where memory runs out.
    pub fn map_foreign(&mut self, stamp: u64, who: Actor, name: Category) -> Result<u64, EntryFault>
        requires kept { IsKept self.old }
        requires later { last_stamp self.old < stamp }
        requires name { is_stray self.old.here name ≡ false }
        ensures answer { (s : Scheme) (plan : HostPlan) → Answers Local result (reply_for s plan (kept_of self.old) (Mapping name)) }
        ensures entry { (s : Scheme) (plan : HostPlan) → Enters result (kept_of self.old)
            (entered stamp who (entry_for s plan (kept_of self.old) (Mapping name)) (kept_of self.old)) (kept_of self.new) }
        ensures kept { IsKept self.new }
        ensures last { last_stamp self.new ≤ stamp }
    {
        self.history.reserve()?;
        match mapped(&mut self.table, name) {
            Ok(local) => {
                let act = DeskChange::Mapped(name);
                self.history.enter(DeskEntry { stamp, who, act });
                Ok(local)
            }
            Err(EntryFault::Refused(rule)) => {
                self.refuse(stamp, who, rule);
                Err(EntryFault::Refused(rule))
            }
            Err(EntryFault::NoMemory) => Err(EntryFault::NoMemory),
        }
    }
}
