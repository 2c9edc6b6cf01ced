//! Labels in a host's own numbers, and the same labels by their names.

ghost use Rattle.std.specs.Prelude.{◌≡◌, ◌<◌, ◌≤◌, ◌+◌, [], ◌∷◌, length, true, IsTrue, IfOk, OnOk, All};
ghost use Rattle.ds_label.specs.Flow.{with_member};
ghost use Rattle.ds_label.specs.Names.{by_name};
ghost use Rattle.ds_label.specs.Numbers.{by_number};
ghost use Rattle.ds_model.specs.Mapping.{is_known, number_of};
ghost use Rattle.ds_map.specs.Labels.{has_name, name_of, named, numbered, have_names, are_known};

use crate::table::MapTable;
use ds_label::{Category, Label, LabelFault, LocalLabel};
use std::alloc::{AllocError, Global};

impl MapTable {
    /// The label of the local numbers of these categories, each of which is home or in a row. `AllocError` where memory runs
    /// out.
    pub fn numbers_of(&self, label: &Label) -> Result<LocalLabel, AllocError>
        requires { IsTrue (are_known self.now.here self.now.rows (label.now ∷ [])) }
        ensures { IfOk result (λ numbers. numbers ≡ numbered self.now.here self.now.rows label.now) }
    {
        numbers_in(self.allocator(), self, label.as_slice())
    }

    /// The label of the names of these local numbers, each of which has one. `AllocError` where memory runs out.
    pub fn names_of(&self, label: &LocalLabel) -> Result<Label, AllocError>
        requires { IsTrue (have_names self.now.here self.now.rows (label.now ∷ [])) }
        ensures { IfOk result (λ names. names ≡ named self.now.here self.now.rows label.now) }
    {
        names_in(self.allocator(), self, label.as_slice())
    }
}

/// The local number of a category that is home or in a row.
fn known_number(table: &MapTable, name: &Category) -> u64
    requires { is_known table.now.here table.now.rows name.now ≡ true }
    ensures { result ≡ number_of table.now.here table.now.rows name.now }
{
    let Some(number) = table.to_local(name) else {
        unreachable!();
    };
    number
}

/// The name of a local number that has one.
fn known_name(table: &MapTable, number: u64) -> Category
    requires { has_name table.now.here table.now.rows number ≡ true }
    ensures { result ≡ name_of table.now.here table.now.rows number }
{
    let Some(name) = table.to_name(number) else {
        unreachable!();
    };
    name
}

/// Makes a number a member of a label of fewer than 64.
#[tactic(auto, using(crate::proofs::Images::with_member_grows))]
fn add_number(label: &mut LocalLabel, number: u64) -> Result<(), AllocError>
    requires { length label.old < 64 }
    ensures ok { OnOk result (label.new ≡ with_member by_number number label.old) }
    ensures more { OnOk result (length label.new ≤ length label.old + 1) }
{
    match label.insert(number) {
        Ok(()) => Ok(()),
        Err(LabelFault::TooMany) => unreachable!(),
        Err(LabelFault::NoMemory) => Err(AllocError),
    }
}

/// Makes a category a member of a label of fewer than 64.
#[tactic(auto, using(crate::proofs::Images::with_member_grows))]
fn add_name(label: &mut Label, name: Category) -> Result<(), AllocError>
    requires { length label.old < 64 }
    ensures ok { OnOk result (label.new ≡ with_member by_name name label.old) }
    ensures more { OnOk result (length label.new ≤ length label.old + 1) }
{
    match label.insert(name) {
        Ok(()) => Ok(()),
        Err(LabelFault::TooMany) => unreachable!(),
        Err(LabelFault::NoMemory) => Err(AllocError),
    }
}

/// The numbers of at most 64 categories.
fn numbers_in(
    alloc: Global,
    table: &MapTable,
    members: &[Category],
) -> Result<LocalLabel, AllocError>
    requires few { length members.now ≤ 64 }
    requires known { All (λ c. is_known table.now.here table.now.rows c ≡ true) members.now }
    ensures { IfOk result (λ numbers. numbers ≡ numbered table.now.here table.now.rows members.now) }
{
    let mut numbers = LocalLabel::new(alloc);
    for c in members {
        add_number(&mut numbers, known_number(table, c))?;
    }
    Ok(numbers)
}

/// The names of at most 64 numbers.
fn names_in(alloc: Global, table: &MapTable, members: &[u64]) -> Result<Label, AllocError>
    requires few { length members.now ≤ 64 }
    requires known { All (λ n. has_name table.now.here table.now.rows n ≡ true) members.now }
    ensures { IfOk result (λ names. names ≡ named table.now.here table.now.rows members.now) }
{
    let mut names = Label::new(alloc);
    for n in members {
        add_name(&mut names, known_name(table, *n))?;
    }
    Ok(names)
}
