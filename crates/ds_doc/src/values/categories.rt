//! Categories by the keys of their creators.

ghost use Rattle.std.specs.Prelude.{◌≡◌, map, option_map, option_copied, IfOk, OnOk};
ghost use Rattle.ds_doc.specs.Values as values;

use crate::draft::{Categories, CategoryName, Placed};
use ds_label::{Category, Label, LabelFault, PubKey};
use ds_plan::{CategoryList, PartList};
use std::alloc::{AllocError, Global};

/// The keys of hosts, in order.
pub(crate) type Keys = PartList<PubKey>;

fn key_or(key: Option<&PubKey>) -> PubKey
    ensures { result ≡ values.key_or (option_copied key.entry) }
{
    match key {
        Some(key) => *key,
        None => PubKey([0; 56]),
    }
}

/// The category of that name.
#[tactic(auto, unfolding(crate::specs::Values::category))]
fn category(keys: &Keys, name: &CategoryName) -> Category
    ensures { result ≡ values.category keys.now name.now }
{
    let process = name.process;
    let number = name.number;
    Category {
        creator: key_or(keys.get(name.host.number() as usize)),
        kind: name.kind,
        number: u64::from(process) * 4_294_967_296 + u64::from(number),
    }
}

pub(crate) fn category_of(keys: &Keys, name: &Placed<CategoryName>) -> Category
    ensures { result ≡ values.category_of keys.now name.now }
{
    category(keys, &name.value)
}

/// Makes the category a member, unless it would be the 65th.
fn join(label: &mut Label, category: Category) -> Result<(), AllocError>
    ensures { OnOk result (label.new ≡ values.joined label.old category) }
{
    match label.insert(category) {
        Ok(()) | Err(LabelFault::TooMany) => Ok(()),
        Err(LabelFault::NoMemory) => Err(AllocError),
    }
}

/// The label of those categories.
#[tactic(auto, unfolding(crate::specs::Values::label))]
pub(crate) fn label_of(alloc: Global, keys: &Keys, names: &Categories) -> Result<Label, AllocError>
    ensures { IfOk result (λ l. l ≡ values.label keys.now names.now) }
{
    let mut label = Label::new(alloc);
    for name in names.as_slice() {
        join(&mut label, category_of(keys, name))?;
    }
    Ok(label)
}

/// Those categories, in order.
pub(crate) fn rows_of(
    alloc: Global,
    keys: &Keys,
    names: &[Placed<CategoryName>],
) -> Result<CategoryList, AllocError>
    ensures { IfOk result (λ l. l ≡ map (values.category_of keys.now) names.now) }
{
    let mut rows = CategoryList::new(alloc);
    for name in names {
        rows.push(category_of(keys, name))?;
    }
    Ok(rows)
}
