//! How many values a value is.

ghost use Rattle.std.specs.Prelude.{◌≡◌};
ghost use Rattle.serde_json.specs.View.{view, items_view, members_view};
ghost use Rattle.ds_doc.specs.Places.{size, items_size, members_size};

use serde_json::{Map, Value};

/// The value itself and those in it, counted to 4,294,967,295 at most.
#[cycle(size)]
pub(crate) fn size(value: &Value) -> u32
    ensures { result ≡ size (view value.now) }
{
    match value {
        Value::Array(items) => items_size(items),
        Value::Object(members) => members_size(members),
        _ => 1,
    }
}

#[cycle(size)]
pub(crate) fn items_size(items: &Vec<Value>) -> u32
    ensures { result ≡ items_size 1 (items_view items.now.items) }
{
    let mut count = 1u32;
    for item in items {
        count = count.saturating_add(size(item));
    }
    count
}

#[cycle(size)]
fn members_size(members: &Map<String, Value>) -> u32
    ensures { result ≡ members_size 1 (members_view members.now.entries) }
{
    let mut count = 1u32;
    for (_, member) in members.iter() {
        count = count.saturating_add(size(member));
    }
    count
}
