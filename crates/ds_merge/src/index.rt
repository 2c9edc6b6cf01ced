//! Where the histories stand, by their objects' names.

ghost use Rattle.std.specs.Prelude.{◌≡◌, IfOk, MatchOption, None, Some, option_copied};
ghost use Rattle.ds_merge.specs.Standing.{next_in, next_of};
ghost use Rattle.ds_merge.specs.Tables.{Finds, seen};

use crate::kept::{Kept, ObjectName};
use crate::records::History;
use crate::tables::Tables;
use std::alloc::{AllocError, Global};
use std::collections::BTreeMap;

/// For each object the place of its first history.
#[derive(Drop)]
pub(crate) struct HistoryIndex {
    places: BTreeMap<ObjectName, usize>,
}

impl HistoryIndex {
    /// The index of these histories. `AllocError` where memory runs out.
    pub(crate) fn new(alloc: Global, histories: &[History]) -> Result<HistoryIndex, AllocError>
        ensures { IfOk result (λ x. Finds x.places histories.now histories.now) }
    {
        let mut places = BTreeMap::new(alloc);
        let count = histories.len();
        for behind in 0..count {
            let place = count - 1 - behind;
            places.insert(histories[place].object, place)?;
        }
        Ok(HistoryIndex { places })
    }

    /// The object's first entry that isn't taken; none where no history is the object's.
    pub(crate) fn next<'a>(
        &self,
        histories: &'a [History],
        tables: &Tables,
        name: ObjectName,
    ) -> Option<&'a Kept>
        requires { Finds self.now.places histories.now histories.now }
        ensures { option_copied result ≡ next_of histories.now (seen tables.now) name }
    {
        let Some(place) = self.places.get(&name) else {
            return None;
        };
        match histories.get(*place) {
            None => None,
            Some(history) => next_entry(tables, history),
        }
    }
}

/// The history's first entry that isn't taken.
pub(crate) fn next_entry<'a>(tables: &Tables, history: &'a History) -> Option<&'a Kept>
    ensures { option_copied result ≡ next_in (seen tables.now) history.now }
{
    history.entries.as_slice().get(tables.taken(history.object))
}
