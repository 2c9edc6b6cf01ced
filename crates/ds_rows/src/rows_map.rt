//! A host's own numbers of categories.

use crate::names::Names;
use crate::row::Row;
use ds_label::{Category, Kind, PubKey};
use ds_map::{MapFault, MapTable};

/// A table of this host with so many rows, for secrecy categories of key 2.
fn table(row: &mut Row<'_>, here: u8, rows: u32) -> MapTable {
    let mut table = MapTable::new(row.alloc, PubKey([here; 56]));
    for number in 0..rows {
        let creator = PubKey([2; 56]);
        let added = table.add(Category {
            creator,
            kind: Kind::Secrecy,
            number: number as u64,
        });
        if added.is_err() {
            row.bad();
        }
    }
    table
}

/// Adds a category and says its number, and whether name and number don't lead to each other.
fn adds(row: &mut Row<'_>, table: &mut MapTable, name: Category) {
    match table.add(name) {
        Ok(local) => {
            row.say_number(local);
            if table.to_local(&name) != Some(local) || table.to_name(local) != Some(name) {
                row.say("lost");
            }
        }
        Err(MapFault::NotHome) => row.say("NotHome"),
        Err(MapFault::TableFull) => row.say("TableFull"),
        Err(MapFault::NoMemory) => row.full(),
    }
}

/// `map HERE rows N adds CATEGORY ..`, `map HERE rows N names NUMBER ..`.
pub(crate) fn row(row: &mut Row<'_>, names: &Names) {
    let (here, rows) = (row.byte(1), row.small(3, 2_000));
    let mut table = table(row, here, rows);
    for place in 5..row.len() {
        if row.is(4, "adds") {
            let name = row.category(names, place);
            adds(row, &mut table, name);
        } else {
            let local = row.number(place);
            match table.to_name(local) {
                Some(name) => row.say_number(name.number),
                None => row.say("none"),
            }
        }
    }
    row.say("rows");
    row.say_number(table.len() as u64);
}
