//! The table of a host's foreign categories.

ghost use Rattle.std.specs.Prelude.{◌≡◌, ◌≢◌, ◌↔◌, ◌<◌, ◌≤◌, [], length, IsTrue, IfSome, IfOk, IsOk, OnOk, OnErr, IsErrOf, Err, option_copied, slice_get, position};
ghost use Rattle.ds_label.specs.Names.{same_category};
ghost use Rattle.ds_model.specs.Mapping.{is_known, with_row, number_of, to_number, to_name as name_with_number};
ghost use Rattle.ds_map.specs.Table.{IsTable, is_stray, overflows_table};

use crate::fault::MapFault;
use crate::number::{FIRST_FOREIGN, ROW_LIMIT, foreign_number, home_number, is_home, kind_of};
use ds_label::{Category, PubKey};
use std::alloc::{AllocError, Global};
use std::marker::Model;

/// A host's key and its table of foreign categories, a row for each, at most 1,024. A home category, one that the host
/// made itself with a number below 2^62, needs no row. Contracts see the key, the rows, and whether there is room for one
/// more (`spare`, 0 or 1).
///
/// A home category has the local number `2 * number + kind`, and the foreign category in row r has `2^63 + 2 * r + kind`,
/// where the kind is 0 for secrecy and 1 for integrity.
#[derive(Debug, Drop)]
pub struct MapTable {
    here: PubKey,
    rows: Vec<Category>,
}

impl Model for MapTable {
    ghost use Rattle.std.specs.Prelude.{min, ◌-◌, vec_len, vec_capacity};
    ghost use Rattle.ds_map.specs.Table.{Table, IsTable};

    ghost Value = { Table };

    ghost view = { λ t. record { here = t.here; rows = t.rows.items; spare = min 1 (vec_capacity t.rows - vec_len t.rows) } };

    ghost invariant = { λ t. IsTable t.here t.rows.items };
}

impl MapTable {
    /// A table without rows, for the host with this key. Takes no memory.
    pub fn new(alloc: Global, here: PubKey) -> MapTable
        ensures here { result.here ≡ here }
        ensures rows { result.rows ≡ [] }
    {
        MapTable {
            here,
            rows: Vec::new(alloc),
        }
    }

    /// The key of the host.
    pub fn here(&self) -> &PubKey
        ensures { result.now ≡ self.now.here }
    {
        &self.here
    }

    /// How many rows there are.
    pub fn len(&self) -> usize
        ensures count { result ≡ length self.now.rows }
        ensures limit { length self.now.rows ≤ 1024 }
    {
        self.rows.len()
    }

    /// Whether there is no row.
    pub fn is_empty(&self) -> bool
        ensures { IsTrue result ↔ (self.now.rows ≡ []) }
    {
        self.rows.as_slice().is_empty()
    }

    /// The category in a row, from 0.
    pub fn get(&self, row: usize) -> Option<&Category>
        ensures { option_copied result ≡ slice_get self.now.rows row }
    {
        self.rows.get(row)
    }

    /// The rows, in order. None is a category whose creator is this host, and none stands twice.
    pub fn rows(&self) -> &[Category]
        ensures rows { result.now ≡ self.now.rows }
        ensures table { IsTable self.now.here self.now.rows }
    {
        self.rows.as_slice()
    }

    /// An equal table. `AllocError` where memory runs out.
    pub fn copy(&self) -> Result<MapTable, AllocError>
        ensures here { IfOk result (λ t. t.here ≡ self.now.here) }
        ensures rows { IfOk result (λ t. t.rows ≡ self.now.rows) }
    {
        Ok(MapTable {
            here: self.here,
            rows: self.rows.as_slice().to_vec(*self.rows.allocator())?,
        })
    }

    /// The allocator that the table came with.
    pub(crate) fn allocator(&self) -> Global {
        *self.rows.allocator()
    }

    /// The local number of a category; none where it is neither home nor in a row. Takes no memory.
    pub fn to_local(&self, name: &Category) -> Option<u64>
        ensures { result ≡ to_number self.now.here self.now.rows name.now }
    {
        if is_home(&self.here, name) {
            return Some(home_number(name));
        }
        let row = first_row(self.rows.as_slice(), name)?;
        Some(foreign_number(row, name.kind))
    }

    /// The category with a local number; none where no home category and no row has it. Takes no memory.
    pub fn to_name(&self, local: u64) -> Option<Category>
        ensures { result ≡ name_with_number self.now.here self.now.rows local }
    {
        let kind = kind_of(local);
        if local < FIRST_FOREIGN {
            return Some(Category {
                creator: self.here,
                kind,
                number: local / 2,
            });
        }
        let row = self.rows.get(((local - FIRST_FOREIGN) / 2) as usize)?;
        if row.kind == kind { Some(*row) } else { None }
    }

    /// Makes room for one row, so that one `add` takes no memory. After `AllocError`, which says that memory ran out, the
    /// table is the same.
    pub fn reserve(&mut self) -> Result<(), AllocError>
        ensures here { self.new.here ≡ self.old.here }
        ensures rows { self.new.rows ≡ self.old.rows }
        ensures room { OnOk result (self.new.spare ≡ 1) }
        ensures kept { self.old.spare ≤ self.new.spare }
    {
        self.rows.reserve(1)
    }

    /// The category's local number. A foreign category that has no row gets the next one; otherwise nothing changes.
    /// `NotHome` comes exactly where the category's creator is this host and its number is 2^62 or more, `TableFull` exactly
    /// where a foreign category without a row finds 1,024 rows, and `NoMemory` where memory runs out, which can't be right
    /// after `reserve`. After each of them nothing changed.
    pub fn add(&mut self, name: Category) -> Result<u64, MapFault>
        ensures number { IfOk result (λ local. local ≡ number_of self.old.here self.old.rows name) }
        ensures rows { OnOk result (self.new.rows ≡ with_row self.old.here name self.old.rows) }
        ensures known { IsTrue (is_known self.old.here self.old.rows name) → IsOk result }
        ensures not_home { IsErrOf result MapFault.NotHome ↔ IsTrue (is_stray self.old.here name) }
        ensures table_full { IsErrOf result MapFault.TableFull ↔ IsTrue (overflows_table self.old.here self.old.rows name) }
        ensures reserved { 0 < self.old.spare → result ≢ Err MapFault.NoMemory }
        ensures err { OnErr result (self.new.rows ≡ self.old.rows) }
        ensures here { self.new.here ≡ self.old.here }
    {
        if let Some(local) = self.to_local(&name) {
            return Ok(local);
        }
        if name.creator == self.here {
            return Err(MapFault::NotHome);
        }
        let row = self.len();
        if row == ROW_LIMIT {
            return Err(MapFault::TableFull);
        }
        if self.rows.reserve(1).is_err() {
            return Err(MapFault::NoMemory);
        }
        self.rows.push_reserved(name);
        Ok(foreign_number(row, name.kind))
    }
}

/// The row that a category has; none where it has none.
fn first_row(rows: &[Category], name: &Category) -> Option<usize>
    ensures row { result ≡ position (same_category name.now) rows.now }
    ensures within { IfSome result (λ row. row < length rows.now) }
{
    rows.iter().position(|row| name == row)
}
