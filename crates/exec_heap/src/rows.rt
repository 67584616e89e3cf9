ghost use Rattle.std.specs.Prelude.{◌≡◌, ◌<◌, [], length, slice_get, IfOk, OnErr, Some};
ghost use Rattle.exec_heap.specs.Rows.{Placed};

use crate::row::Row;
use indexmap::IndexSet;
use lang_base::{Items, NoMemory, Region};
use std::alloc::Global;
use std::marker::Model;

/// The regions that objects name: one row for all objects with equal ones. A contract sees the list of rows.
#[derive(Drop)]
pub struct Rows {
    known: IndexSet<Row>,
}

impl Model for Rows {
    ghost use Rattle.std.specs.Prelude.{List};
    ghost use Rattle.lang_base.specs.declared.region.Region.{Region};

    ghost Value = { List (List Region) };

    ghost view = { λ rows. rows.known.keys };
}

impl Rows {
    pub fn new(alloc: Global) -> Rows
        ensures { result ≡ [] }
    {
        Rows {
            known: IndexSet::new(alloc),
        }
    }

    /// The regions of a row.
    pub fn get(&self, row: u32) -> &[Region]
        requires { row < length self.now }
        ensures { slice_get self.now row ≡ Some result.now }
    {
        let found = &self.known.as_slice()[row as usize];
        found.regions.as_slice()
    }

    /// The row with these regions: one that is there already, or else a new one after the others.
    pub fn place(&mut self, regions: Items<Region>) -> Result<u32, NoMemory>
        requires { length self.old < 4294967295 }
        ensures ok { IfOk result (λ row. Placed self.old regions row self.new) }
        ensures err { OnErr result (self.new ≡ self.old) }
    {
        let (row, _new) = self.known.insert_full(Row { regions })?;
        Ok(row as u32)
    }
}
