ghost use Rattle.std.specs.Prelude.{◌≡◌};

use decl_table::Table;
use std::marker::Model;

/// A class table that is read. A contract sees it as the table, wherever that stands.
#[derive(Drop)]
pub struct TableRef<'a> {
    table: &'a Table,
}

impl<'a> Model for TableRef<'a> {
    ghost use Rattle.decl_table.specs.contracts.table.Table as class_table;
    ghost use Rattle.decl_table.specs.declared.table.Table.{Table};

    ghost Value = { Table };

    ghost coded = { class_table.the_row.coded };

    ghost view = { λ read. read.table.now };
}

impl<'a> TableRef<'a> {
    pub fn of(table: &'a Table) -> TableRef<'a>
        ensures { result ≡ table.now }
    {
        TableRef { table }
    }

    pub fn get(&self) -> &'a Table
        ensures { result.now ≡ self.now }
    {
        self.table
    }
}
