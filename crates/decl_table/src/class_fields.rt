ghost use Rattle.std.specs.Prelude.{◌≡◌, ◌++◌, ◌∷◌, ◌==◌, ℕ, ◌<◌, [], map, length, replicate, slice_set, slice_index_or, IfOk, OnOk};
ghost use Rattle.std.specs.List.{filter};
ghost use Rattle.decl_headers.specs.Headers.{class_count};
ghost use Rattle.decl_table.specs.Inherited.{declared_fields};
ghost use Rattle.decl_table.specs.Plain.{plain_field};
ghost use Rattle.decl_table.specs.Table.{headers_of};

use crate::{FieldRow, Table};
use lang_base::{Items, NoMemory, Plain};
use std::alloc::Global;

/// Of each class the fields that it declares itself.
pub fn declared_fields(alloc: Global, table: &Table) -> Result<Items<Items<FieldRow>>, NoMemory>
    ensures as_many { IfOk result (λ all. length all ≡ class_count (headers_of table.now)) }
    ensures declared { IfOk result (λ all. (class : ℕ) → class < length all → map plain_field (slice_index_or all class []) ≡ declared_fields table.now class) }
{
    own_fields(alloc, table.headers().len(), table.fields())
}

/// Of each of so many classes the fields that it declares itself.
fn own_fields(
    alloc: Global,
    classes: usize,
    rows: &[FieldRow],
) -> Result<Items<Items<FieldRow>>, NoMemory>
    ensures as_many { IfOk result (λ own. length own ≡ classes) }
    ensures filed { IfOk result (λ own. (class : ℕ) → class < classes → slice_index_or own class [] ≡ filter (λ row. row.owner == class) rows.now) }
{
    let mut own = no_fields(alloc, classes)?;
    for row in rows {
        file(alloc, own.as_mut_slice(), row)?;
    }
    Ok(Items::from_vec(own))
}

fn no_fields(alloc: Global, classes: usize) -> Result<Vec<Items<FieldRow>>, NoMemory>
    ensures { IfOk result (λ lists. lists.items ≡ replicate classes []) }
{
    let mut lists = Vec::new(alloc);
    for _class in 0..classes {
        lists.push(Items::new(alloc))?;
    }
    Ok(lists)
}

/// Puts a field under its class.
#[tactic(auto, using(std::proofs::lemmas::List::set_past))]
fn file(alloc: Global, own: &mut [Items<FieldRow>], row: &FieldRow) -> Result<(), NoMemory>
    ensures { OnOk result (own.new ≡ slice_set own.old row.now.owner (slice_index_or own.old row.now.owner [] ++ row.now ∷ [])) }
{
    let class = row.owner as usize;
    if class < own.len() {
        own[class].push(copied(alloc, row)?)?;
    }
    Ok(())
}

fn copied(alloc: Global, row: &FieldRow) -> Result<FieldRow, NoMemory>
    ensures { IfOk result (λ copy. copy ≡ row.now) }
{
    Ok(FieldRow {
        name: row.name,
        slot: row.slot,
        owner: row.owner,
        ty: row.ty.copy(alloc)?,
        rpl: row.rpl.copy(alloc)?,
    })
}
