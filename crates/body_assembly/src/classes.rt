ghost use Rattle.std.specs.Prelude.{◌≡◌, ◌<◌, map, option_map, slice_index_or, [], IfOk};
ghost use Rattle.decl_headers.specs.Inheriting.{of_each_class};
ghost use Rattle.decl_headers.specs.Numbers.{as_number};
ghost use Rattle.lang_typed.specs.Names.{named_class};
ghost use Rattle.lang_typed.specs.Plain.{plain_class, plain_parent};
ghost use Rattle.lang_typed.specs.Plain.{plain_field as typed_field};
ghost use Rattle.decl_table.specs.Plain.{plain_field};
ghost use Rattle.decl_table.specs.Table.{headers_of, constructor_of};
ghost use Rattle.body_assembly.specs.Assembled.{field_of, class_of, own_class, parent_at, class_from};
ghost use Rattle.body_assembly.specs.Named.{class_named};

use crate::texts::{copies, params, text};
use decl_headers::number_at;
use decl_table::{FieldRow, Table, all_rows, declared_fields};
use lang_base::{Bytes, Items, NoMemory, Plain};
use lang_typed::{Class, ClassId, Field, MemberId, Parent};
use std::alloc::Global;

/// All classes, in the order of the text.
pub fn classes(alloc: Global, names: &[Bytes], table: &Table) -> Result<Items<Class>, NoMemory>
    ensures made { IfOk result (λ made. map (plain_class made) made ≡ of_each_class (headers_of table.now) (class_of table.now)) }
    ensures named { IfOk result (λ made. map named_class made ≡ of_each_class (headers_of table.now) (λ at. class_named table.now names.now (as_number at))) }
{
    let fields = declared_fields(alloc, table)?;
    let rows = all_rows(alloc, table)?;
    let mut made = Items::new(alloc);
    for at in 0..table.headers().len() {
        let fields = typed_fields(alloc, &fields, at)?;
        let rows = typed_rows(alloc, &rows, at)?;
        made.push(class(alloc, names, table, number_at(at), fields, rows)?)?;
    }
    Ok(made)
}

/// A class of that number, with these fields of its own and these rows.
fn class(
    alloc: Global,
    names: &[Bytes],
    table: &Table,
    number: u32,
    fields: Items<Field>,
    rows: Items<MemberId>,
) -> Result<Class, NoMemory>
    ensures made { IfOk result (λ made. own_class made ≡ class_from table.now number (map typed_field fields) (map (λ row. row.number) rows)) }
    ensures named { IfOk result (λ made. named_class made ≡ class_named table.now names.now number) }
{
    let given = copies(alloc, table.given(number))?;
    let parent = parent(alloc, table, number)?;
    let constructor = constructor(table, number);
    match table.headers().header(number) {
        None => Ok(Class {
            name: Bytes::new(alloc),
            params: Items::new(alloc),
            given,
            parent,
            fields,
            rows,
            constructor,
        }),
        Some(header) => Ok(Class {
            name: text(alloc, names, header.name)?,
            params: params(alloc, names, header.params.as_slice())?,
            given,
            parent,
            fields,
            rows,
            constructor,
        }),
    }
}

fn parent(alloc: Global, table: &Table, number: u32) -> Result<Option<Parent>, NoMemory>
    ensures { IfOk result (λ made. option_map plain_parent made ≡ parent_at table.now number) }
{
    match table.headers().parent(number) {
        None => Ok(None),
        Some(above) => {
            let args = copies(alloc, table.parent_args(number))?;
            let class = ClassId { number: above };
            Ok(Some(Parent { class, args }))
        }
    }
}

fn constructor(table: &Table, number: u32) -> Option<MemberId>
    ensures { option_map (λ member. member.number) result ≡ option_map (λ row. row.id) (constructor_of table.now number) }
{
    match table.constructor(number) {
        None => None,
        Some(row) => Some(MemberId { number: row.id }),
    }
}

/// The fields that the class at a position declares itself.
fn typed_fields(
    alloc: Global,
    all: &Items<Items<FieldRow>>,
    at: usize,
) -> Result<Items<Field>, NoMemory>
    ensures { IfOk result (λ made. map typed_field made ≡ map field_of (map plain_field (slice_index_or all.now at []))) }
{
    match all.get(at) {
        None => Ok(Items::new(alloc)),
        Some(rows) => fields_of(alloc, rows),
    }
}

fn fields_of(alloc: Global, rows: &Items<FieldRow>) -> Result<Items<Field>, NoMemory>
    ensures { IfOk result (λ made. map typed_field made ≡ map field_of (map plain_field rows.now)) }
{
    let mut made = Items::new(alloc);
    for row in rows.as_slice() {
        let ty = row.ty.copy(alloc)?;
        let region = row.rpl.copy(alloc)?;
        made.push(Field { ty, region })?;
    }
    Ok(made)
}

/// The rows of the class at a position.
fn typed_rows(
    alloc: Global,
    all: &Items<Items<u32>>,
    at: usize,
) -> Result<Items<MemberId>, NoMemory>
    ensures { IfOk result (λ made. map (λ row. row.number) made ≡ slice_index_or all.now at []) }
{
    match all.get(at) {
        None => Ok(Items::new(alloc)),
        Some(rows) => rows_of(alloc, rows),
    }
}

fn rows_of(alloc: Global, rows: &Items<u32>) -> Result<Items<MemberId>, NoMemory>
    ensures { IfOk result (λ made. map (λ row. row.number) made ≡ rows.now) }
{
    let mut made = Items::new(alloc);
    for row in rows.as_slice() {
        made.push(MemberId { number: *row })?;
    }
    Ok(made)
}
