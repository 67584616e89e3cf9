ghost use Rattle.std.specs.Prelude.{◌≡◌, map, IfOk};
ghost use Rattle.lang_typed.specs.Names.{named_region, names_of};
ghost use Rattle.lang_typed.specs.Plain.{plain_program};
ghost use Rattle.body_assembly.specs.Assembled.{plain_body, program_of};
ghost use Rattle.body_assembly.specs.Named.{names_in, region_named};

use crate::body::MemberBody;
use crate::classes::classes;
use crate::members::members;
use crate::texts::text;
use decl_headers::RegionRow;
use decl_table::{Table, main_class, main_method};
use lang_base::{Bytes, Items, NoMemory};
use lang_typed::{ClassId, MemberId, Program, RegionName};
use std::alloc::Global;

/// The typed program of a class table, whose members have these bodies. `names` are the names of the text.
pub fn program(
    alloc: Global,
    names: &[Bytes],
    table: &Table,
    uses_nd: bool,
    bodies: Items<MemberBody>,
) -> Result<Program, NoMemory>
    ensures made { IfOk result (λ made. plain_program made ≡ program_of table.now names.now uses_nd (map plain_body bodies)) }
    ensures named { IfOk result (λ made. names_of made ≡ names_in table.now names.now (map plain_body bodies)) }
{
    let main_class = main_class(table).unwrap_or(0);
    let main_member = main_method(table, names).unwrap_or(0);
    Ok(Program {
        classes: classes(alloc, names, table)?,
        members: members(alloc, names, table.methods(), bodies)?,
        region_names: region_names(alloc, names, table.headers().region_rows())?,
        main_class: ClassId { number: main_class },
        main_member: MemberId {
            number: main_member,
        },
        uses_nd,
    })
}

fn region_names(
    alloc: Global,
    names: &[Bytes],
    rows: &[RegionRow],
) -> Result<Items<RegionName>, NoMemory>
    ensures atomic { IfOk result (λ made. map (λ name. name.atomic) made ≡ map (λ row. row.is_atomic) rows.now) }
    ensures named { IfOk result (λ made. map named_region made ≡ map (region_named names.now) rows.now) }
{
    let mut made = Items::new(alloc);
    for row in rows {
        let class = ClassId { number: row.owner };
        let text = text(alloc, names, row.name)?;
        let atomic = row.is_atomic;
        made.push(RegionName {
            class,
            text,
            atomic,
        })?;
    }
    Ok(made)
}
