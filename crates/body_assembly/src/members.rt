ghost use Rattle.std.specs.Prelude.{◌≡◌, map, IfOk};
ghost use Rattle.lang_typed.specs.Names.{named_member};
ghost use Rattle.lang_typed.specs.Plain.{plain_member};
ghost use Rattle.body_assembly.specs.Assembled.{plain_body, member_of, members_of};
ghost use Rattle.body_assembly.specs.Named.{member_named, members_named};

use crate::body::MemberBody;
use crate::texts::{copies, params, text};
use decl_table::MethodRow;
use lang_base::{Bytes, Items, NoMemory, Plain};
use lang_typed::{ClassId, Member};
use std::alloc::Global;

/// All members, each with the body at its position.
pub fn members(
    alloc: Global,
    names: &[Bytes],
    rows: &[MethodRow],
    bodies: Items<MemberBody>,
) -> Result<Items<Member>, NoMemory>
    ensures made { IfOk result (λ made. map plain_member made ≡ members_of rows.now (map plain_body bodies)) }
    ensures named { IfOk result (λ made. map named_member made ≡ members_named names.now rows.now (map plain_body bodies)) }
{
    let mut made = Items::new(alloc);
    let mut left = rows;
    for body in bodies.into_vec() {
        let Some((row, rest)) = left.split_first() else {
            return Ok(made);
        };
        made.push(member(alloc, names, row, body)?)?;
        left = rest;
    }
    Ok(made)
}

/// A member of this signature, with its body.
fn member(
    alloc: Global,
    names: &[Bytes],
    row: &MethodRow,
    body: MemberBody,
) -> Result<Member, NoMemory>
    ensures made { IfOk result (λ made. plain_member made ≡ member_of row.now (plain_body body)) }
    ensures named { IfOk result (λ made. named_member made ≡ member_named names.now row.now) }
{
    Ok(Member {
        class: ClassId { number: row.owner },
        name: text(alloc, names, row.name)?,
        params: params(alloc, names, row.regions.as_slice())?,
        given: row.given.copy(alloc)?,
        formals: row.params.copy(alloc)?,
        result: row.result.copy(alloc)?,
        summary: copies(alloc, row.summary.as_slice())?,
        slots: body.slots,
        local_regions: body.local_regions,
        body: body.stmts,
    })
}
