ghost use Rattle.std.specs.Prelude.{◌≡◌, Ok, Err, option_map, IfOk};
ghost use Rattle.region_types.specs.Access.{plain_element};
ghost use Rattle.lang_base.specs.Types.{plain_type};
ghost use Rattle.syntax_tree.specs.Plain.{plain_expr};
ghost use Rattle.body_exprs.specs.Answer.{gives, refused, Says};
ghost use Rattle.body_exprs.specs.Env.{table_of};
ghost use Rattle.body_exprs.specs.Fields.{plain_field, field_with, field_through, read_field};
ghost use Rattle.body_exprs.specs.Elements.{index_of, element_through, read_element, part_element, element_seen, read_part};
ghost use Rattle.body_exprs.specs.Typed.{plain_typed, value_type};

use crate::env::{Env, LocalRow};
use crate::fitting::{mentions_partial, refused, rigid_in_partial};
use crate::found::Found;
use crate::typed::Typed;
use decl_table::FieldRow;
use lang_base::{Access, Boxed, Index, Kind, NoMemory, Place, Plain, Rpl, Stop, Ty};
use lang_typed::{ClassId, Expr, ExprForm, FieldSlot, Slot};
use region_paths::subst;
use region_types::{Element, element, subst_type};
use std::alloc::Global;
use syntax_tree::{Expr as Tree, ExprKind};

/// A field as it is through a receiver.
#[derive(Drop)]
pub struct FieldAt {
    /// The class of the receiver, and the slot of the field in its objects.
    pub class: u32,
    pub slot: u32,
    pub ty: Ty,
    pub rpl: Rpl,
    pub may_read: bool,
    pub may_write: bool,
}

/// The field of that name through a receiver of a class type.
pub fn field_at(env: &Env, of: &Ty, name: u32, place: Place) -> Result<FieldAt, Stop>
    ensures { Says result (λ field. Ok (plain_field field)) Err (λ a. field_through (table_of env.now) (plain_type of.now) name place ≡ a) }
{
    let Ty::Class { class, args } = of else {
        return Err(refused(Kind::Type, place));
    };
    let Some(row) = env.table().field(*class, name) else {
        return Err(refused(Kind::Unknown, place));
    };
    let owned = env
        .table()
        .args_at(env.alloc, *class, args.as_slice(), row.owner)?;
    let Some(owned) = owned else {
        return Err(refused(Kind::Type, place));
    };
    Ok(field_with(env.alloc, *class, row, owned.as_slice())?)
}

/// A field with region arguments put in. Where one of them isn't fully specified, the field may not be written if
/// its type mentions it, nor read if its type is rigid in it.
fn field_with(alloc: Global, class: u32, row: &FieldRow, args: &[Rpl]) -> Result<FieldAt, NoMemory>
    ensures { IfOk result (λ field. plain_field field ≡ field_with class row.now args.now) }
{
    Ok(FieldAt {
        class,
        slot: row.slot,
        ty: subst_type(alloc, &row.ty, args)?,
        rpl: subst(alloc, &row.rpl, args)?,
        may_read: !rigid_in_partial(&row.ty, args),
        may_write: !mentions_partial(&row.ty, args),
    })
}

/// The read of a field, or the length of an array.
pub fn read_field(
    env: &Env,
    found: &mut Found,
    of: Typed,
    name: u32,
    place: Place,
) -> Result<Typed, Stop>
    ensures { Says result (λ given. gives (plain_typed given) found.new) refused (λ a. read_field env.now (plain_typed of) name place found.old ≡ a) }
{
    let Typed::Known(of) = of else {
        return Ok(Typed::Any);
    };
    if matches!(of.ty, Ty::Array { .. }) && env.is_length(name) {
        let form = ExprForm::Length(Boxed::new(env.alloc, of)?);
        let ty = Ty::Int;
        return Ok(Typed::Known(Expr { place, ty, form }));
    }
    let FieldAt {
        class,
        slot,
        ty,
        rpl,
        may_read,
        ..
    } = field_at(env, &of.ty, name, place)?;
    if !may_read {
        return Err(refused(Kind::PartialWrite, place));
    }
    found.access(rpl, Access::Read)?;
    let of = Boxed::new(env.alloc, of)?;
    let class = ClassId { number: class };
    let field = FieldSlot { number: slot };
    let form = ExprForm::Field { of, class, field };
    Ok(Typed::Known(Expr { place, ty, form }))
}

/// What an index expression is in the region of an element. None for one that doesn't keep its value.
fn index_of(env: &Env, index: &Tree) -> Option<Index>
    ensures { result ≡ index_of env.now (plain_expr index.now) }
{
    match &index.kind {
        ExprKind::Int(k) => Some(Index::Literal(*k)),
        ExprKind::Local(name) => Some(Index::Variable(env.index_variable(*name)?)),
        _ => None,
    }
}

/// The element of an array at an index, which is written and gives something. None where the array fits everywhere, and
/// with it the element.
pub fn element_at(
    env: &Env,
    array: &Typed,
    index: &Tree,
    at: &Typed,
    place: Place,
) -> Result<Option<Element>, Stop>
    ensures { Says result (λ element. Ok (option_map plain_element element)) Err (λ a. element_through (value_type array.now) (index_of env.now (plain_expr index.now)) (value_type at.now) place ≡ a) }
{
    if !at.is_int() {
        return Err(refused(Kind::Type, place));
    }
    let Typed::Known(array) = array else {
        return Ok(None);
    };
    match element(env.alloc, &array.ty, index_of(env, index))? {
        Some(found) => Ok(Some(found)),
        None => Err(refused(Kind::Type, place)),
    }
}

/// The read of an element.
pub fn read_element(
    env: &Env,
    found: &mut Found,
    array: Typed,
    index: &Tree,
    at: Typed,
    place: Place,
) -> Result<Typed, Stop>
    ensures { Says result (λ given. gives (plain_typed given) found.new) refused (λ a. read_element env.now (plain_typed array) (plain_expr index.now) (plain_typed at) place found.old ≡ a) }
{
    let Some(element) = element_at(env, &array, index, &at, place)? else {
        return Ok(Typed::Any);
    };
    let Element {
        ty,
        rpl,
        may_read,
        ..
    } = element;
    if !may_read {
        return Err(refused(Kind::PartialWrite, place));
    }
    found.access(rpl, Access::Read)?;
    let array = Boxed::new(env.alloc, array.into_node(place))?;
    let index = Boxed::new(env.alloc, at.into_node(place))?;
    let form = ExprForm::Element { array, index };
    Ok(Typed::Known(Expr { place, ty, form }))
}

/// An element of an array part, as it is used through the part.
#[derive(Drop)]
pub struct PartElement {
    /// The slot of the part.
    pub view: u32,
    pub ty: Ty,
    pub rpl: Rpl,
}

/// The element of a part at an index, which gives something. None where the part is one of what is no array:
/// then the element fits everywhere.
pub fn part_element(
    alloc: Global,
    row: &LocalRow,
    at: &Typed,
    place: Place,
) -> Result<Option<PartElement>, Stop>
    ensures { Says result (λ element. Ok (option_map element_seen element)) Err (λ a. part_element row.now (value_type at.now) place ≡ a) }
{
    if !at.is_int() {
        return Err(refused(Kind::Type, place));
    }
    match &row.ty {
        Ty::Array { elem, rpl, .. } => Ok(Some(PartElement {
            view: row.slot,
            ty: elem.get().copy(alloc)?,
            rpl: rpl.copy(alloc)?,
        })),
        _ => Ok(None),
    }
}

/// The read of an element through a part.
pub fn read_part(
    alloc: Global,
    found: &mut Found,
    row: &LocalRow,
    at: Typed,
    place: Place,
) -> Result<Typed, Stop>
    ensures { Says result (λ given. gives (plain_typed given) found.new) refused (λ a. read_part row.now (plain_typed at) place found.old ≡ a) }
{
    let Some(element) = part_element(alloc, row, &at, place)? else {
        return Ok(Typed::Any);
    };
    let PartElement { view, ty, rpl } = element;
    found.part_use(view, rpl, Access::Read)?;
    let part = Slot { number: view };
    let index = Boxed::new(alloc, at.into_node(place))?;
    let form = ExprForm::PartElement { part, index };
    Ok(Typed::Known(Expr { place, ty, form }))
}
