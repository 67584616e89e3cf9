ghost use Rattle.std.specs.Prelude.{◌≡◌, false, Ok, Err, option_map, OnOk};
ghost use Rattle.lang_base.specs.Refused.{IfRefused};
ghost use Rattle.syntax_tree.specs.Plain.{expression, plain_expr};
ghost use Rattle.syntax_tree.specs.Plain.{ExprForm as form};
ghost use Rattle.body_exprs.specs.declared.env.Env.{Env};
ghost use Rattle.body_exprs.specs.declared.found.Found.{Found};
ghost use Rattle.body_exprs.specs.Answer.{Says};
ghost use Rattle.body_exprs.specs.Shape.{form_of, is_access};
ghost use Rattle.body_exprs.specs.Targeting.{plain_target, aims, misses, field_target, element_target, part_target, Targeting};
ghost use Rattle.body_exprs.specs.Typed.{plain_typed};

use crate::env::{Env, LocalRow};
use crate::fields::{FieldAt, PartElement, element_at, field_at, part_element};
use crate::fitting::refused;
use crate::found::Found;
use crate::typed::Typed;
use crate::typing::{expr, measured};
use lang_base::{Access, Kind, NoMemory, Place, Rpl, Stop, Ty};
use lang_typed::{ClassId, Expr, FieldSlot, Slot};
use region_types::Element;
use std::alloc::Global;
use syntax_tree::{Expr as Tree, ExprKind};

/// Where a value goes, told by the expressions that find it.
#[derive(Drop)]
pub enum Spot {
    Field {
        of: Expr,
        class: ClassId,
        field: FieldSlot,
    },
    Element {
        array: Expr,
        index: Expr,
    },
    /// An element of a part of an array.
    Part {
        part: Slot,
        index: Expr,
    },
}

/// What is assigned to.
#[derive(Drop)]
pub struct Target {
    pub spot: Spot,
    pub ty: Ty,
    pub rpl: Rpl,
    pub may_write: bool,
}

/// Reads the target of an assignment, a field or an element. It isn't read itself, and the write comes with
/// `Spot::write`. None where the target comes from a part of what is no array: every value fits there.
pub fn read_target(env: &Env, found: &mut Found, e: &Tree) -> Result<Option<Target>, Stop>
    ensures { Says result (λ target. aims (option_map plain_target target) found.new) misses (Targeting env.now (plain_expr e.now) found.old) }
{
    match &e.kind {
        ExprKind::Field { of, name } => { field_target(env, found, of.get(), *name, e.place) }
        ExprKind::Element { array, index } => {
            element_target(env, found, array.get(), index.get(), e.place)
        }
        _ => Err(no_target(e)),
    }
}

/// The refusal of what is no field and no element.
fn no_target(e: &Tree) -> Stop
    requires { is_access (form_of (plain_expr e.now)) ≡ false }
    ensures { IfRefused result (λ refusal. (env : Env) (found : Found) → Targeting env (plain_expr e.now) found (misses refusal)) }
{
    refused(Kind::Type, e.place)
}

fn field_target(
    env: &Env,
    found: &mut Found,
    of: &Tree,
    name: u32,
    place: Place,
) -> Result<Option<Target>, Stop>
    ensures { Says result (λ target. aims (option_map plain_target target) found.new) misses (Targeting env.now (expression place (form.field (plain_expr of.now) name)) found.old) }
{
    match measured(env, of, name) {
        Some(_) => Err(refused(Kind::Type, place)),
        None => {
            let of = expr(env, found, of)?;
            through(env, of, name, place)
        }
    }
}

/// The field of that name through what a receiver gives, as a target.
fn through(env: &Env, of: Typed, name: u32, place: Place) -> Result<Option<Target>, Stop>
    ensures { Says result (λ target. Ok (option_map plain_target target)) Err (λ a. field_target env.now (plain_typed of) name place ≡ a) }
{
    let Typed::Known(of) = of else {
        return Ok(None);
    };
    let FieldAt {
        class,
        slot,
        ty,
        rpl,
        may_write,
        ..
    } = field_at(env, &of.ty, name, place)?;
    let class = ClassId { number: class };
    let field = FieldSlot { number: slot };
    Ok(Some(Target {
        spot: Spot::Field { of, class, field },
        ty,
        rpl,
        may_write,
    }))
}

fn element_target(
    env: &Env,
    found: &mut Found,
    array: &Tree,
    index: &Tree,
    place: Place,
) -> Result<Option<Target>, Stop>
    ensures { Says result (λ target. aims (option_map plain_target target) found.new) misses (Targeting env.now (expression place (form.element (plain_expr array.now) (plain_expr index.now))) found.old) }
{
    match env.part(array) {
        Some(row) => {
            let at = expr(env, found, index)?;
            in_part(env.alloc, row, at, place)
        }
        None => {
            let array = expr(env, found, array)?;
            let at = expr(env, found, index)?;
            in_array(env, array, index, at, place)
        }
    }
}

/// The element of a part at an index, which gives something, as a target.
fn in_part(alloc: Global, row: &LocalRow, at: Typed, place: Place) -> Result<Option<Target>, Stop>
    ensures { Says result (λ target. Ok (option_map plain_target target)) Err (λ a. part_target row.now (plain_typed at) place ≡ a) }
{
    let Some(element) = part_element(alloc, row, &at, place)? else {
        return Ok(None);
    };
    let PartElement { view, ty, rpl } = element;
    let part = Slot { number: view };
    let index = at.into_node(place);
    Ok(Some(Target {
        spot: Spot::Part { part, index },
        ty,
        rpl,
        may_write: true,
    }))
}

/// The element of an array at an index, which is written and gives something, as a target.
fn in_array(
    env: &Env,
    array: Typed,
    index: &Tree,
    at: Typed,
    place: Place,
) -> Result<Option<Target>, Stop>
    ensures { Says result (λ target. Ok (option_map plain_target target)) Err (λ a. element_target env.now (plain_typed array) (plain_expr index.now) (plain_typed at) place ≡ a) }
{
    let Some(element) = element_at(env, &array, index, &at, place)? else {
        return Ok(None);
    };
    let Element {
        ty,
        rpl,
        may_write,
        ..
    } = element;
    let array = array.into_node(place);
    let index = at.into_node(place);
    Ok(Some(Target {
        spot: Spot::Element { array, index },
        ty,
        rpl,
        may_write,
    }))
}

impl Spot {
    ghost use Rattle.std.specs.Prelude.{◌≡◌, OnOk};
    ghost use Rattle.body_exprs.specs.Targeting.{plain_spot, written};

    /// Adds the write of a value that goes there, by itself or through the part that it lies in.
    pub fn write(&self, found: &mut Found, rpl: Rpl) -> Result<(), NoMemory>
        ensures { OnOk result (found.new ≡ written found.old (plain_spot self.now) rpl) }
    {
        match self {
            Spot::Part { part, .. } => found.part_use(part.number, rpl, Access::Write),
            _ => found.access(rpl, Access::Write),
        }
    }
}
