ghost use Rattle.std.specs.Prelude.{◌≡◌, map, IfOk};
ghost use Rattle.lang_base.specs.Types.{plain_type};
ghost use Rattle.lang_base.specs.Types.{PlainType as ty};
ghost use Rattle.lang_typed.specs.Plain.{typed, exprs_of};
ghost use Rattle.lang_typed.specs.Plain.{ExprForm as form};
ghost use Rattle.body_exprs.specs.Operations.{binary_form};
ghost use Rattle.body_exprs.specs.Typed.{plain_form, plain_node, plain_typed, nodes_at};

use crate::typed::Typed;
use lang_base::{Boxed, Items, LogicOp, NoMemory, Place, Rpl, Ty};
use lang_typed::{ClassId, Expr, ExprForm, Row, Slot};
use std::alloc::Global;
use syntax_tree::InfixOp;

/// The length of a part of an array.
pub fn part_length(place: Place, part: u32) -> Expr
    ensures { plain_node result ≡ typed place ty.int (form.part_length part) }
{
    let form = ExprForm::PartLength(Slot { number: part });
    let ty = Ty::Int;
    Expr { place, ty, form }
}

/// A read of a local.
pub fn local(place: Place, ty: Ty, slot: u32) -> Expr
    ensures { plain_node result ≡ typed place (plain_type ty) (form.local slot) }
{
    let form = ExprForm::Local(Slot { number: slot });
    Expr { place, ty, form }
}

/// The form of a call of the method in a row of the class, with region arguments of its own.
pub fn call(
    of: Boxed<Expr>,
    class: u32,
    row: u32,
    regions: Items<Rpl>,
    actuals: Items<Expr>,
) -> ExprForm
    ensures { plain_form result ≡ form.call (plain_node of) class row regions (exprs_of (map plain_node actuals)) }
{
    ExprForm::Call {
        of,
        class: ClassId { number: class },
        row: Row { number: row },
        regions,
        actuals,
    }
}

/// An operation of two operands.
pub fn binary(place: Place, ty: Ty, op: InfixOp, left: Boxed<Expr>, right: Boxed<Expr>) -> Expr
    ensures { plain_node result ≡ typed place (plain_type ty) (binary_form op (plain_node left) (plain_node right)) }
{
    let form = binary_form(op, left, right);
    Expr { place, ty, form }
}

fn binary_form(op: InfixOp, left: Boxed<Expr>, right: Boxed<Expr>) -> ExprForm
    ensures { plain_form result ≡ binary_form op (plain_node left) (plain_node right) }
{
    match op {
        InfixOp::Logic(LogicOp::And) => ExprForm::And { left, right },
        InfixOp::Logic(LogicOp::Or) => ExprForm::Or { left, right },
        InfixOp::Binary(op) => ExprForm::Binary { op, left, right },
    }
}

/// What expressions give, as the actuals of a call or a creation at a place.
pub fn nodes(alloc: Global, all: Items<Typed>, place: Place) -> Result<Items<Expr>, NoMemory>
    ensures { IfOk result (λ made. exprs_of (map plain_node made) ≡ nodes_at place (map plain_typed all)) }
{
    let mut made = Items::new(alloc);
    for given in all.into_vec() {
        made.push(given.into_node(place))?;
    }
    Ok(made)
}
