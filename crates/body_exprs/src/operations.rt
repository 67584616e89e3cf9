ghost use Rattle.std.specs.Prelude.{◌≡◌};
ghost use Rattle.lang_base.specs.Types.{plain_type};
ghost use Rattle.body_exprs.specs.declared.found.Found.{Found};
ghost use Rattle.body_exprs.specs.Answer.{gives, refused, Says};
ghost use Rattle.body_exprs.specs.Operations.{comparable, operands_fit, unary_takes, unary_typed, binary_takes, binary_gives, binary_typed};
ghost use Rattle.body_exprs.specs.Typed.{plain_typed, value_type};
ghost use Rattle.body_exprs.specs.Typing.{answer};

use crate::fitting::refused;
use crate::nodes;
use crate::typed::Typed;
use lang_base::{Boxed, Kind, Operands, Place, Stop, Ty, UnaryOp};
use lang_typed::{Expr, ExprForm};
use std::alloc::Global;
use syntax_tree::InfixOp;

fn unary_takes(op: UnaryOp, arg: &Typed) -> bool
    ensures { result ≡ unary_takes op (value_type arg.now) }
{
    match op {
        UnaryOp::Negate => arg.is_int(),
        UnaryOp::Not => arg.is_boolean(),
    }
}

/// An operation of one operand.
pub fn unary(alloc: Global, op: UnaryOp, arg: Typed, place: Place) -> Result<Typed, Stop>
    ensures { (found : Found) → Says result (λ given. gives (plain_typed given) found) refused (λ a. answer (unary_typed op (plain_typed arg) place) found ≡ a) }
{
    if !unary_takes(op, &arg) {
        return Err(refused(Kind::Type, place));
    }
    let ty = op.ty();
    let arg = Boxed::new(alloc, arg.into_node(place))?;
    let form = ExprForm::Unary { op, arg };
    Ok(Typed::Known(Expr { place, ty, form }))
}

/// Two ints, two booleans, or two values that may be null.
fn comparable(left: &Typed, right: &Typed) -> bool
    ensures { result ≡ comparable (value_type left.now) (value_type right.now) }
{
    left.is_int() && right.is_int()
        || left.is_boolean() && right.is_boolean()
        || left.is_reference() && right.is_reference()
}

fn operands_fit(operands: Operands, left: &Typed, right: &Typed) -> bool
    ensures { result ≡ operands_fit operands (value_type left.now) (value_type right.now) }
{
    match operands {
        Operands::Ints => left.is_int() && right.is_int(),
        Operands::Same => comparable(left, right),
    }
}

fn binary_takes(op: InfixOp, left: &Typed, right: &Typed) -> bool
    ensures { result ≡ binary_takes op (value_type left.now) (value_type right.now) }
{
    match op {
        InfixOp::Logic(_) => left.is_boolean() && right.is_boolean(),
        InfixOp::Binary(op) => operands_fit(op.operands(), left, right),
    }
}

fn binary_gives(op: InfixOp) -> Ty
    ensures { plain_type result ≡ binary_gives op }
{
    match op {
        InfixOp::Logic(_) => Ty::Bool,
        InfixOp::Binary(op) => op.result(),
    }
}

/// An operation of two operands.
pub fn binary(
    alloc: Global,
    op: InfixOp,
    left: Typed,
    right: Typed,
    place: Place,
) -> Result<Typed, Stop>
    ensures { (found : Found) → Says result (λ given. gives (plain_typed given) found) refused (λ a. answer (binary_typed op (plain_typed left) (plain_typed right) place) found ≡ a) }
{
    if !binary_takes(op, &left, &right) {
        return Err(refused(Kind::Type, place));
    }
    let left = Boxed::new(alloc, left.into_node(place))?;
    let right = Boxed::new(alloc, right.into_node(place))?;
    Ok(Typed::Known(nodes::binary(place, binary_gives(op), op, left, right)))
}
