ghost use Rattle.std.specs.Option.{option_copied};
ghost use Rattle.std.specs.Prelude.{◌≡◌, Some, map};
ghost use Rattle.lang_base.specs.Types.{PlainType as ty};
ghost use Rattle.syntax_tree.specs.Plain.{expression, plain_expr, plain_exprs};
ghost use Rattle.syntax_tree.specs.Plain.{ExprForm as form};
ghost use Rattle.lang_typed.specs.Plain.{typed};
ghost use Rattle.lang_typed.specs.Plain.{ExprForm as node};
ghost use Rattle.body_exprs.specs.declared.found.Found.{Found};
ghost use Rattle.body_exprs.specs.Answer.{gives, refused, Says};
ghost use Rattle.body_exprs.specs.Env.{local_of, this_type_of};
ghost use Rattle.body_exprs.specs.Locals.{local_typed, measured};
ghost use Rattle.body_exprs.specs.Typed.{plain_typed};
ghost use Rattle.body_exprs.specs.Typing.{answer, all_give, one_refused, Typing, TypingAll};

use crate::arrays::{array_creation, read_array};
use crate::calls::{call, read_call_args};
use crate::creations::{creation, read_new_args};
use crate::env::{Env, LocalRow};
use crate::fields::{read_element, read_field, read_part};
use crate::fitting::refused;
use crate::found::Found;
use crate::nodes;
use crate::operations::{binary, unary};
use crate::typed::Typed;
use decl_resolve::IndexNames;
use lang_base::{Boxed, Items, Kind, Place, Plain, Stop, Ty, UnaryOp};
use lang_typed::{Expr, ExprForm};
use syntax_tree::{BaseTree, Expr as Tree, ExprKind, InfixOp, Named, RplTree, Suffix};

/// The typed expression that an expression gives. Its effects are added to those that were found.
///
/// A function fills the room of all its arms at each call, so each form has a function of its own. It takes the parts as
/// the tree holds them.
#[cycle(exprs)]
pub fn expr(env: &Env, found: &mut Found, e: &Tree) -> Result<Typed, Stop>
    ensures { Says result (λ given. gives (plain_typed given) found.new) refused (Typing env.now (plain_expr e.now) found.old) }
{
    let place = e.place;
    match &e.kind {
        ExprKind::Int(k) => int(place, *k),
        ExprKind::Bool(b) => boolean(place, *b),
        ExprKind::Null => null(place),
        ExprKind::This => this(env, place),
        ExprKind::Local(name) => local(env, *name, place),
        ExprKind::Field { of, name } => field(env, found, of, *name, place),
        ExprKind::Element { array, index } => element(env, found, array, index, place),
        ExprKind::Call {
            of,
            regions,
            name,
            actuals,
        } => method_call(env, found, of, regions, *name, actuals, place),
        ExprKind::New {
            class,
            regions,
            actuals,
        } => new_object(env, found, *class, regions, actuals, place),
        ExprKind::NewArray {
            base,
            suffixes,
            length,
            rpl,
            index,
        } => new_array(env, found, base, suffixes, length, rpl, index, place),
        ExprKind::Unary { op, arg } => one_operand(env, found, *op, arg, place),
        ExprKind::Binary { op, left, right } => {
            two_operands(env, found, *op, left, right, place)
        }
    }
}

/// A read of a field, or the length of an array.
#[cycle(exprs)]
fn field(
    env: &Env,
    found: &mut Found,
    of: &Boxed<Tree>,
    name: u32,
    place: Place,
) -> Result<Typed, Stop>
    ensures { Says result (λ given. gives (plain_typed given) found.new) refused (Typing env.now (expression place (form.field (plain_expr of.now) name)) found.old) }
{
    let of = of.get();
    match measured(env, of, name) {
        Some(row) => Ok(Typed::Known(nodes::part_length(place, row.slot))),
        None => {
            let of = expr(env, found, of)?;
            read_field(env, found, of, name, place)
        }
    }
}

/// A read of an element.
#[cycle(exprs)]
fn element(
    env: &Env,
    found: &mut Found,
    array: &Boxed<Tree>,
    index: &Boxed<Tree>,
    place: Place,
) -> Result<Typed, Stop>
    ensures { Says result (λ given. gives (plain_typed given) found.new) refused (Typing env.now (expression place (form.element (plain_expr array.now) (plain_expr index.now))) found.old) }
{
    let array = array.get();
    let index = index.get();
    match env.part(array) {
        Some(row) => {
            let at = expr(env, found, index)?;
            read_part(env.alloc, found, row, at, place)
        }
        None => {
            let array = expr(env, found, array)?;
            let at = expr(env, found, index)?;
            read_element(env, found, array, index, at, place)
        }
    }
}

/// A call of a method.
#[cycle(exprs)]
fn method_call(
    env: &Env,
    found: &mut Found,
    of: &Boxed<Tree>,
    regions: &Items<RplTree>,
    name: u32,
    actuals: &Items<Tree>,
    place: Place,
) -> Result<Typed, Stop>
    ensures { Says result (λ given. gives (plain_typed given) found.new) refused (Typing env.now (expression place (form.call (plain_expr of.now) regions.now name (plain_exprs (map plain_expr actuals.now)))) found.old) }
{
    let of = expr(env, found, of.get())?;
    let regions = read_call_args(env, &of, name, regions.as_slice())?;
    let actuals = exprs(env, found, actuals.as_slice())?;
    call(env, found, of, name, regions, actuals, place)
}

/// The creation of an object.
#[cycle(exprs)]
fn new_object(
    env: &Env,
    found: &mut Found,
    class: Named,
    regions: &Items<RplTree>,
    actuals: &Items<Tree>,
    place: Place,
) -> Result<Typed, Stop>
    ensures { Says result (λ given. gives (plain_typed given) found.new) refused (Typing env.now (expression place (form.create class regions.now (plain_exprs (map plain_expr actuals.now)))) found.old) }
{
    let regions = read_new_args(env, class, regions.as_slice())?;
    let actuals = exprs(env, found, actuals.as_slice())?;
    creation(env, found, class, regions, actuals, place)
}

/// The creation of an array.
#[cycle(exprs)]
fn new_array(
    env: &Env,
    found: &mut Found,
    base: &BaseTree,
    suffixes: &Items<Suffix>,
    length: &Boxed<Tree>,
    rpl: &Option<RplTree>,
    index: &Option<Named>,
    place: Place,
) -> Result<Typed, Stop>
    ensures { Says result (λ given. gives (plain_typed given) found.new) refused (Typing env.now (expression place (form.create_array base.now suffixes.now (plain_expr length.now) rpl.now index.now)) found.old) }
{
    let around = IndexNames {
        suffixes: suffixes.as_slice(),
        inside: 0,
        made: *index,
    };
    let read = read_array(env, base, around)?;
    let length = expr(env, found, length.get())?;
    array_creation(env, read, length, rpl.as_ref(), around, place)
}

/// An operation of one operand.
#[cycle(exprs)]
fn one_operand(
    env: &Env,
    found: &mut Found,
    op: UnaryOp,
    arg: &Boxed<Tree>,
    place: Place,
) -> Result<Typed, Stop>
    ensures { Says result (λ given. gives (plain_typed given) found.new) refused (Typing env.now (expression place (form.unary op (plain_expr arg.now))) found.old) }
{
    let arg = expr(env, found, arg.get())?;
    unary(env.alloc, op, arg, place)
}

/// An operation of two operands.
#[cycle(exprs)]
fn two_operands(
    env: &Env,
    found: &mut Found,
    op: InfixOp,
    left: &Boxed<Tree>,
    right: &Boxed<Tree>,
    place: Place,
) -> Result<Typed, Stop>
    ensures { Says result (λ given. gives (plain_typed given) found.new) refused (Typing env.now (expression place (form.binary op (plain_expr left.now) (plain_expr right.now))) found.old) }
{
    let left = expr(env, found, left.get())?;
    let right = expr(env, found, right.get())?;
    binary(env.alloc, op, left, right, place)
}

/// Several expressions.
#[cycle(exprs)]
fn exprs(env: &Env, found: &mut Found, all: &[Tree]) -> Result<Items<Typed>, Stop>
    ensures { Says result (λ made. all_give (map plain_typed made) found.new) one_refused (TypingAll env.now (plain_exprs (map plain_expr all.now)) found.old) }
{
    let mut made = Items::new(env.alloc);
    for e in all {
        made.push(expr(env, found, e)?)?;
    }
    Ok(made)
}

/// The part of an array whose length a field is.
pub fn measured<'e>(env: &'e Env, of: &Tree, name: u32) -> Option<&'e LocalRow>
    ensures { option_copied result ≡ measured env.now (plain_expr of.now) name }
{
    if env.is_length(name) {
        env.part(of)
    } else {
        None
    }
}

fn int(place: Place, k: i32) -> Result<Typed, Stop>
    ensures { (found : Found) → Says result (λ given. gives (plain_typed given) found) refused (λ a. gives (Some (typed place ty.int (node.int k))) found ≡ a) }
{
    Ok(Typed::Known(Expr {
        place,
        ty: Ty::Int,
        form: ExprForm::Int(k),
    }))
}

fn boolean(place: Place, b: bool) -> Result<Typed, Stop>
    ensures { (found : Found) → Says result (λ given. gives (plain_typed given) found) refused (λ a. gives (Some (typed place ty.boolean (node.boolean b))) found ≡ a) }
{
    Ok(Typed::Known(Expr {
        place,
        ty: Ty::Bool,
        form: ExprForm::Bool(b),
    }))
}

fn null(place: Place) -> Result<Typed, Stop>
    ensures { (found : Found) → Says result (λ given. gives (plain_typed given) found) refused (λ a. gives (Some (typed place ty.null node.null)) found ≡ a) }
{
    Ok(Typed::Known(Expr {
        place,
        ty: Ty::Null,
        form: ExprForm::Null,
    }))
}

fn this(env: &Env, place: Place) -> Result<Typed, Stop>
    ensures { (found : Found) → Says result (λ given. gives (plain_typed given) found) refused (λ a. gives (Some (typed place (this_type_of env.now) (node.local 0))) found ≡ a) }
{
    let ty = env.this_type()?;
    Ok(Typed::Known(nodes::local(place, ty, 0)))
}

/// A local. A part of an array isn't used by its name alone.
fn local(env: &Env, name: u32, place: Place) -> Result<Typed, Stop>
    ensures { (found : Found) → Says result (λ given. gives (plain_typed given) found) refused (λ a. answer (local_typed (local_of env.now name) place) found ≡ a) }
{
    match env.local(name) {
        None => Err(refused(Kind::Unknown, place)),
        Some(row) if row.is_part => Err(refused(Kind::Type, place)),
        Some(row) => {
            let ty = row.ty.copy(env.alloc)?;
            Ok(Typed::Known(nodes::local(place, ty, row.slot)))
        }
    }
}
