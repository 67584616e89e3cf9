ghost use Rattle.std.specs.Prelude.{ℕ, OnOk, map};
ghost use Rattle.lang_base.specs.Types.{PlainType, plain_type};
ghost use Rattle.lang_typed.specs.Plain.{typed, plain_expr, exprs_of};
ghost use Rattle.lang_typed.specs.Plain.{ExprForm as form};
ghost use Rattle.code_scheme.specs.Scheme.{expr_piece, exprs_piece};
ghost use Rattle.code_compile.specs.Emitted.{emitted_of, Emits};

use crate::emitter::Emitter;
use crate::line::Sited;
use crate::sites::{array_site, new_site};
use code_instrs::{Instr, Site};
use lang_base::{BinaryOp, Items, NoMemory, Place, Plain, Rpl, Ty, UnaryOp};
use lang_typed::{ClassId, Expr, ExprForm, FieldSlot, Row, Slot};
use std::alloc::Global;

/// Emits an expression, which leaves its value on the stack.
///
/// A function fills the room of all its arms at each call, so each form has a function of its own.
#[cycle(exprs)]
pub fn expr(alloc: Global, out: &mut Emitter, e: &Expr) -> Result<(), NoMemory>
    ensures { OnOk result (Emits (emitted_of out.old) (λ k p. expr_piece k p (plain_expr e.now)) (emitted_of out.new)) }
{
    let place = e.place;
    match &e.form {
        ExprForm::Int(number) => out.line(place, Instr::Int(*number)),
        ExprForm::Bool(truth) => out.line(place, Instr::Bool(*truth)),
        ExprForm::Null => out.line(place, Instr::Null),
        ExprForm::Local(slot) => out.line(place, Instr::Load(slot.number as usize)),
        ExprForm::Field { of, field, .. } => read_field(alloc, out, place, of.get(), *field),
        ExprForm::Element { array, index } => {
            read_element(alloc, out, place, array.get(), index.get())
        }
        ExprForm::Length(array) => length(alloc, out, place, array.get()),
        ExprForm::Call {
            of,
            class,
            row,
            regions,
            actuals,
        } => call(alloc, out, place, of.get(), *class, *row, regions, actuals),
        ExprForm::New(actuals) => new_object(alloc, out, place, &e.ty, actuals),
        ExprForm::NewArray(length) => new_array(alloc, out, place, &e.ty, length.get()),
        ExprForm::Unary { op, arg } => unary(alloc, out, place, *op, arg.get()),
        ExprForm::Binary { op, left, right } => {
            binary(alloc, out, place, *op, left.get(), right.get())
        }
        ExprForm::And { left, right } => both(alloc, out, place, left.get(), right.get()),
        ExprForm::Or { left, right } => either(alloc, out, place, left.get(), right.get()),
        ExprForm::PartLength(part) => out.line(place, Instr::Load(part.number as usize + 2)),
        ExprForm::PartElement { part, index } => read_part(alloc, out, place, *part, index.get()),
    }
}

/// A read of a field.
#[cycle(exprs)]
fn read_field(
    alloc: Global,
    out: &mut Emitter,
    place: Place,
    of: &Expr,
    field: FieldSlot,
) -> Result<(), NoMemory>
    ensures { (ty : PlainType) → (class : ℕ) → OnOk result (Emits (emitted_of out.old) (λ k p. expr_piece k p (typed place ty (form.field (plain_expr of.now) class field.number))) (emitted_of out.new)) }
{
    expr(alloc, out, of)?;
    out.line(place, Instr::Get(field.number))
}

/// A read of an element.
#[cycle(exprs)]
fn read_element(
    alloc: Global,
    out: &mut Emitter,
    place: Place,
    array: &Expr,
    index: &Expr,
) -> Result<(), NoMemory>
    ensures { (ty : PlainType) → OnOk result (Emits (emitted_of out.old) (λ k p. expr_piece k p (typed place ty (form.element (plain_expr array.now) (plain_expr index.now)))) (emitted_of out.new)) }
{
    expr(alloc, out, array)?;
    expr(alloc, out, index)?;
    out.line(place, Instr::Elem)
}

/// The length of an array.
#[cycle(exprs)]
fn length(alloc: Global, out: &mut Emitter, place: Place, array: &Expr) -> Result<(), NoMemory>
    ensures { (ty : PlainType) → OnOk result (Emits (emitted_of out.old) (λ k p. expr_piece k p (typed place ty (form.array_length (plain_expr array.now)))) (emitted_of out.new)) }
{
    expr(alloc, out, array)?;
    out.line(place, Instr::Length)
}

/// A call of a method, with a site of its own.
#[cycle(exprs)]
fn call(
    alloc: Global,
    out: &mut Emitter,
    place: Place,
    of: &Expr,
    class: ClassId,
    row: Row,
    regions: &Items<Rpl>,
    actuals: &Items<Expr>,
) -> Result<(), NoMemory>
    ensures { (ty : PlainType) → OnOk result (Emits (emitted_of out.old) (λ k p. expr_piece k p (typed place ty (form.call (plain_expr of.now) class.number row.number regions.now (exprs_of (map plain_expr actuals.now))))) (emitted_of out.new)) }
{
    expr(alloc, out, of)?;
    exprs(alloc, out, actuals)?;
    let site = Site::Call {
        class: class.number,
        row: row.number,
        formals: actuals.len(),
        regions: regions.copy(alloc)?,
    };
    out.sited(place, Sited::Call, site)
}

/// A new object of the class that its type says.
#[cycle(exprs)]
fn new_object(
    alloc: Global,
    out: &mut Emitter,
    place: Place,
    ty: &Ty,
    actuals: &Items<Expr>,
) -> Result<(), NoMemory>
    ensures { OnOk result (Emits (emitted_of out.old) (λ k p. expr_piece k p (typed place (plain_type ty.now) (form.create (exprs_of (map plain_expr actuals.now))))) (emitted_of out.new)) }
{
    exprs(alloc, out, actuals)?;
    let site = new_site(alloc, ty, actuals.len())?;
    out.sited(place, Sited::New, site)
}

/// A new array of that type.
#[cycle(exprs)]
fn new_array(
    alloc: Global,
    out: &mut Emitter,
    place: Place,
    ty: &Ty,
    length: &Expr,
) -> Result<(), NoMemory>
    ensures { OnOk result (Emits (emitted_of out.old) (λ k p. expr_piece k p (typed place (plain_type ty.now) (form.create_array (plain_expr length.now)))) (emitted_of out.new)) }
{
    expr(alloc, out, length)?;
    let site = array_site(alloc, ty)?;
    out.sited(place, Sited::Array, site)
}

/// An operation on one value.
#[cycle(exprs)]
fn unary(
    alloc: Global,
    out: &mut Emitter,
    place: Place,
    op: UnaryOp,
    arg: &Expr,
) -> Result<(), NoMemory>
    ensures { (ty : PlainType) → OnOk result (Emits (emitted_of out.old) (λ k p. expr_piece k p (typed place ty (form.unary op (plain_expr arg.now)))) (emitted_of out.new)) }
{
    expr(alloc, out, arg)?;
    out.line(place, Instr::Unary(op))
}

/// An operation on two values.
#[cycle(exprs)]
fn binary(
    alloc: Global,
    out: &mut Emitter,
    place: Place,
    op: BinaryOp,
    left: &Expr,
    right: &Expr,
) -> Result<(), NoMemory>
    ensures { (ty : PlainType) → OnOk result (Emits (emitted_of out.old) (λ k p. expr_piece k p (typed place ty (form.binary op (plain_expr left.now) (plain_expr right.now)))) (emitted_of out.new)) }
{
    expr(alloc, out, left)?;
    expr(alloc, out, right)?;
    out.line(place, Instr::Binary(op))
}

/// `left && right`: where the left operand is false, the right one is passed over.
#[cycle(exprs)]
fn both(
    alloc: Global,
    out: &mut Emitter,
    place: Place,
    left: &Expr,
    right: &Expr,
) -> Result<(), NoMemory>
    ensures { (ty : PlainType) → OnOk result (Emits (emitted_of out.old) (λ k p. expr_piece k p (typed place ty (form.both (plain_expr left.now) (plain_expr right.now)))) (emitted_of out.new)) }
{
    expr(alloc, out, left)?;
    let test = out.hole(place)?;
    expr(alloc, out, right)?;
    out.close_both(place, test)
}

/// `left || right`: where the left operand is true, the right one is passed over.
#[cycle(exprs)]
fn either(
    alloc: Global,
    out: &mut Emitter,
    place: Place,
    left: &Expr,
    right: &Expr,
) -> Result<(), NoMemory>
    ensures { (ty : PlainType) → OnOk result (Emits (emitted_of out.old) (λ k p. expr_piece k p (typed place ty (form.either (plain_expr left.now) (plain_expr right.now)))) (emitted_of out.new)) }
{
    expr(alloc, out, left)?;
    let jump = out.open_either(place)?;
    expr(alloc, out, right)?;
    out.jump_here(place, jump);
    Ok(())
}

/// A read of an element of a part.
#[cycle(exprs)]
fn read_part(
    alloc: Global,
    out: &mut Emitter,
    place: Place,
    part: Slot,
    index: &Expr,
) -> Result<(), NoMemory>
    ensures { (ty : PlainType) → OnOk result (Emits (emitted_of out.old) (λ k p. expr_piece k p (typed place ty (form.part_element part.number (plain_expr index.now)))) (emitted_of out.new)) }
{
    expr(alloc, out, index)?;
    out.line(place, Instr::InPart(part.number as usize))?;
    out.line(place, Instr::Elem)
}

/// Emits expressions one after another.
#[cycle(exprs)]
pub fn exprs(alloc: Global, out: &mut Emitter, all: &Items<Expr>) -> Result<(), NoMemory>
    ensures { OnOk result (Emits (emitted_of out.old) (λ k p. exprs_piece k p (exprs_of (map plain_expr all.now))) (emitted_of out.new)) }
{
    for e in all.as_slice() {
        expr(alloc, out, e)?;
    }
    Ok(())
}
