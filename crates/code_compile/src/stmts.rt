ghost use Rattle.std.specs.Prelude.{ℕ, Bool, OnOk, map, option_map};
ghost use Rattle.std.specs.Option.{option_copied};
ghost use Rattle.lang_base.specs.Types.{PlainType};
ghost use Rattle.lang_typed.specs.Plain.{plain_expr, statement, choice_form, return_form, plain_stmt, stmts_of};
ghost use Rattle.lang_typed.specs.Plain.{StmtForm as form};
ghost use Rattle.code_scheme.specs.Scheme.{stmt_piece, stmts_piece};
ghost use Rattle.code_compile.specs.Emitted.{emitted_of, Emits};

use crate::emitter::Emitter;
use crate::exprs::expr;
use crate::forks::{forked, spread};
use crate::line::Sited;
use crate::parts::foreach_parts;
use crate::sites::is_void;
use code_instrs::{Instr, Site};
use lang_base::{Boxed, Effect, Items, NoMemory, Place, Plain};
use lang_typed::{Expr, FieldSlot, Forking, LocalRegion, Slot, Stmt, StmtForm};
use std::alloc::Global;

/// Emits a statement. Its branches wait in the queue.
///
/// A function fills the room of all its arms at each call, so each form has a function of its own.
#[cycle(stmts)]
pub fn stmt<'p>(alloc: Global, out: &mut Emitter<'p>, s: &'p Stmt) -> Result<(), NoMemory>
    ensures { OnOk result (Emits (emitted_of out.old) (λ k p. stmt_piece k p (plain_stmt s.now)) (emitted_of out.new)) }
{
    let place = s.place;
    match &s.form {
        StmtForm::Declare { slot, value, .. } => store(alloc, out, place, *slot, value),
        StmtForm::Store { slot, value } => store(alloc, out, place, *slot, value),
        StmtForm::StoreField {
            of,
            field,
            value,
            ..
        } => store_field(alloc, out, place, of, *field, value),
        StmtForm::StoreElement {
            array,
            index,
            value,
        } => store_element(alloc, out, place, array, index, value),
        StmtForm::StorePart { part, index, value } => {
            store_part(alloc, out, place, *part, index, value)
        }
        StmtForm::Perform(value) => perform(alloc, out, place, value),
        StmtForm::Block(all) => stmts(alloc, out, all),
        StmtForm::If { test, then, other } => {
            choice(alloc, out, place, test, then.get(), other.as_ref())
        }
        StmtForm::While { test, body } => while_loop(alloc, out, place, test, body.get()),
        StmtForm::Return(value) => leave(alloc, out, place, value.as_ref()),
        StmtForm::PrintInt(value) => print(alloc, out, place, value),
        StmtForm::PrintBool(value) => print(alloc, out, place, value),
        StmtForm::PrintText(text) => out.text(place, text.copy(alloc)?),
        StmtForm::Regions(made) => regions(out, place, made),
        StmtForm::Atomic { effects, body } => atomic(alloc, out, place, effects, body),
        StmtForm::Cobegin { forking, branches } => forked(alloc, out, place, *forking, branches),
        StmtForm::Foreach {
            forking,
            slot,
            start,
            count,
            body,
        } => foreach(alloc, out, place, *forking, *slot, start, count, body.get()),
        StmtForm::ForeachParts {
            part,
            source,
            count,
            body,
        } => foreach_parts(alloc, out, place, *part, source, count, body.get()),
    }
}

/// Emits statements one after another.
#[cycle(stmts)]
pub fn stmts<'p>(alloc: Global, out: &mut Emitter<'p>, all: &'p Items<Stmt>) -> Result<(), NoMemory>
    ensures { OnOk result (Emits (emitted_of out.old) (λ k p. stmts_piece k p (stmts_of (map plain_stmt all.now))) (emitted_of out.new)) }
{
    for s in all.as_slice() {
        stmt(alloc, out, s)?;
    }
    Ok(())
}

/// An `if`, with an `else` or without one.
#[cycle(stmts)]
fn choice<'p>(
    alloc: Global,
    out: &mut Emitter<'p>,
    place: Place,
    test: &Expr,
    then: &'p Stmt,
    other: Option<&'p Boxed<Stmt>>,
) -> Result<(), NoMemory>
    ensures { OnOk result (Emits (emitted_of out.old) (λ k p. stmt_piece k p (statement place (choice_form (plain_expr test.now) (plain_stmt then.now) (option_map plain_stmt (option_copied other.entry))))) (emitted_of out.new)) }
{
    expr(alloc, out, test)?;
    let skip = out.hole(place)?;
    stmt(alloc, out, then)?;
    match other {
        None => out.unless_here(place, skip),
        Some(other) => {
            let jump = out.jump(place)?;
            let start = out.here();
            stmt(alloc, out, other.get())?;
            out.jump_here(place, jump);
            out.patch(skip, place, Instr::Unless(start));
        }
    }
    Ok(())
}

/// A `while`: each iteration begins with the test.
#[cycle(stmts)]
fn while_loop<'p>(
    alloc: Global,
    out: &mut Emitter<'p>,
    place: Place,
    test: &Expr,
    body: &'p Stmt,
) -> Result<(), NoMemory>
    ensures { OnOk result (Emits (emitted_of out.old) (λ k p. stmt_piece k p (statement place (form.while_loop (plain_expr test.now) (plain_stmt body.now)))) (emitted_of out.new)) }
{
    let start = out.here();
    expr(alloc, out, test)?;
    let skip = out.hole(place)?;
    out.line(place, Instr::Turn)?;
    stmt(alloc, out, body)?;
    out.line(place, Instr::Jump(start))?;
    out.unless_here(place, skip);
    Ok(())
}

/// An atomic block, with a site for the effects with which it is entered.
#[cycle(stmts)]
fn atomic<'p>(
    alloc: Global,
    out: &mut Emitter<'p>,
    place: Place,
    effects: &Items<Effect>,
    body: &'p Items<Stmt>,
) -> Result<(), NoMemory>
    ensures { OnOk result (Emits (emitted_of out.old) (λ k p. stmt_piece k p (statement place (form.atomic effects.now (stmts_of (map plain_stmt body.now))))) (emitted_of out.new)) }
{
    let effects = effects.copy(alloc)?;
    out.sited(place, Sited::Enter, Site::Block { effects })?;
    stmts(alloc, out, body)?;
    out.line(place, Instr::Exit)
}

/// A loop of branches. Their one body waits in the queue.
fn foreach<'p>(
    alloc: Global,
    out: &mut Emitter<'p>,
    place: Place,
    forking: Forking,
    slot: Slot,
    start: &Expr,
    count: &Expr,
    body: &'p Stmt,
) -> Result<(), NoMemory>
    ensures { OnOk result (Emits (emitted_of out.old) (λ k p. stmt_piece k p (statement place (form.foreach forking slot.number (plain_expr start.now) (plain_expr count.now) (plain_stmt body.now)))) (emitted_of out.new)) }
{
    expr(alloc, out, start)?;
    expr(alloc, out, count)?;
    spread(out, place, forking, slot.number as usize, None, body)
}

/// An assignment to a local, or its declaration.
fn store(
    alloc: Global,
    out: &mut Emitter,
    place: Place,
    slot: Slot,
    value: &Expr,
) -> Result<(), NoMemory>
    ensures declared { (ty : PlainType) → (is_final : Bool) → OnOk result (Emits (emitted_of out.old) (λ k p. stmt_piece k p (statement place (form.declare slot.number ty is_final (plain_expr value.now)))) (emitted_of out.new)) }
    ensures assigned { OnOk result (Emits (emitted_of out.old) (λ k p. stmt_piece k p (statement place (form.store slot.number (plain_expr value.now)))) (emitted_of out.new)) }
{
    expr(alloc, out, value)?;
    out.line(place, Instr::Store(slot.number as usize))
}

/// An assignment to a field.
fn store_field(
    alloc: Global,
    out: &mut Emitter,
    place: Place,
    of: &Expr,
    field: FieldSlot,
    value: &Expr,
) -> Result<(), NoMemory>
    ensures { (class : ℕ) → OnOk result (Emits (emitted_of out.old) (λ k p. stmt_piece k p (statement place (form.store_field (plain_expr of.now) class field.number (plain_expr value.now)))) (emitted_of out.new)) }
{
    expr(alloc, out, of)?;
    expr(alloc, out, value)?;
    out.line(place, Instr::Put(field.number))
}

/// An assignment to an element.
fn store_element(
    alloc: Global,
    out: &mut Emitter,
    place: Place,
    array: &Expr,
    index: &Expr,
    value: &Expr,
) -> Result<(), NoMemory>
    ensures { OnOk result (Emits (emitted_of out.old) (λ k p. stmt_piece k p (statement place (form.store_element (plain_expr array.now) (plain_expr index.now) (plain_expr value.now)))) (emitted_of out.new)) }
{
    expr(alloc, out, array)?;
    expr(alloc, out, index)?;
    expr(alloc, out, value)?;
    out.line(place, Instr::PutElem)
}

/// An assignment to an element of a part.
fn store_part(
    alloc: Global,
    out: &mut Emitter,
    place: Place,
    part: Slot,
    index: &Expr,
    value: &Expr,
) -> Result<(), NoMemory>
    ensures { OnOk result (Emits (emitted_of out.old) (λ k p. stmt_piece k p (statement place (form.store_part part.number (plain_expr index.now) (plain_expr value.now)))) (emitted_of out.new)) }
{
    expr(alloc, out, index)?;
    expr(alloc, out, value)?;
    out.line(place, Instr::InParts(part.number as usize))?;
    out.line(place, Instr::PutElem)
}

/// An expression whose value isn't used: it is taken off, where there is one.
fn perform(alloc: Global, out: &mut Emitter, place: Place, value: &Expr) -> Result<(), NoMemory>
    ensures { OnOk result (Emits (emitted_of out.old) (λ k p. stmt_piece k p (statement place (form.perform (plain_expr value.now)))) (emitted_of out.new)) }
{
    expr(alloc, out, value)?;
    if is_void(&value.ty) {
        return Ok(());
    }
    out.line(place, Instr::Pop)
}

/// A return, with a value or without one.
fn leave(
    alloc: Global,
    out: &mut Emitter,
    place: Place,
    value: Option<&Expr>,
) -> Result<(), NoMemory>
    ensures { OnOk result (Emits (emitted_of out.old) (λ k p. stmt_piece k p (statement place (return_form (option_copied value.entry)))) (emitted_of out.new)) }
{
    match value {
        None => out.line(place, Instr::Leave),
        Some(value) => {
            expr(alloc, out, value)?;
            out.line(place, Instr::Return)
        }
    }
}

/// A print of an `int` or of a `boolean`.
fn print(alloc: Global, out: &mut Emitter, place: Place, value: &Expr) -> Result<(), NoMemory>
    ensures int { OnOk result (Emits (emitted_of out.old) (λ k p. stmt_piece k p (statement place (form.print_int (plain_expr value.now)))) (emitted_of out.new)) }
    ensures boolean { OnOk result (Emits (emitted_of out.old) (λ k p. stmt_piece k p (statement place (form.print_boolean (plain_expr value.now)))) (emitted_of out.new)) }
{
    expr(alloc, out, value)?;
    out.line(place, Instr::Print)
}

/// New local regions.
fn regions(out: &mut Emitter, place: Place, made: &Items<LocalRegion>) -> Result<(), NoMemory>
    ensures { OnOk result (Emits (emitted_of out.old) (λ k p. stmt_piece k p (statement place (form.local_regions (map (λ r. r.number) made.now)))) (emitted_of out.new)) }
{
    for region in made.as_slice() {
        out.line(place, Instr::Region(region.number))?;
    }
    Ok(())
}
