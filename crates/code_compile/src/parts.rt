ghost use Rattle.std.specs.Prelude.{◌+◌, OnOk, Some};
ghost use Rattle.lang_base.specs.declared.place.Place.{Place};
ghost use Rattle.lang_typed.specs.Plain.{plain_expr, plain_source, plain_stmt, statement};
ghost use Rattle.lang_typed.specs.Plain.{of_array as array_cut, of_part as part_cut};
ghost use Rattle.lang_typed.specs.Plain.{StmtForm as form};
ghost use Rattle.code_scheme.specs.Scheme.{stmt_piece};
ghost use Rattle.code_compile.specs.Emitted.{emitted_of, Emits};
ghost use Rattle.code_compile.specs.Walked.{parts_piece};

use crate::emitter::Emitter;
use crate::exprs::expr;
use crate::forks::spread;
use code_instrs::Instr;
use lang_base::{NoMemory, Place};
use lang_typed::{Expr, Forking, PartSource, Slot, Stmt};
use std::alloc::Global;

/// `foreach_parts`. The one body of its branches waits in the queue.
pub fn foreach_parts<'p>(
    alloc: Global,
    out: &mut Emitter<'p>,
    place: Place,
    part: Slot,
    source: &PartSource,
    count: &Expr,
    body: &'p Stmt,
) -> Result<(), NoMemory>
    ensures { OnOk result (Emits (emitted_of out.old) (λ k p. stmt_piece k p (statement place (form.foreach_parts part.number (plain_source source.now) (plain_expr count.now) (plain_stmt body.now)))) (emitted_of out.new)) }
{
    match source {
        PartSource::Array(array) => of_array(alloc, out, place, part, array, count, body),
        PartSource::Part(whole) => of_part(alloc, out, place, part, *whole, count, body),
    }
}

/// `foreach_parts` over an array: the whole array is the part that is cut.
fn of_array<'p>(
    alloc: Global,
    out: &mut Emitter<'p>,
    place: Place,
    part: Slot,
    array: &Expr,
    count: &Expr,
    body: &'p Stmt,
) -> Result<(), NoMemory>
    ensures { OnOk result (Emits (emitted_of out.old) (λ k p. stmt_piece k p (statement place (form.foreach_parts part.number (array_cut (plain_expr array.now)) (plain_expr count.now) (plain_stmt body.now)))) (emitted_of out.new)) }
{
    let first = part.number as usize;
    expr(alloc, out, array)?;
    out.line(place, Instr::Store(first))?;
    out.line(place, Instr::Int(0))?;
    out.line(place, Instr::Store(first + 1))?;
    expr(alloc, out, count)?;
    out.line(place, Instr::Store(first + 3))?;
    out.line(place, Instr::Load(first))?;
    out.line(place, Instr::Length)?;
    out.line(place, Instr::Store(first + 2))?;
    each_part(out, place, part, body)
}

/// `foreach_parts` over a part of an array.
fn of_part<'p>(
    alloc: Global,
    out: &mut Emitter<'p>,
    place: Place,
    part: Slot,
    whole: Slot,
    count: &Expr,
    body: &'p Stmt,
) -> Result<(), NoMemory>
    ensures { OnOk result (Emits (emitted_of out.old) (λ k p. stmt_piece k p (statement place (form.foreach_parts part.number (part_cut whole.number) (plain_expr count.now) (plain_stmt body.now)))) (emitted_of out.new)) }
{
    let (first, from) = (part.number as usize, whole.number as usize);
    out.line(place, Instr::Load(from))?;
    out.line(place, Instr::Store(first))?;
    out.line(place, Instr::Load(from + 1))?;
    out.line(place, Instr::Store(first + 1))?;
    expr(alloc, out, count)?;
    out.line(place, Instr::Store(first + 3))?;
    out.line(place, Instr::Load(from + 2))?;
    out.line(place, Instr::Store(first + 2))?;
    each_part(out, place, part, body)
}

/// A branch for each part, which first takes its own.
fn each_part<'p>(
    out: &mut Emitter<'p>,
    place: Place,
    part: Slot,
    body: &'p Stmt,
) -> Result<(), NoMemory>
    ensures { OnOk result (Emits (emitted_of out.old) (λ k p. parts_piece k place part.number (plain_stmt body.now)) (emitted_of out.new)) }
{
    let first = part.number as usize;
    out.line(place, Instr::Int(0))?;
    out.line(place, Instr::Load(first + 3))?;
    spread(
        out,
        place,
        Forking::Deterministic,
        first + 4,
        Some(first),
        body,
    )
}
