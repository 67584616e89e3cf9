ghost use Rattle.std.specs.Prelude.{◌≡◌, ◌+◌, ◌++◌, map, Some, IfOk, OnOk};
ghost use Rattle.lang_base.specs.Types.{int, plain_type};
ghost use Rattle.lang_typed.specs.Plain.{plain_program, plain_expr, plain_stmt, plain_source, stmts_of, branches_of};
ghost use Rattle.lang_typed.specs.Scope.{constant, with_local};
ghost use Rattle.lang_typed.specs.Effects.{after_block, after_branches, after_parts, outside_variable};
ghost use Rattle.body_infer.specs.Kept.{program_kept};
ghost use Rattle.body_infer.specs.Doing.{done_by, done_by_source, part_of, part_of_type, with_parts, effects_of, effects_of_all, effects_of_branches};
ghost use Rattle.body_infer.specs.Walked.{all_done, scope_of, local_of, placed_by, variables_by, regions_by, plain_branch, SameUse};

use crate::exprs::expr;
use crate::leaving::{
    Opened, append, handed_on, leave, leave_block, leave_branches, leave_variable,
};
use crate::own::Own;
use crate::scope::{Known, Scope};
use crate::simple::{add_regions, declare, store_element, store_field, store_part};
use crate::walk::Walk;
use lang_base::{Items, NoMemory, Plain, Ty};
use lang_typed::{Branch, Expr, Forking, PartSource, Slot, Stmt, StmtForm};

/// Adds what the statements of a block do, as it is seen outside of it.
#[cycle(stmts)]
#[tactic(auto, using(crate::proofs::Blocks::blocks))]
pub fn block(
    walk: Walk<'_>,
    scope: &mut Scope,
    all: &[Stmt],
    out: &mut Items<Own>,
) -> Result<(), NoMemory>
    ensures scope { OnOk result (scope.new ≡ scope.old) }
    ensures done { OnOk result (all_done out.new ≡ all_done out.old ++ effects_of_all (program_kept walk.entry.kept.now (plain_program walk.entry.program.now)) (scope_of scope.old) (stmts_of (map plain_stmt all.now))) }
{
    let outer = scope.len();
    let mut opened = Opened::new(walk.alloc);
    for s in all {
        let mut more = Opened::new(walk.alloc);
        let mut inner = Items::new(walk.alloc);
        statement(walk, scope, s, &mut more, &mut inner)?;
        leave(walk.alloc, &opened, inner, out)?;
        opened.add(more)?;
    }
    scope.leave(outer);
    Ok(())
}

/// Adds what a statement does. What it declares is in scope after it, and is added to what was opened.
///
/// A function fills the room of all its arms at each call, so each form that has several parts has a function of its own.
#[cycle(stmts)]
#[tactic(auto, using(crate::proofs::Reading::joined))]
fn statement(
    walk: Walk<'_>,
    scope: &mut Scope,
    s: &Stmt,
    opened: &mut Opened,
    out: &mut Items<Own>,
) -> Result<(), NoMemory>
    ensures scope { OnOk result (scope.new ≡ scope.old ++ placed_by (plain_stmt s.now)) }
    ensures variables { OnOk result (opened.new.variables ≡ opened.old.variables ++ variables_by (plain_stmt s.now)) }
    ensures regions { OnOk result (opened.new.regions ≡ opened.old.regions ++ regions_by (plain_stmt s.now)) }
    ensures done { OnOk result (all_done out.new ≡ all_done out.old ++ effects_of (program_kept walk.entry.kept.now (plain_program walk.entry.program.now)) (scope_of scope.old) (plain_stmt s.now)) }
{
    match &s.form {
        StmtForm::Declare {
            slot,
            ty,
            is_final,
            value,
        } => declare(walk, scope, *slot, ty, *is_final, value, opened, out),
        StmtForm::Store { value, .. }
        | StmtForm::Perform(value)
        | StmtForm::Return(Some(value))
        | StmtForm::PrintInt(value)
        | StmtForm::PrintBool(value) => expr(walk, scope, value, out),
        StmtForm::StoreField {
            of,
            class,
            field,
            value,
        } => store_field(walk, scope, of, *class, *field, value, out),
        StmtForm::StoreElement {
            array,
            index,
            value,
        } => store_element(walk, scope, array, index, value, out),
        StmtForm::StorePart { part, index, value } => {
            store_part(walk, scope, *part, index, value, out)
        }
        StmtForm::Return(None) | StmtForm::PrintText(_) => Ok(()),
        StmtForm::Regions(regions) => add_regions(regions, &mut opened.regions),
        StmtForm::Block(all) => block(walk, scope, all.as_slice(), out),
        StmtForm::If {
            test,
            then: body,
            other: None,
        }
        | StmtForm::While { test, body } => tested(walk, scope, test, body.get(), out),
        StmtForm::If {
            test,
            then,
            other: Some(other),
        } => choice(walk, scope, test, then.get(), other.get(), out),
        StmtForm::Atomic { body, .. } => atomic(walk, scope, body, out),
        StmtForm::Cobegin { forking, branches } => cobegin(walk, scope, *forking, branches, out),
        StmtForm::Foreach {
            forking,
            slot,
            start,
            count,
            body,
        } => foreach(walk, scope, *forking, *slot, start, count, body.get(), out),
        StmtForm::ForeachParts {
            part,
            source,
            count,
            body,
        } => foreach_parts(walk, scope, *part, source, count, body.get(), out),
    }
}

/// Adds what a branch or a body does, which is a scope of its own even without braces.
#[cycle(stmts)]
#[tactic(auto, using(crate::proofs::Blocks::scopes))]
fn scoped(walk: Walk<'_>, scope: &mut Scope, s: &Stmt, out: &mut Items<Own>) -> Result<(), NoMemory>
    ensures scope { OnOk result (scope.new ≡ scope.old) }
    ensures done { OnOk result (all_done out.new ≡ all_done out.old ++ effects_of (program_kept walk.entry.kept.now (plain_program walk.entry.program.now)) (scope_of scope.old) (plain_stmt s.now)) }
{
    let outer = scope.len();
    let mut opened = Opened::new(walk.alloc);
    statement(walk, scope, s, &mut opened, out)?;
    scope.leave(outer);
    Ok(())
}

/// Adds what a test does, and then what is done where it is true.
#[cycle(stmts)]
#[tactic(auto, using(crate::proofs::Reading::joined))]
fn tested(
    walk: Walk<'_>,
    scope: &mut Scope,
    test: &Expr,
    body: &Stmt,
    out: &mut Items<Own>,
) -> Result<(), NoMemory>
    ensures scope { OnOk result (scope.new ≡ scope.old) }
    ensures done { let P = program_kept walk.entry.kept.now (plain_program walk.entry.program.now) in let L = scope_of scope.old in OnOk result (all_done out.new ≡ all_done out.old ++ (done_by P L (plain_expr test.now) ++ effects_of P L (plain_stmt body.now))) }
{
    expr(walk, scope, test, out)?;
    scoped(walk, scope, body, out)
}

/// Adds what an `if` with an `else` does.
#[cycle(stmts)]
#[tactic(auto, using(crate::proofs::Reading::joined))]
fn choice(
    walk: Walk<'_>,
    scope: &mut Scope,
    test: &Expr,
    then: &Stmt,
    other: &Stmt,
    out: &mut Items<Own>,
) -> Result<(), NoMemory>
    ensures scope { OnOk result (scope.new ≡ scope.old) }
    ensures done { let P = program_kept walk.entry.kept.now (plain_program walk.entry.program.now) in let L = scope_of scope.old in OnOk result (all_done out.new ≡ all_done out.old ++ (done_by P L (plain_expr test.now) ++ (effects_of P L (plain_stmt then.now) ++ effects_of P L (plain_stmt other.now)))) }
{
    tested(walk, scope, test, then, out)?;
    scoped(walk, scope, other, out)
}

/// Adds what an atomic block does.
#[cycle(stmts)]
#[tactic(auto, using(crate::proofs::Reading::joined))]
fn atomic(
    walk: Walk<'_>,
    scope: &mut Scope,
    body: &Items<Stmt>,
    out: &mut Items<Own>,
) -> Result<(), NoMemory>
    ensures scope { OnOk result (scope.new ≡ scope.old) }
    ensures done { let P = program_kept walk.entry.kept.now (plain_program walk.entry.program.now) in let L = scope_of scope.old in OnOk result (all_done out.new ≡ all_done out.old ++ after_block (effects_of_all P L (stmts_of (map plain_stmt body.now)))) }
{
    let mut inner = Items::new(walk.alloc);
    block(walk, scope, body.as_slice(), &mut inner)?;
    leave_block(inner, out)
}

/// Adds what a `cobegin` does.
#[cycle(stmts)]
#[tactic(auto, using(crate::proofs::Reading::joined))]
fn cobegin(
    walk: Walk<'_>,
    scope: &mut Scope,
    forking: Forking,
    branches: &Items<Branch>,
    out: &mut Items<Own>,
) -> Result<(), NoMemory>
    ensures scope { OnOk result (scope.new ≡ scope.old) }
    ensures done { let P = program_kept walk.entry.kept.now (plain_program walk.entry.program.now) in let L = scope_of scope.old in OnOk result (all_done out.new ≡ all_done out.old ++ after_branches forking (effects_of_branches P L (branches_of (map plain_branch branches.now)))) }
{
    let mut inner = Items::new(walk.alloc);
    all_branches(walk, scope, branches.as_slice(), &mut inner)?;
    add_after(forking, inner, out)
}

#[cycle(stmts)]
#[tactic(auto, using(crate::proofs::Reading::joined))]
fn all_branches(
    walk: Walk<'_>,
    scope: &mut Scope,
    branches: &[Branch],
    out: &mut Items<Own>,
) -> Result<(), NoMemory>
    ensures scope { OnOk result (scope.new ≡ scope.old) }
    ensures done { let P = program_kept walk.entry.kept.now (plain_program walk.entry.program.now) in let L = scope_of scope.old in OnOk result (all_done out.new ≡ all_done out.old ++ effects_of_branches P L (branches_of (map plain_branch branches.now))) }
{
    for branch in branches {
        scoped(walk, scope, &branch.body, out)?;
    }
    Ok(())
}

/// Adds what a `foreach` over numbers does.
#[cycle(stmts)]
#[tactic(auto, using(crate::proofs::Reading::joined))]
fn foreach(
    walk: Walk<'_>,
    scope: &mut Scope,
    forking: Forking,
    slot: Slot,
    start: &Expr,
    count: &Expr,
    body: &Stmt,
    out: &mut Items<Own>,
) -> Result<(), NoMemory>
    ensures scope { OnOk result (scope.new ≡ scope.old) }
    ensures done { let P = program_kept walk.entry.kept.now (plain_program walk.entry.program.now) in let L = scope_of scope.old in OnOk result (all_done out.new ≡ all_done out.old ++ (done_by P L (plain_expr start.now) ++ (done_by P L (plain_expr count.now) ++ outside_variable slot.number (after_branches forking (effects_of P (with_local slot.number (constant int) L) (plain_stmt body.now)))))) }
{
    expr(walk, scope, start, out)?;
    expr(walk, scope, count, out)?;
    let mut inner = Items::new(walk.alloc);
    iteration(walk, scope, slot.number as u64, body, &mut inner)?;
    let mut joined = Items::new(walk.alloc);
    add_after(forking, inner, &mut joined)?;
    leave_variable(walk.alloc, slot.number as u64, joined, out)
}

/// Adds what a `foreach` over the parts of an array does.
#[cycle(stmts)]
#[tactic(auto, using(crate::proofs::Reading::joined))]
fn foreach_parts(
    walk: Walk<'_>,
    scope: &mut Scope,
    part: Slot,
    source: &PartSource,
    count: &Expr,
    body: &Stmt,
    out: &mut Items<Own>,
) -> Result<(), NoMemory>
    ensures scope { OnOk result (scope.new ≡ scope.old) }
    ensures done { let P = program_kept walk.entry.kept.now (plain_program walk.entry.program.now) in let L = scope_of scope.old in let cut = plain_source source.now in OnOk result (all_done out.new ≡ all_done out.old ++ (done_by_source P L cut ++ (done_by P L (plain_expr count.now) ++ outside_variable (part.number + 4) (after_branches Forking.Deterministic (after_parts part.number cut (effects_of P (with_parts part.number (part_of L cut) L) (plain_stmt body.now))))))) }
{
    let cut = cut_part(walk, scope, source, out)?;
    expr(walk, scope, count, out)?;
    let outer = scope.len();
    scope.put(part.number as u64, cut)?;
    let number = part.number as u64 + 4;
    let mut inner = Items::new(walk.alloc);
    iteration(walk, scope, number, body, &mut inner)?;
    scope.leave(outer);
    let mut joined = Items::new(walk.alloc);
    add_after_parts(walk, part, source, inner, &mut joined)?;
    leave_variable(walk.alloc, number, joined, out)
}

/// Adds what one iteration does, where the loop's variable is in scope.
#[cycle(stmts)]
#[tactic(auto, using(crate::proofs::Blocks::scopes))]
fn iteration(
    walk: Walk<'_>,
    scope: &mut Scope,
    variable: u64,
    body: &Stmt,
    out: &mut Items<Own>,
) -> Result<(), NoMemory>
    ensures scope { OnOk result (scope.new ≡ scope.old) }
    ensures done { OnOk result (all_done out.new ≡ all_done out.old ++ effects_of (program_kept walk.entry.kept.now (plain_program walk.entry.program.now)) (with_local variable (constant int) (scope_of scope.old)) (plain_stmt body.now)) }
{
    let outer = scope.len();
    scope.put(variable, Known::Constant)?;
    scoped(walk, scope, body, out)?;
    scope.leave(outer);
    Ok(())
}

/// What is cut into parts, with what evaluating it does.
#[tactic(auto, using(crate::proofs::Reading::part_use))]
fn cut_part(
    walk: Walk<'_>,
    scope: &Scope,
    source: &PartSource,
    out: &mut Items<Own>,
) -> Result<Known, NoMemory>
    ensures known { IfOk result (λ known. SameUse (Some (local_of known)) (Some (part_of (scope_of scope.now) (plain_source source.now)))) }
    ensures done { OnOk result (all_done out.new ≡ all_done out.old ++ done_by_source (program_kept walk.entry.kept.now (plain_program walk.entry.program.now)) (scope_of scope.now) (plain_source source.now)) }
{
    match source {
        PartSource::Array(array) => {
            expr(walk, scope, array, out)?;
            part_of(walk, array)
        }
        PartSource::Part(part) => {
            let known = scope.known_copy(walk.alloc, *part)?;
            Ok(known)
        }
    }
}

fn part_of(walk: Walk<'_>, array: &Expr) -> Result<Known, NoMemory>
    ensures { IfOk result (λ known. SameUse (Some (local_of known)) (Some (part_of_type (plain_type array.now.ty)))) }
{
    match &array.ty {
        Ty::Array { rpl, .. } => Ok(Known::Part(rpl.copy(walk.alloc)?)),
        _ => Ok(Known::Hidden),
    }
}

/// Adds what the branches of a construct do, as it is seen after it.
#[tactic(auto, using(crate::proofs::Reading::joined))]
fn add_after(forking: Forking, inner: Items<Own>, out: &mut Items<Own>) -> Result<(), NoMemory>
    ensures { OnOk result (all_done out.new ≡ all_done out.old ++ after_branches forking (all_done inner)) }
{
    match forking {
        Forking::Deterministic => leave_branches(inner, out),
        Forking::Nondeterministic => append(inner, out),
    }
}

/// The same of a construct over parts.
#[tactic(auto, using(crate::proofs::Reading::joined))]
fn add_after_parts(
    walk: Walk<'_>,
    part: Slot,
    source: &PartSource,
    inner: Items<Own>,
    out: &mut Items<Own>,
) -> Result<(), NoMemory>
    ensures { OnOk result (all_done out.new ≡ all_done out.old ++ after_branches Forking.Deterministic (after_parts part.number (plain_source source.now) (all_done inner))) }
{
    let mut handed = Items::new(walk.alloc);
    for own in inner.into_vec() {
        handed.push(handed_on(own, part, source))?;
    }
    leave_branches(handed, out)
}
