ghost use Rattle.std.specs.Prelude.{◌≡◌, ◌==◌, ◌&&◌, ◌||◌, ℕ, not, IsTrue, OnOk, map};
ghost use Rattle.syntax_tree.specs.Plain.{plain_expr, plain_stmt, plain_stmts};
ghost use Rattle.body_locals.specs.Gains.{has, is_noted, Same, Gains, Scoped};
ghost use Rattle.body_locals.specs.Touches.{declares, expr_reads, is_parallel_loop, is_single, stmt_reads, stmts_read, branches_read, stmt_assigns, stmts_assign, branches_assign};

use crate::reads::{note, read_expr, read_type};
use lang_base::{Items, NoMemory};
use std::alloc::Global;
use std::collections::BTreeSet;
use syntax_tree::{Expr, Stmt, StmtKind};

/// Notes what a statement reads and assigns of the locals declared outside of it. `inside` has the names that
/// are declared around it and aren't asked for, and is as it was afterwards. It goes as deep as the statement is
/// nested.
#[cycle(walk)]
pub fn statement(
    alloc: Global,
    inside: &mut BTreeSet<u32>,
    reads: &mut BTreeSet<u32>,
    writes: &mut BTreeSet<u32>,
    stmt: &Stmt,
) -> Result<(), NoMemory>
    ensures inside { OnOk result (Same inside.old inside.new) }
    ensures reads { OnOk result (Gains inside.old reads.old reads.new (λ x. stmt_reads x (plain_stmt stmt.now))) }
    ensures writes { OnOk result (Gains inside.old writes.old writes.new (λ x. stmt_assigns x (plain_stmt stmt.now))) }
{
    match &stmt.kind {
        StmtKind::Block(all) | StmtKind::Atomic(all) => {
            block(alloc, inside, reads, writes, all.as_slice())
        }
        StmtKind::Cobegin { branches, .. } => {
            branches_of(alloc, inside, reads, writes, branches.as_slice())
        }
        StmtKind::If { test, then, other } => {
            read_expr(inside, reads, test)?;
            statement(alloc, inside, reads, writes, then.get())?;
            match other {
                Some(other) => statement(alloc, inside, reads, writes, other.get()),
                None => Ok(()),
            }
        }
        StmtKind::While { test, body } => {
            read_expr(inside, reads, test)?;
            statement(alloc, inside, reads, writes, body.get())
        }
        StmtKind::Foreach { .. } | StmtKind::ForeachParts { .. } => {
            parallel_loop(alloc, inside, reads, writes, stmt)
        }
        _ => single(inside, reads, writes, stmt),
    }
}

/// A statement that holds no other.
fn single(
    inside: &BTreeSet<u32>,
    reads: &mut BTreeSet<u32>,
    writes: &mut BTreeSet<u32>,
    stmt: &Stmt,
) -> Result<(), NoMemory>
    requires { IsTrue (is_single (plain_stmt stmt.now)) }
    ensures reads { OnOk result (Gains inside.now reads.old reads.new (λ x. stmt_reads x (plain_stmt stmt.now))) }
    ensures writes { OnOk result (Gains inside.now writes.old writes.new (λ x. stmt_assigns x (plain_stmt stmt.now))) }
{
    match &stmt.kind {
        StmtKind::Declare { ty, value, .. } => {
            read_type(inside, reads, ty)?;
            read_expr(inside, reads, value)
        }
        StmtKind::AssignLocal { target, value } => {
            read_expr(inside, reads, value)?;
            note(inside, writes, target.name)
        }
        StmtKind::AssignField { target, value } | StmtKind::AssignElement { target, value } => {
            read_both(inside, reads, target, value)
        }
        StmtKind::Do(value) | StmtKind::Print(value) | StmtKind::Return(Some(value)) => {
            read_expr(inside, reads, value)
        }
        _ => Ok(()),
    }
}

/// A `foreach` or a `foreach_parts`: what it goes over, then its body, in which its own names are declared.
#[cycle(walk)]
fn parallel_loop(
    alloc: Global,
    inside: &mut BTreeSet<u32>,
    reads: &mut BTreeSet<u32>,
    writes: &mut BTreeSet<u32>,
    stmt: &Stmt,
) -> Result<(), NoMemory>
    requires { IsTrue (is_parallel_loop (plain_stmt stmt.now)) }
    ensures inside { OnOk result (Same inside.old inside.new) }
    ensures reads { OnOk result (Gains inside.old reads.old reads.new (λ x. stmt_reads x (plain_stmt stmt.now))) }
    ensures writes { OnOk result (Gains inside.old writes.old writes.new (λ x. stmt_assigns x (plain_stmt stmt.now))) }
{
    match &stmt.kind {
        StmtKind::Foreach {
            var,
            start,
            count,
            body,
            ..
        } => {
            read_both(inside, reads, start, count)?;
            with_name(alloc, inside, reads, writes, var.name, body.get())
        }
        StmtKind::ForeachParts {
            view,
            var,
            array,
            count,
            body,
        } => {
            read_both(inside, reads, array, count)?;
            let (view, var) = (view.name, var.name);
            with_names(alloc, inside, reads, writes, view, var, body.get())
        }
        _ => Ok(()),
    }
}

fn read_both(
    inside: &BTreeSet<u32>,
    reads: &mut BTreeSet<u32>,
    first: &Expr,
    second: &Expr,
) -> Result<(), NoMemory>
    ensures { OnOk result (Gains inside.now reads.old reads.new (λ x. expr_reads x (plain_expr first.now) || expr_reads x (plain_expr second.now))) }
{
    read_expr(inside, reads, first)?;
    read_expr(inside, reads, second)
}

/// A statement in which one name more is declared.
#[cycle(walk)]
fn with_name(
    alloc: Global,
    inside: &mut BTreeSet<u32>,
    reads: &mut BTreeSet<u32>,
    writes: &mut BTreeSet<u32>,
    name: u32,
    body: &Stmt,
) -> Result<(), NoMemory>
    ensures inside { OnOk result (Same inside.old inside.new) }
    ensures reads { OnOk result (Gains inside.old reads.old reads.new (λ x. not (name == x) && stmt_reads x (plain_stmt body.now))) }
    ensures writes { OnOk result (Gains inside.old writes.old writes.new (λ x. not (name == x) && stmt_assigns x (plain_stmt body.now))) }
{
    let fresh = inside.insert(name)?;
    statement(alloc, inside, reads, writes, body)?;
    if fresh {
        inside.remove(&name);
    }
    Ok(())
}

/// A statement in which two names more are declared.
#[cycle(walk)]
fn with_names(
    alloc: Global,
    inside: &mut BTreeSet<u32>,
    reads: &mut BTreeSet<u32>,
    writes: &mut BTreeSet<u32>,
    name: u32,
    second: u32,
    body: &Stmt,
) -> Result<(), NoMemory>
    ensures inside { OnOk result (Same inside.old inside.new) }
    ensures reads { OnOk result (Gains inside.old reads.old reads.new (λ x. not (name == x) && (not (second == x) && stmt_reads x (plain_stmt body.now)))) }
    ensures writes { OnOk result (Gains inside.old writes.old writes.new (λ x. not (name == x) && (not (second == x) && stmt_assigns x (plain_stmt body.now)))) }
{
    let fresh = inside.insert(name)?;
    with_name(alloc, inside, reads, writes, second, body)?;
    if fresh {
        inside.remove(&name);
    }
    Ok(())
}

/// The statements of a block, each declaration in scope behind it.
#[cycle(walk)]
fn block(
    alloc: Global,
    inside: &mut BTreeSet<u32>,
    reads: &mut BTreeSet<u32>,
    writes: &mut BTreeSet<u32>,
    stmts: &[Stmt],
) -> Result<(), NoMemory>
    ensures inside { OnOk result (Same inside.old inside.new) }
    ensures reads { OnOk result (Gains inside.old reads.old reads.new (λ x. stmts_read x (plain_stmts (map plain_stmt stmts.now)))) }
    ensures writes { OnOk result (Gains inside.old writes.old writes.new (λ x. stmts_assign x (plain_stmts (map plain_stmt stmts.now)))) }
{
    let mut declared = Items::new(alloc);
    for stmt in stmts {
        statement(alloc, inside, reads, writes, stmt)?;
        enter(inside, &mut declared, stmt)?;
    }
    leave(inside, declared.as_slice());
    Ok(())
}

/// Puts the name that a statement declares into the scope, and notes it unless it was there.
fn enter(inside: &mut BTreeSet<u32>, declared: &mut Items<u32>, stmt: &Stmt) -> Result<(), NoMemory>
    ensures inside { OnOk result ((x : ℕ) → has inside.new x ≡ (has inside.old x || declares x (plain_stmt stmt.now))) }
    ensures scope { OnOk result ((x : ℕ) → (has inside.new x && not (is_noted declared.new x)) ≡ (has inside.old x && not (is_noted declared.old x))) }
{
    if let StmtKind::Declare { name, .. } = &stmt.kind {
        if inside.insert(*name)? {
            declared.push(*name)?;
        }
    }
    Ok(())
}

/// Takes names out of the scope.
fn leave(inside: &mut BTreeSet<u32>, declared: &[u32])
    ensures { Scoped inside.new inside.old declared.now }
{
    for name in declared {
        drop_name(inside, *name);
    }
}

fn drop_name(inside: &mut BTreeSet<u32>, name: u32)
    ensures { (x : ℕ) → has inside.new x ≡ (has inside.old x && not (name == x)) }
{
    inside.remove(&name);
}

/// Branches, each a block of its own.
#[cycle(walk)]
fn branches_of(
    alloc: Global,
    inside: &mut BTreeSet<u32>,
    reads: &mut BTreeSet<u32>,
    writes: &mut BTreeSet<u32>,
    branches: &[Stmt],
) -> Result<(), NoMemory>
    ensures inside { OnOk result (Same inside.old inside.new) }
    ensures reads { OnOk result (Gains inside.old reads.old reads.new (λ x. branches_read x (plain_stmts (map plain_stmt branches.now)))) }
    ensures writes { OnOk result (Gains inside.old writes.old writes.new (λ x. branches_assign x (plain_stmts (map plain_stmt branches.now)))) }
{
    for branch in branches {
        statement(alloc, inside, reads, writes, branch)?;
    }
    Ok(())
}
