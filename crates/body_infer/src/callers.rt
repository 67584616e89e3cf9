use crate::classes::{constructor_of, override_in, row_at};
use lang_base::{Items, NoMemory, Ty};
use lang_typed::{
    Branch, ClassId, Expr, ExprForm, MemberId, PartSource, Program, Row, Stmt, StmtForm,
};
use std::alloc::Global;

/// A row of a class in which a member stands for one above.
#[derive(Clone, Copy, Drop)]
pub struct Standing {
    pub class: usize,
    pub row: usize,
    pub above: usize,
}

/// Of each member, by number, those whose bodies call it, and where it overrides.
#[derive(Drop)]
pub struct Links {
    callers: Vec<Vec<usize>>,
    rows: Vec<Vec<Standing>>,
}

impl Links {
    pub fn callers(&self, member: usize) -> &[usize] {
        match self.callers.get(member) {
            Some(callers) => callers.as_slice(),
            None => &[],
        }
    }

    pub fn rows(&self, member: usize) -> &[Standing] {
        match self.rows.get(member) {
            Some(rows) => rows.as_slice(),
            None => &[],
        }
    }
}

/// Who calls whom, and who overrides whom.
pub fn linked(alloc: Global, program: &Program) -> Result<Links, NoMemory> {
    let mut links = Links {
        callers: empty_lists(alloc, program.members.len())?,
        rows: empty_lists(alloc, program.members.len())?,
    };
    add_bodies(alloc, program, &mut links.callers)?;
    add_classes(program, &mut links.rows)?;
    Ok(links)
}

fn empty_lists<T: Drop>(alloc: Global, count: usize) -> Result<Vec<Vec<T>>, NoMemory> {
    let mut lists = Vec::new(alloc);
    for _ in 0..count {
        lists.push(Vec::new(alloc))?;
    }
    Ok(lists)
}

fn add_bodies(
    alloc: Global,
    program: &Program,
    callers: &mut Vec<Vec<usize>>,
) -> Result<(), NoMemory> {
    for (number, member) in program.members.as_slice().iter().enumerate() {
        let mut called = Items::new(alloc);
        calls_of_all(program, member.body.as_slice(), &mut called)?;
        add_caller(number, called.as_slice(), callers)?;
    }
    Ok(())
}

fn add_caller(
    caller: usize,
    called: &[MemberId],
    callers: &mut Vec<Vec<usize>>,
) -> Result<(), NoMemory> {
    for member in called {
        if let Some(all) = callers.get_mut(member.number as usize) {
            all.push(caller)?;
        }
    }
    Ok(())
}

fn add_classes(program: &Program, rows: &mut Vec<Vec<Standing>>) -> Result<(), NoMemory> {
    for (number, class) in program.classes.as_slice().iter().enumerate() {
        add_class(program, number, class.rows.len(), rows)?;
    }
    Ok(())
}

fn add_class(
    program: &Program,
    class: usize,
    count: usize,
    rows: &mut Vec<Vec<Standing>>,
) -> Result<(), NoMemory> {
    for row in 0..count {
        if let Some(found) = override_in(program, class, row) {
            let above = found.above.number as usize;
            if let Some(all) = rows.get_mut(found.over.number as usize) {
                all.push(Standing { class, row, above })?;
            }
        }
    }
    Ok(())
}

/// Adds the members that statements call.
#[cycle(statement_calls)]
fn calls_of_all(
    program: &Program,
    all: &[Stmt],
    out: &mut Items<MemberId>,
) -> Result<(), NoMemory> {
    for s in all {
        calls_of_statement(program, s, out)?;
    }
    Ok(())
}

#[cycle(statement_calls)]
fn calls_of_branches(
    program: &Program,
    all: &[Branch],
    out: &mut Items<MemberId>,
) -> Result<(), NoMemory> {
    for branch in all {
        calls_of_statement(program, &branch.body, out)?;
    }
    Ok(())
}

/// A function fills the room of all its arms at each call, so each form that has several parts has a function of its own.
#[cycle(statement_calls)]
fn calls_of_statement(
    program: &Program,
    s: &Stmt,
    out: &mut Items<MemberId>,
) -> Result<(), NoMemory> {
    match &s.form {
        StmtForm::Declare { value, .. }
        | StmtForm::Store { value, .. }
        | StmtForm::Perform(value)
        | StmtForm::Return(Some(value))
        | StmtForm::PrintInt(value)
        | StmtForm::PrintBool(value) => calls_of_expr(program, value, out),
        StmtForm::StoreField { of, value, .. } => calls_of_two(program, of, value, out),
        StmtForm::StoreElement {
            array,
            index,
            value,
        } => calls_of_three(program, array, index, value, out),
        StmtForm::StorePart { index, value, .. } => calls_of_two(program, index, value, out),
        StmtForm::Return(None) | StmtForm::PrintText(_) | StmtForm::Regions(_) => Ok(()),
        StmtForm::Block(all) => calls_of_all(program, all.as_slice(), out),
        StmtForm::If {
            test,
            then: body,
            other: None,
        }
        | StmtForm::While { test, body } => calls_of_tested(program, test, body.get(), out),
        StmtForm::If {
            test,
            then,
            other: Some(other),
        } => calls_of_choice(program, test, then.get(), other.get(), out),
        StmtForm::Atomic { body, .. } => calls_of_all(program, body.as_slice(), out),
        StmtForm::Cobegin { branches, .. } => calls_of_branches(program, branches.as_slice(), out),
        StmtForm::Foreach {
            start,
            count,
            body,
            ..
        } => calls_of_foreach(program, start, count, body.get(), out),
        StmtForm::ForeachParts {
            source,
            count,
            body,
            ..
        } => calls_of_foreach_parts(program, source, count, body.get(), out),
    }
}

/// Adds the members that a test calls, and a statement that is done where it is true.
#[cycle(statement_calls)]
fn calls_of_tested(
    program: &Program,
    test: &Expr,
    body: &Stmt,
    out: &mut Items<MemberId>,
) -> Result<(), NoMemory> {
    calls_of_expr(program, test, out)?;
    calls_of_statement(program, body, out)
}

#[cycle(statement_calls)]
fn calls_of_choice(
    program: &Program,
    test: &Expr,
    then: &Stmt,
    other: &Stmt,
    out: &mut Items<MemberId>,
) -> Result<(), NoMemory> {
    calls_of_tested(program, test, then, out)?;
    calls_of_statement(program, other, out)
}

#[cycle(statement_calls)]
fn calls_of_foreach(
    program: &Program,
    start: &Expr,
    count: &Expr,
    body: &Stmt,
    out: &mut Items<MemberId>,
) -> Result<(), NoMemory> {
    calls_of_two(program, start, count, out)?;
    calls_of_statement(program, body, out)
}

#[cycle(statement_calls)]
fn calls_of_foreach_parts(
    program: &Program,
    source: &PartSource,
    count: &Expr,
    body: &Stmt,
    out: &mut Items<MemberId>,
) -> Result<(), NoMemory> {
    calls_of_source(program, source, out)?;
    calls_of_expr(program, count, out)?;
    calls_of_statement(program, body, out)
}

fn calls_of_source(
    program: &Program,
    source: &PartSource,
    out: &mut Items<MemberId>,
) -> Result<(), NoMemory> {
    match source {
        PartSource::Array(array) => calls_of_expr(program, array, out),
        PartSource::Part(_) => Ok(()),
    }
}

fn calls_of_three(
    program: &Program,
    first: &Expr,
    second: &Expr,
    third: &Expr,
    out: &mut Items<MemberId>,
) -> Result<(), NoMemory> {
    calls_of_two(program, first, second, out)?;
    calls_of_expr(program, third, out)
}

#[cycle(expression_calls)]
fn calls_of_exprs(
    program: &Program,
    all: &[Expr],
    out: &mut Items<MemberId>,
) -> Result<(), NoMemory> {
    for e in all {
        calls_of_expr(program, e, out)?;
    }
    Ok(())
}

/// Adds the members that an expression calls.
#[cycle(expression_calls)]
fn calls_of_expr(program: &Program, e: &Expr, out: &mut Items<MemberId>) -> Result<(), NoMemory> {
    match &e.form {
        ExprForm::Int(_)
        | ExprForm::Bool(_)
        | ExprForm::Null
        | ExprForm::Local(_)
        | ExprForm::PartLength(_) => Ok(()),
        ExprForm::Call {
            of,
            class,
            row,
            actuals,
            ..
        } => calls_of_call(program, of.get(), *class, *row, actuals, out),
        ExprForm::New(actuals) => calls_of_creation(program, actuals, &e.ty, out),
        ExprForm::Field { of: part, .. }
        | ExprForm::Length(part)
        | ExprForm::NewArray(part)
        | ExprForm::Unary { arg: part, .. }
        | ExprForm::PartElement { index: part, .. } => calls_of_expr(program, part.get(), out),
        ExprForm::Element {
            array: left,
            index: right,
        }
        | ExprForm::Binary { left, right, .. }
        | ExprForm::And { left, right }
        | ExprForm::Or { left, right } => calls_of_two(program, left.get(), right.get(), out),
    }
}

/// Adds the member that a call names, and those that its parts call.
#[cycle(expression_calls)]
fn calls_of_call(
    program: &Program,
    of: &Expr,
    class: ClassId,
    row: Row,
    actuals: &Items<Expr>,
    out: &mut Items<MemberId>,
) -> Result<(), NoMemory> {
    calls_of_expr(program, of, out)?;
    calls_of_exprs(program, actuals.as_slice(), out)?;
    add_called(row_at(program, class, row), out)
}

/// Adds the constructor of an object of this type, and what its actuals call.
#[cycle(expression_calls)]
fn calls_of_creation(
    program: &Program,
    actuals: &Items<Expr>,
    ty: &Ty,
    out: &mut Items<MemberId>,
) -> Result<(), NoMemory> {
    calls_of_exprs(program, actuals.as_slice(), out)?;
    add_called(made_by(program, ty), out)
}

#[cycle(expression_calls)]
fn calls_of_two(
    program: &Program,
    left: &Expr,
    right: &Expr,
    out: &mut Items<MemberId>,
) -> Result<(), NoMemory> {
    calls_of_expr(program, left, out)?;
    calls_of_expr(program, right, out)
}

fn add_called(member: Option<MemberId>, out: &mut Items<MemberId>) -> Result<(), NoMemory> {
    match member {
        Some(member) => out.push(member),
        None => Ok(()),
    }
}

/// The constructor of a created object.
fn made_by(program: &Program, ty: &Ty) -> Option<MemberId> {
    match ty {
        Ty::Class { class, .. } => constructor_of(program, *class),
        _ => None,
    }
}
