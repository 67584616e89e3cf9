ghost use Rattle.std.specs.Prelude.{◌≡◌, ◌||◌, ◌++◌, ◌+◌, map, length, IfOk, OnOk};
ghost use Rattle.syntax_tree.specs.Nd.{holds_nd, some_holds_nd};
ghost use Rattle.syntax_tree.specs.Plain.{plain_expr, plain_exprs, plain_stmt, plain_stmts};
ghost use Rattle.decl_resolve.specs.Scoped.{with_name};
ghost use Rattle.decl_reach.specs.Bodies.{foreach_holds_nd};
ghost use Rattle.decl_reach.specs.Calls.{shape_of, id_of, calls_of, all_calls, invocation_shape, invocation_calls, IsPaired, following, stmt_calls, block_calls, branch_calls, foreach_calls, simple_calls, body_calls};
ghost use Rattle.decl_reach.specs.Shapes.{tree_shape, written_shape, field_shape, called_row, call_shape, run_row, create_shape};
ghost use Rattle.decl_table.specs.Table.{headers_of};

use crate::shape::{NO_CLASS, Shape};
use decl_resolve::Scoped;
use decl_table::Table;
use lang_base::{Items, NoMemory};
use std::alloc::Global;
use syntax_tree::{BaseTree, Expr, ExprKind, Method, Stmt, StmtKind, Suffix, TypeTree};

/// What a body reaches by itself.
#[derive(Drop)]
pub struct Reached {
    /// The methods that it calls and the constructors that its creations run.
    pub called: Items<u32>,
    /// It holds a `cobegin_nd` or a `foreach_nd`.
    pub holds_nd: bool,
}

/// The class that a body belongs to. The walk finds the classes of receivers, where they can be told; faults don't
/// stop it.
#[derive(Clone, Copy)]
struct Walk<'a> {
    table: &'a Table,
    class: u32,
}

/// What the body of a method of a class reaches.
pub fn reached_by(
    alloc: Global,
    table: &Table,
    class: u32,
    method: &Method,
) -> Result<Reached, NoMemory>
    ensures nd { IfOk result (λ reached. reached.holds_nd ≡ some_holds_nd (plain_stmts (map plain_stmt method.now.body))) }
    ensures called { IfOk result (λ reached. reached.called ≡ body_calls table.now class method.now) }
{
    let walk = Walk { table, class };
    let mut locals = Scoped::new(alloc);
    for formal in method.formals.as_slice() {
        walk.declare(&mut locals, formal.name, &formal.ty)?;
    }
    let mut reached = Reached {
        called: Items::new(alloc),
        holds_nd: false,
    };
    walk.block(&mut locals, &mut reached, method.body.as_slice())?;
    Ok(reached)
}

impl Walk<'_> {
    fn declare(
        &self,
        locals: &mut Scoped<Shape>,
        name: u32,
        tree: &TypeTree,
    ) -> Result<(), NoMemory>
        ensures { OnOk result (locals.new ≡ with_name locals.old name (tree_shape (headers_of self.now.table.now) tree.now)) }
    {
        locals.enter(name, Shape::of_tree(self.table.headers(), tree))
    }

    /// The shape of a field of an object.
    fn field(&self, of: Shape, name: u32) -> Shape
        ensures { result ≡ field_shape self.now.table.now of name }
    {
        let Some(class) = of.object() else {
            return NO_CLASS;
        };
        match self.table.field(class, name) {
            Some(row) => Shape::of_type(&row.ty),
            None => NO_CLASS,
        }
    }

    /// Calls a method of an object. The shape of the result.
    fn call(&self, called: &mut Items<u32>, of: Shape, name: u32) -> Result<Shape, NoMemory>
        ensures shape { IfOk result (λ shape. shape ≡ call_shape self.now.table.now of name) }
        ensures called { OnOk result (called.new ≡ called.old ++ id_of (called_row self.now.table.now of name)) }
    {
        let Some(class) = of.object() else {
            return Ok(NO_CLASS);
        };
        let Some(row) = self.table.method(class, name) else {
            return Ok(NO_CLASS);
        };
        called.push(row.id)?;
        Ok(Shape::of_type(&row.result))
    }

    /// Makes an object of a class.
    fn create(&self, called: &mut Items<u32>, name: u32) -> Result<Shape, NoMemory>
        ensures shape { IfOk result (λ shape. shape ≡ create_shape self.now.table.now name) }
        ensures called { OnOk result (called.new ≡ called.old ++ id_of (run_row self.now.table.now name)) }
    {
        let Some(class) = self.table.headers().class(name) else {
            return Ok(NO_CLASS);
        };
        if let Some(row) = self.table.constructor(class) {
            called.push(row.id)?;
        }
        Ok(Shape::of_class(class))
    }

    /// The shape of an array that is made.
    fn made(&self, base: &BaseTree, suffixes: &[Suffix]) -> Shape
        ensures { result ≡ written_shape (headers_of self.now.table.now) base.now (length suffixes.now + 1) }
    {
        Shape::written(self.table.headers(), base, suffixes.len() + 1)
    }

    /// Goes through an expression. The shape of its value.
    #[cycle(exprs)]
    fn expr(
        &self,
        locals: &Scoped<Shape>,
        called: &mut Items<u32>,
        e: &Expr,
    ) -> Result<Shape, NoMemory>
        ensures shape { IfOk result (λ shape. shape ≡ shape_of self.now.table.now self.now.class locals.now (plain_expr e.now)) }
        ensures called { OnOk result (called.new ≡ called.old ++ calls_of self.now.table.now self.now.class locals.now (plain_expr e.now)) }
    {
        match &e.kind {
            ExprKind::This => Ok(Shape::of_class(self.class)),
            ExprKind::Local(name) => Ok(locals.get(*name).copied().unwrap_or(NO_CLASS)),
            ExprKind::Field { of, name } => {
                let of = self.expr(locals, called, of.get())?;
                Ok(self.field(of, *name))
            }
            ExprKind::Element { array, index } => {
                let array = self.expr(locals, called, array.get())?;
                self.expr(locals, called, index.get())?;
                Ok(array.element())
            }
            ExprKind::Unary { arg, .. } => {
                self.expr(locals, called, arg.get())?;
                Ok(NO_CLASS)
            }
            ExprKind::Binary { left, right, .. } => {
                self.expr(locals, called, left.get())?;
                self.expr(locals, called, right.get())?;
                Ok(NO_CLASS)
            }
            _ => self.invocation(locals, called, e),
        }
    }

    /// Goes through a call or a creation, or an expression without expressions in it.
    #[cycle(exprs)]
    fn invocation(
        &self,
        locals: &Scoped<Shape>,
        called: &mut Items<u32>,
        e: &Expr,
    ) -> Result<Shape, NoMemory>
        ensures shape { IfOk result (λ shape. shape ≡ invocation_shape self.now.table.now self.now.class locals.now (plain_expr e.now)) }
        ensures called { OnOk result (called.new ≡ called.old ++ invocation_calls self.now.table.now self.now.class locals.now (plain_expr e.now)) }
    {
        match &e.kind {
            ExprKind::Call {
                of,
                name,
                actuals,
                ..
            } => {
                let of = self.expr(locals, called, of.get())?;
                self.exprs(locals, called, actuals.as_slice())?;
                self.call(called, of, *name)
            }
            ExprKind::New { class, actuals, .. } => {
                self.exprs(locals, called, actuals.as_slice())?;
                self.create(called, class.name)
            }
            ExprKind::NewArray {
                base,
                suffixes,
                length,
                ..
            } => {
                self.expr(locals, called, length.get())?;
                Ok(self.made(base, suffixes.as_slice()))
            }
            _ => Ok(NO_CLASS),
        }
    }

    #[cycle(exprs)]
    #[tactic(auto, using(std::proofs::Common::append_assoc))]
    fn exprs(
        &self,
        locals: &Scoped<Shape>,
        called: &mut Items<u32>,
        all: &[Expr],
    ) -> Result<(), NoMemory>
        ensures { OnOk result (called.new ≡ called.old ++ all_calls self.now.table.now self.now.class locals.now (plain_exprs (map plain_expr all.now))) }
    {
        for e in all {
            self.expr(locals, called, e)?;
        }
        Ok(())
    }

    /// Goes through an expression whose value matters no more.
    fn value(&self, locals: &Scoped<Shape>, reached: &mut Reached, e: &Expr) -> Result<(), NoMemory>
        ensures nd { OnOk result (reached.new.holds_nd ≡ reached.old.holds_nd) }
        ensures called { OnOk result (reached.new.called ≡ reached.old.called ++ calls_of self.now.table.now self.now.class locals.now (plain_expr e.now)) }
    {
        self.expr(locals, &mut reached.called, e)?;
        Ok(())
    }

    fn values(
        &self,
        locals: &Scoped<Shape>,
        reached: &mut Reached,
        first: &Expr,
        second: &Expr,
    ) -> Result<(), NoMemory>
        ensures nd { OnOk result (reached.new.holds_nd ≡ reached.old.holds_nd) }
        ensures called { OnOk result (reached.new.called ≡ reached.old.called ++ calls_of self.now.table.now self.now.class locals.now (plain_expr first.now) ++ calls_of self.now.table.now self.now.class locals.now (plain_expr second.now)) }
    {
        self.value(locals, reached, first)?;
        self.value(locals, reached, second)
    }

    /// Goes through the statements of a block. What it declares is in scope up to its end.
    #[cycle(stmts)]
    #[tactic(auto, using(crate::proofs::Joined::joined, crate::proofs::Locals::locals))]
    fn block(
        &self,
        locals: &mut Scoped<Shape>,
        reached: &mut Reached,
        all: &[Stmt],
    ) -> Result<(), NoMemory>
        requires { IsPaired locals.old }
        ensures nd { OnOk result (reached.new.holds_nd ≡ (reached.old.holds_nd || some_holds_nd (plain_stmts (map plain_stmt all.now)))) }
        ensures called { OnOk result (reached.new.called ≡ reached.old.called ++ block_calls self.now.table.now self.now.class locals.old (plain_stmts (map plain_stmt all.now))) }
        ensures locals { OnOk result (locals.new ≡ locals.old) }
    {
        let outer = locals.len();
        for stmt in all {
            self.stmt(locals, reached, stmt)?;
            self.declared(locals, stmt)?;
        }
        locals.leave(outer);
        Ok(())
    }

    /// Takes in what a statement declares.
    fn declared(&self, locals: &mut Scoped<Shape>, stmt: &Stmt) -> Result<(), NoMemory>
        ensures { OnOk result (locals.new ≡ following (headers_of self.now.table.now) locals.old (plain_stmt stmt.now)) }
    {
        match &stmt.kind {
            StmtKind::Declare { ty, name, .. } => self.declare(locals, *name, ty),
            _ => Ok(()),
        }
    }

    /// Each branch is a block of its own.
    #[cycle(stmts)]
    #[tactic(auto, using(crate::proofs::Joined::joined, crate::proofs::Locals::locals))]
    fn branches(
        &self,
        locals: &mut Scoped<Shape>,
        reached: &mut Reached,
        branches: &[Stmt],
    ) -> Result<(), NoMemory>
        requires { IsPaired locals.old }
        ensures nd { OnOk result (reached.new.holds_nd ≡ (reached.old.holds_nd || some_holds_nd (plain_stmts (map plain_stmt branches.now)))) }
        ensures called { OnOk result (reached.new.called ≡ reached.old.called ++ branch_calls self.now.table.now self.now.class locals.old (plain_stmts (map plain_stmt branches.now))) }
        ensures locals { OnOk result (locals.new ≡ locals.old) }
    {
        for branch in branches {
            self.stmt(locals, reached, branch)?;
        }
        Ok(())
    }

    /// Goes through a statement that is a block of its own. What it declares itself is left to the block around.
    #[cycle(stmts)]
    #[tactic(auto, using(crate::proofs::Joined::joined, crate::proofs::Locals::locals))]
    fn stmt(
        &self,
        locals: &mut Scoped<Shape>,
        reached: &mut Reached,
        stmt: &Stmt,
    ) -> Result<(), NoMemory>
        requires { IsPaired locals.old }
        ensures nd { OnOk result (reached.new.holds_nd ≡ (reached.old.holds_nd || holds_nd (plain_stmt stmt.now))) }
        ensures called { OnOk result (reached.new.called ≡ reached.old.called ++ stmt_calls self.now.table.now self.now.class locals.old (plain_stmt stmt.now)) }
        ensures locals { OnOk result (locals.new ≡ locals.old) }
    {
        match &stmt.kind {
            StmtKind::Block(all) | StmtKind::Atomic(all) => {
                self.block(locals, reached, all.as_slice())
            }
            StmtKind::Cobegin { nd, branches } => {
                reached.holds_nd = reached.holds_nd || *nd;
                self.branches(locals, reached, branches.as_slice())
            }
            StmtKind::If { test, then, other } => {
                self.value(locals, reached, test)?;
                self.stmt(locals, reached, then.get())?;
                match other {
                    Some(other) => self.stmt(locals, reached, other.get()),
                    None => Ok(()),
                }
            }
            StmtKind::While { test, body } => {
                self.value(locals, reached, test)?;
                self.stmt(locals, reached, body.get())
            }
            StmtKind::Foreach { .. } | StmtKind::ForeachParts { .. } => {
                self.foreach(locals, reached, stmt)
            }
            _ => self.simple(locals, reached, stmt),
        }
    }

    /// Goes through a foreach, in whose body its variables are in scope.
    #[cycle(stmts)]
    #[tactic(auto, using(crate::proofs::Joined::joined, crate::proofs::Locals::locals))]
    fn foreach(
        &self,
        locals: &mut Scoped<Shape>,
        reached: &mut Reached,
        stmt: &Stmt,
    ) -> Result<(), NoMemory>
        requires { IsPaired locals.old }
        ensures nd { OnOk result (reached.new.holds_nd ≡ (reached.old.holds_nd || foreach_holds_nd (plain_stmt stmt.now))) }
        ensures called { OnOk result (reached.new.called ≡ reached.old.called ++ foreach_calls self.now.table.now self.now.class locals.old (plain_stmt stmt.now)) }
        ensures locals { OnOk result (locals.new ≡ locals.old) }
    {
        let outer = locals.len();
        match &stmt.kind {
            StmtKind::Foreach {
                nd,
                var,
                start,
                count,
                body,
            } => {
                reached.holds_nd = reached.holds_nd || *nd;
                self.values(locals, reached, start, count)?;
                locals.enter(var.name, NO_CLASS)?;
                self.stmt(locals, reached, body.get())?;
            }
            StmtKind::ForeachParts {
                view,
                var,
                array,
                count,
                body,
            } => {
                let array = self.expr(locals, &mut reached.called, array)?;
                self.value(locals, reached, count)?;
                locals.enter(view.name, array)?;
                locals.enter(var.name, NO_CLASS)?;
                self.stmt(locals, reached, body.get())?;
            }
            _ => {}
        }
        locals.leave(outer);
        Ok(())
    }

    /// Goes through a statement without statements in it.
    fn simple(
        &self,
        locals: &Scoped<Shape>,
        reached: &mut Reached,
        stmt: &Stmt,
    ) -> Result<(), NoMemory>
        ensures nd { OnOk result (reached.new.holds_nd ≡ reached.old.holds_nd) }
        ensures called { OnOk result (reached.new.called ≡ reached.old.called ++ simple_calls self.now.table.now self.now.class locals.now (plain_stmt stmt.now)) }
    {
        match &stmt.kind {
            StmtKind::Declare { value, .. }
            | StmtKind::AssignLocal { value, .. }
            | StmtKind::Do(value)
            | StmtKind::Print(value)
            | StmtKind::Return(Some(value)) => self.value(locals, reached, value),
            StmtKind::AssignField { target, value } | StmtKind::AssignElement { target, value } => {
                self.values(locals, reached, target, value)
            }
            _ => Ok(()),
        }
    }
}
