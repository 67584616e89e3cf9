ghost use Rattle.std.specs.Prelude.{◌≡◌, ◌||◌, Bool, List, None, false, true, map, option_map, IfOk, OnOk};
ghost use Rattle.std.specs.Option.{option_copied, option_map_or};
ghost use Rattle.syntax_tree.specs.Plain.{plain_expr, plain_stmt, plain_stmts, return_form};
ghost use Rattle.syntax_tree.specs.Plain.{choice_form as if_form};
ghost use Rattle.syntax_tree.specs.Plain.{StmtForm as form};
ghost use Rattle.body_check.specs.Checking.{check_stmt, check_form, check_scope, check_block, check_all};
ghost use Rattle.body_check.specs.Completes.{completes, form_completes, all_complete};
ghost use Rattle.body_check.specs.Methods.{atomic_params};
ghost use Rattle.body_check.specs.Walks.{passes, refused, walk_of};
ghost use Rattle.body_exprs.specs.Env.{bare};
ghost use Rattle.body_exprs.specs.Answer.{Says};
ghost use Rattle.lang_typed.specs.Plain.{statement, choice_form};
ghost use Rattle.body_exprs.specs.Typed.{plain_node as typed_expr};
ghost use Rattle.lang_typed.specs.Plain.{plain_stmt as typed_stmt};

use crate::constructs::{atomic, cobegin, foreach};
use crate::gathered::take_in;
use crate::leaving::{Leaving, Marks};
use crate::node::{Around, Node};
use crate::parts::foreach_parts;
use crate::simple::{
    assign_local, assign_place, declare, declare_regions, leave, leave_with, perform, print,
    print_text,
};
use crate::values::boolean;
use body_exprs::{Env, Found};
use lang_base::{Boxed, Items, Place, Stop};
use lang_typed::{Expr as TypedExpr, Stmt as TypedStmt, StmtForm};
use syntax_tree::{Expr, Stmt, StmtKind};

/// A statement that passed: whether it completes, and the typed one.
#[derive(Drop)]
pub struct Checked {
    pub completes: bool,
    pub stmt: TypedStmt,
}

impl Checked {
    ghost use Rattle.body_check.specs.Noting.{fault_of};
    ghost use Rattle.body_check.specs.Walks.{Walk, judged};

    /// What was made of a statement, unless a fault of its own was noted.
    pub fn judge(node: Node, completes: bool, stmt: TypedStmt) -> Result<Checked, Stop>
        ensures completes { IfOk result (λ done. done.completes ≡ completes) }
        ensures checks { (w : Walk) → Says result (λ made. passes (typed_stmt made.stmt) w) refused (λ v. judged (fault_of node) (typed_stmt stmt) w ≡ v) }
    {
        let mut node = node;
        node.settle()?;
        Ok(Checked { completes, stmt })
    }
}

/// A branch or a body that passed: whether it completes, and the typed one in a box, in which most constructs hold it.
#[derive(Drop)]
pub struct Part {
    pub completes: bool,
    pub stmt: Boxed<TypedStmt>,
}

/// The statements of a block that passed: whether they all complete, and the typed ones.
#[derive(Drop)]
pub struct CheckedBlock {
    pub completes: bool,
    pub stmts: Items<TypedStmt>,
}

/// Checks a statement, and says whether it completes. `follows` says that it stands after one that doesn't.
///
/// A function fills the room of all its arms at each call, so each form has a function of its own.
#[cycle(statements)]
pub fn statement(
    env: &mut Env,
    around: Around,
    stmt: &Stmt,
    follows: bool,
    out: &mut Found,
) -> Result<Checked, Stop>
    ensures completes { IfOk result (λ done. done.completes ≡ completes (plain_stmt stmt.now)) }
    ensures home { OnOk result (bare env.new ≡ bare env.old) }
    ensures checks { Says result (λ made. passes (typed_stmt made.stmt) (walk_of env.new out.new)) refused (λ v. check_stmt (atomic_params env.old) around follows (plain_stmt stmt.now) (walk_of env.old out.old) ≡ v) }
{
    let node = Node::of(stmt, follows);
    match &stmt.kind {
        StmtKind::Block(all) => nested(env, around, node, all.as_slice(), out),
        StmtKind::Declare {
            is_final,
            ty,
            name,
            value,
        } => declare(env, node, *is_final, ty, *name, value, out),
        StmtKind::AssignLocal { target, value } => assign_local(env, node, *target, value, out),
        StmtKind::AssignField { target, value } => assign_place(env, node, target, value, out),
        StmtKind::AssignElement { target, value } => assign_place(env, node, target, value, out),
        StmtKind::Do(value) => perform(env, node, value, out),
        StmtKind::If { test, then, other } => {
            branching(env, around, node, test, then.get(), other.as_ref(), out)
        }
        StmtKind::While { test, body: each } => repeat(env, around, node, test, each.get(), out),
        StmtKind::Return(value) => returning(env, around, node, value.as_ref(), out),
        StmtKind::Print(value) => print(env, node, value, out),
        StmtKind::PrintText(text) => print_text(env, node, text),
        StmtKind::Cobegin { nd, branches } => {
            cobegin(env, around, node, *nd, branches.as_slice(), out)
        }
        StmtKind::Foreach {
            nd,
            var,
            start,
            count,
            body: each,
        } => foreach(env, around, node, *nd, *var, start, count, each.get(), out),
        StmtKind::ForeachParts {
            view,
            var,
            array,
            count,
            body: each,
        } => foreach_parts(env, around, node, view, var, array, count, each.get(), out),
        StmtKind::Atomic(all) => atomic(env, around, node, all.as_slice(), out),
        StmtKind::Region { names } => declare_regions(env, node, names.as_slice()),
    }
}

/// A block.
#[cycle(statements)]
fn nested(
    env: &mut Env,
    around: Around,
    node: Node,
    all: &[Stmt],
    out: &mut Found,
) -> Result<Checked, Stop>
    ensures completes { IfOk result (λ done. done.completes ≡ all_complete (plain_stmts (map plain_stmt all.now))) }
    ensures home { OnOk result (bare env.new ≡ bare env.old) }
    ensures checks { Says result (λ made. passes (typed_stmt made.stmt) (walk_of env.new out.new)) refused (λ v. check_form (atomic_params env.old) around node (form.block (plain_stmts (map plain_stmt all.now))) (walk_of env.old out.old) ≡ v) }
{
    let place = node.place;
    let done = block(env, around, all, out)?;
    let form = StmtForm::Block(done.stmts);
    Checked::judge(node, done.completes, TypedStmt { place, form })
}

/// `if (test) then`, with or without an `else`.
#[cycle(statements)]
fn branching(
    env: &mut Env,
    around: Around,
    node: Node,
    test: &Expr,
    then: &Stmt,
    other: Option<&Boxed<Stmt>>,
    out: &mut Found,
) -> Result<Checked, Stop>
    ensures completes { IfOk result (λ done. done.completes ≡ form_completes (if_form (plain_expr test.now) (plain_stmt then.now) (option_map plain_stmt (option_copied other.entry)))) }
    ensures home { OnOk result (bare env.new ≡ bare env.old) }
    ensures checks { Says result (λ made. passes (typed_stmt made.stmt) (walk_of env.new out.new)) refused (λ v. check_form (atomic_params env.old) around node (if_form (plain_expr test.now) (plain_stmt then.now) (option_map plain_stmt (option_copied other.entry))) (walk_of env.old out.old) ≡ v) }
{
    let place = node.place;
    let mut node = node;
    let given = boolean(env, test, out, &mut node)?;
    let first = scoped(env, around, then, out)?;
    let test = given.into_node(test.place);
    match other {
        Some(other) => {
            let second = scoped(env, around, other.get(), out)?;
            let made = choose(place, test, first, Some(second));
            Checked::judge(node, made.completes, made.stmt)
        }
        None => {
            let made = choose(place, test, first, None);
            Checked::judge(node, made.completes, made.stmt)
        }
    }
}

/// An `if` whose parts passed.
#[tactic(auto, using(crate::proofs::Making::made_If))]
fn choose(place: Place, test: TypedExpr, first: Part, second: Option<Part>) -> Checked
    ensures completes { result.completes ≡ (first.completes || option_map_or (λ part. part.completes) second true) }
    ensures stmt { typed_stmt result.stmt ≡ statement place (choice_form (typed_expr test) (typed_stmt first.stmt) (option_map (λ part. typed_stmt part.stmt) second)) }
{
    let (other_completes, other) = match second {
        Some(part) => (part.completes, Some(part.stmt)),
        None => (true, None),
    };
    let form = StmtForm::If {
        test,
        then: first.stmt,
        other,
    };
    Checked {
        completes: first.completes || other_completes,
        stmt: TypedStmt { place, form },
    }
}

/// `while (test) iteration`
#[cycle(statements)]
fn repeat(
    env: &mut Env,
    around: Around,
    node: Node,
    test: &Expr,
    iteration: &Stmt,
    out: &mut Found,
) -> Result<Checked, Stop>
    ensures completes { IfOk result (λ done. done.completes ≡ true) }
    ensures home { OnOk result (bare env.new ≡ bare env.old) }
    ensures checks { Says result (λ made. passes (typed_stmt made.stmt) (walk_of env.new out.new)) refused (λ v. check_form (atomic_params env.old) around node (form.while_loop (plain_expr test.now) (plain_stmt iteration.now)) (walk_of env.old out.old) ≡ v) }
{
    let place = node.place;
    let mut node = node;
    let given = boolean(env, test, out, &mut node)?;
    let done = scoped(env, around, iteration, out)?;
    let form = StmtForm::While {
        test: given.into_node(test.place),
        body: done.stmt,
    };
    Checked::judge(node, true, TypedStmt { place, form })
}

/// `return;` or `return value;`
fn returning(
    env: &Env,
    around: Around,
    node: Node,
    value: Option<&Expr>,
    out: &mut Found,
) -> Result<Checked, Stop>
    ensures completes { IfOk result (λ done. done.completes ≡ false) }
    ensures checks { (params : List Bool) → Says result (λ made. passes (typed_stmt made.stmt) (walk_of env.now out.new)) refused (λ v. check_form params around node (return_form (option_copied value.entry)) (walk_of env.now out.old) ≡ v) }
{
    match value {
        None => leave(env, around, node),
        Some(value) => leave_with(env, around, node, value, out),
    }
}

/// Checks the statements of a block in a scope of their own, and says whether they all complete. What they do is
/// gathered by itself, and goes to what is gathered around the block without what the block declares.
#[cycle(statements)]
pub fn block(
    env: &mut Env,
    around: Around,
    stmts: &[Stmt],
    out: &mut Found,
) -> Result<CheckedBlock, Stop>
    ensures completes { IfOk result (λ done. done.completes ≡ all_complete (plain_stmts (map plain_stmt stmts.now))) }
    ensures home { OnOk result (bare env.new ≡ bare env.old) }
    ensures checks { Says result (λ made. passes (map typed_stmt made.stmts) (walk_of env.new out.new)) refused (λ v. check_block (atomic_params env.old) around (plain_stmts (map plain_stmt stmts.now)) (walk_of env.old out.old) ≡ v) }
{
    let scope = env.mark();
    let leaving = Leaving::from_here(env, Marks::Kept);
    let mut inner = Found::new(env.alloc);
    let done = statements(env, around, stmts, &mut inner)?;
    env.leave(scope);
    take_in(out, inner, leaving)?;
    Ok(done)
}

#[cycle(statements)]
fn statements(
    env: &mut Env,
    around: Around,
    stmts: &[Stmt],
    out: &mut Found,
) -> Result<CheckedBlock, Stop>
    ensures completes { IfOk result (λ done. done.completes ≡ all_complete (plain_stmts (map plain_stmt stmts.now))) }
    ensures home { OnOk result (bare env.new ≡ bare env.old) }
    ensures checks { Says result (λ made. passes (map typed_stmt made.stmts) (walk_of env.new out.new)) refused (λ v. check_all (atomic_params env.old) around true (plain_stmts (map plain_stmt stmts.now)) (walk_of env.old out.old) ≡ v) }
{
    let mut completes = true;
    let mut made = Items::new(env.alloc);
    for stmt in stmts {
        let done = statement(env, around, stmt, !completes, out)?;
        completes = completes && done.completes;
        made.push(done.stmt)?;
    }
    Ok(CheckedBlock {
        completes,
        stmts: made,
    })
}

/// Checks a branch or a body, which is a scope of its own even without braces.
#[cycle(statements)]
pub fn scoped(env: &mut Env, around: Around, stmt: &Stmt, out: &mut Found) -> Result<Part, Stop>
    ensures completes { IfOk result (λ done. done.completes ≡ completes (plain_stmt stmt.now)) }
    ensures home { OnOk result (bare env.new ≡ bare env.old) }
    ensures checks { Says result (λ made. passes (typed_stmt made.stmt) (walk_of env.new out.new)) refused (λ v. check_scope (atomic_params env.old) around (plain_stmt stmt.now) (walk_of env.old out.old) ≡ v) }
{
    let scope = env.mark();
    let done = statement(env, around, stmt, false, out)?;
    env.leave(scope);
    let stmt = Boxed::new(env.alloc, done.stmt)?;
    Ok(Part {
        completes: done.completes,
        stmt,
    })
}
