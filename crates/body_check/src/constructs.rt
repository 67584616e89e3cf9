ghost use Rattle.std.specs.Prelude.{◌≡◌, ◌++◌, ◌∷◌, [], None, true, map, IfOk, OnOk};
ghost use Rattle.syntax_tree.specs.Plain.{plain_expr, plain_stmt, plain_stmts};
ghost use Rattle.syntax_tree.specs.Plain.{StmtForm as form};
ghost use Rattle.body_check.specs.Checking.{slots_of, check_form};
ghost use Rattle.body_check.specs.Deciding.{marks_after};
ghost use Rattle.body_check.specs.Around.{inside};
ghost use Rattle.body_check.specs.Methods.{atomic_params};
ghost use Rattle.body_check.specs.Walks.{passes, refused, walk_of};
ghost use Rattle.body_exprs.specs.Env.{bare};
ghost use Rattle.body_exprs.specs.Answer.{Says};
ghost use Rattle.lang_typed.specs.Plain.{plain_stmt as typed_stmt};

use crate::gathered::{all_effects, entered, reach_nd, take_in};
use crate::leaving::{Leaving, Marks};
use crate::made;
use crate::meet::{settle_branches, settle_iterations};
use crate::node::{Around, Node};
use crate::statements::{Checked, block, scoped};
use crate::values::{int, note_declaration};
use body_exprs::{Env, Found};
use body_locals::{Touched, has_clash, touched};
use lang_base::{Boxed, Items, Kind, NoMemory, Stop, Ty};
use lang_typed::{Branch, Slot, Stmt, StmtForm};
use region_effects::EffectSet;
use std::alloc::Global;
use syntax_tree::{Expr, Named, Stmt as Tree};

/// After an nd construct marks are kept, and after any other they are dropped.
fn marks_after(nd: bool) -> Marks
    ensures { result ≡ marks_after nd }
{
    if nd { Marks::Kept } else { Marks::Dropped }
}

/// `cobegin { .. }`
#[cycle(statements)]
pub fn cobegin(
    env: &mut Env,
    around: Around,
    node: Node,
    nd: bool,
    branches: &[Tree],
    out: &mut Found,
) -> Result<Checked, Stop>
    ensures completes { IfOk result (λ done. done.completes ≡ true) }
    ensures home { OnOk result (bare env.new ≡ bare env.old) }
    ensures checks { Says result (λ made. passes (typed_stmt made.stmt) (walk_of env.new out.new)) refused (λ v. check_form (atomic_params env.old) around node (form.cobegin nd (plain_stmts (map plain_stmt branches.now))) (walk_of env.old out.old) ≡ v) }
{
    let place = node.place;
    let mut passed = Branches::new(env.alloc);
    for branch in branches {
        let leaving = Leaving::from_here(env, marks_after(nd));
        let mut inner = Found::new(env.alloc);
        let names = touched(env.alloc, branch)?;
        let copies = slots_of(env, names.writes.as_slice())?;
        let done = scoped(env, around.inside(), branch, &mut inner)?;
        passed.add(env.alloc, names, copies, done.stmt, &inner)?;
        take_in(out, inner, leaving)?;
    }
    reach_nd(out, nd);
    let clash = has_clash(env.alloc, passed.locals.as_slice())?;
    settle_branches(env, node, nd, clash, passed.effects.as_slice())?;
    Ok(Checked {
        completes: true,
        stmt: made::forked(place, nd, passed.made),
    })
}

/// The branches of a `cobegin` that passed: the effects of each, the locals that it touches, and the typed ones.
#[derive(Drop)]
struct Branches {
    effects: Items<EffectSet>,
    locals: Items<Touched>,
    made: Items<Branch>,
}

impl Branches {
    ghost use Rattle.std.specs.Prelude.{◌≡◌, ◌++◌, ◌∷◌, [], OnOk};
    ghost use Rattle.body_check.specs.Gathering.{with_uses};

    fn new(alloc: Global) -> Branches
        ensures { result ≡ record { effects = []; locals = []; made = [] } }
    {
        Branches {
            effects: Items::new(alloc),
            locals: Items::new(alloc),
            made: Items::new(alloc),
        }
    }

    /// Adds a branch that touches these locals, of which this was found.
    fn add(
        &mut self,
        alloc: Global,
        names: Touched,
        copies: Items<Slot>,
        stmt: Boxed<Stmt>,
        found: &Found,
    ) -> Result<(), NoMemory>
        ensures effects { OnOk result (self.new.effects ≡ self.old.effects ++ with_uses found.now.effects found.now.uses ∷ []) }
        ensures locals { OnOk result (self.new.locals ≡ self.old.locals ++ names ∷ []) }
        ensures made { OnOk result (self.new.made ≡ self.old.made ++ (record { copies = copies; body = stmt }) ∷ []) }
    {
        let body = stmt.into_inner();
        self.made.push(Branch { copies, body })?;
        self.locals.push(names)?;
        self.effects.push(all_effects(alloc, found)?)?;
        Ok(())
    }
}

/// The slots of the locals in scope with these names.
fn slots_of(env: &Env, names: &[u32]) -> Result<Items<Slot>, NoMemory>
    ensures { IfOk result (λ slots. map (λ slot. slot.number) slots ≡ slots_of env.now names.now) }
{
    let mut slots = Items::new(env.alloc);
    for name in names {
        add_slot(env, *name, &mut slots)?;
    }
    Ok(slots)
}

/// Adds the slot of the local of that name, where one is in scope.
fn add_slot(env: &Env, name: u32, slots: &mut Items<Slot>) -> Result<(), NoMemory>
    ensures { OnOk result (map (λ slot. slot.number) slots.new ≡ map (λ slot. slot.number) slots.old ++ slots_of env.now (name ∷ [])) }
{
    match env.local(name) {
        Some(row) => slots.push(Slot { number: row.slot }),
        None => Ok(()),
    }
}

/// `foreach (int var in start, count) iteration`
#[cycle(statements)]
pub fn foreach(
    env: &mut Env,
    around: Around,
    node: Node,
    nd: bool,
    var: Named,
    start: &Expr,
    count: &Expr,
    iteration: &Tree,
    out: &mut Found,
) -> Result<Checked, Stop>
    ensures completes { IfOk result (λ done. done.completes ≡ true) }
    ensures home { OnOk result (bare env.new ≡ bare env.old) }
    ensures checks { Says result (λ made. passes (typed_stmt made.stmt) (walk_of env.new out.new)) refused (λ v. check_form (atomic_params env.old) around node (form.foreach nd var (plain_expr start.now) (plain_expr count.now) (plain_stmt iteration.now)) (walk_of env.old out.old) ≡ v) }
{
    let place = node.place;
    let mut node = node;
    let first = int(env, start, out, &mut node)?;
    let number = int(env, count, out, &mut node)?;
    note_declaration(env, var.name, var.place, &mut node);
    let slot = env.slots();
    let leaving = Leaving::from_here(env, marks_after(nd));
    let mut inner = Found::new(env.alloc);
    let scope = env.mark();
    env.declare(var.name, Ty::Int, true)?;
    let done = scoped(env, around.inside(), iteration, &mut inner)?;
    env.leave(scope);
    reach_nd(&mut inner, nd);
    settle_iterations(env, node, nd, iteration, &inner, slot)?;
    take_in(out, inner, leaving)?;
    let range = (first.into_node(start.place), number.into_node(count.place));
    Ok(Checked {
        completes: true,
        stmt: made::iterated(place, nd, slot, range, done.stmt),
    })
}

/// `atomic { .. }`
#[cycle(statements)]
pub fn atomic(
    env: &mut Env,
    around: Around,
    node: Node,
    stmts: &[Tree],
    out: &mut Found,
) -> Result<Checked, Stop>
    ensures completes { IfOk result (λ done. done.completes ≡ true) }
    ensures home { OnOk result (bare env.new ≡ bare env.old) }
    ensures checks { Says result (λ made. passes (typed_stmt made.stmt) (walk_of env.new out.new)) refused (λ v. check_form (atomic_params env.old) around node (form.atomic (plain_stmts (map plain_stmt stmts.now))) (walk_of env.old out.old) ≡ v) }
{
    let place = node.place;
    let mut node = node;
    let leaving = Leaving::from_here(env, Marks::Set);
    let mut inner = Found::new(env.alloc);
    let done = block(env, around.inside(), stmts, &mut inner)?;
    node.note_if(Kind::AtomicBody, inner.reaches_nd);
    let form = StmtForm::Atomic {
        effects: entered(env.alloc, &inner)?,
        body: done.stmts,
    };
    take_in(out, inner, leaving)?;
    Checked::judge(node, true, Stmt { place, form })
}
