ghost use Rattle.std.specs.Prelude.{◌≡◌, ◌+◌, ◌++◌, ◌<◌, None, false, not, length, IfOk, OnOk};
ghost use Rattle.lang_base.specs.Branches.{iterations_clash};
ghost use Rattle.region_interfere.specs.Nd.{plain_nd};
ghost use Rattle.region_interfere.specs.Uses.{parts_interfere};
ghost use Rattle.body_exprs.specs.Env.{given_in};
ghost use Rattle.syntax_tree.specs.Plain.{plain_stmt};
ghost use Rattle.lang_typed.specs.Plain.{TypedStmt};
ghost use Rattle.body_exprs.specs.Answer.{Says};
ghost use Rattle.body_check.specs.Checking.{meeting};
ghost use Rattle.body_check.specs.Deciding.{interference};
ghost use Rattle.body_check.specs.Gathering.{with_uses};
ghost use Rattle.body_check.specs.Meeting.{declared_atomic, branches_interfere, some_interfere};
ghost use Rattle.body_check.specs.Methods.{atomic_params};
ghost use Rattle.body_check.specs.Noting.{fault_of};
ghost use Rattle.body_check.specs.Touching.{assigns_outer};
ghost use Rattle.body_check.specs.Walks.{passes, refused, Walk};

use crate::gathered::all_effects;
use crate::node::Node;
use body_exprs::{Env, Found};
use body_locals::touched;
use lang_base::{Constraint, Items, Kind, NoMemory, Stop};
use region_effects::EffectSet;
use region_interfere::{Atomic, check_parts, first_meeting, iterations_clash};
use std::alloc::Global;
use syntax_tree::Stmt;

/// Reports the faults of a `cobegin` after its branches: two of them clash over a local, or else two interfere.
pub fn settle_branches(
    env: &Env,
    node: Node,
    nd: bool,
    clash: bool,
    branches: &[EffectSet],
) -> Result<(), Stop>
    ensures { (made : TypedStmt) (w : Walk) → Says result (λ _. passes made w) refused (λ v. meeting node clash (interference nd) (branches_interfere (atomic_params env.now) nd env.now branches.now) made w ≡ v) }
{
    let mut node = node;
    node.note_if(Kind::Assign, clash);
    node.settle()?;
    let pass = branches_pass(env, nd, branches)?;
    node.note_if(interference(nd), !pass);
    node.settle()
}

/// Reports the faults of a `foreach` after its body: it assigns outer locals, or else iterations interfere. The loop
/// variable has the slot.
pub fn settle_iterations(
    env: &Env,
    node: Node,
    nd: bool,
    iteration: &Stmt,
    found: &Found,
    slot: u32,
) -> Result<(), Stop>
    ensures { (made : TypedStmt) (w : Walk) → Says result (λ _. passes made w) refused (λ v. meeting node (assigns_outer (plain_stmt iteration.now)) (interference nd) (iterations_clash (given_in env.now) (declared_atomic (atomic_params env.now) nd env.now) slot (with_uses found.now.effects found.now.uses)) made w ≡ v) }
{
    let mut node = node;
    node.note_if(Kind::Assign, assigns_outer(env.alloc, iteration)?);
    node.settle()?;
    let clash = iterations_interfere(env, nd, found, slot)?;
    node.note_if(interference(nd), clash);
    node.settle()
}

/// Reports the faults of a `foreach_parts` after its body: it assigns outer locals, or else branches interfere. The
/// part has four slots from this one on, and the loop variable the one after them.
pub fn settle_parts(
    env: &Env,
    node: Node,
    iteration: &Stmt,
    found: &Found,
    part: u32,
) -> Result<(), Stop>
    requires { fault_of node ≡ None → part + 4 < 4294967296 }
    ensures { (made : TypedStmt) (w : Walk) → Says result (λ _. passes made w) refused (λ v. meeting node (assigns_outer (plain_stmt iteration.now)) (interference false) (parts_interfere (given_in env.now) part (part + 4) found.now.effects found.now.uses) made w ≡ v) }
{
    let mut node = node;
    node.note_if(Kind::Assign, assigns_outer(env.alloc, iteration)?);
    node.settle()?;
    let pass = parts_pass(env, found, part, part + 4)?;
    node.note_if(interference(false), !pass);
    node.settle()
}

/// The fault of a construct whose branches interfere.
fn interference(nd: bool) -> Kind
    ensures { result ≡ interference nd }
{
    if nd {
        Kind::InterferesNd
    } else {
        Kind::Interferes
    }
}

/// Whether a statement assigns a local that is declared outside of it.
fn assigns_outer(alloc: Global, stmt: &Stmt) -> Result<bool, NoMemory>
    ensures { IfOk result (λ assigns. assigns ≡ assigns_outer (plain_stmt stmt.now)) }
{
    Ok(!touched(alloc, stmt)?.writes.is_empty())
}

/// Of an nd construct, what is declared atomic.
fn declared_atomic<'a>(env: &'a Env, nd: bool) -> Option<Atomic<'a>>
    ensures { plain_nd result ≡ declared_atomic (atomic_params env.now) nd env.now }
{
    if nd {
        Some(Atomic {
            names: env.table().headers().atomic_names(),
            params: env.atomic_params.as_slice(),
        })
    } else {
        None
    }
}

/// Whether no two branches interfere, for nd where the construct is one of nd.
fn branches_pass(env: &Env, nd: bool, branches: &[EffectSet]) -> Result<bool, NoMemory>
    ensures { IfOk result (λ passed. passed ≡ not (branches_interfere (atomic_params env.now) nd env.now branches.now)) }
{
    if branches.len() >= 4294967296 {
        return Ok(false);
    }
    let atomic = declared_atomic(env, nd);
    branches_apart(env.alloc, branches, env.given(), atomic)
}

fn branches_apart(
    alloc: Global,
    branches: &[EffectSet],
    given: &[Constraint],
    nd: Option<Atomic>,
) -> Result<bool, NoMemory>
    requires { length branches.now < 4294967296 }
    ensures { IfOk result (λ passed. passed ≡ not (some_interfere given.now (plain_nd nd.entry) branches.now)) }
{
    Ok(first_meeting(alloc, branches, given, nd)?.is_none())
}

/// Whether an iteration of a body interferes with another, for nd where the construct is one of nd. The loop
/// variable has the slot.
fn iterations_interfere(env: &Env, nd: bool, iteration: &Found, slot: u32) -> Result<bool, NoMemory>
    ensures { IfOk result (λ clash. clash ≡ iterations_clash (given_in env.now) (declared_atomic (atomic_params env.now) nd env.now) slot (with_uses iteration.now.effects iteration.now.uses)) }
{
    if iteration.uses.is_empty() {
        return effects_interfere(env, nd, &iteration.effects, slot);
    }
    effects_interfere(env, nd, &all_effects(env.alloc, iteration)?, slot)
}

fn effects_interfere(
    env: &Env,
    nd: bool,
    iteration: &EffectSet,
    slot: u32,
) -> Result<bool, NoMemory>
    ensures { IfOk result (λ clash. clash ≡ iterations_clash (given_in env.now) (declared_atomic (atomic_params env.now) nd env.now) slot iteration.now) }
{
    let atomic = declared_atomic(env, nd);
    iterations_clash(env.alloc, iteration, slot, env.given(), atomic)
}

/// Whether no branch of a `foreach_parts` interferes with another. The part and the loop variable have these slots.
fn parts_pass(env: &Env, iteration: &Found, part: u32, variable: u32) -> Result<bool, NoMemory>
    ensures { IfOk result (λ passed. passed ≡ not (parts_interfere (given_in env.now) part variable iteration.now.effects iteration.now.uses)) }
{
    let given = env.given();
    let uses = iteration.uses.as_slice();
    check_parts(env.alloc, &iteration.effects, uses, part, variable, given)
}
