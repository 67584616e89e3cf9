ghost use Rattle.std.specs.Prelude.{◌≡◌, None, option_map, true, IfOk, OnOk};
ghost use Rattle.lang_base.specs.Types.{plain_type};
ghost use Rattle.syntax_tree.specs.Plain.{plain_expr, plain_stmt};
ghost use Rattle.syntax_tree.specs.Plain.{StmtForm as form};
ghost use Rattle.body_exprs.specs.Env.{bare, has_room, part_of};
ghost use Rattle.lang_typed.specs.Plain.{plain_source};
ghost use Rattle.body_exprs.specs.Typed.{plain_typed};
ghost use Rattle.body_check.specs.Checking.{check_form, cut, cut_array, outer_part, parts_declared, parts_noted, plain_whole};
ghost use Rattle.body_check.specs.Deciding.{whole_fault};
ghost use Rattle.body_check.specs.Around.{inside};
ghost use Rattle.body_check.specs.Noting.{fault_of};
ghost use Rattle.body_check.specs.Methods.{atomic_params};
ghost use Rattle.body_check.specs.Walks.{passes, refused, walk_of};
ghost use Rattle.body_exprs.specs.Answer.{Says};
ghost use Rattle.lang_typed.specs.Plain.{plain_stmt as typed_stmt};

use crate::gathered::{hand_on_uses, take_in};
use crate::leaving::{Leaving, Marks};
use crate::made;
use crate::meet::settle_parts;
use crate::node::{Around, Node};
use crate::statements::{Checked, scoped};
use crate::values::{int, note_declaration};
use body_exprs::{Env, Found, Typed, expr};
use lang_base::{Kind, NoMemory, Plain, Stop, Ty};
use lang_typed::{PartSource, Slot};
use region_paths::is_full;
use std::alloc::Global;
use syntax_tree::{Expr, Named, Stmt};

/// What a `foreach_parts` cuts into parts.
#[derive(Drop)]
struct Whole {
    ty: Ty,
    source: PartSource,
    fault: Option<Kind>,
}

/// `foreach_parts (view, int var in array, count) iteration`
#[cycle(statements)]
pub fn foreach_parts(
    env: &mut Env,
    around: Around,
    node: Node,
    view: &Named,
    var: &Named,
    array: &Expr,
    count: &Expr,
    iteration: &Stmt,
    out: &mut Found,
) -> Result<Checked, Stop>
    ensures completes { IfOk result (λ done. done.completes ≡ true) }
    ensures home { OnOk result (bare env.new ≡ bare env.old) }
    ensures checks { Says result (λ made. passes (typed_stmt made.stmt) (walk_of env.new out.new)) refused (λ v. check_form (atomic_params env.old) around node (form.foreach_parts view.now var.now (plain_expr array.now) (plain_expr count.now) (plain_stmt iteration.now)) (walk_of env.old out.old) ≡ v) }
{
    let place = node.place;
    let mut node = node;
    let part = env.slots();
    let leaving = Leaving::from_here(env, Marks::Dropped);
    let mut inner = Found::new(env.alloc);
    let scope = env.mark();
    let whole = whole_of(env, array, out)?;
    node.note_found(whole.fault);
    let given = int(env, count, out, &mut node)?;
    let Whole { ty, source, .. } = whole;
    open(env, &mut node, *view, *var, ty)?;
    let done = scoped(env, around.inside(), iteration, &mut inner)?;
    env.leave(scope);
    settle_parts(env, node, iteration, &inner, part)?;
    let inner = hand_on_uses(env.alloc, inner, part, outer_part(&source))?;
    take_in(out, inner, leaving)?;
    let count = given.into_node(count.place);
    Ok(Checked {
        completes: true,
        stmt: made::parted(place, part, source, count, done.stmt),
    })
}

/// Puts the part, of an array of this type, and the variable in scope.
fn open(env: &mut Env, node: &mut Node, view: Named, var: Named, ty: Ty) -> Result<(), NoMemory>
    ensures noted { OnOk result (node.new ≡ parts_noted env.old view var ty node.old) }
    ensures whole { OnOk result (env.new ≡ parts_declared env.old view var ty) }
    ensures room { OnOk result (fault_of node.new ≡ None → has_room env.old ≡ true) }
    ensures home { OnOk result (bare env.new ≡ bare env.old) }
{
    note_declaration(env, view.name, view.place, node);
    env.declare_part(view.name, ty)?;
    note_declaration(env, var.name, var.place, node);
    env.declare(var.name, Ty::Int, true)
}

/// The slot of the part that is cut, where it is one.
fn outer_part(source: &PartSource) -> Option<u32>
    ensures { result ≡ outer_part (plain_source source.now) }
{
    match source {
        PartSource::Part(slot) => Some(slot.number),
        PartSource::Array(_) => None,
    }
}

/// What the array of a `foreach_parts` is. A part in its place is no use of that part.
fn whole_of(env: &Env, array: &Expr, out: &mut Found) -> Result<Whole, Stop>
    ensures cut { Says result (λ whole. passes (plain_whole whole) (walk_of env.now out.new)) refused (λ v. cut (plain_expr array.now) (walk_of env.now out.old) ≡ v) }
{
    if let Some(whole) = part_of_part(env, array)? {
        return Ok(whole);
    }
    let given = expr(env, out, array)?;
    Ok(array_whole(env.alloc, array, given)?)
}

/// What the array expression is, which gives this.
fn array_whole(alloc: Global, array: &Expr, given: Typed) -> Result<Whole, NoMemory>
    ensures { IfOk result (λ whole. plain_whole whole ≡ cut_array (plain_expr array.now) (plain_typed given)) }
{
    match given {
        Typed::Known(made) => {
            let ty = made.ty.copy(alloc)?;
            let fault = whole_fault(&made.ty);
            let source = PartSource::Array(made);
            Ok(Whole { ty, source, fault })
        }
        // It comes from a part of what is no array, and is none itself. That is reported at the outer construct.
        Typed::Any => Ok(Whole {
            ty: Ty::Void,
            source: PartSource::Array(Typed::Any.into_node(array.place)),
            fault: None,
        }),
    }
}

/// What is wrong with what is cut into parts.
fn whole_fault(ty: &Ty) -> Option<Kind>
    ensures { result ≡ whole_fault (plain_type ty.now) }
{
    match ty {
        Ty::Array {
            rpl,
            named: false,
            ..
        } if is_full(rpl) => None,
        Ty::Array { named: false, .. } => Some(Kind::RegionArgs),
        _ => Some(Kind::Type),
    }
}

/// The part that the array expression names, where it names one.
fn part_of_part(env: &Env, array: &Expr) -> Result<Option<Whole>, NoMemory>
    ensures { IfOk result (λ found. found ≡ option_map (λ row. record { ty = row.ty; source = PartSource.Part (record { number = row.slot }); fault = None }) (part_of env.now (plain_expr array.now))) }
{
    let Some(row) = env.part(array) else {
        return Ok(None);
    };
    Ok(Some(Whole {
        ty: row.ty.copy(env.alloc)?,
        source: PartSource::Part(Slot { number: row.slot }),
        fault: None,
    }))
}
