ghost use Rattle.std.specs.Prelude.{◌≡◌, ◌||◌, None, Some, false, true, IfErr, IfOk, OnOk};
ghost use Rattle.lang_base.specs.Refused.{IfRefused};
ghost use Rattle.lang_base.specs.Types.{plain_type};
ghost use Rattle.body_exprs.specs.declared.found.Found.{Found};
ghost use Rattle.syntax_tree.specs.Plain.{plain_expr};
ghost use Rattle.body_check.specs.Deciding.{is_misplaced, local_fault};
ghost use Rattle.body_check.specs.Noting.{fault_of};
ghost use Rattle.body_check.specs.Simple.{declared_type, declared_reported, is_region_name, may_print, region_noted, target_fault, assign_local, assign_place, declare, declare_regions, leave, leave_with, perform, print, put_in_place};
ghost use Rattle.body_exprs.specs.Env.{bare};
ghost use Rattle.body_check.specs.Walks.{judged, passes, refused, walk_of, Walk};
ghost use Rattle.body_exprs.specs.Answer.{Says};
ghost use Rattle.lang_typed.specs.Plain as typed;
ghost use Rattle.body_exprs.specs.Targeting.{plain_target};
ghost use Rattle.body_exprs.specs.Typed.{is_value, node_at, plain_typed, value_type};
ghost use Rattle.lang_typed.specs.Plain.{plain_stmt as typed_stmt};

use crate::made;
use crate::node::{Around, Node};
use crate::statements::Checked;
use crate::values::{is_returned, note_declaration, note_room};
use body_exprs::{Env, Found, Target, Typed, expr, fits, read_target};
use decl_headers::Faults;
use decl_resolve::ty;
use lang_base::{Bytes, Items, Kind, Place, Plain, Stop, Ty};
use lang_typed::{LocalRegion, Slot, Stmt, StmtForm};
use syntax_tree::{Expr, Named, TypeTree};

/// `ty name = value;`
pub fn declare(
    env: &mut Env,
    node: Node,
    is_final: bool,
    tree: &TypeTree,
    name: u32,
    value: &Expr,
    out: &mut Found,
) -> Result<Checked, Stop>
    ensures completes { IfOk result (λ done. done.completes ≡ true) }
    ensures home { OnOk result (bare env.new ≡ bare env.old) }
    ensures checks { Says result (λ made. passes (typed_stmt made.stmt) (walk_of env.new out.new)) refused (λ v. declare node is_final tree.now name (plain_expr value.now) (walk_of env.old out.old) ≡ v) }
{
    let place = node.place;
    let mut node = node;
    let declared = declared_type(env, tree)?;
    let given = expr(env, out, value)?;
    note_declaration(env, name, place, &mut node);
    let fit = fits(env, &given, &declared)?;
    node.note_if(Kind::Type, !fit);
    let slot = env.slots();
    let ty = declared.copy(env.alloc)?;
    env.declare(name, ty, is_final)?;
    let form = StmtForm::Declare {
        slot: Slot { number: slot },
        ty: declared,
        is_final,
        value: given.into_node(value.place),
    };
    Checked::judge(node, true, Stmt { place, form })
}

/// The type that a declaration names. In a body a type with a fault is refused at once.
fn declared_type(env: &Env, tree: &TypeTree) -> Result<Ty, Stop>
    ensures ty { IfOk result (λ ty. plain_type ty ≡ declared_type env.now tree.now) }
    ensures unreported { OnOk result (declared_reported env.now tree.now ≡ None) }
    ensures reported { IfErr result (λ stop. IfRefused stop (λ refusal. declared_reported env.now tree.now ≡ Some refusal)) }
{
    let mut faults = Faults::by_kind();
    match ty(env.alloc, &env.scope(), &mut faults, tree)? {
        Some(ty) => Ok(ty),
        None => Ok(Ty::Void),
    }
}

/// `target = value;` for a local.
pub fn assign_local(
    env: &Env,
    node: Node,
    target: Named,
    value: &Expr,
    out: &mut Found,
) -> Result<Checked, Stop>
    ensures completes { IfOk result (λ done. done.completes ≡ true) }
    ensures checks { Says result (λ made. passes (typed_stmt made.stmt) (walk_of env.now out.new)) refused (λ v. assign_local node target (plain_expr value.now) (walk_of env.now out.old) ≡ v) }
{
    let mut node = node;
    let given = expr(env, out, value)?;
    let Some(row) = env.local(target.name) else {
        return Err(node.refused_at(Kind::Unknown, target.place));
    };
    node.note_found(local_fault(fits(env, &given, &row.ty)?, row.is_final));
    let place = target.place;
    let form = StmtForm::Store {
        slot: Slot { number: row.slot },
        value: given.into_node(value.place),
    };
    Checked::judge(node, true, Stmt { place, form })
}

/// The fault of an assignment to a local: the value doesn't fit, or the local is final.
fn local_fault(fit: bool, is_final: bool) -> Option<Kind>
    ensures { result ≡ local_fault fit is_final }
{
    if !fit {
        return Some(Kind::Type);
    }
    if is_final { Some(Kind::Assign) } else { None }
}

/// `written = value;` for a field or an element.
pub fn assign_place(
    env: &Env,
    node: Node,
    written: &Expr,
    value: &Expr,
    out: &mut Found,
) -> Result<Checked, Stop>
    ensures completes { IfOk result (λ done. done.completes ≡ true) }
    ensures checks { Says result (λ made. passes (typed_stmt made.stmt) (walk_of env.now out.new)) refused (λ v. assign_place node (plain_expr written.now) (plain_expr value.now) (walk_of env.now out.old) ≡ v) }
{
    let target = read_target(env, out, written)?;
    let given = expr(env, out, value)?;
    match target {
        Some(target) => assign_target(env, node, written.place, target, given, value.place, out),
        None => assign_anything(node, written.place, given, value.place),
    }
}

/// An assignment of a value to a target that was read.
fn assign_target(
    env: &Env,
    node: Node,
    place: Place,
    target: Target,
    given: Typed,
    value: Place,
    out: &mut Found,
) -> Result<Checked, Stop>
    ensures completes { IfOk result (λ done. done.completes ≡ true) }
    ensures checks { Says result (λ made. passes (typed_stmt made.stmt) (walk_of env.now out.new)) refused (λ v. put_in_place node place (Some (plain_target target)) (node_at value (plain_typed given)) (value_type given) (walk_of env.now out.old) ≡ v) }
{
    let mut node = node;
    let fit = fits(env, &given, &target.ty)?;
    node.note_found(target_fault(fit, target.may_write));
    let Target { spot, rpl, .. } = target;
    spot.write(out, rpl)?;
    let stmt = made::stored(place, spot, given.into_node(value));
    Checked::judge(node, true, stmt)
}

/// An assignment to what comes from a part of what is no array, where every value fits.
fn assign_anything(node: Node, place: Place, given: Typed, value: Place) -> Result<Checked, Stop>
    ensures completes { IfOk result (λ done. done.completes ≡ true) }
    ensures checks { (w : Walk) → Says result (λ made. passes (typed_stmt made.stmt) w) refused (λ v. put_in_place node place None (node_at value (plain_typed given)) (value_type given) w ≡ v) }
{
    let mut node = node;
    node.note_if(Kind::Type, !given.is_value());
    let form = StmtForm::Perform(given.into_node(value));
    Checked::judge(node, true, Stmt { place, form })
}

/// The fault of an assignment to a field or an element: the value doesn't fit, or the target may not be written.
fn target_fault(fit: bool, may_write: bool) -> Option<Kind>
    ensures { result ≡ target_fault fit may_write }
{
    if !fit {
        return Some(Kind::Type);
    }
    if may_write {
        None
    } else {
        Some(Kind::PartialWrite)
    }
}

/// A call or a creation as a statement.
pub fn perform(env: &Env, node: Node, e: &Expr, out: &mut Found) -> Result<Checked, Stop>
    ensures completes { IfOk result (λ done. done.completes ≡ true) }
    ensures checks { Says result (λ made. passes (typed_stmt made.stmt) (walk_of env.now out.new)) refused (λ v. perform node (plain_expr e.now) (walk_of env.now out.old) ≡ v) }
{
    let place = node.place;
    let given = expr(env, out, e)?;
    let form = StmtForm::Perform(given.into_node(e.place));
    Checked::judge(node, true, Stmt { place, form })
}

/// `return;`
pub fn leave(env: &Env, around: Around, node: Node) -> Result<Checked, Stop>
    ensures completes { IfOk result (λ done. done.completes ≡ false) }
    ensures checks { (found : Found) → Says result (λ made. passes (typed_stmt made.stmt) (walk_of env.now found)) refused (λ v. leave around node (walk_of env.now found) ≡ v) }
{
    let place = node.place;
    let mut node = node;
    node.note_if(Kind::Return, is_misplaced(around, false));
    let form = StmtForm::Return(None);
    Checked::judge(node, false, Stmt { place, form })
}

/// `return value;`
pub fn leave_with(
    env: &Env,
    around: Around,
    node: Node,
    value: &Expr,
    out: &mut Found,
) -> Result<Checked, Stop>
    ensures completes { IfOk result (λ done. done.completes ≡ false) }
    ensures checks { Says result (λ made. passes (typed_stmt made.stmt) (walk_of env.now out.new)) refused (λ v. leave_with around node (plain_expr value.now) (walk_of env.now out.old) ≡ v) }
{
    let place = node.place;
    let mut node = node;
    node.note_if(Kind::Return, is_misplaced(around, true));
    let given = expr(env, out, value)?;
    let fit = is_returned(env, around, &given)?;
    node.note_if(Kind::Type, !fit);
    let form = StmtForm::Return(Some(given.into_node(value.place)));
    Checked::judge(node, false, Stmt { place, form })
}

/// A `return`, with or without a value, stands in a branch or an atomic block, or doesn't fit the method.
fn is_misplaced(around: Around, valued: bool) -> bool
    ensures { result ≡ is_misplaced around valued }
{
    around.enclosed || valued != around.has_result
}

/// `print(value);`
pub fn print(env: &Env, node: Node, value: &Expr, out: &mut Found) -> Result<Checked, Stop>
    ensures completes { IfOk result (λ done. done.completes ≡ true) }
    ensures checks { Says result (λ made. passes (typed_stmt made.stmt) (walk_of env.now out.new)) refused (λ v. print node (plain_expr value.now) (walk_of env.now out.old) ≡ v) }
{
    let place = node.place;
    let mut node = node;
    let given = expr(env, out, value)?;
    node.note_if(Kind::Type, !may_print(&given));
    let stmt = made::printed(place, given.into_node(value.place));
    Checked::judge(node, true, stmt)
}

/// `print` of a text.
pub fn print_text(env: &Env, node: Node, text: &Bytes) -> Result<Checked, Stop>
    ensures completes { IfOk result (λ done. done.completes ≡ true) }
    ensures checks { (found : Found) → Says result (λ made. passes (typed_stmt made.stmt) (walk_of env.now found)) refused (λ v. judged (fault_of node) (typed.statement node.place (typed.print_text text.now)) (walk_of env.now found) ≡ v) }
{
    let place = node.place;
    let form = StmtForm::PrintText(text.copy(env.alloc)?);
    Checked::judge(node, true, Stmt { place, form })
}

/// An int or a boolean is printed, and no reference.
fn may_print(value: &Typed) -> bool
    ensures { result ≡ may_print (value_type value.now) }
{
    value.is_int() || value.is_boolean()
}

/// `region name, ..;`
pub fn declare_regions(env: &mut Env, node: Node, names: &[Named]) -> Result<Checked, Stop>
    ensures completes { IfOk result (λ done. done.completes ≡ true) }
    ensures home { OnOk result (bare env.new ≡ bare env.old) }
    ensures checks { (found : Found) → Says result (λ made. passes (typed_stmt made.stmt) (walk_of env.new found)) refused (λ v. declare_regions node names.now (walk_of env.old found) ≡ v) }
{
    let place = node.place;
    let mut node = node;
    let mut regions = Items::new(env.alloc);
    for named in names {
        note_region(env, *named, &mut node);
        regions.push(LocalRegion {
            number: env.regions_declared(),
        })?;
        env.declare_region(named.name)?;
    }
    let form = StmtForm::Regions(regions);
    Checked::judge(node, true, Stmt { place, form })
}

/// A local region whose name a region in scope has is a fault, and so is one for which there is no room.
fn note_region(env: &Env, named: Named, node: &mut Node)
    ensures node { node.new ≡ region_noted env.now named node.old }
{
    if is_region(env, named.name) {
        node.note_at(Kind::Duplicate, named.place);
    }
    note_room(env, named.place, node);
}

/// Whether a region parameter or a local region in scope, or a region of the class or a superclass has the name.
fn is_region(env: &Env, name: u32) -> bool
    ensures { result ≡ is_region_name env.now name }
{
    let declared = env.table().headers().region(env.class, name);
    env.has_param(name) || env.has_local_region(name) || declared.is_some()
}
