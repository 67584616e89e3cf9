ghost use Rattle.std.specs.Prelude.{◌≡◌, ◌++◌, map, OnOk};
ghost use Rattle.lang_base.specs.Types.{plain_type};
ghost use Rattle.lang_typed.specs.Plain.{plain_program, plain_expr, exprs_of, type_of};
ghost use Rattle.lang_typed.specs.Scope.{field_at, row_at};
ghost use Rattle.lang_typed.specs.Effects.{does, uses, reads};
ghost use Rattle.body_infer.specs.Kept.{program_kept};
ghost use Rattle.body_infer.specs.Doing.{done_by, done_by_all, of_field, of_element, of_local, of_callee, of_constructor, constructed, member_in};
ghost use Rattle.body_infer.specs.Walked.{all_done, access_to, scope_of};

use crate::classes::args_of;
use crate::fields::field_at;
use crate::own::{Own, does, uses};
use crate::scope::Scope;
use crate::walk::{Walk, add_call, add_construction};
use lang_base::{Access, Items, NoMemory, Rpl, Ty};
use lang_typed::{ClassId, Expr, ExprForm, FieldSlot, Row, Slot};
use region_paths::subst;
use region_types::path_at;

/// Adds what an expression does: what its parts do, and then what it does itself.
///
/// A function fills the room of all its arms at each call, so each form that has several parts has a function of its own.
#[cycle(exprs)]
#[tactic(auto, using(crate::proofs::Reading::joined))]
pub fn expr(walk: Walk<'_>, scope: &Scope, e: &Expr, out: &mut Items<Own>) -> Result<(), NoMemory>
    ensures { OnOk result (all_done out.new ≡ all_done out.old ++ done_by (program_kept walk.entry.kept.now (plain_program walk.entry.program.now)) (scope_of scope.now) (plain_expr e.now)) }
{
    match &e.form {
        ExprForm::Int(_)
        | ExprForm::Bool(_)
        | ExprForm::Null
        | ExprForm::Local(_)
        | ExprForm::PartLength(_) => Ok(()),
        ExprForm::Field { of, class, field } => {
            read_field(walk, scope, of.get(), *class, *field, out)
        }
        ExprForm::Element { array, index } => {
            read_element(walk, scope, array.get(), index.get(), out)
        }
        ExprForm::PartElement { part, index } => read_part(walk, scope, *part, index.get(), out),
        ExprForm::Call {
            of,
            class,
            row,
            regions,
            actuals,
        } => call(walk, scope, of.get(), *class, *row, regions, actuals, out),
        ExprForm::New(actuals) => creation(walk, scope, actuals, &e.ty, out),
        ExprForm::Length(part) | ExprForm::NewArray(part) | ExprForm::Unary { arg: part, .. } =>
            expr(walk, scope, part.get(), out),
        ExprForm::Binary { left, right, .. }
        | ExprForm::And { left, right }
        | ExprForm::Or { left, right } => operands(walk, scope, left.get(), right.get(), out),
    }
}

/// Adds what a read of a field does.
#[cycle(exprs)]
#[tactic(auto, using(crate::proofs::Reading::joined))]
fn read_field(
    walk: Walk<'_>,
    scope: &Scope,
    of: &Expr,
    class: ClassId,
    field: FieldSlot,
    out: &mut Items<Own>,
) -> Result<(), NoMemory>
    ensures { let P = program_kept walk.entry.kept.now (plain_program walk.entry.program.now) in let L = scope_of scope.now in OnOk result (all_done out.new ≡ all_done out.old ++ (done_by P L (plain_expr of.now) ++ of_field P (type_of (plain_expr of.now)) (field_at P class.number field.number) (λ a. does (reads a)))) }
{
    expr(walk, scope, of, out)?;
    add_field(walk, &of.ty, class, field, Access::Read, out)
}

/// Adds what a read of an element does.
#[cycle(exprs)]
#[tactic(auto, using(crate::proofs::Reading::joined))]
fn read_element(
    walk: Walk<'_>,
    scope: &Scope,
    array: &Expr,
    index: &Expr,
    out: &mut Items<Own>,
) -> Result<(), NoMemory>
    ensures { let P = program_kept walk.entry.kept.now (plain_program walk.entry.program.now) in let L = scope_of scope.now in OnOk result (all_done out.new ≡ all_done out.old ++ (done_by P L (plain_expr array.now) ++ (done_by P L (plain_expr index.now) ++ of_element L (type_of (plain_expr array.now)) (plain_expr index.now) (λ a. does (reads a))))) }
{
    expr(walk, scope, array, out)?;
    expr(walk, scope, index, out)?;
    add_element(walk, scope, &array.ty, index, Access::Read, out)
}

/// Adds what a read of an element of a part does.
#[cycle(exprs)]
#[tactic(auto, using(crate::proofs::Reading::joined))]
fn read_part(
    walk: Walk<'_>,
    scope: &Scope,
    part: Slot,
    index: &Expr,
    out: &mut Items<Own>,
) -> Result<(), NoMemory>
    ensures { let P = program_kept walk.entry.kept.now (plain_program walk.entry.program.now) in let L = scope_of scope.now in OnOk result (all_done out.new ≡ all_done out.old ++ (done_by P L (plain_expr index.now) ++ of_local (L.local part.number) (λ a. uses part.number (reads a)))) }
{
    expr(walk, scope, index, out)?;
    add_part(walk, scope, part, Access::Read, out)
}

/// Adds what a call of a method does.
#[cycle(exprs)]
#[tactic(auto, using(crate::proofs::Reading::joined))]
fn call(
    walk: Walk<'_>,
    scope: &Scope,
    of: &Expr,
    class: ClassId,
    row: Row,
    regions: &Items<Rpl>,
    actuals: &Items<Expr>,
    out: &mut Items<Own>,
) -> Result<(), NoMemory>
    ensures { let P = program_kept walk.entry.kept.now (plain_program walk.entry.program.now) in let L = scope_of scope.now in OnOk result (all_done out.new ≡ all_done out.old ++ (done_by P L (plain_expr of.now) ++ (done_by_all P L (exprs_of (map plain_expr actuals.now)) ++ of_callee P (type_of (plain_expr of.now)) (member_in P (row_at P class.number row.number)) regions.now))) }
{
    expr(walk, scope, of, out)?;
    exprs(walk, scope, actuals, out)?;
    add_call(walk, &of.ty, class, row, regions, out)
}

/// Adds what the creation of an object of this type does.
#[cycle(exprs)]
#[tactic(auto, using(crate::proofs::Reading::joined))]
fn creation(
    walk: Walk<'_>,
    scope: &Scope,
    actuals: &Items<Expr>,
    ty: &Ty,
    out: &mut Items<Own>,
) -> Result<(), NoMemory>
    ensures { let P = program_kept walk.entry.kept.now (plain_program walk.entry.program.now) in let L = scope_of scope.now in OnOk result (all_done out.new ≡ all_done out.old ++ (done_by_all P L (exprs_of (map plain_expr actuals.now)) ++ of_constructor (plain_type ty.now) (constructed P (plain_type ty.now)))) }
{
    exprs(walk, scope, actuals, out)?;
    add_construction(walk, ty, out)
}

/// Adds what two operands do.
#[cycle(exprs)]
#[tactic(auto, using(crate::proofs::Reading::joined))]
fn operands(
    walk: Walk<'_>,
    scope: &Scope,
    left: &Expr,
    right: &Expr,
    out: &mut Items<Own>,
) -> Result<(), NoMemory>
    ensures { let P = program_kept walk.entry.kept.now (plain_program walk.entry.program.now) in let L = scope_of scope.now in OnOk result (all_done out.new ≡ all_done out.old ++ (done_by P L (plain_expr left.now) ++ done_by P L (plain_expr right.now))) }
{
    expr(walk, scope, left, out)?;
    expr(walk, scope, right, out)
}

/// Adds what expressions do one after another.
#[cycle(exprs)]
#[tactic(auto, using(crate::proofs::Reading::joined))]
fn exprs(
    walk: Walk<'_>,
    scope: &Scope,
    all: &Items<Expr>,
    out: &mut Items<Own>,
) -> Result<(), NoMemory>
    ensures { let P = program_kept walk.entry.kept.now (plain_program walk.entry.program.now) in let L = scope_of scope.now in OnOk result (all_done out.new ≡ all_done out.old ++ done_by_all P L (exprs_of (map plain_expr all.now))) }
{
    for e in all.as_slice() {
        expr(walk, scope, e, out)?;
    }
    Ok(())
}

/// Adds an access to a field of an object of this type.
#[tactic(auto, using(crate::proofs::Reading::joined))]
pub fn add_field(
    walk: Walk<'_>,
    of: &Ty,
    class: ClassId,
    field: FieldSlot,
    access: Access,
    out: &mut Items<Own>,
) -> Result<(), NoMemory>
    ensures { let P = plain_program walk.entry.program.now in OnOk result (all_done out.new ≡ all_done out.old ++ of_field P (plain_type of.now) (field_at P class.number field.number) (λ a. does (access_to access a))) }
{
    let Some(field) = field_at(walk.alloc, walk.program, class, field)? else {
        return Ok(());
    };
    if let Some((_, args)) = args_of(of) {
        out.push(does(access, subst(walk.alloc, &field.region, args.as_slice())?))?;
    }
    Ok(())
}

/// Adds an access to an element of an array of this type.
#[tactic(auto, using(crate::proofs::Reading::joined))]
pub fn add_element(
    walk: Walk<'_>,
    scope: &Scope,
    array: &Ty,
    index: &Expr,
    access: Access,
    out: &mut Items<Own>,
) -> Result<(), NoMemory>
    ensures { OnOk result (all_done out.new ≡ all_done out.old ++ of_element (scope_of scope.now) (plain_type array.now) (plain_expr index.now) (λ a. does (access_to access a))) }
{
    if let Ty::Array { rpl, .. } = array {
        out.push(does(access, path_at(walk.alloc, rpl, scope.index(index))?))?;
    }
    Ok(())
}

/// Adds an access through a part.
#[tactic(auto, using(crate::proofs::Reading::joined))]
pub fn add_part(
    walk: Walk<'_>,
    scope: &Scope,
    part: Slot,
    access: Access,
    out: &mut Items<Own>,
) -> Result<(), NoMemory>
    ensures { let L = scope_of scope.now in OnOk result (all_done out.new ≡ all_done out.old ++ of_local (L.local part.number) (λ a. uses part.number (access_to access a))) }
{
    if let Some(rpl) = scope.part_copy(walk.alloc, part)? {
        out.push(uses(part, access, rpl))?;
    }
    Ok(())
}
