ghost use Rattle.std.specs.Prelude.{◌≡◌, ◌∷◌, ◌++◌, [], map, OnOk};
ghost use Rattle.lang_base.specs.Types.{plain_type};
ghost use Rattle.lang_typed.specs.Plain.{plain_program, plain_expr, type_of};
ghost use Rattle.lang_typed.specs.Scope.{field_at};
ghost use Rattle.lang_typed.specs.Effects.{does, uses, writes};
ghost use Rattle.body_infer.specs.Kept.{program_kept};
ghost use Rattle.body_infer.specs.Doing.{done_by, of_field, of_element, of_local};
ghost use Rattle.body_infer.specs.Walked.{all_done, scope_of, known_as};

use crate::exprs::{add_element, add_field, add_part, expr};
use crate::leaving::Opened;
use crate::numbers::Numbers;
use crate::own::Own;
use crate::scope::{Known, Scope};
use crate::walk::Walk;
use lang_base::{Access, Items, NoMemory, Ty};
use lang_typed::{ClassId, Expr, FieldSlot, LocalRegion, Slot};

/// Adds what the value of a declaration does. The local is in scope after it.
pub fn declare(
    walk: Walk<'_>,
    scope: &mut Scope,
    slot: Slot,
    ty: &Ty,
    is_final: bool,
    value: &Expr,
    opened: &mut Opened,
    out: &mut Items<Own>,
) -> Result<(), NoMemory>
    ensures scope { OnOk result (scope.new ≡ scope.old ++ (record { slot = slot.number; known = known_as is_final (plain_type ty.now) }) ∷ []) }
    ensures variables { OnOk result (opened.new.variables ≡ opened.old.variables ++ slot.number ∷ []) }
    ensures regions { OnOk result (opened.new.regions ≡ opened.old.regions) }
    ensures done { let P = program_kept walk.entry.kept.now (plain_program walk.entry.program.now) in let L = scope_of scope.old in OnOk result (all_done out.new ≡ all_done out.old ++ done_by P L (plain_expr value.now)) }
{
    expr(walk, scope, value, out)?;
    opened.variables.push(slot.number as u64)?;
    scope.put(slot.number as u64, declared(is_final, ty))
}

fn declared(is_final: bool, ty: &Ty) -> Known
    ensures { result ≡ known_as is_final (plain_type ty.now) }
{
    match ty {
        Ty::Int if is_final => Known::Constant,
        _ => Known::Hidden,
    }
}

/// Adds new local regions.
pub fn add_regions(regions: &Items<LocalRegion>, all: &mut Numbers) -> Result<(), NoMemory>
    ensures { OnOk result (all.new ≡ all.old ++ map (λ region. region.number) regions.now) }
{
    for region in regions.as_slice() {
        all.push(region.number as u64)?;
    }
    Ok(())
}

/// Adds what an assignment to a field does.
#[tactic(auto, using(crate::proofs::Reading::joined))]
pub fn store_field(
    walk: Walk<'_>,
    scope: &Scope,
    of: &Expr,
    class: ClassId,
    field: FieldSlot,
    value: &Expr,
    out: &mut Items<Own>,
) -> Result<(), NoMemory>
    ensures { let P = program_kept walk.entry.kept.now (plain_program walk.entry.program.now) in let L = scope_of scope.now in OnOk result (all_done out.new ≡ all_done out.old ++ (done_by P L (plain_expr of.now) ++ (done_by P L (plain_expr value.now) ++ of_field P (type_of (plain_expr of.now)) (field_at P class.number field.number) (λ a. does (writes a))))) }
{
    expr(walk, scope, of, out)?;
    expr(walk, scope, value, out)?;
    add_field(walk, &of.ty, class, field, Access::Write, out)
}

/// Adds what an assignment to an element does.
#[tactic(auto, using(crate::proofs::Reading::joined))]
pub fn store_element(
    walk: Walk<'_>,
    scope: &Scope,
    array: &Expr,
    index: &Expr,
    value: &Expr,
    out: &mut Items<Own>,
) -> Result<(), NoMemory>
    ensures { let P = program_kept walk.entry.kept.now (plain_program walk.entry.program.now) in let L = scope_of scope.now in OnOk result (all_done out.new ≡ all_done out.old ++ (done_by P L (plain_expr array.now) ++ (done_by P L (plain_expr index.now) ++ (done_by P L (plain_expr value.now) ++ of_element L (type_of (plain_expr array.now)) (plain_expr index.now) (λ a. does (writes a)))))) }
{
    expr(walk, scope, array, out)?;
    expr(walk, scope, index, out)?;
    expr(walk, scope, value, out)?;
    add_element(walk, scope, &array.ty, index, Access::Write, out)
}

/// Adds what an assignment to an element of a part does.
#[tactic(auto, using(crate::proofs::Reading::joined))]
pub fn store_part(
    walk: Walk<'_>,
    scope: &Scope,
    part: Slot,
    index: &Expr,
    value: &Expr,
    out: &mut Items<Own>,
) -> Result<(), NoMemory>
    ensures { let P = program_kept walk.entry.kept.now (plain_program walk.entry.program.now) in let L = scope_of scope.now in OnOk result (all_done out.new ≡ all_done out.old ++ (done_by P L (plain_expr index.now) ++ (done_by P L (plain_expr value.now) ++ of_local (L.local part.number) (λ a. uses part.number (writes a))))) }
{
    expr(walk, scope, index, out)?;
    expr(walk, scope, value, out)?;
    add_part(walk, scope, part, Access::Write, out)
}
