//! Statements of the typed program, each with its plain form in its clause.
ghost use Rattle.std.specs.Prelude.{◌≡◌, map};
ghost use Rattle.lang_base.specs.Types.{plain_type};
ghost use Rattle.lang_typed.specs.Plain.{statement, branches_of, plain_source};
ghost use Rattle.lang_typed.specs.Plain.{StmtForm as form};
ghost use Rattle.body_exprs.specs.Typed.{plain_node as typed_expr};
ghost use Rattle.lang_typed.specs.Plain.{plain_stmt as typed_stmt};
ghost use Rattle.body_check.specs.Checking.{plain_branch, forking_of};
ghost use Rattle.body_check.specs.Simple.{printed_form, stored};
ghost use Rattle.body_exprs.specs.Targeting.{plain_spot};
ghost use Rattle.body_exprs.specs.Typed.{is_boolean};

use body_exprs::Spot;
use lang_base::{Boxed, Items, Place, Ty};
use lang_typed::{Branch, Expr, Forking, PartSource, Slot, Stmt, StmtForm};

/// `print` of an int or a boolean.
#[tactic(auto, using(crate::proofs::Making::printed_boolean, crate::proofs::Making::printed_int))]
pub fn printed(place: Place, value: Expr) -> Stmt
    ensures { typed_stmt result ≡ statement place (printed_form (typed_expr value)) }
{
    let form = if is_boolean(&value.ty) {
        StmtForm::PrintBool(value)
    } else {
        StmtForm::PrintInt(value)
    };
    Stmt { place, form }
}

fn is_boolean(ty: &Ty) -> bool
    ensures { result ≡ is_boolean (plain_type ty.now) }
{
    matches!(ty, Ty::Bool)
}

/// An assignment to a field, to an element, or to an element of a part.
#[tactic(auto, using(crate::proofs::Making::stored_field, crate::proofs::Making::stored_element, crate::proofs::Making::stored_part))]
pub fn stored(place: Place, spot: Spot, value: Expr) -> Stmt
    ensures { typed_stmt result ≡ statement place (stored (plain_spot spot) (typed_expr value)) }
{
    match spot {
        Spot::Field { of, class, field } => Stmt {
            place,
            form: StmtForm::StoreField {
                of,
                class,
                field,
                value,
            },
        },
        Spot::Element { array, index } => Stmt {
            place,
            form: StmtForm::StoreElement {
                array,
                index,
                value,
            },
        },
        Spot::Part { part, index } => Stmt {
            place,
            form: StmtForm::StorePart { part, index, value },
        },
    }
}

/// A `cobegin`.
#[tactic(auto, using(crate::proofs::Making::made_Cobegin))]
pub fn forked(place: Place, nd: bool, branches: Items<Branch>) -> Stmt
    ensures { typed_stmt result ≡ statement place (form.cobegin (forking_of nd) (branches_of (map plain_branch branches))) }
{
    let form = StmtForm::Cobegin {
        forking: forking(nd),
        branches,
    };
    Stmt { place, form }
}

fn forking(nd: bool) -> Forking
    ensures { result ≡ forking_of nd }
{
    if nd {
        Forking::Nondeterministic
    } else {
        Forking::Deterministic
    }
}

/// A `foreach`, whose variable has the slot.
#[tactic(auto, using(crate::proofs::Making::made_Foreach))]
pub fn iterated(place: Place, nd: bool, slot: u32, range: (Expr, Expr), body: Boxed<Stmt>) -> Stmt
    ensures { typed_stmt result ≡ statement place (form.foreach (forking_of nd) slot (typed_expr range.0) (typed_expr range.1) (typed_stmt body)) }
{
    let (start, count) = range;
    let form = StmtForm::Foreach {
        forking: forking(nd),
        slot: Slot { number: slot },
        start,
        count,
        body,
    };
    Stmt { place, form }
}

/// A `foreach_parts`, whose part has the slot.
#[tactic(auto, using(crate::proofs::Making::made_ForeachParts))]
pub fn parted(place: Place, part: u32, source: PartSource, count: Expr, body: Boxed<Stmt>) -> Stmt
    ensures { typed_stmt result ≡ statement place (form.foreach_parts part (plain_source source) (typed_expr count) (typed_stmt body)) }
{
    let form = StmtForm::ForeachParts {
        part: Slot { number: part },
        source,
        count,
        body,
    };
    Stmt { place, form }
}
