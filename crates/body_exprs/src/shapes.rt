ghost use Rattle.std.specs.Prelude.{◌≡◌, map};
ghost use Rattle.lang_base.specs.Types.{plain_type};
ghost use Rattle.body_exprs.specs.Shapes.{may_equal, may_be_subtype, may_fit, shapes_fit};
ghost use Rattle.body_exprs.specs.Typed.{value_type};

use crate::typed::Typed;
use decl_headers::Headers;
use lang_base::Ty;

/// Whether there are as many values as declared types, and each may stand where the one at its place is declared, for
/// some regions.
pub fn shapes_fit(headers: &Headers, actuals: &[Typed], declared: &[Ty]) -> bool
    ensures { result ≡ shapes_fit headers.now (map value_type actuals.now) declared.now }
{
    if actuals.len() != declared.len() {
        return false;
    }
    for i in 0..actuals.len() {
        if !may_fit(headers, &actuals[i], &declared[i]) {
            return false;
        }
    }
    true
}

/// Whether a value may stand where the type is declared, for some regions.
fn may_fit(headers: &Headers, value: &Typed, declared: &Ty) -> bool
    ensures { result ≡ may_fit headers.now (value_type value.now) (plain_type declared.now) }
{
    match value {
        Typed::Known(value) => may_be_subtype(headers, &value.ty, declared),
        Typed::Any => true,
    }
}

/// Whether the one type is a subtype of the other for some regions.
fn may_be_subtype(headers: &Headers, value: &Ty, declared: &Ty) -> bool
    ensures { result ≡ may_be_subtype headers.now (plain_type value.now) (plain_type declared.now) }
{
    match (value, declared) {
        (Ty::Int, Ty::Int) | (Ty::Bool, Ty::Bool) => true,
        (Ty::Null, Ty::Class { .. } | Ty::Array { .. }) => true,
        (Ty::Class { class, .. }, Ty::Class { class: other, .. }) => {
            headers.is_below(*class, *other)
        }
        (Ty::Array { elem, .. }, Ty::Array { elem: other, .. }) => {
            may_equal(elem.get(), other.get())
        }
        _ => false,
    }
}

/// Whether two types are the same for some regions.
fn may_equal(a: &Ty, b: &Ty) -> bool
    ensures { result ≡ may_equal (plain_type a.now) (plain_type b.now) }
{
    match (a, b) {
        (Ty::Int, Ty::Int) | (Ty::Bool, Ty::Bool) => true,
        (Ty::Class { class, .. }, Ty::Class { class: other, .. }) => *class == *other,
        (Ty::Array { elem, .. }, Ty::Array { elem: other, .. }) => {
            may_equal(elem.get(), other.get())
        }
        _ => false,
    }
}
