ghost use Rattle.std.specs.Prelude.{◌≡◌, ◌↔◌, length, IsTrue, IfOk};
ghost use Rattle.lang_base.specs.Types.{plain_type, all_within, class_within, below_class, Ordered, ArrayWithin, Subtype};

use crate::same::same_type;
use crate::supers::parent_of;
use lang_base::{NoMemory, Plain, Rpl, Super, Ty};
use region_paths::includes;
use std::alloc::Global;

/// Whether a value of the first type may be used where one of the second is asked for.
pub fn subtype(alloc: Global, a: &Ty, b: &Ty, supers: &[Super]) -> Result<bool, NoMemory>
    requires { Ordered supers.now }
    ensures { IfOk result (λ yes. IsTrue yes ↔ Subtype supers.now (plain_type a.now) (plain_type b.now)) }
{
    match (a, b) {
        (Ty::Int, Ty::Int)
        | (Ty::Bool, Ty::Bool)
        | (Ty::Void, Ty::Void)
        | (Ty::Null, Ty::Null | Ty::Class { .. } | Ty::Array { .. }) => Ok(true),
        (Ty::Class { .. }, Ty::Class { .. }) => below_class(alloc, a, b, supers),
        (
            Ty::Array { elem, rpl, .. },
            Ty::Array {
                elem: other_elem,
                rpl: other_rpl,
                ..
            },
        ) => Ok(array_within(elem.get(), rpl, other_elem.get(), other_rpl)),
        _ => Ok(false),
    }
}

/// Whether the regions of the elements lie in the other's, and the element types are the same.
fn array_within(elem: &Ty, rpl: &Rpl, other_elem: &Ty, other_rpl: &Rpl) -> bool
    ensures { IsTrue result ↔ ArrayWithin (plain_type elem.now) rpl.now (plain_type other_elem.now) other_rpl.now }
{
    includes(other_rpl, rpl) && same_type(elem, other_elem)
}

fn all_within(inner: &[Rpl], outer: &[Rpl]) -> bool
    ensures { result ≡ all_within inner.now outer.now }
{
    if inner.len() != outer.len() {
        return false;
    }
    for i in 0..inner.len() {
        if !includes(&outer[i], &inner[i]) {
            return false;
        }
    }
    true
}

fn class_within(a: &Ty, b: &Ty) -> bool
    ensures { result ≡ class_within (plain_type a.now) (plain_type b.now) }
{
    match (a, b) {
        (
            Ty::Class { class, args },
            Ty::Class {
                class: other_class,
                args: other_args,
            },
        ) => *class == *other_class && all_within(args.as_slice(), other_args.as_slice()),
        _ => false,
    }
}

/// Whether the class type or one of its superclasses lies in the other class type.
fn below_class(alloc: Global, a: &Ty, b: &Ty, supers: &[Super]) -> Result<bool, NoMemory>
    requires { Ordered supers.now }
    ensures { IfOk result (λ yes. yes ≡ below_class supers.now (length supers.now) (plain_type a.now) (plain_type b.now)) }
{
    let mut above = a.copy(alloc)?;
    for step in 0..supers.len() {
        if class_within(&above, b) {
            return Ok(true);
        }
        match parent_of(alloc, &above, supers)? {
            None => return Ok(false),
            Some(parent) => above = parent,
        }
    }
    Ok(class_within(&above, b))
}
