ghost use Rattle.std.specs.Prelude.{◌≡◌, ◌↔◌, IsTrue, IfOk, option_map};
ghost use Rattle.lang_base.specs.Types.{plain_type, Ordered, superclass, parent_of};

use crate::put_in::subst_type;
use lang_base::{NoMemory, Super, Ty};
use std::alloc::Global;

/// Whether the rows are in the order of their class numbers, one for a class at most.
pub fn is_ordered(supers: &[Super]) -> bool
    ensures { IsTrue result ↔ Ordered supers.now }
{
    for at in 1..supers.len() {
        if supers[at - 1].class >= supers[at].class {
            return false;
        }
    }
    true
}

/// The superclass that a row gives the class.
fn superclass(supers: &[Super], class: u32) -> Option<&Ty>
    requires { Ordered supers.now }
    ensures { option_map (λ t. plain_type t.now) result ≡ superclass supers.now class }
{
    match supers.binary_search_by_key(&class, |row| row.class) {
        Ok(at) => Some(&supers[at].parent),
        Err(_) => None,
    }
}

/// The superclass of a class type, with its region arguments put in.
pub fn parent_of(alloc: Global, t: &Ty, supers: &[Super]) -> Result<Option<Ty>, NoMemory>
    requires { Ordered supers.now }
    ensures { IfOk result (λ above. option_map plain_type above ≡ parent_of supers.now (plain_type t.now)) }
{
    let Ty::Class { class, args } = t else {
        return Ok(None);
    };
    match superclass(supers, *class) {
        None => Ok(None),
        Some(parent) => Ok(Some(subst_type(alloc, parent, args.as_slice())?)),
    }
}
