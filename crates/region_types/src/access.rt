ghost use Rattle.std.specs.Prelude.{◌≡◌, IfOk, option_map};
ghost use Rattle.lang_base.specs.Types.{plain_type};
ghost use Rattle.region_types.specs.Access.{plain_element, index_elem, element_of};

use crate::parts::Element;
use crate::{mentions_index, path_at, rigid_in_index, type_at};
use lang_base::{Elem, Index, NoMemory, Ty};
use std::alloc::Global;

fn index_elem(index: Option<Index>) -> Elem
    ensures { result ≡ index_elem index }
{
    match index {
        Some(index) => Elem::At(index),
        None => Elem::Any,
    }
}

/// The element of an array type at an index, which takes the place of the array's own: a literal, an index
/// variable, or None for any other expression. The answer is None where the type is no array type.
pub fn element(alloc: Global, array: &Ty, index: Option<Index>) -> Result<Option<Element>, NoMemory>
    ensures { IfOk result (λ found. option_map plain_element found ≡ element_of (plain_type array.now) index) }
{
    let Ty::Array { elem, rpl, .. } = array else {
        return Ok(None);
    };
    let value = index_elem(index);
    Ok(Some(Element {
        ty: type_at(alloc, elem.get(), value)?,
        rpl: path_at(alloc, rpl, value)?,
        may_read: index.is_some() || !rigid_in_index(elem.get()),
        may_write: index.is_some() || !mentions_index(elem.get()),
    }))
}
