ghost use Rattle.std.specs.Prelude.{◌≡◌, ℕ, map, IfOk};
ghost use Rattle.lang_base.specs.Types.{plain_type, elem_at, path_at, type_at};
ghost use Rattle.region_types.specs.Depth.{IsDepth};

use crate::depth::Depth;
use lang_base::{Boxed, Elem, Elems, Items, NoMemory, Rpl, Ty};
use std::alloc::Global;

fn elem_at_depth(elem: Elem, depth: Depth, value: Elem) -> Elem
    ensures { (n : ℕ) → IsDepth depth n → result ≡ elem_at n value elem }
{
    if depth.is_own(elem) { value } else { elem }
}

fn path_at_depth(alloc: Global, rpl: &Rpl, depth: Depth, value: Elem) -> Result<Rpl, NoMemory>
    ensures { IfOk result (λ made. (n : ℕ) → IsDepth depth n → made ≡ path_at n value rpl.now) }
{
    let mut elems = Elems::new(alloc);
    for elem in rpl.elems.as_slice() {
        elems.push(elem_at_depth(*elem, depth, value))?;
    }
    Ok(Rpl {
        head: rpl.head,
        elems,
    })
}

fn paths_at_depth(
    alloc: Global,
    paths: &[Rpl],
    depth: Depth,
    value: Elem,
) -> Result<Items<Rpl>, NoMemory>
    ensures { IfOk result (λ made. (n : ℕ) → IsDepth depth n → made ≡ map (path_at n value) paths.now) }
{
    let mut made = Items::new(alloc);
    for path in paths {
        made.push(path_at_depth(alloc, path, depth, value)?)?;
    }
    Ok(made)
}

fn type_at_depth(alloc: Global, t: &Ty, depth: Depth, value: Elem) -> Result<Ty, NoMemory>
    ensures { IfOk result (λ made. (n : ℕ) → IsDepth depth n → plain_type made ≡ type_at n value (plain_type t.now)) }
{
    match t {
        Ty::Int => Ok(Ty::Int),
        Ty::Bool => Ok(Ty::Bool),
        Ty::Void => Ok(Ty::Void),
        Ty::Null => Ok(Ty::Null),
        Ty::Class { class, args } => Ok(Ty::Class {
            class: *class,
            args: paths_at_depth(alloc, args.as_slice(), depth, value)?,
        }),
        Ty::Array { elem, rpl, named } => {
            let inside = depth.inside();
            Ok(Ty::Array {
                elem: Boxed::new(alloc, type_at_depth(alloc, elem.get(), inside, value)?)?,
                rpl: path_at_depth(alloc, rpl, inside, value)?,
                named: *named,
            })
        }
    }
}

/// The path of an array type's elements with an element in place of the array's own index.
pub fn path_at(alloc: Global, rpl: &Rpl, value: Elem) -> Result<Rpl, NoMemory>
    ensures { IfOk result (λ made. made ≡ path_at 0 value rpl.now) }
{
    path_at_depth(alloc, rpl, Depth::outermost(), value)
}

/// The element type of an array type with an element in place of the array's own index.
pub fn type_at(alloc: Global, t: &Ty, value: Elem) -> Result<Ty, NoMemory>
    ensures { IfOk result (λ made. plain_type made ≡ type_at 0 value (plain_type t.now)) }
{
    type_at_depth(alloc, t, Depth::outermost(), value)
}
