ghost use Rattle.std.specs.Prelude.{◌≡◌, ℕ};
ghost use Rattle.std.specs.List.{list_any};
ghost use Rattle.lang_base.specs.Types.{plain_type, has_param, mentions_param, rigid_in_param, has_index, mentions_index, rigid_in_index};
ghost use Rattle.region_types.specs.Depth.{IsDepth};

use crate::depth::Depth;
use lang_base::{Head, Rpl, Ty};

fn has_param(rpl: &Rpl, param: u32) -> bool
    ensures { result ≡ has_param param rpl.now }
{
    match rpl.head {
        Head::Root => false,
        Head::Param(p) => p == param,
    }
}

fn some_has_param(paths: &[Rpl], param: u32) -> bool
    ensures { result ≡ list_any (has_param param) paths.now }
{
    for path in paths {
        if has_param(path, param) {
            return true;
        }
    }
    false
}

/// Whether some region path in the type begins with the region parameter of that number.
pub fn mentions(t: &Ty, param: u32) -> bool
    ensures { result ≡ mentions_param param (plain_type t.now) }
{
    match t {
        Ty::Class { args, .. } => some_has_param(args.as_slice(), param),
        Ty::Array { elem, rpl, .. } => has_param(rpl, param) || mentions(elem.get(), param),
        _ => false,
    }
}

/// Whether the type mentions the region parameter inside the element type of an array. Such a type has no
/// subtype that differs there.
pub fn rigid(t: &Ty, param: u32) -> bool
    ensures { result ≡ rigid_in_param param (plain_type t.now) }
{
    match t {
        Ty::Array { elem, .. } => mentions(elem.get(), param),
        _ => false,
    }
}

fn has_index(rpl: &Rpl, depth: Depth) -> bool
    ensures { (n : ℕ) → IsDepth depth n → result ≡ has_index n rpl.now }
{
    for elem in rpl.elems.as_slice() {
        if depth.is_own(*elem) {
            return true;
        }
    }
    false
}

fn some_has_index(paths: &[Rpl], depth: Depth) -> bool
    ensures { (n : ℕ) → IsDepth depth n → result ≡ list_any (has_index n) paths.now }
{
    for path in paths {
        if has_index(path, depth) {
            return true;
        }
    }
    false
}

fn mentions_at_depth(t: &Ty, depth: Depth) -> bool
    ensures { (n : ℕ) → IsDepth depth n → result ≡ mentions_index n (plain_type t.now) }
{
    match t {
        Ty::Class { args, .. } => some_has_index(args.as_slice(), depth),
        Ty::Array { elem, rpl, .. } => {
            let inside = depth.inside();
            has_index(rpl, inside) || mentions_at_depth(elem.get(), inside)
        }
        _ => false,
    }
}

/// Whether the element type of an array type mentions the array's own index.
pub fn mentions_index(t: &Ty) -> bool
    ensures { result ≡ mentions_index 0 (plain_type t.now) }
{
    mentions_at_depth(t, Depth::outermost())
}

/// Whether the element type of an array type is an array type whose element type mentions the outer array's own
/// index. Such a type has no subtype that differs there.
pub fn rigid_in_index(t: &Ty) -> bool
    ensures { result ≡ rigid_in_index 0 (plain_type t.now) }
{
    match t {
        Ty::Array { elem, .. } => mentions_at_depth(elem.get(), Depth::outermost().inside()),
        _ => false,
    }
}
