ghost use Rattle.std.specs.Prelude.{◌≡◌, ◌↔◌, IsTrue};
ghost use Rattle.lang_base.specs.Effects.{same_rpl};
ghost use Rattle.lang_base.specs.Types.{plain_type, SameType};
ghost use Rattle.region_types.specs.Same.{same_paths, same_type};

use lang_base::{Items, Plain, Rpl, Ty};

/// Whether two region paths are the same.
pub fn same_path(a: &Rpl, b: &Rpl) -> bool
    ensures { result ≡ same_rpl a.now b.now }
{
    a.same(b)
}

fn same_paths(left: &Items<Rpl>, right: &Items<Rpl>) -> bool
    ensures { result ≡ same_paths left.now right.now }
{
    left.same(right)
}

/// Whether two types are the same: it doesn't matter how index names are spelt, nor whether one that is mentioned
/// nowhere is written.
pub fn same_type(a: &Ty, b: &Ty) -> bool
    ensures is { result ≡ same_type (plain_type a.now) (plain_type b.now) }
    ensures means { IsTrue result ↔ SameType (plain_type a.now) (plain_type b.now) }
{
    same_structure(a, b)
}

fn same_structure(a: &Ty, b: &Ty) -> bool
    ensures { result ≡ same_type (plain_type a.now) (plain_type b.now) }
{
    match (a, b) {
        (Ty::Int, Ty::Int) | (Ty::Bool, Ty::Bool) | (Ty::Void, Ty::Void) | (Ty::Null, Ty::Null) =>
            true,
        (
            Ty::Class { class, args },
            Ty::Class {
                class: other_class,
                args: other_args,
            },
        ) => *class == *other_class && same_paths(args, other_args),
        (
            Ty::Array { elem, rpl, .. },
            Ty::Array {
                elem: other_elem,
                rpl: other_rpl,
                ..
            },
        ) => same_path(rpl, other_rpl) && same_structure(elem.get(), other_elem.get()),
        _ => false,
    }
}
