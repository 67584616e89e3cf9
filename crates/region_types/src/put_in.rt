ghost use Rattle.std.specs.Prelude.{◌≡◌, map, IfOk};
ghost use Rattle.lang_base.specs.Regions.{substituted};
ghost use Rattle.lang_base.specs.Types.{plain_type, type_with};

use lang_base::{Boxed, Items, NoMemory, Plain, Rpl, Ty};
use region_paths::subst;
use std::alloc::Global;

/// Paths with their arguments put in.
fn put_in_paths(alloc: Global, paths: &[Rpl], args: &[Rpl]) -> Result<Items<Rpl>, NoMemory>
    ensures { IfOk result (λ made. made ≡ map (substituted args.now) paths.now) }
{
    let mut made = Items::new(alloc);
    for path in paths {
        made.push(subst(alloc, path, args)?)?;
    }
    Ok(made)
}

/// The type with an argument put in for each region parameter; a parameter that has none stays. It is meant
/// for arguments that mention no index of an array type.
pub fn subst_type(alloc: Global, t: &Ty, args: &[Rpl]) -> Result<Ty, NoMemory>
    ensures { IfOk result (λ made. plain_type made ≡ type_with args.now (plain_type t.now)) }
{
    match t {
        Ty::Int => Ok(Ty::Int),
        Ty::Bool => Ok(Ty::Bool),
        Ty::Void => Ok(Ty::Void),
        Ty::Null => Ok(Ty::Null),
        Ty::Class { class, args: paths } => Ok(Ty::Class {
            class: *class,
            args: put_in_paths(alloc, paths.as_slice(), args)?,
        }),
        Ty::Array { elem, rpl, named } => Ok(Ty::Array {
            elem: Boxed::new(alloc, subst_type(alloc, elem.get(), args)?)?,
            rpl: subst(alloc, rpl, args)?,
            named: *named,
        }),
    }
}
