ghost use Rattle.std.specs.Prelude.{◌≡◌, IfOk};
ghost use Rattle.lang_base.specs.Types.{plain_type};
ghost use Rattle.lang_typed.specs.Resolved.{is_void};
ghost use Rattle.lang_meaning.specs.Expressions.{class_in};
ghost use Rattle.code_instrs.specs.Plain.{plain_site, new_site};
ghost use Rattle.code_scheme.specs.Scheme.{site_of_array};

use code_instrs::Site;
use lang_base::{Elems, FirstValue, Head, Items, NoMemory, Plain, Rpl, Ty};
use std::alloc::Global;

/// The site of a creation of an object of that type.
pub fn new_site(alloc: Global, ty: &Ty, formals: usize) -> Result<Site, NoMemory>
    ensures { IfOk result (λ site. plain_site site ≡ new_site (class_in (plain_type ty.now)).0 formals (class_in (plain_type ty.now)).1) }
{
    match ty {
        Ty::Class { class, args } => Ok(Site::New {
            class: *class,
            formals,
            regions: args.copy(alloc)?,
        }),
        _ => Ok(Site::New {
            class: 0,
            formals,
            regions: Items::new(alloc),
        }),
    }
}

/// The site of a creation of an array of that type.
pub fn array_site(alloc: Global, ty: &Ty) -> Result<Site, NoMemory>
    ensures { IfOk result (λ site. plain_site site ≡ site_of_array (plain_type ty.now)) }
{
    match ty {
        Ty::Array { elem, rpl, .. } => Ok(Site::Array {
            region: rpl.copy(alloc)?,
            first: FirstValue::of(elem.get()),
        }),
        _ => Ok(Site::Array {
            region: Rpl {
                head: Head::Root,
                elems: Elems::new(alloc),
            },
            first: FirstValue::Null,
        }),
    }
}

/// Whether it is the type of what gives no value.
pub fn is_void(ty: &Ty) -> bool
    ensures { result ≡ is_void (plain_type ty.now) }
{
    matches!(ty, Ty::Void)
}
