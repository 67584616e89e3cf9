ghost use Rattle.std.specs.Prelude.{◌≡◌, IfOk, OnOk, option_map};
ghost use Rattle.lang_base.specs.Types.{plain_type};
ghost use Rattle.decl_headers.specs.Faults.{all_noted};
ghost use Rattle.decl_resolve.specs.Classes.{class_faults, class_type};
ghost use Rattle.decl_resolve.specs.Scopes.{plain_scope};
ghost use Rattle.decl_resolve.specs.Written.{base_type, base_faults};

use crate::args::{ReadArgs, fit_args};
use crate::constraints::constraints_hold;
use crate::scope::Scope;
use decl_headers::Faults;
use lang_base::{Items, Kind, NoMemory, Place, Rpl, Ty};
use std::alloc::Global;
use syntax_tree::Named;

/// What a type begins with, before the type is judged.
#[derive(Drop)]
pub enum ReadBase {
    Int,
    Bool,
    /// A class, where there is one of that name, and its region arguments.
    Class {
        name: Named,
        class: Option<u32>,
        args: ReadArgs,
    },
}

/// A written type, before it is judged.
#[derive(Drop)]
pub struct ReadType {
    pub base: ReadBase,
    /// The paths of its suffixes, those that are known.
    pub paths: Items<Rpl>,
    /// The first name of a local region among these paths.
    pub local: Option<Place>,
}

/// Judges what a type at a place begins with.
pub fn base_made(
    alloc: Global,
    scope: &Scope,
    faults: &mut Faults,
    base: ReadBase,
    place: Place,
) -> Result<Option<Ty>, NoMemory>
    ensures faults { OnOk result (faults.new ≡ all_noted faults.old (base_faults (plain_scope scope.now) base place)) }
    ensures made { IfOk result (λ made. option_map plain_type made ≡ base_type (plain_scope scope.now) base) }
{
    match base {
        ReadBase::Int => Ok(Some(Ty::Int)),
        ReadBase::Bool => Ok(Some(Ty::Bool)),
        ReadBase::Class { name, class, args } => {
            class_made(alloc, scope, faults, name, class, args, place)
        }
    }
}

/// The type of a class with region arguments that stands at a place: the class is there, there are as many
/// arguments as parameters, and the constraints of the class hold.
fn class_made(
    alloc: Global,
    scope: &Scope,
    faults: &mut Faults,
    name: Named,
    class: Option<u32>,
    args: ReadArgs,
    place: Place,
) -> Result<Option<Ty>, NoMemory>
    ensures faults { OnOk result (faults.new ≡ all_noted faults.old (class_faults scope.now.headers.now scope.now.classes_given.now scope.now.given.now name class args place)) }
    ensures made { IfOk result (λ made. option_map plain_type made ≡ class_type scope.now.headers.now class args) }
{
    let Some(class) = class else {
        faults.note(Kind::Unknown, name.place);
        return Ok(None);
    };
    let Some(args) = fit_args(alloc, faults, args, scope.class_params(class), place)? else {
        return Ok(None);
    };
    if !constraints_hold(
        alloc,
        scope.class_given(class),
        args.as_slice(),
        scope.given,
    )? {
        faults.note(Kind::Constraint, place);
    }
    Ok(Some(Ty::Class { class, args }))
}
