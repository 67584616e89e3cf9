ghost use Rattle.std.specs.Prelude.{◌≡◌, None, Some, Ok, Err, IfOk};
ghost use Rattle.std.specs.Option.{option_copied};
ghost use Rattle.lang_base.specs.Types.{plain_type};
ghost use Rattle.decl_resolve.specs.Reading.{path_meant, path_faults};
ghost use Rattle.decl_resolve.specs.Index.{plain_index};
ghost use Rattle.body_exprs.specs.declared.found.Found.{Found};
ghost use Rattle.body_exprs.specs.Answer.{gives, refused, Says};
ghost use Rattle.body_exprs.specs.Arrays.{front_of, front_reported, full_path, around_own, own_path, own_place, array_with, created_array};
ghost use Rattle.body_exprs.specs.Env.{scope_of};
ghost use Rattle.body_exprs.specs.Refusing.{reported_first};
ghost use Rattle.body_exprs.specs.Typed.{node_at, plain_typed, value_type};
ghost use Rattle.body_exprs.specs.Typing.{answer, created};

use crate::actuals::note_if;
use crate::env::Env;
use crate::fitting::refused;
use crate::typed::Typed;
use decl_headers::Faults;
use decl_resolve::{IndexNames, Need, ReadType, array_made, path, read_type, root};
use lang_base::{Boxed, Kind, Place, Rpl, Stop, Ty};
use lang_typed::{Expr, ExprForm};
use syntax_tree::{BaseTree, RplTree};

/// Reads what stands in front of the length of an array creation.
pub fn read_array(env: &Env, base: &BaseTree, around: IndexNames) -> Result<ReadType, Stop>
    ensures read { IfOk result (λ read. read ≡ front_of env.now (plain_index around.entry) base.now) }
    ensures reported { Says result (λ read. None) Some (λ t. front_reported env.now (plain_index around.entry) base.now ≡ t) }
{
    let mut faults = Faults::by_kind();
    read_type(env.alloc, &env.scope(), &mut faults, base, around)
}

/// The region of the elements of a created array: `Root` where none is written.
fn own_path(env: &Env, rpl: Option<&RplTree>, around: IndexNames) -> Result<Rpl, Stop>
    ensures { Says result (λ own. Ok own) Err (λ a. own_path env.now (plain_index around.entry) (option_copied rpl.entry) ≡ a) }
{
    let Some(tree) = rpl else {
        return Ok(root(env.alloc));
    };
    match read_path(env, tree, around)? {
        Some(rpl) => Ok(rpl),
        None => Err(refused(Kind::Unknown, tree.place)),
    }
}

/// Reads the region path, which is to be fully specified.
fn read_path(env: &Env, tree: &RplTree, around: IndexNames) -> Result<Option<Rpl>, Stop>
    ensures read { IfOk result (λ rpl. rpl ≡ path_meant (scope_of env.now) (around_own (plain_index around.entry)) tree.now) }
    ensures reported { Says result (λ rpl. None) Some (λ t. reported_first (path_faults (scope_of env.now) (around_own (plain_index around.entry)) full_path tree.now) ≡ t) }
{
    let mut faults = Faults::by_kind();
    let need = Need {
        full: true,
        atomic: false,
    };
    let around = around.at_suffix(around.suffixes.len());
    path(env.alloc, &env.scope(), &mut faults, tree, need, &around)
}

/// The place of a written path, else that of the creation.
fn own_place(rpl: Option<&RplTree>, place: Place) -> Place
    ensures { result ≡ own_place (option_copied rpl.entry) place }
{
    match rpl {
        Some(tree) => tree.place,
        None => place,
    }
}

/// An array creation whose parts are read up to its length.
pub fn array_creation(
    env: &Env,
    read: ReadType,
    length: Typed,
    rpl: Option<&RplTree>,
    around: IndexNames,
    place: Place,
) -> Result<Typed, Stop>
    ensures { (found : Found) → Says result (λ given. gives (plain_typed given) found) refused (λ a. answer (created place (node_at place (plain_typed length)) (created_array env.now (plain_index around.entry) read (value_type length) (option_copied rpl.entry) place)) found ≡ a) }
{
    let own = own_path(env, rpl, around)?;
    let own_place = own_place(rpl, place);
    let is_length = length.is_int();
    let ty = array_with(env, read, is_length, own, around, own_place, place)?;
    let length = Boxed::new(env.alloc, length.into_node(place))?;
    let form = ExprForm::NewArray(length);
    Ok(Typed::Known(Expr { place, ty, form }))
}

/// The type of an array creation with the region of its elements, where the length is an int or not.
fn array_with(
    env: &Env,
    read: ReadType,
    is_length: bool,
    own: Rpl,
    around: IndexNames,
    own_place: Place,
    place: Place,
) -> Result<Ty, Stop>
    ensures { Says result (λ ty. Ok (plain_type ty)) Err (λ a. array_with env.now (plain_index around.entry) read is_length (Ok own) own_place place ≡ a) }
{
    let mut faults = Faults::by_kind();
    note_if(&mut faults, !is_length, Kind::Type, place);
    let scope = env.scope();
    let made = array_made(
        env.alloc,
        &scope,
        &mut faults,
        read,
        own,
        around,
        own_place,
        place,
    )?;
    faults.settle()?;
    match made {
        Some(ty) => Ok(ty),
        None => Err(refused(Kind::RegionArgs, place)),
    }
}
