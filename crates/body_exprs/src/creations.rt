ghost use Rattle.std.specs.Prelude.{◌≡◌, false, None, Some, Ok, Err, map, IfOk, OnOk};
ghost use Rattle.lang_base.specs.Types.{plain_type};
ghost use Rattle.lang_base.specs.Types.{PlainType as plain};
ghost use Rattle.decl_resolve.specs.Classes.{params_in};
ghost use Rattle.decl_resolve.specs.Constraints.{all_hold};
ghost use Rattle.decl_table.specs.Table.{headers_of, constructor_of, given_of};
ghost use Rattle.body_exprs.specs.Answer.{gives, refused, Says};
ghost use Rattle.body_exprs.specs.Env.{table_of, given_in};
ghost use Rattle.body_exprs.specs.Typed.{plain_typed, value_type};
ghost use Rattle.body_exprs.specs.Uses.{args_of, args_reported, created_params, formals_of, use_reported, with_constructor, type_creation_of, type_creation};

use crate::actuals::{check_use, unknown_args};
use crate::calls::read_full_args;
use crate::env::Env;
use crate::fitting::refused;
use crate::found::Found;
use crate::nodes;
use crate::shapes::shapes_fit;
use crate::typed::Typed;
use decl_headers::{Faults, ParamRow};
use decl_resolve::{ReadArgs, fit_args};
use lang_base::{Items, Kind, NoMemory, Place, Rpl, Stop, Ty};
use lang_typed::{Expr, ExprForm};
use syntax_tree::{Named, RplTree};

/// Reads the region arguments of the creation of an object.
pub fn read_new_args(env: &Env, class: Named, trees: &[RplTree]) -> Result<ReadArgs, Stop>
    ensures read { IfOk result (λ args. args ≡ args_of env.now trees.now) }
    ensures reported { Says result (λ args. None) Some (λ t. args_reported env.now (created_params (table_of env.now) class) trees.now ≡ t) }
{
    read_full_args(env, trees, created_params(env, class))
}

/// The region parameters of the class that a creation names.
fn created_params<'e>(env: &'e Env, class: Named) -> &'e [ParamRow]
    ensures { result.now ≡ created_params (table_of env.now) class }
{
    match env.table().headers().class(class.name) {
        Some(number) => class_params(env, number),
        None => &[],
    }
}

fn class_params<'e>(env: &'e Env, class: u32) -> &'e [ParamRow]
    ensures { result.now ≡ params_in (headers_of (table_of env.now)) class }
{
    match env.table().headers().header(class) {
        Some(header) => header.params.as_slice(),
        None => &[],
    }
}

/// The creation of an object, whose parts are read.
pub fn creation(
    env: &Env,
    found: &mut Found,
    class: Named,
    regions: ReadArgs,
    actuals: Items<Typed>,
    place: Place,
) -> Result<Typed, Stop>
    ensures { Says result (λ given. gives (plain_typed given) found.new) refused (λ a. type_creation env.now class regions (map plain_typed actuals) place found.old ≡ a) }
{
    match env.table().headers().class(class.name) {
        Some(number) => creation_of(env, found, number, regions, actuals, place),
        None => Err(refused(Kind::Unknown, class.place)),
    }
}

/// The creation of an object of a class.
fn creation_of(
    env: &Env,
    found: &mut Found,
    class: u32,
    regions: ReadArgs,
    actuals: Items<Typed>,
    place: Place,
) -> Result<Typed, Stop>
    ensures { Says result (λ given. gives (plain_typed given) found.new) refused (λ a. type_creation_of env.now class regions (map plain_typed actuals) place found.old ≡ a) }
{
    let mut faults = Faults::by_kind();
    match fit_args(
        env.alloc,
        &mut faults,
        regions,
        class_params(env, class),
        place,
    )? {
        Some(args) => {
            let shown = actuals.as_slice();
            let ty = creation_with(env, found, faults, class, args, shown, place)?;
            let actuals = nodes::nodes(env.alloc, actuals, place)?;
            let form = ExprForm::New(actuals);
            Ok(Typed::Known(Expr { place, ty, form }))
        }
        None => {
            let fit = shapes_fit(
                env.table().headers(),
                actuals.as_slice(),
                formals(env, class),
            );
            Err(unknown_args(faults, fit, place))
        }
    }
}

/// The type with region arguments, where faults may be noted already.
fn creation_with(
    env: &Env,
    found: &mut Found,
    faults: Faults,
    class: u32,
    args: Items<Rpl>,
    actuals: &[Typed],
    place: Place,
) -> Result<Ty, Stop>
    ensures reported { Says result (λ ty. None) Some (λ t. use_reported env.now faults args (map value_type actuals.now) (formals_of (table_of env.now) class) false (all_hold (given_in env.now) args (given_of (table_of env.now) class)) place ≡ t) }
    ensures ty { IfOk result (λ ty. plain_type ty ≡ plain.class class args) }
    ensures found { OnOk result (found.new ≡ with_constructor (table_of env.now) found.old (constructor_of (table_of env.now) class) args) }
{
    check_use(
        env,
        faults,
        args.as_slice(),
        actuals,
        formals(env, class),
        env.table().given(class),
        false,
        place,
    )?;
    add_constructor(env, found, class, args.as_slice())?;
    Ok(Ty::Class { class, args })
}

/// The formals of the constructor of a class, which without one has none.
fn formals<'e>(env: &'e Env, class: u32) -> &'e [Ty]
    ensures { result.now ≡ formals_of (table_of env.now) class }
{
    match env.table().constructor(class) {
        Some(row) => row.params.as_slice(),
        None => &[],
    }
}

/// Adds what the constructor does, where there is one.
fn add_constructor(env: &Env, found: &mut Found, class: u32, args: &[Rpl]) -> Result<(), NoMemory>
    ensures whole { OnOk result (found.new ≡ with_constructor (table_of env.now) found.old (constructor_of (table_of env.now) class) args.now) }
{
    match env.table().constructor(class) {
        Some(row) => found.call(env.alloc, env.table(), row, args),
        None => Ok(()),
    }
}
