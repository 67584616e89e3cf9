ghost use Rattle.std.specs.Prelude.{◌≡◌, ◌++◌, false, true, None, Some, Ok, Err, map, IfOk, OnOk};
ghost use Rattle.std.specs.List.{list_all};
ghost use Rattle.lang_base.specs.Types.{plain_type, type_with};
ghost use Rattle.decl_resolve.specs.Constraints.{all_hold};
ghost use Rattle.body_exprs.specs.Answer.{gives, refused, with_call, Says};
ghost use Rattle.body_exprs.specs.Env.{table_of, given_in};
ghost use Rattle.body_exprs.specs.Partial.{some_mention_partial, is_partial_call};
ghost use Rattle.body_exprs.specs.Typed.{plain_node, plain_typed, value_type, may_be, is_value};
ghost use Rattle.body_exprs.specs.Uses.{args_of, args_reported, callee_params, use_reported, method_through, type_call_of, type_call};

use crate::actuals::{check_use, unknown_args};
use crate::env::Env;
use crate::fitting::{mentions_partial, refused, rigid_in_partial};
use crate::found::Found;
use crate::nodes;
use crate::shapes::shapes_fit;
use crate::typed::Typed;
use decl_headers::{Faults, ParamRow};
use decl_resolve::{IndexNames, ReadArgs, fit_args, read_args};
use decl_table::MethodRow;
use lang_base::{Boxed, Items, Kind, NoMemory, Place, Plain, Rpl, Stop, Ty};
use lang_typed::Expr;
use region_types::subst_type;
use std::alloc::Global;
use syntax_tree::RplTree;

/// Reads region arguments that are to be fully specified.
pub fn read_full_args(env: &Env, trees: &[RplTree], params: &[ParamRow]) -> Result<ReadArgs, Stop>
    ensures read { IfOk result (λ args. args ≡ args_of env.now trees.now) }
    ensures reported { Says result (λ args. None) Some (λ t. args_reported env.now params.now trees.now ≡ t) }
{
    let mut faults = Faults::by_kind();
    let around = IndexNames::none();
    read_args(
        env.alloc,
        &env.scope(),
        &mut faults,
        trees,
        params,
        true,
        &around,
    )
}

/// Reads the region arguments of a call.
pub fn read_call_args(env: &Env, of: &Typed, name: u32, trees: &[RplTree]) -> Result<ReadArgs, Stop>
    ensures read { IfOk result (λ args. args ≡ args_of env.now trees.now) }
    ensures reported { Says result (λ args. None) Some (λ t. args_reported env.now (callee_params (table_of env.now) (value_type of.now) name) trees.now ≡ t) }
{
    read_full_args(env, trees, callee_params(env, of, name))
}

/// The region parameters of the method that a call names.
fn callee_params<'e>(env: &'e Env, of: &Typed, name: u32) -> &'e [ParamRow]
    ensures { result.now ≡ callee_params (table_of env.now) (value_type of.now) name }
{
    let Typed::Known(
        Expr {
            ty: Ty::Class { class, .. },
            ..
        },
    ) = of
    else {
        return &[];
    };
    match env.table().method(*class, name) {
        Some(row) => row.regions.as_slice(),
        None => &[],
    }
}

/// Whether a use through a receiver needs an argument that isn't fully specified: for the type of a formal, or
/// for a result type that is rigid in it.
fn is_partial(row: &MethodRow, owned: &[Rpl]) -> bool
    ensures { result ≡ is_partial_call owned.now row.now }
{
    some_mention_partial(row.params.as_slice(), owned) || rigid_in_partial(&row.result, owned)
}

fn some_mention_partial(types: &[Ty], owned: &[Rpl]) -> bool
    ensures { result ≡ some_mention_partial owned.now types.now }
{
    for ty in types {
        if mentions_partial(ty, owned) {
            return true;
        }
    }
    false
}

/// The receiver's region arguments, and after them those of the call.
fn joined(alloc: Global, owned: &[Rpl], regions: &[Rpl]) -> Result<Items<Rpl>, NoMemory>
    ensures { IfOk result (λ args. args ≡ owned.now ++ regions.now) }
{
    let mut args = Items::new(alloc);
    put_copies(alloc, &mut args, owned)?;
    put_copies(alloc, &mut args, regions)?;
    Ok(args)
}

fn put_copies(alloc: Global, paths: &mut Items<Rpl>, more: &[Rpl]) -> Result<(), NoMemory>
    ensures { OnOk result (paths.new ≡ paths.old ++ more.now) }
{
    for path in more {
        paths.push(path.copy(alloc)?)?;
    }
    Ok(())
}

/// A call whose parts are read. On what fits everywhere the call does.
pub fn call(
    env: &Env,
    found: &mut Found,
    of: Typed,
    name: u32,
    regions: ReadArgs,
    actuals: Items<Typed>,
    place: Place,
) -> Result<Typed, Stop>
    ensures { Says result (λ given. gives (plain_typed given) found.new) refused (λ a. type_call env.now (plain_typed of) name regions (map plain_typed actuals) place found.old ≡ a) }
{
    match of {
        Typed::Known(of) => {
            let (class, row, owned) = called_method(env, &of.ty, name, place)?;
            let owned = owned.as_slice();
            call_of(env, found, of, class, row, owned, regions, actuals, place)
        }
        Typed::Any => {
            if all_values(actuals.as_slice()) {
                Ok(Typed::Any)
            } else {
                Err(refused(Kind::Type, place))
            }
        }
    }
}

fn all_values(actuals: &[Typed]) -> bool
    ensures { result ≡ list_all (may_be is_value) (map value_type actuals.now) }
{
    for actual in actuals {
        if !actual.is_value() {
            return false;
        }
    }
    true
}

/// The class of a receiver of a class type, the method of that name there, and the region arguments of the class that
/// declares it.
fn called_method<'e>(
    env: &'e Env,
    of: &Ty,
    name: u32,
    place: Place,
) -> Result<(u32, &'e MethodRow, Items<Rpl>), Stop>
    ensures { Says result (λ found. Ok (found.0, found.1.now, found.2)) Err (λ a. method_through (table_of env.now) (plain_type of.now) name place ≡ a) }
{
    let Ty::Class { class, args } = of else {
        return Err(refused(Kind::Type, place));
    };
    let Some(row) = env.table().method(*class, name) else {
        return Err(refused(Kind::Unknown, place));
    };
    let owned = env
        .table()
        .args_at(env.alloc, *class, args.as_slice(), row.owner)?;
    match owned {
        Some(owned) => Ok((*class, row, owned)),
        None => Err(refused(Kind::Type, place)),
    }
}

/// A call of a method. The class that declares it has the region arguments `owned`.
fn call_of(
    env: &Env,
    found: &mut Found,
    of: Expr,
    class: u32,
    row: &MethodRow,
    owned: &[Rpl],
    regions: ReadArgs,
    actuals: Items<Typed>,
    place: Place,
) -> Result<Typed, Stop>
    ensures { Says result (λ given. gives (plain_typed given) found.new) refused (λ a. type_call_of env.now (plain_node of) class row.now owned.now regions (map plain_typed actuals) place found.old ≡ a) }
{
    let mut faults = Faults::by_kind();
    match fit_args(
        env.alloc,
        &mut faults,
        regions,
        row.regions.as_slice(),
        place,
    )? {
        Some(regions) => {
            let args = joined(env.alloc, owned, regions.as_slice())?;
            let partial = is_partial(row, owned);
            let args = args.as_slice();
            let ty = call_with(
                env,
                found,
                faults,
                row,
                args,
                partial,
                actuals.as_slice(),
                place,
            )?;
            let number = env.table().row(row.id);
            let actuals = nodes::nodes(env.alloc, actuals, place)?;
            let of = Boxed::new(env.alloc, of)?;
            let form = nodes::call(of, class, number, regions, actuals);
            Ok(Typed::Known(Expr { place, ty, form }))
        }
        None => {
            let fit = shapes_fit(
                env.table().headers(),
                actuals.as_slice(),
                row.params.as_slice(),
            );
            Err(unknown_args(faults, fit, place))
        }
    }
}

/// The type of a call of a method with region arguments, through a receiver that may be partial. Faults may be noted
/// already.
fn call_with(
    env: &Env,
    found: &mut Found,
    faults: Faults,
    row: &MethodRow,
    args: &[Rpl],
    partial: bool,
    actuals: &[Typed],
    place: Place,
) -> Result<Ty, Stop>
    ensures reported { Says result (λ ty. None) Some (λ t. use_reported env.now faults args.now (map value_type actuals.now) row.now.params partial (all_hold (given_in env.now) args.now row.now.given) place ≡ t) }
    ensures ty { IfOk result (λ ty. plain_type ty ≡ type_with args.now (plain_type row.now.result)) }
    ensures found { OnOk result (found.new ≡ with_call (table_of env.now) found.old row.now args.now) }
{
    check_use(
        env,
        faults,
        args,
        actuals,
        row.params.as_slice(),
        row.given.as_slice(),
        partial,
        place,
    )?;
    found.call(env.alloc, env.table(), row, args)?;
    Ok(subst_type(env.alloc, &row.result, args)?)
}
