ghost use Rattle.std.specs.Prelude.{◌≡◌, ◌&&◌, ◌++◌, [], map, IfOk, OnOk};
ghost use Rattle.std.specs.Option.{option_copied};
ghost use Rattle.lang_base.specs.Effects.{gathered};
ghost use Rattle.decl_headers.specs.Faults.{all_noted};
ghost use Rattle.decl_classes.specs.Overriding.{same_kinds, same_path_with, same_constraints, same_with, same_types, fits, effect_with, is_covered, override_fault, param_path, params_from, param_count, args_in, overridden_row, row_faults, override_faults};
ghost use Rattle.decl_table.specs.Table.{methods_of};

use decl_headers::{Faults, Headers, ParamRow, number_at};
use decl_table::{MethodRow, Table};
use lang_base::{Constraint, Effect, Elems, Head, Items, Kind, NoMemory, Rpl, Ty};
use region_effects::EffectSet;
use region_paths::subst;
use region_types::{same_path, same_type, subst_type};
use std::alloc::Global;

/// Notes each method that doesn't fit the one that it overrides.
#[tactic(auto, using(decl_headers::proofs::Noting::noting))]
pub fn check_overriding(alloc: Global, table: &Table, faults: &mut Faults) -> Result<(), NoMemory>
    ensures { OnOk result (faults.new ≡ all_noted faults.old (override_faults table.now (methods_of table.now))) }
{
    for row in table.methods() {
        check_row(alloc, table, row, faults)?;
    }
    Ok(())
}

fn check_row(
    alloc: Global,
    table: &Table,
    row: &MethodRow,
    faults: &mut Faults,
) -> Result<(), NoMemory>
    ensures { OnOk result (faults.new ≡ all_noted faults.old (row_faults table.now row.now)) }
{
    let Some(overridden) = overridden_row(table, row) else {
        return Ok(());
    };
    let args = region_args(alloc, table, row, overridden.owner)?;
    check_method(alloc, row, overridden, args.as_slice(), faults)
}

/// The method that a method overrides.
fn overridden_row<'a>(table: &'a Table, row: &MethodRow) -> Option<&'a MethodRow>
    ensures { option_copied result ≡ overridden_row table.now row.now }
{
    table.numbered(table.overrides(row.id)?)
}

/// Notes a method that doesn't fit the one that it overrides, with region arguments put in there.
fn check_method(
    alloc: Global,
    row: &MethodRow,
    overridden: &MethodRow,
    args: &[Rpl],
    faults: &mut Faults,
) -> Result<(), NoMemory>
    ensures { OnOk result (faults.new ≡ all_noted faults.old (override_fault args.now row.now overridden.now)) }
{
    if !fits(alloc, row, overridden, args)? {
        faults.note(Kind::Override, row.place);
    } else if !is_covered(alloc, row, overridden, args)? {
        faults.note(Kind::OverrideEffect, row.place);
    }
    Ok(())
}

fn param(alloc: Global, number: u32) -> Rpl
    ensures { result ≡ param_path number }
{
    Rpl {
        head: Head::Param(number),
        elems: Elems::new(alloc),
    }
}

/// Puts so many region parameters after paths, counted on from a number.
#[tactic(auto, using(crate::proofs::Params::params_more))]
fn add_params(alloc: Global, paths: &mut Items<Rpl>, from: u32, count: u32) -> Result<(), NoMemory>
    ensures { OnOk result (paths.new ≡ paths.old ++ params_from from count) }
{
    for at in 0..count {
        paths.push(param(alloc, from.saturating_add(at)))?;
    }
    Ok(())
}

/// How many region parameters a class has.
fn param_count(headers: &Headers, class: u32) -> u32
    ensures { result ≡ param_count headers.now class }
{
    match headers.header(class) {
        Some(header) => number_at(header.params.len()),
        None => 0,
    }
}

/// What the region parameters of a superclass, and after them those of a method of it, are in a method that
/// overrides it.
fn region_args(
    alloc: Global,
    table: &Table,
    row: &MethodRow,
    owner: u32,
) -> Result<Items<Rpl>, NoMemory>
    ensures { IfOk result (λ args. args ≡ args_in table.now row.now owner) }
{
    let of_class = param_count(table.headers(), row.owner);
    let mut own = Items::new(alloc);
    add_params(alloc, &mut own, 0, of_class)?;
    let mut args = match table.args_at(alloc, row.owner, own.as_slice(), owner)? {
        Some(args) => args,
        None => Items::new(alloc),
    };
    add_params(alloc, &mut args, of_class, number_at(row.regions.len()))?;
    Ok(args)
}

/// Whether a method has the region parameters, constraints, types of formals and result of the one that it
/// overrides, up to names, with region arguments put in there.
fn fits(
    alloc: Global,
    row: &MethodRow,
    overridden: &MethodRow,
    args: &[Rpl],
) -> Result<bool, NoMemory>
    ensures { IfOk result (λ fit. fit ≡ fits args.now row.now overridden.now) }
{
    Ok(
        same_kinds(row.regions.as_slice(), overridden.regions.as_slice())
            && same_constraints(
                alloc,
                row.given.as_slice(),
                overridden.given.as_slice(),
                args,
            )?
            && same_types(
                alloc,
                row.params.as_slice(),
                overridden.params.as_slice(),
                args,
            )?
            && same_with(alloc, &row.result, &overridden.result, args)?,
    )
}

fn same_kinds(own: &[ParamRow], others: &[ParamRow]) -> bool
    ensures { result ≡ same_kinds own.now others.now }
{
    if own.len() != others.len() {
        return false;
    }
    for i in 0..own.len() {
        if own[i].atomic != others[i].atomic {
            return false;
        }
    }
    true
}

fn same_constraints(
    alloc: Global,
    own: &[Constraint],
    others: &[Constraint],
    args: &[Rpl],
) -> Result<bool, NoMemory>
    ensures { IfOk result (λ same. same ≡ same_constraints args.now own.now others.now) }
{
    if own.len() != others.len() {
        return Ok(false);
    }
    for i in 0..own.len() {
        if !same_constraint(alloc, &own[i], &others[i], args)? {
            return Ok(false);
        }
    }
    Ok(true)
}

fn same_constraint(
    alloc: Global,
    own: &Constraint,
    other: &Constraint,
    args: &[Rpl],
) -> Result<bool, NoMemory>
    ensures { IfOk result (λ same. same ≡ (same_path_with args.now own.now.left other.now.left && same_path_with args.now own.now.right other.now.right)) }
{
    let left = subst(alloc, &other.left, args)?;
    let right = subst(alloc, &other.right, args)?;
    Ok(same_path(&own.left, &left) && same_path(&own.right, &right))
}

fn same_types(alloc: Global, own: &[Ty], others: &[Ty], args: &[Rpl]) -> Result<bool, NoMemory>
    ensures { IfOk result (λ same. same ≡ same_types args.now own.now others.now) }
{
    if own.len() != others.len() {
        return Ok(false);
    }
    for i in 0..own.len() {
        if !same_with(alloc, &own[i], &others[i], args)? {
            return Ok(false);
        }
    }
    Ok(true)
}

/// Whether a type is the other one with region arguments put in.
fn same_with(alloc: Global, own: &Ty, other: &Ty, args: &[Rpl]) -> Result<bool, NoMemory>
    ensures { IfOk result (λ same. same ≡ same_with args.now own.now other.now) }
{
    Ok(same_type(own, &subst_type(alloc, other, args)?))
}

/// Whether the summary of a method is covered by that of the one that it overrides.
fn is_covered(
    alloc: Global,
    row: &MethodRow,
    overridden: &MethodRow,
    args: &[Rpl],
) -> Result<bool, NoMemory>
    ensures { IfOk result (λ covered. covered ≡ is_covered args.now row.now overridden.now) }
{
    let summary = summary_with(alloc, &overridden.summary, args)?;
    Ok(summary.set_covers(&row.summary))
}

/// A summary with region arguments put in.
fn summary_with(alloc: Global, summary: &EffectSet, args: &[Rpl]) -> Result<EffectSet, NoMemory>
    ensures { IfOk result (λ made. made ≡ gathered [] (map (effect_with args.now) summary.now)) }
{
    let mut made = EffectSet::new(alloc);
    for effect in summary.as_slice() {
        made.add(Effect {
            access: effect.access,
            atomic: effect.atomic,
            rpl: subst(alloc, &effect.rpl, args)?,
        })?;
    }
    Ok(made)
}
