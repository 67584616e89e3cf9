ghost use Rattle.std.specs.Prelude.{◌≡◌, map, IfOk, OnOk};
ghost use Rattle.lang_base.specs.Types.{plain_type};
ghost use Rattle.decl_headers.specs.Faults.{all_noted};
ghost use Rattle.decl_resolve.specs.declared.scope.Site.TheVariants.{Signature as InSignature};
ghost use Rattle.decl_resolve.specs.Classes.{class_args};
ghost use Rattle.decl_resolve.specs.Reading.{args_read};
ghost use Rattle.decl_resolve.specs.Index.{no_index};
ghost use Rattle.decl_resolve.specs.Scopes.{plain_scope};
ghost use Rattle.decl_table.specs.Plain.{plain_field};
ghost use Rattle.decl_classes.specs.Rows.{field_row, field_faults};
ghost use Rattle.decl_classes.specs.Signatures.{known_type, known_type_faults, region_of_field, field_region_faults, formal_types, formal_faults, result_type, result_faults, parent_arg_faults, fit_faults, parent_meant, parent_faults};

use crate::around::read_path;
use decl_headers::Faults;
use decl_resolve::{IndexNames, ReadArgs, Scope, constraints_hold, fit_args, read_args, root, ty};
use decl_table::FieldRow;
use lang_base::{Items, Kind, NoMemory, Rpl, Stop, Ty};
use std::alloc::Global;
use syntax_tree::{Field, Formal, MethodResult, Parent, RplTree, TypeTree};

/// Reads a type. `void` where it isn't known.
#[tactic(auto, using(crate::proofs::Parts::parts))]
fn read_type(
    alloc: Global,
    scope: &Scope,
    faults: &mut Faults,
    tree: &TypeTree,
) -> Result<Ty, NoMemory>
    requires { scope.now.site ≡ InSignature }
    ensures meant { IfOk result (λ made. plain_type made ≡ known_type (plain_scope scope.now) tree.now) }
    ensures noted { OnOk result (faults.new ≡ all_noted faults.old (known_type_faults (plain_scope scope.now) tree.now)) }
{
    match ty(alloc, scope, faults, tree) {
        Ok(Some(made)) => Ok(made),
        Ok(None) => Ok(Ty::Void),
        Err(Stop::NoMemory) => Err(NoMemory),
        Err(Stop::Refused(_)) => unreachable!(),
    }
}

/// Reads the region of a field, which is fully specified. `Root` where none is written or it isn't known.
fn read_region(
    alloc: Global,
    scope: &Scope,
    faults: &mut Faults,
    region: &Option<RplTree>,
) -> Result<Rpl, NoMemory>
    requires { scope.now.site ≡ InSignature }
    ensures meant { IfOk result (λ rpl. rpl ≡ region_of_field (plain_scope scope.now) region.now) }
    ensures noted { OnOk result (faults.new ≡ all_noted faults.old (field_region_faults (plain_scope scope.now) region.now)) }
{
    let Some(tree) = region else {
        return Ok(root(alloc));
    };
    match read_path(alloc, scope, faults, tree, true)? {
        Some(rpl) => Ok(rpl),
        None => Ok(root(alloc)),
    }
}

/// Reads a field.
#[tactic(auto, using(decl_headers::proofs::Noting::noting))]
pub fn read_field(
    alloc: Global,
    scope: &Scope,
    faults: &mut Faults,
    field: &Field,
    slot: u32,
) -> Result<FieldRow, NoMemory>
    requires { scope.now.site ≡ InSignature }
    ensures meant { IfOk result (λ row. plain_field row ≡ field_row (plain_scope scope.now) slot field.now) }
    ensures noted { OnOk result (faults.new ≡ all_noted faults.old (field_faults (plain_scope scope.now) field.now)) }
{
    let ty = read_type(alloc, scope, faults, &field.ty)?;
    let rpl = read_region(alloc, scope, faults, &field.region)?;
    Ok(FieldRow {
        name: field.name,
        slot,
        owner: scope.class,
        ty,
        rpl,
    })
}

#[tactic(auto, using(decl_headers::proofs::Noting::noting))]
pub fn read_formals(
    alloc: Global,
    scope: &Scope,
    faults: &mut Faults,
    formals: &[Formal],
) -> Result<Items<Ty>, NoMemory>
    requires { scope.now.site ≡ InSignature }
    ensures meant { IfOk result (λ params. map plain_type params ≡ formal_types (plain_scope scope.now) formals.now) }
    ensures noted { OnOk result (faults.new ≡ all_noted faults.old (formal_faults (plain_scope scope.now) formals.now)) }
{
    let mut params = Items::new(alloc);
    for formal in formals {
        params.push(read_type(alloc, scope, faults, &formal.ty)?)?;
    }
    Ok(params)
}

pub fn read_result(
    alloc: Global,
    scope: &Scope,
    faults: &mut Faults,
    tree: &MethodResult,
) -> Result<Ty, NoMemory>
    requires { scope.now.site ≡ InSignature }
    ensures meant { IfOk result (λ made. plain_type made ≡ result_type (plain_scope scope.now) tree.now) }
    ensures noted { OnOk result (faults.new ≡ all_noted faults.old (result_faults (plain_scope scope.now) tree.now)) }
{
    match tree {
        MethodResult::Constructor | MethodResult::Void => Ok(Ty::Void),
        MethodResult::Value(written) => read_type(alloc, scope, faults, written),
    }
}

/// Reads the superclass with its region arguments, which are fully specified.
#[tactic(auto, using(decl_headers::proofs::Noting::noting))]
pub fn read_parent(
    alloc: Global,
    scope: &Scope,
    faults: &mut Faults,
    tree: &Parent,
    parent: u32,
) -> Result<Ty, NoMemory>
    requires { scope.now.site ≡ InSignature }
    ensures meant { IfOk result (λ made. plain_type made ≡ parent_meant (plain_scope scope.now) tree.now parent) }
    ensures noted { OnOk result (faults.new ≡ all_noted faults.old (parent_faults (plain_scope scope.now) tree.now parent)) }
{
    let read = read_parent_args(alloc, scope, faults, tree.args.as_slice(), parent)?;
    let args = match fit_parent(alloc, scope, faults, read, tree, parent)? {
        None => Items::new(alloc),
        Some(args) => args,
    };
    Ok(Ty::Class {
        class: parent,
        args,
    })
}

/// Reads the region arguments of a superclass.
#[tactic(auto, using(crate::proofs::Parts::parts))]
fn read_parent_args(
    alloc: Global,
    scope: &Scope,
    faults: &mut Faults,
    trees: &[RplTree],
    parent: u32,
) -> Result<ReadArgs, NoMemory>
    requires { scope.now.site ≡ InSignature }
    ensures meant { IfOk result (λ read. read ≡ args_read (plain_scope scope.now) no_index trees.now) }
    ensures noted { OnOk result (faults.new ≡ all_noted faults.old (parent_arg_faults (plain_scope scope.now) trees.now parent)) }
{
    let params = scope.class_params(parent);
    match read_args(
        alloc,
        scope,
        faults,
        trees,
        params,
        true,
        &IndexNames::none(),
    ) {
        Ok(read) => Ok(read),
        Err(Stop::NoMemory) => Err(NoMemory),
        Err(Stop::Refused(_)) => unreachable!(),
    }
}

/// The region arguments of a superclass, where they fit. Its constraints are to hold with them.
#[tactic(auto, using(decl_headers::proofs::Noting::noting))]
fn fit_parent(
    alloc: Global,
    scope: &Scope,
    faults: &mut Faults,
    read: ReadArgs,
    tree: &Parent,
    parent: u32,
) -> Result<Option<Items<Rpl>>, NoMemory>
    ensures meant { IfOk result (λ args. args ≡ class_args scope.now.headers.now parent read) }
    ensures noted { OnOk result (faults.new ≡ all_noted faults.old (fit_faults (plain_scope scope.now) read tree.now parent)) }
{
    let place = tree.name.place;
    let fit = fit_args(alloc, faults, read, scope.class_params(parent), place)?;
    if let Some(args) = &fit {
        let given = scope.class_given(parent);
        if !constraints_hold(alloc, given, args.as_slice(), scope.given)? {
            faults.note(Kind::Constraint, place);
        }
    }
    Ok(fit)
}
