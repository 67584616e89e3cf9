ghost use Rattle.std.specs.Prelude.{◌≡◌, ◌++◌, [], None, Some, IfOk, IfErr, OnOk};
ghost use Rattle.std.specs.List.{list_any};
ghost use Rattle.std.specs.Option.{option_to_list};
ghost use Rattle.lang_base.specs.Refused.{IfRefused};
ghost use Rattle.decl_headers.specs.Faults.{all_noted};
ghost use Rattle.decl_resolve.specs.Args.{root_path, roots, args_given, begins_local, first_local, local_fault, is_unfit, args_faults};
ghost use Rattle.decl_resolve.specs.Index.{plain_index};
ghost use Rattle.decl_resolve.specs.Reading.{path_meant, path_faults, arg_need, arg_faults, local_with, args_read};
ghost use Rattle.decl_resolve.specs.Scopes.{plain_scope};
ghost use Rattle.decl_resolve.specs.Telling.{reported_at, parts_noted, parts_reported};

use crate::index::IndexNames;
use crate::paths::{Need, path};
use crate::scope::{Scope, is_atomic_at};
use decl_headers::{Faults, ParamRow};
use lang_base::{Elem, Elems, Head, Items, Kind, NoMemory, Place, Rpl, Stop};
use std::alloc::Global;
use syntax_tree::RplTree;

/// A written list of region arguments, before what holds it is judged.
#[derive(Drop)]
pub struct ReadArgs {
    /// The arguments that are known.
    pub paths: Items<Rpl>,
    /// How many are written.
    pub written: usize,
    /// The first name of a local region among them, which may not stand there.
    pub local: Option<Place>,
}

/// Whether a path begins with a local region.
pub fn begins_local(rpl: &Rpl) -> bool
    ensures { result ≡ begins_local rpl.now.elems }
{
    matches!(rpl.elems.as_slice(), [Elem::Local(_, _), ..])
}

/// The first name of a local region, where a further path is read at a place.
pub fn first_local(before: Option<Place>, rpl: &Rpl, place: Place) -> Option<Place>
    ensures { result ≡ first_local before rpl.now place }
{
    if before.is_none() && begins_local(rpl) {
        Some(place)
    } else {
        before
    }
}

/// Notes a local region that stands where it may not.
pub fn note_local(faults: &mut Faults, local: Option<Place>, allowed: bool)
    ensures { faults.new ≡ all_noted faults.old (local_fault local allowed) }
{
    if let Some(name) = local {
        if !allowed {
            faults.note(Kind::LocalRegion, name);
        }
    }
}

/// The path `Root`.
pub fn root(alloc: Global) -> Rpl
    ensures { result ≡ root_path }
{
    Rpl {
        head: Head::Root,
        elems: Elems::new(alloc),
    }
}

/// Paths that are read one after the other.
#[derive(Drop)]
pub(crate) struct ReadPaths {
    /// Those that are known.
    pub(crate) paths: Items<Rpl>,
    /// The first name of a local region among them.
    pub(crate) local: Option<Place>,
}

impl ReadPaths {
    pub(crate) fn new(alloc: Global) -> ReadPaths
        ensures paths { result.paths ≡ [] }
        ensures local { result.local ≡ None }
    {
        ReadPaths {
            paths: Items::new(alloc),
            local: None,
        }
    }

    /// Reads a further path.
    pub(crate) fn read(
        &mut self,
        alloc: Global,
        scope: &Scope,
        faults: &mut Faults,
        tree: &RplTree,
        need: Need,
        around: &IndexNames,
    ) -> Result<(), Stop>
        ensures paths { OnOk result (self.new.paths ≡ self.old.paths ++ option_to_list (path_meant (plain_scope scope.now) (plain_index around.now) tree.now)) }
        ensures local { OnOk result (self.new.local ≡ local_with (plain_scope scope.now) (plain_index around.now) self.old.local tree.now) }
        ensures noted { OnOk result (faults.new ≡ all_noted faults.old (path_faults (plain_scope scope.now) (plain_index around.now) need tree.now)) }
        ensures unreported { OnOk result (reported_at scope.now.site (all_noted faults.old (path_faults (plain_scope scope.now) (plain_index around.now) need tree.now)) ≡ None) }
        ensures reported { IfErr result (λ stop. IfRefused stop (λ refusal. reported_at scope.now.site (all_noted faults.old (path_faults (plain_scope scope.now) (plain_index around.now) need tree.now)) ≡ Some refusal)) }
    {
        if let Some(rpl) = path(alloc, scope, faults, tree, need, around)? {
            self.local = first_local(self.local, &rpl, tree.place);
            self.paths.push(rpl)?;
        }
        Ok(())
    }
}

/// Reads region arguments for parameters. Where there are as many as parameters, those of atomic ones are to be
/// atomic. `full` asks that each is fully specified.
pub fn read_args(
    alloc: Global,
    scope: &Scope,
    faults: &mut Faults,
    trees: &[RplTree],
    params: &[ParamRow],
    full: bool,
    around: &IndexNames,
) -> Result<ReadArgs, Stop>
    ensures meant { IfOk result (λ args. args ≡ args_read (plain_scope scope.now) (plain_index around.now) trees.now) }
    ensures noted { OnOk result (faults.new ≡ parts_noted faults.old (arg_faults (plain_scope scope.now) (plain_index around.now) params.now full trees.now)) }
    ensures unreported { OnOk result (parts_reported scope.now.site faults.old (arg_faults (plain_scope scope.now) (plain_index around.now) params.now full trees.now) ≡ None) }
    ensures reported { IfErr result (λ stop. IfRefused stop (λ refusal. parts_reported scope.now.site faults.old (arg_faults (plain_scope scope.now) (plain_index around.now) params.now full trees.now) ≡ Some refusal)) }
{
    let mut read = ReadPaths::new(alloc);
    for (at, tree) in trees.iter().enumerate() {
        let need = arg_need(params, full, trees.len(), at);
        read.read(alloc, scope, faults, tree, need, around)?;
    }
    Ok(ReadArgs {
        paths: read.paths,
        written: trees.len(),
        local: read.local,
    })
}

/// What is asked of the argument at a position, where so many are written.
fn arg_need(params: &[ParamRow], full: bool, written: usize, at: usize) -> Need
    ensures { result ≡ arg_need params.now full written at }
{
    Need {
        full,
        atomic: written == params.len() && is_atomic_at(params, at),
    }
}

/// The region arguments of what stands at a place, one for each parameter: those that are read, or `Root` for
/// each where none is written. None where their number is wrong or one isn't known. A wrong number, a list left out
/// for an atomic parameter and a local region are noted as faults.
pub fn fit_args(
    alloc: Global,
    faults: &mut Faults,
    read: ReadArgs,
    params: &[ParamRow],
    place: Place,
) -> Result<Option<Items<Rpl>>, NoMemory>
    ensures given { IfOk result (λ given. given ≡ args_given read.written read.paths params.now) }
    ensures faults { faults.new ≡ all_noted faults.old (args_faults read.local read.written params.now place) }
{
    let ReadArgs {
        paths,
        written,
        local,
    } = read;
    note_local(faults, local, false);
    if is_unfit(written, params) {
        faults.note(Kind::RegionArgs, place);
    }
    if written == 0 {
        return Ok(Some(roots(alloc, params)?));
    }
    if written == params.len() && paths.len() == written {
        Ok(Some(paths))
    } else {
        Ok(None)
    }
}

/// Whether so many written arguments are a fault for these parameters.
fn is_unfit(written: usize, params: &[ParamRow]) -> bool
    ensures { result ≡ is_unfit written params.now }
{
    if written == 0 {
        has_atomic(params)
    } else {
        written != params.len()
    }
}

/// Whether one of the parameters is atomic.
fn has_atomic(params: &[ParamRow]) -> bool
    ensures { result ≡ list_any (λ param. param.atomic) params.now }
{
    params.iter().any(|param| param.atomic)
}

#[tactic(auto, using(crate::proofs::Roots::roots_more))]
fn roots(alloc: Global, params: &[ParamRow]) -> Result<Items<Rpl>, NoMemory>
    ensures { IfOk result (λ made. made ≡ roots params.now) }
{
    let mut made = Items::new(alloc);
    for _param in params {
        made.push(root(alloc))?;
    }
    Ok(made)
}
