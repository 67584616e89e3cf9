ghost use Rattle.std.specs.Prelude.{◌≡◌, ◌==◌, ◌++◌, [], nat_le, length, None, Some, option_map, IfOk, IfErr, OnOk};
ghost use Rattle.std.specs.Option.{option_to_list};
ghost use Rattle.lang_base.specs.Refused.{IfRefused};
ghost use Rattle.lang_base.specs.Types.{plain_type};
ghost use Rattle.decl_headers.specs.Faults.{all_noted};
ghost use Rattle.decl_resolve.specs.Index.{plain_index};
ghost use Rattle.decl_resolve.specs.Scopes.{plain_scope};
ghost use Rattle.decl_resolve.specs.Telling.{reported_at, parts_noted, parts_reported};
ghost use Rattle.decl_resolve.specs.Written.{base_read, base_parts, suffix_meant, suffix_parts, suffix_local, paths_from, local_from, parts_from, type_read, type_parts, is_flat, own_fault, is_indexed, with_suffixes, arrays_from, judged_type, judged_faults, type_meant, type_faults, array_meant, array_faults};

use crate::args::{ReadPaths, begins_local, note_local, read_args, root};
use crate::base::{ReadBase, ReadType, base_made};
use crate::index::IndexNames;
use crate::paths::Need;
use crate::scope::Scope;
use decl_headers::Faults;
use lang_base::{Boxed, Items, NoMemory, Place, Rpl, Stop, Ty};
use std::alloc::Global;
use syntax_tree::{BaseTree, Named, RplTree, Suffix, TypeTree};

/// Reads a type. None where it has a fault of a signature by which nothing more can be said of it.
pub fn ty(
    alloc: Global,
    scope: &Scope,
    faults: &mut Faults,
    tree: &TypeTree,
) -> Result<Option<Ty>, Stop>
    ensures meant { IfOk result (λ made. option_map plain_type made ≡ type_meant (plain_scope scope.now) tree.now) }
    ensures noted { OnOk result (faults.new ≡ parts_noted faults.old (type_faults (plain_scope scope.now) tree.now)) }
    ensures unreported { OnOk result (parts_reported scope.now.site faults.old (type_faults (plain_scope scope.now) tree.now) ≡ None) }
    ensures reported { IfErr result (λ stop. IfRefused stop (λ refusal. parts_reported scope.now.site faults.old (type_faults (plain_scope scope.now) tree.now) ≡ Some refusal)) }
{
    let around = IndexNames {
        suffixes: tree.suffixes.as_slice(),
        inside: 0,
        made: None,
    };
    let read = read_type(alloc, scope, faults, &tree.base, around)?;
    let made = type_made(alloc, scope, faults, read, around, tree.place)?;
    scope.settle(faults)?;
    Ok(made)
}

/// Reads the region arguments and region paths of a type or of an array creation, which isn't judged yet.
/// `around` has its suffixes.
pub fn read_type(
    alloc: Global,
    scope: &Scope,
    faults: &mut Faults,
    base: &BaseTree,
    around: IndexNames,
) -> Result<ReadType, Stop>
    ensures meant { IfOk result (λ read. read ≡ type_read (plain_scope scope.now) (plain_index around.entry) base.now) }
    ensures noted { OnOk result (faults.new ≡ parts_noted faults.old (type_parts (plain_scope scope.now) (plain_index around.entry) base.now)) }
    ensures unreported { OnOk result (parts_reported scope.now.site faults.old (type_parts (plain_scope scope.now) (plain_index around.entry) base.now) ≡ None) }
    ensures reported { IfErr result (λ stop. IfRefused stop (λ refusal. parts_reported scope.now.site faults.old (type_parts (plain_scope scope.now) (plain_index around.entry) base.now) ≡ Some refusal)) }
{
    let base = read_base(alloc, scope, faults, base, &around)?;
    let read = read_suffixes(alloc, scope, faults, &around)?;
    Ok(ReadType {
        base,
        paths: read.paths,
        local: read.local,
    })
}

/// Reads what a type begins with.
fn read_base(
    alloc: Global,
    scope: &Scope,
    faults: &mut Faults,
    base: &BaseTree,
    around: &IndexNames,
) -> Result<ReadBase, Stop>
    ensures meant { IfOk result (λ read. read ≡ base_read (plain_scope scope.now) (plain_index around.now) base.now) }
    ensures noted { OnOk result (faults.new ≡ parts_noted faults.old (base_parts (plain_scope scope.now) (plain_index around.now) base.now)) }
    ensures unreported { OnOk result (parts_reported scope.now.site faults.old (base_parts (plain_scope scope.now) (plain_index around.now) base.now) ≡ None) }
    ensures reported { IfErr result (λ stop. IfRefused stop (λ refusal. parts_reported scope.now.site faults.old (base_parts (plain_scope scope.now) (plain_index around.now) base.now) ≡ Some refusal)) }
{
    match base {
        BaseTree::Int => Ok(ReadBase::Int),
        BaseTree::Bool => Ok(ReadBase::Bool),
        BaseTree::Class { name, args } => {
            read_class(alloc, scope, faults, *name, args.as_slice(), around)
        }
    }
}

/// Reads a class and its region arguments.
fn read_class(
    alloc: Global,
    scope: &Scope,
    faults: &mut Faults,
    name: Named,
    trees: &[RplTree],
    around: &IndexNames,
) -> Result<ReadBase, Stop>
    ensures meant { IfOk result (λ read. read ≡ base_read (plain_scope scope.now) (plain_index around.now) (BaseTree.Class name trees.now)) }
    ensures noted { OnOk result (faults.new ≡ parts_noted faults.old (base_parts (plain_scope scope.now) (plain_index around.now) (BaseTree.Class name trees.now))) }
    ensures unreported { OnOk result (parts_reported scope.now.site faults.old (base_parts (plain_scope scope.now) (plain_index around.now) (BaseTree.Class name trees.now)) ≡ None) }
    ensures reported { IfErr result (λ stop. IfRefused stop (λ refusal. parts_reported scope.now.site faults.old (base_parts (plain_scope scope.now) (plain_index around.now) (BaseTree.Class name trees.now)) ≡ Some refusal)) }
{
    let class = scope.headers.class(name.name);
    let params = scope.known_params(class);
    let args = read_args(alloc, scope, faults, trees, params, false, around)?;
    Ok(ReadBase::Class { name, class, args })
}

/// Reads the paths of all suffixes.
fn read_suffixes(
    alloc: Global,
    scope: &Scope,
    faults: &mut Faults,
    around: &IndexNames,
) -> Result<ReadPaths, Stop>
    ensures paths { IfOk result (λ read. read.paths ≡ paths_from (plain_scope scope.now) (plain_index around.now) 0 around.now.suffixes.now) }
    ensures local { IfOk result (λ read. read.local ≡ local_from (plain_scope scope.now) (plain_index around.now) 0 None around.now.suffixes.now) }
    ensures noted { OnOk result (faults.new ≡ parts_noted faults.old (parts_from (plain_scope scope.now) (plain_index around.now) 0 around.now.suffixes.now)) }
    ensures unreported { OnOk result (parts_reported scope.now.site faults.old (parts_from (plain_scope scope.now) (plain_index around.now) 0 around.now.suffixes.now) ≡ None) }
    ensures reported { IfErr result (λ stop. IfRefused stop (λ refusal. parts_reported scope.now.site faults.old (parts_from (plain_scope scope.now) (plain_index around.now) 0 around.now.suffixes.now) ≡ Some refusal)) }
{
    let mut read = ReadPaths::new(alloc);
    for (at, suffix) in around.suffixes.iter().enumerate() {
        read_suffix(
            alloc,
            scope,
            faults,
            &mut read,
            suffix,
            &around.at_suffix(at),
        )?;
    }
    Ok(read)
}

/// Reads the path of a suffix: `Root` where none is written.
fn read_suffix(
    alloc: Global,
    scope: &Scope,
    faults: &mut Faults,
    read: &mut ReadPaths,
    suffix: &Suffix,
    around: &IndexNames,
) -> Result<(), Stop>
    ensures paths { OnOk result (read.new.paths ≡ read.old.paths ++ option_to_list (suffix_meant (plain_scope scope.now) (plain_index around.now) suffix.now)) }
    ensures local { OnOk result (read.new.local ≡ suffix_local (plain_scope scope.now) (plain_index around.now) read.old.local suffix.now) }
    ensures noted { OnOk result (faults.new ≡ parts_noted faults.old (suffix_parts (plain_scope scope.now) (plain_index around.now) suffix.now)) }
    ensures unreported { OnOk result (parts_reported scope.now.site faults.old (suffix_parts (plain_scope scope.now) (plain_index around.now) suffix.now) ≡ None) }
    ensures reported { IfErr result (λ stop. IfRefused stop (λ refusal. parts_reported scope.now.site faults.old (suffix_parts (plain_scope scope.now) (plain_index around.now) suffix.now) ≡ Some refusal)) }
{
    let Some(tree) = &suffix.rpl else {
        read.paths.push(root(alloc))?;
        return Ok(());
    };
    let need = Need {
        full: false,
        atomic: false,
    };
    read.read(alloc, scope, faults, tree, need, around)
}

/// Judges a type that stands at a place.
fn type_made(
    alloc: Global,
    scope: &Scope,
    faults: &mut Faults,
    read: ReadType,
    around: IndexNames,
    place: Place,
) -> Result<Option<Ty>, NoMemory>
    ensures made { IfOk result (λ made. option_map plain_type made ≡ judged_type (plain_scope scope.now) (plain_index around.entry) read) }
    ensures faults { OnOk result (faults.new ≡ all_noted faults.old (judged_faults (plain_scope scope.now) (plain_index around.entry) read place)) }
{
    let ReadType { base, paths, local } = read;
    let flat = is_flat(&base) && around.suffixes.len() <= 1;
    note_local(faults, local, flat);
    let base = base_made(alloc, scope, faults, base, place)?;
    with_suffixes(alloc, base, paths, around)
}

/// The type of the array that a creation at a place makes, of the type that is read and of its own path. A local
/// region may stand in that path alone, where the elements are ints or booleans.
pub fn array_made(
    alloc: Global,
    scope: &Scope,
    faults: &mut Faults,
    read: ReadType,
    own: Rpl,
    around: IndexNames,
    own_place: Place,
    place: Place,
) -> Result<Option<Ty>, NoMemory>
    ensures made { IfOk result (λ made. option_map plain_type made ≡ array_meant (plain_scope scope.now) (plain_index around.entry) read own) }
    ensures faults { OnOk result (faults.new ≡ all_noted faults.old (array_faults (plain_scope scope.now) (plain_index around.entry) read own own_place place)) }
{
    note_local(faults, read.local, false);
    note_own(faults, &read.base, &around, &own, own_place);
    let ReadType { base, paths, .. } = read;
    let base = base_made(alloc, scope, faults, base, place)?;
    let Some(elem) = with_suffixes(alloc, base, paths, around)? else {
        return Ok(None);
    };
    Ok(Some(Ty::Array {
        elem: Boxed::new(alloc, elem)?,
        rpl: own,
        named: around.made.is_some(),
    }))
}

/// Notes a local region at the head of the path of a created array whose elements aren't ints or booleans.
fn note_own(faults: &mut Faults, base: &ReadBase, around: &IndexNames, own: &Rpl, place: Place)
    ensures { faults.new ≡ all_noted faults.old (own_fault base.now (plain_index around.now) own.now place) }
{
    if begins_local(own) {
        let flat = is_flat(base) && around.suffixes.is_empty();
        note_local(faults, Some(place), flat);
    }
}

fn is_flat(base: &ReadBase) -> bool
    ensures { result ≡ is_flat base.now }
{
    matches!(base, ReadBase::Int | ReadBase::Bool)
}

/// The array type of a base and paths, one for each suffix. None where one of these isn't known.
fn with_suffixes(
    alloc: Global,
    base: Option<Ty>,
    paths: Items<Rpl>,
    around: IndexNames,
) -> Result<Option<Ty>, NoMemory>
    ensures { IfOk result (λ made. option_map plain_type made ≡ with_suffixes (plain_index around.entry) (option_map plain_type base) paths) }
{
    let Some(base) = base else {
        return Ok(None);
    };
    if paths.len() != around.suffixes.len() {
        return Ok(None);
    }
    Ok(Some(arrays(alloc, base, paths, &around)?))
}

/// An array of arrays, one for each path, the first innermost.
fn arrays(alloc: Global, base: Ty, paths: Items<Rpl>, around: &IndexNames) -> Result<Ty, NoMemory>
    ensures { IfOk result (λ made. plain_type made ≡ arrays_from (plain_index around.now) 0 (plain_type base) paths) }
{
    let mut made = base;
    let mut at = 0;
    for rpl in paths.into_vec() {
        made = Ty::Array {
            elem: Boxed::new(alloc, made)?,
            rpl,
            named: is_indexed(around, at),
        };
        at += 1;
    }
    Ok(made)
}

/// Whether an index name is written at the suffix at a position.
fn is_indexed(around: &IndexNames, at: usize) -> bool
    ensures { result ≡ is_indexed (plain_index around.now) at }
{
    match around.suffixes.get(at) {
        Some(suffix) => suffix.index.is_some(),
        None => false,
    }
}
