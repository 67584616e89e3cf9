ghost use Rattle.std.specs.Prelude.{◌≡◌, ◌==◌, ◌&&◌, ◌||◌, OnOk, map};
ghost use Rattle.std.specs.List.{list_any};
ghost use Rattle.syntax_tree.specs.Plain.{plain_expr, plain_exprs};
ghost use Rattle.body_locals.specs.Gains.{Gains};
ghost use Rattle.body_locals.specs.Touches.{path_reads, optional_path_reads, expr_reads, exprs_read, is_index_name, is_bound, is_outer, suffixes_read, base_reads, written_reads, made_reads, type_reads};

use lang_base::{Items, NoMemory};
use std::collections::BTreeSet;
use syntax_tree::{BaseTree, ElemTree, Expr, ExprKind, Named, RplTree, Suffix, TypeTree};

/// Notes a name, unless it is declared inside.
pub fn note(inside: &BTreeSet<u32>, names: &mut BTreeSet<u32>, name: u32) -> Result<(), NoMemory>
    ensures { OnOk result (Gains inside.now names.old names.new (λ x. name == x)) }
{
    if !inside.contains(&name) {
        names.insert(name)?;
    }
    Ok(())
}

fn is_index_name(name: u32, index: &Option<Named>) -> bool
    ensures { result ≡ is_index_name name index.now }
{
    match index {
        Some(named) => named.name == name,
        None => false,
    }
}

fn is_bound(name: u32, suffixes: &[Suffix]) -> bool
    ensures { result ≡ is_bound name suffixes.now }
{
    for suffix in suffixes {
        if is_index_name(name, &suffix.index) {
            return true;
        }
    }
    false
}

/// Whether a name in a path is no index name of an array type with these suffixes, and after them one with
/// that index name.
fn is_outer(name: u32, suffixes: &[Suffix], own: &Option<Named>) -> bool
    ensures { result ≡ is_outer name suffixes.now own.now }
{
    !is_index_name(name, own) && !is_bound(name, suffixes)
}

/// Notes the locals that stand as indices in a path.
fn read_path(
    inside: &BTreeSet<u32>,
    reads: &mut BTreeSet<u32>,
    path: &RplTree,
    suffixes: &[Suffix],
    own: &Option<Named>,
) -> Result<(), NoMemory>
    ensures { OnOk result (Gains inside.now reads.old reads.new (λ x. is_outer x suffixes.now own.now && path_reads x path.now)) }
{
    for elem in path.elems.as_slice() {
        if let ElemTree::Index(named) = elem {
            if is_outer(named.name, suffixes, own) {
                note(inside, reads, named.name)?;
            }
        }
    }
    Ok(())
}

fn read_optional_path(
    inside: &BTreeSet<u32>,
    reads: &mut BTreeSet<u32>,
    path: &Option<RplTree>,
    suffixes: &[Suffix],
    own: &Option<Named>,
) -> Result<(), NoMemory>
    ensures { OnOk result (Gains inside.now reads.old reads.new (λ x. is_outer x suffixes.now own.now && optional_path_reads x path.now)) }
{
    match path {
        Some(path) => read_path(inside, reads, path, suffixes, own),
        None => Ok(()),
    }
}

fn read_paths(
    inside: &BTreeSet<u32>,
    reads: &mut BTreeSet<u32>,
    paths: &[RplTree],
    suffixes: &[Suffix],
    own: &Option<Named>,
) -> Result<(), NoMemory>
    ensures { OnOk result (Gains inside.now reads.old reads.new (λ x. is_outer x suffixes.now own.now && list_any (path_reads x) paths.now)) }
{
    for path in paths {
        read_path(inside, reads, path, suffixes, own)?;
    }
    Ok(())
}

fn read_base(
    inside: &BTreeSet<u32>,
    reads: &mut BTreeSet<u32>,
    base: &BaseTree,
    suffixes: &[Suffix],
    own: &Option<Named>,
) -> Result<(), NoMemory>
    ensures { OnOk result (Gains inside.now reads.old reads.new (λ x. is_outer x suffixes.now own.now && base_reads x base.now)) }
{
    match base {
        BaseTree::Int | BaseTree::Bool => Ok(()),
        BaseTree::Class { args, .. } => read_paths(inside, reads, args.as_slice(), suffixes, own),
    }
}

fn read_suffixes(
    inside: &BTreeSet<u32>,
    reads: &mut BTreeSet<u32>,
    suffixes: &[Suffix],
    own: &Option<Named>,
) -> Result<(), NoMemory>
    ensures { OnOk result (Gains inside.now reads.old reads.new (λ x. suffixes_read x suffixes.now own.now)) }
{
    for at in 0..suffixes.len() {
        let rpl = &suffixes[at].rpl;
        read_optional_path(inside, reads, rpl, &suffixes[at..], own)?;
    }
    Ok(())
}

fn read_written(
    inside: &BTreeSet<u32>,
    reads: &mut BTreeSet<u32>,
    base: &BaseTree,
    suffixes: &[Suffix],
    own: &Option<Named>,
) -> Result<(), NoMemory>
    ensures { OnOk result (Gains inside.now reads.old reads.new (λ x. written_reads x base.now suffixes.now own.now)) }
{
    read_base(inside, reads, base, suffixes, own)?;
    read_suffixes(inside, reads, suffixes, own)
}

/// Notes the locals that stand as indices in the type of an array that is made, and in its own path.
#[tactic(auto, unfolding(crate::specs::Touches::made_reads))]
fn read_made(
    inside: &BTreeSet<u32>,
    reads: &mut BTreeSet<u32>,
    base: &BaseTree,
    suffixes: &[Suffix],
    rpl: &Option<RplTree>,
    index: &Option<Named>,
) -> Result<(), NoMemory>
    ensures { OnOk result (Gains inside.now reads.old reads.new (λ x. made_reads x base.now suffixes.now rpl.now index.now)) }
{
    read_written(inside, reads, base, suffixes, index)?;
    read_optional_path(inside, reads, rpl, &[], index)
}

/// Notes the locals that stand as indices in a type.
pub fn read_type(
    inside: &BTreeSet<u32>,
    reads: &mut BTreeSet<u32>,
    ty: &TypeTree,
) -> Result<(), NoMemory>
    ensures { OnOk result (Gains inside.now reads.old reads.new (λ x. type_reads x ty.now)) }
{
    read_written(inside, reads, &ty.base, ty.suffixes.as_slice(), &None)
}

/// Notes the locals that an expression reads. It goes as deep as the expression is nested.
#[cycle(reads)]
pub fn read_expr(
    inside: &BTreeSet<u32>,
    reads: &mut BTreeSet<u32>,
    e: &Expr,
) -> Result<(), NoMemory>
    ensures { OnOk result (Gains inside.now reads.old reads.new (λ x. expr_reads x (plain_expr e.now))) }
{
    match &e.kind {
        ExprKind::Int(_) | ExprKind::Bool(_) | ExprKind::Null | ExprKind::This => Ok(()),
        ExprKind::Local(name) => note(inside, reads, *name),
        ExprKind::Field { of, .. } => read_expr(inside, reads, of.get()),
        ExprKind::Element { array, index } => {
            read_expr(inside, reads, array.get())?;
            read_expr(inside, reads, index.get())
        }
        ExprKind::Call {
            of,
            regions,
            actuals,
            ..
        } => {
            read_expr(inside, reads, of.get())?;
            read_passed(inside, reads, regions.as_slice(), actuals.as_slice())
        }
        ExprKind::New {
            regions,
            actuals,
            ..
        } => read_passed(inside, reads, regions.as_slice(), actuals.as_slice()),
        ExprKind::NewArray {
            base,
            suffixes,
            length,
            rpl,
            index,
        } => {
            read_made(inside, reads, base, suffixes.as_slice(), rpl, index)?;
            read_expr(inside, reads, length.get())
        }
        ExprKind::Unary { arg, .. } => read_expr(inside, reads, arg.get()),
        ExprKind::Binary { left, right, .. } => {
            read_expr(inside, reads, left.get())?;
            read_expr(inside, reads, right.get())
        }
    }
}

/// Notes the locals that stand as indices in the region arguments of a call or of a creation, and those that its
/// actuals read.
#[cycle(reads)]
fn read_passed(
    inside: &BTreeSet<u32>,
    reads: &mut BTreeSet<u32>,
    regions: &[RplTree],
    actuals: &[Expr],
) -> Result<(), NoMemory>
    ensures { OnOk result (Gains inside.now reads.old reads.new (λ x. list_any (path_reads x) regions.now || exprs_read x (plain_exprs (map plain_expr actuals.now)))) }
{
    read_paths(inside, reads, regions, &[], &None)?;
    for e in actuals {
        read_expr(inside, reads, e)?;
    }
    Ok(())
}
