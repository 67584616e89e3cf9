ghost use Rattle.std.specs.Prelude.{◌≡◌, ◌++◌, length, IfOk, OnOk};
ghost use Rattle.decl_reach.specs.Bodies.{own_marks, class_marks, override_edge, override_edges};
ghost use Rattle.decl_reach.specs.Edges.{edges_from, member_edges, class_edges, forks_in};
ghost use Rattle.decl_table.specs.Table.{methods_of};

use crate::calls::reached_by;
use crate::reach::{Edge, mark_reaching};
use decl_headers::number_at;
use decl_table::{MethodRow, Table};
use lang_base::{Items, NoMemory};
use std::alloc::Global;
use syntax_tree::{Class, Member};

/// Of each method and constructor, whether an nd construct is reached through it.
pub fn find_forks(alloc: Global, table: &Table, classes: &[Class]) -> Result<Items<bool>, NoMemory>
    ensures { IfOk result (λ forks. forks ≡ forks_in table.now classes.now) }
{
    let mut edges = Items::new(alloc);
    let mut marks = Vec::new(alloc);
    for (at, class) in classes.iter().enumerate() {
        add_class(alloc, table, number_at(at), class, &mut edges, &mut marks)?;
    }
    add_overrides(table, &mut edges)?;
    mark_reaching(alloc, marks.as_mut_slice(), edges.as_slice())?;
    Ok(Items::from_vec(marks))
}

/// Adds what the methods and constructors of a class reach by themselves.
fn add_class(
    alloc: Global,
    table: &Table,
    number: u32,
    class: &Class,
    edges: &mut Items<Edge>,
    marks: &mut Vec<bool>,
) -> Result<(), NoMemory>
    ensures marks { OnOk result (marks.new.items ≡ marks.old.items ++ class_marks class.now) }
    ensures edges { OnOk result (edges.new ≡ edges.old ++ class_edges table.now number (length marks.old.items) class.now.members) }
{
    for member in class.members.as_slice() {
        add_member(alloc, table, number, member, edges, marks)?;
    }
    Ok(())
}

/// Adds what a method or constructor reaches by itself. They come in the order of their numbers.
fn add_member(
    alloc: Global,
    table: &Table,
    class: u32,
    member: &Member,
    edges: &mut Items<Edge>,
    marks: &mut Vec<bool>,
) -> Result<(), NoMemory>
    ensures marks { OnOk result (marks.new.items ≡ marks.old.items ++ own_marks member.now) }
    ensures edges { OnOk result (edges.new ≡ edges.old ++ member_edges table.now class (length marks.old.items) member.now) }
{
    let Member::Method(method) = member else {
        return Ok(());
    };
    let from = number_at(marks.len());
    let reached = reached_by(alloc, table, class, method)?;
    add_calls(from, reached.called.as_slice(), edges)?;
    marks.push(reached.holds_nd)?;
    Ok(())
}

fn add_calls(from: u32, called: &[u32], edges: &mut Items<Edge>) -> Result<(), NoMemory>
    ensures { OnOk result (edges.new ≡ edges.old ++ edges_from from called.now) }
{
    for to in called {
        edges.push(Edge { from, to: *to })?;
    }
    Ok(())
}

/// A call may reach each method that overrides the one that it names.
fn add_overrides(table: &Table, edges: &mut Items<Edge>) -> Result<(), NoMemory>
    ensures { OnOk result (edges.new ≡ edges.old ++ override_edges table.now (methods_of table.now)) }
{
    for row in table.methods() {
        add_override(table, row, edges)?;
    }
    Ok(())
}

fn add_override(table: &Table, row: &MethodRow, edges: &mut Items<Edge>) -> Result<(), NoMemory>
    ensures { OnOk result (edges.new ≡ edges.old ++ override_edge table.now row.now) }
{
    if let Some(overridden) = table.overrides(row.id) {
        edges.push(Edge {
            from: overridden,
            to: row.id,
        })?;
    }
    Ok(())
}
