ghost use Rattle.std.specs.Prelude.{◌≡◌, ℕ, ◌<◌, [], replicate, slice_index_or, OnOk, IfOk};
ghost use Rattle.decl_reach.specs.Reach.{reaching};
ghost use Rattle.decl_reach.specs.Marking.{sources, with_source, places_from, marked, added, all_marked, all_added};

use lang_base::{Items, NoMemory};
use std::alloc::Global;

/// One step of a chain: whoever runs the first may run the second.
#[derive(Clone, Copy, Debug, PartialEq, Eq)]
pub struct Edge {
    pub from: u32,
    pub to: u32,
}

/// Marks whatever reaches something that is marked, by any chain of edges.
pub fn mark_reaching(alloc: Global, marks: &mut [bool], edges: &[Edge]) -> Result<(), NoMemory>
    ensures { OnOk result (marks.new ≡ reaching edges.now marks.old) }
{
    let sources = sources(alloc, marks.len(), edges)?;
    let mut pending = marked_places(alloc, marks)?;
    // each comes to the list once
    for _step in 0..marks.len() {
        let Some(reached) = pending.pop() else {
            return Ok(());
        };
        mark_all(sources_of(sources.as_slice(), reached), marks, &mut pending)?;
    }
    Ok(())
}

/// Of each, what leads to it by one edge.
fn sources(alloc: Global, count: usize, edges: &[Edge]) -> Result<Items<Items<u32>>, NoMemory>
    ensures { IfOk result (λ made. (to : ℕ) → to < count → slice_index_or made to [] ≡ sources edges.now to) }
{
    let mut made = no_sources(alloc, count)?;
    for edge in edges {
        add_source(made.as_mut_slice(), *edge)?;
    }
    Ok(Items::from_vec(made))
}

fn no_sources(alloc: Global, count: usize) -> Result<Vec<Items<u32>>, NoMemory>
    ensures { IfOk result (λ made. made.items ≡ replicate count []) }
{
    let mut made = Vec::new(alloc);
    for _to in 0..count {
        made.push(Items::new(alloc))?;
    }
    Ok(made)
}

fn add_source(made: &mut [Items<u32>], edge: Edge) -> Result<(), NoMemory>
    ensures { OnOk result (made.new ≡ with_source made.old edge) }
{
    let to = edge.to as usize;
    if to < made.len() {
        made[to].push(edge.from)?;
    }
    Ok(())
}

fn sources_of(sources: &[Items<u32>], to: usize) -> &[u32]
    ensures { result.now ≡ slice_index_or sources.now to [] }
{
    match sources.get(to) {
        Some(list) => list.as_slice(),
        None => &[],
    }
}

/// The positions of what is marked.
fn marked_places(alloc: Global, marks: &[bool]) -> Result<Items<usize>, NoMemory>
    ensures { IfOk result (λ places. places ≡ places_from 0 marks.now) }
{
    let mut places = Items::new(alloc);
    for (at, mark) in marks.iter().enumerate() {
        if *mark {
            places.push(at)?;
        }
    }
    Ok(places)
}

/// Marks each of these, and notes it, where it wasn't marked.
fn mark_all(all: &[u32], marks: &mut [bool], pending: &mut Items<usize>) -> Result<(), NoMemory>
    ensures marks { OnOk result (marks.new ≡ all_marked marks.old all.now) }
    ensures pending { OnOk result (pending.new ≡ all_added marks.old pending.old all.now) }
{
    for at in all {
        mark(*at as usize, marks, pending)?;
    }
    Ok(())
}

fn mark(at: usize, marks: &mut [bool], pending: &mut Items<usize>) -> Result<(), NoMemory>
    ensures marks { OnOk result (marks.new ≡ marked marks.old at) }
    ensures pending { OnOk result (pending.new ≡ added marks.old pending.old at) }
{
    if at < marks.len() && !marks[at] {
        marks[at] = true;
        pending.push(at)?;
    }
    Ok(())
}
