ghost use Rattle.std.specs.Prelude.{◌≡◌, ◌≢◌, ◌↔◌, ℕ, true, IsTrue, OnOk};
ghost use Rattle.std.specs.HashMap.{hash_map_len};
ghost use Rattle.lang_base.specs.Matching.{is_concrete};
ghost use Rattle.exec_locks.specs.Index.{has, first_number, mixed, NotedFrom, NotedBy, AllNoted, IsGrown, KeepsOthers};

use crate::sets::{Sets, add, take_out};
use lang_base::{Access, Effect, Elem, Index as ElemIndex, NoMemory};
use std::alloc::Global;
use std::collections::HashMap;
use std::hash::{FoldHasher, Hash, Hasher};

/// The number of the path without elements.
pub const FIRST_NUMBER: u64 = 7;

/// Under which numbers tasks are found, by the paths of effects that they hold.
#[derive(Drop)]
pub struct Index {
    /// Under the numbers of the fixed fronts of a path, its first elements as long as each is a name, a whole number or
    /// a local region, but for the longest one.
    pub under: Sets,
    /// Under the number of its longest fixed front.
    pub ending: Sets,
}

/// Whether an element stands for itself alone.
pub fn is_fixed(elem: Elem) -> bool
    ensures { result ≡ is_concrete elem }
{
    matches!(
        elem,
        Elem::Name(_) | Elem::At(ElemIndex::Literal(_)) | Elem::Local(_, _)
    )
}

/// The number of a path that is longer by one element.
#[tactic(auto, unfolding(crate::specs::Index::mixed))]
pub fn mixed(number: u64, elem: Elem) -> u64
    ensures { result ≡ mixed number elem }
{
    let mut hasher = FoldHasher::default();
    number.hash(&mut hasher);
    elem.hash(&mut hasher);
    hasher.finish()
}

impl Index {
    pub fn new(alloc: Global) -> Index {
        Index {
            under: HashMap::new(alloc),
            ending: HashMap::new(alloc),
        }
    }

    /// Whether no task is found in it.
    pub fn is_empty(&self) -> bool
        ensures { IsTrue result ↔ ((hash_map_len self.now.under ≡ 0) × (hash_map_len self.now.ending ≡ 0)) }
    {
        self.under.is_empty() && self.ending.is_empty()
    }
}

/// Notes a task under the fronts of a path that it holds. Whatever was noted stays.
pub fn note(alloc: Global, index: &mut Index, task: u32, elems: &[Elem]) -> Result<(), NoMemory>
    ensures there { OnOk result (NotedFrom index.new.under index.new.ending task first_number elems.now) }
    ensures under { (k : ℕ) (q : ℕ) → has index.old.under k q ≡ true → has index.new.under k q ≡ true }
    ensures ending { (k : ℕ) (q : ℕ) → has index.old.ending k q ≡ true → has index.new.ending k q ≡ true }
{
    let mut number = FIRST_NUMBER;
    for elem in elems {
        if !is_fixed(*elem) {
            return add(alloc, &mut index.ending, number, task);
        }
        add(alloc, &mut index.under, number, task)?;
        number = mixed(number, *elem);
    }
    add(alloc, &mut index.ending, number, task)
}

/// Takes a task out from under the fronts of a path. Other tasks stay.
pub fn forget(index: &mut Index, task: u32, elems: &[Elem])
    ensures under { (k : ℕ) (q : ℕ) → q ≢ task → has index.old.under k q ≡ true → has index.new.under k q ≡ true }
    ensures ending { (k : ℕ) (q : ℕ) → q ≢ task → has index.old.ending k q ≡ true → has index.new.ending k q ≡ true }
{
    let mut number = FIRST_NUMBER;
    for elem in elems {
        if !is_fixed(*elem) {
            take_out(&mut index.ending, number, task);
            return;
        }
        take_out(&mut index.under, number, task);
        number = mixed(number, *elem);
    }
    take_out(&mut index.ending, number, task);
}

/// Notes a task under one effect: reads and writes apart.
fn note_effect(
    alloc: Global,
    reads: &mut Index,
    writes: &mut Index,
    task: u32,
    e: &Effect,
) -> Result<(), NoMemory>
    ensures there { OnOk result (NotedBy reads.new writes.new task e.now.access e.now.rpl.elems) }
    ensures reads { IsGrown reads.old reads.new }
    ensures writes { IsGrown writes.old writes.new }
{
    match e.access {
        Access::Read => note(alloc, reads, task, e.rpl.elems.as_slice()),
        Access::Write => note(alloc, writes, task, e.rpl.elems.as_slice()),
    }
}

/// Notes a task under each of its effects. Whatever was noted stays.
pub fn note_all(
    alloc: Global,
    reads: &mut Index,
    writes: &mut Index,
    task: u32,
    effects: &[Effect],
) -> Result<(), NoMemory>
    ensures there { OnOk result (AllNoted reads.new writes.new task effects.now) }
    ensures reads { IsGrown reads.old reads.new }
    ensures writes { IsGrown writes.old writes.new }
{
    for e in effects {
        note_effect(alloc, reads, writes, task, e)?;
    }
    Ok(())
}

/// Takes a task out from under its effects. Other tasks stay.
pub fn forget_all(reads: &mut Index, writes: &mut Index, task: u32, effects: &[Effect])
    ensures reads { KeepsOthers task reads.old reads.new }
    ensures writes { KeepsOthers task writes.old writes.new }
{
    for e in effects {
        let elems = e.rpl.elems.as_slice();
        match e.access {
            Access::Read => forget(reads, task, elems),
            Access::Write => forget(writes, task, elems),
        }
    }
}
