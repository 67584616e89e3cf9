ghost use Rattle.std.specs.Prelude.{◌≡◌, ℕ, true, IfSome, find};
ghost use Rattle.std.specs.Option.{option_copied};
ghost use Rattle.std.specs.Ordering.{nat_cmp};
ghost use Rattle.std.specs.BTreeSet.{IsOrdered};
ghost use Rattle.exec_locks.specs.Index.{has, holds, hindering, first_number, Met, MetBy, lesser, AtMost};
ghost use Rattle.exec_locks.specs.Locks.{some_interferes, lists_interfere, opened_for, block_interferes, hinders};

use crate::index::{FIRST_NUMBER, Index, is_fixed, mixed};
use crate::sets::Sets;
use crate::standing::Standing;
use crate::standings::StandingMap;
use crate::task_set::TaskSet;
use lang_base::{Access, Effect, Elem};
use region_effects::interferes;
use std::collections::BTreeSet;

fn some_interferes(e: &Effect, effects: &[Effect]) -> bool
    ensures { result ≡ some_interferes e.now effects.now }
{
    for f in effects {
        if interferes(e, f, &[]) {
            return true;
        }
    }
    false
}

fn lists_interfere(wants: &[Effect], effects: &[Effect]) -> bool
    ensures { result ≡ lists_interfere wants.now effects.now }
{
    for e in wants {
        if some_interferes(e, effects) {
            return true;
        }
    }
    false
}

/// Whether a task is the opener of the block that another was adopted into.
fn opened_for(standing: Option<&Standing>, task: u32) -> bool
    ensures { result ≡ opened_for (option_copied standing.entry) task }
{
    match standing {
        Some(Standing::Adopted { opener, .. }) => *opener == task,
        _ => false,
    }
}

fn block_interferes(standing: Option<&Standing>, wants: &[Effect]) -> bool
    ensures { result ≡ block_interferes (option_copied standing.entry) wants.now }
{
    match standing {
        Some(Standing::Opener { effects, .. }) => lists_interfere(wants, effects.as_slice()),
        _ => false,
    }
}

/// What a task wants, over the blocks of others.
#[derive(Clone, Copy)]
pub struct Search<'a> {
    pub standings: &'a StandingMap,
    pub task: u32,
    pub wants: &'a [Effect],
}

/// Whether the block of a task hinders.
pub fn hinders(search: Search<'_>, holder: u32) -> bool
    ensures { result ≡ hinders search.entry.standings.now search.entry.task search.entry.wants.now holder }
{
    holder != search.task
        && !opened_for(search.standings.get(search.task), holder)
        && block_interferes(search.standings.get(holder), search.wants)
}

/// The least task of a set that hinders.
fn least_of(search: Search<'_>, set: &BTreeSet<u32>) -> Option<u32>
    ensures first { result
        ≡ find (hinders search.entry.standings.now search.entry.task search.entry.wants.now) set.now.keys }
    ensures ordered { IsOrdered nat_cmp set.now }
{
    set.iter().copied().find(|holder| hinders(search, *holder))
}

/// A task, if it hinders.
fn hindering(search: Search<'_>, holder: u32) -> Option<u32>
    ensures { result ≡ hindering search.entry.standings.now search.entry.task search.entry.wants.now holder }
{
    hinders(search, holder).then_some(holder)
}

/// The lesser of two tasks, as far as there are any.
pub fn lesser(one: Option<u32>, other: Option<u32>) -> Option<u32>
    ensures { result ≡ lesser one other }
{
    match (one, other) {
        (None, task) => task,
        (Some(task), None) => Some(task),
        (Some(task), Some(second)) if second < task => Some(second),
        (Some(task), Some(_)) => Some(task),
    }
}

/// The least of some tasks that hinders.
fn least_in(search: Search<'_>, set: &TaskSet) -> Option<u32>
    ensures sound { IfSome result (λ h. hinders search.entry.standings.now search.entry.task search.entry.wants.now h ≡ true) }
    ensures found { (q : ℕ) → holds set.now q ≡ true
        → hinders search.entry.standings.now search.entry.task search.entry.wants.now q ≡ true → AtMost result q }
{
    match set {
        TaskSet::One(one) => hindering(search, *one),
        TaskSet::Two(one, other) => lesser(hindering(search, *one), hindering(search, *other)),
        TaskSet::Many(tasks) => least_of(search, tasks),
    }
}

/// The least task of the set under a number that hinders.
fn least_under(search: Search<'_>, sets: &Sets, number: u64) -> Option<u32>
    ensures sound { IfSome result (λ h. hinders search.entry.standings.now search.entry.task search.entry.wants.now h ≡ true) }
    ensures found { (q : ℕ) → has sets.now number q ≡ true
        → hinders search.entry.standings.now search.entry.task search.entry.wants.now q ≡ true → AtMost result q }
{
    let set = sets.get(&number)?;
    least_in(search, set)
}

/// The least task that hinders, of those that hold a path which may have a region in common with this one.
fn least_meeting(search: Search<'_>, index: &Index, elems: &[Elem]) -> Option<u32>
    ensures sound { IfSome result (λ h. hinders search.entry.standings.now search.entry.task search.entry.wants.now h ≡ true) }
    ensures found { (q : ℕ) → Met index.now.under index.now.ending q first_number elems.now
        → hinders search.entry.standings.now search.entry.task search.entry.wants.now q ≡ true → AtMost result q }
{
    if index.is_empty() {
        return None;
    }
    let mut number = FIRST_NUMBER;
    let mut least = None;
    for elem in elems {
        least = lesser(least, least_under(search, &index.ending, number));
        if !is_fixed(*elem) {
            return lesser(least, least_under(search, &index.under, number));
        }
        number = mixed(number, *elem);
    }
    least = lesser(least, least_under(search, &index.ending, number));
    lesser(least, least_under(search, &index.under, number))
}

/// The least task that hinders, of those that hold an effect which may interfere with this one.
pub fn least_holder(search: Search<'_>, reads: &Index, writes: &Index, e: &Effect) -> Option<u32>
    ensures sound { IfSome result (λ h. hinders search.entry.standings.now search.entry.task search.entry.wants.now h ≡ true) }
    ensures found { (q : ℕ) → MetBy reads.now writes.now q e.now.access e.now.rpl.elems
        → hinders search.entry.standings.now search.entry.task search.entry.wants.now q ≡ true → AtMost result q }
{
    let elems = e.rpl.elems.as_slice();
    match e.access {
        Access::Read => least_meeting(search, writes, elems),
        Access::Write => lesser(
            least_meeting(search, reads, elems),
            least_meeting(search, writes, elems),
        ),
    }
}
