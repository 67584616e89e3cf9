ghost use Rattle.std.specs.Prelude.{◌≡◌, slice_set, slice_index_or, IfOk};
ghost use Rattle.decl_table.specs.RowNumbers.{with_row, with_all_rows, inherited_rows, counted_after, all_counted, no_counts, rows_on_way};

use crate::MethodRow;
use crate::overridden::{Own, own_methods, own_of};
use decl_headers::{Headers, Step};
use lang_base::{Items, NoMemory};
use std::alloc::Global;

/// The row of each method among those of its class: rows of superclasses come first, and a method that overrides one
/// has its row. A constructor has none, and 0 stands for it.
pub fn number_rows(
    alloc: Global,
    headers: &Headers,
    methods: &[MethodRow],
    overrides: &[Option<u32>],
) -> Result<Items<u32>, NoMemory>
    ensures { IfOk result (λ rows. rows ≡ rows_on_way headers.now methods.now overrides.now) }
{
    let lists = own_methods(alloc, headers.len(), methods)?;
    let way = headers.way(alloc)?;
    on_way(
        alloc,
        headers,
        lists.as_slice(),
        overrides,
        way.as_slice(),
        methods.len(),
    )
}

/// The rows that are given on a way through the classes.
fn on_way(
    alloc: Global,
    headers: &Headers,
    lists: &[Items<Own>],
    overrides: &[Option<u32>],
    steps: &[Step],
    methods: usize,
) -> Result<Items<u32>, NoMemory>
    ensures { IfOk result (λ rows. rows ≡ (all_counted headers.now lists.now overrides.now (no_counts headers.now methods) steps.now).rows) }
{
    let mut counts = vec![in alloc; 0u32; headers.len()]?;
    let mut rows = vec![in alloc; 0u32; methods]?;
    for step in steps {
        take_step(
            headers,
            lists,
            overrides,
            *step,
            counts.as_mut_slice(),
            rows.as_mut_slice(),
        );
    }
    Ok(Items::from_vec(rows))
}

/// On entering a class its methods get their rows.
fn take_step(
    headers: &Headers,
    lists: &[Items<Own>],
    overrides: &[Option<u32>],
    step: Step,
    counts: &mut [u32],
    rows: &mut [u32],
)
    ensures { record { counts = counts.new; rows = rows.new } ≡ counted_after headers.now lists.now overrides.now (record { counts = counts.old; rows = rows.old }) step }
{
    if let Step::Enter(class) = step {
        let first = inherited_rows(headers, counts, class);
        let own = own_of(lists, class as usize);
        let next = number_own(own, overrides, first, rows);
        put(counts, class as usize, next);
    }
}

/// How many rows the superclass of a class has.
fn inherited_rows(headers: &Headers, counts: &[u32], class: u32) -> u32
    ensures { result ≡ inherited_rows headers.now counts.now class }
{
    match headers.parent(class) {
        Some(parent) => row_at(counts, parent),
        None => 0,
    }
}

/// Gives rows to the methods of a class, of which the next is this. The next one after them.
fn number_own(own: &[Own], overrides: &[Option<u32>], first: u32, rows: &mut [u32]) -> u32
    ensures { record { next = result; rows = rows.new } ≡ with_all_rows overrides.now (record { next = first; rows = rows.old }) own.now }
{
    let mut next = first;
    for method in own {
        next = number_method(*method, overrides, next, rows);
    }
    next
}

fn number_method(method: Own, overrides: &[Option<u32>], next: u32, rows: &mut [u32]) -> u32
    ensures { record { next = result; rows = rows.new } ≡ with_row overrides.now (record { next = next; rows = rows.old }) method }
{
    match overrides.get(method.row).copied().flatten() {
        Some(above) => {
            put(rows, method.row, row_at(rows, above));
            next
        }
        None => {
            put(rows, method.row, next);
            next.saturating_add(1)
        }
    }
}

fn row_at(rows: &[u32], at: u32) -> u32
    ensures { result ≡ slice_index_or rows.now at 0 }
{
    rows.get(at as usize).copied().unwrap_or(0)
}

#[tactic(auto, using(std::proofs::lemmas::List::set_past))]
fn put(rows: &mut [u32], at: usize, row: u32)
    ensures { rows.new ≡ slice_set rows.old at row }
{
    if at < rows.len() {
        rows[at] = row;
    }
}
