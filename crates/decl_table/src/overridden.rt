ghost use Rattle.std.specs.Prelude.{◌≡◌, [], replicate, slice_set, slice_index_or, IfOk, OnOk};
ghost use Rattle.decl_headers.specs.Headers.{parents_of};
ghost use Rattle.decl_table.specs.Places.{entry_at};
ghost use Rattle.decl_table.specs.Visible.{with_own, all_own, all_overriding, all_in_front, all_after, none_seen, after_step, after_way, overridden_on_way};

use crate::MethodRow;
use decl_headers::{Headers, Step};
use lang_base::{Items, NoMemory};
use std::alloc::Global;

/// A method which its class itself declares.
#[derive(Clone, Copy, Debug, PartialEq, Eq)]
pub struct Own {
    /// The position of its row.
    pub row: usize,
    pub name: u32,
    pub id: u32,
}

/// Of each row the method that it overrides. Names are positions below a count.
pub fn find_overridden(
    alloc: Global,
    headers: &Headers,
    methods: &[MethodRow],
    names: usize,
) -> Result<Items<Option<u32>>, NoMemory>
    ensures { IfOk result (λ overridden. overridden ≡ overridden_on_way (parents_of headers.now) methods.now names) }
{
    let lists = own_methods(alloc, headers.len(), methods)?;
    let way = headers.way(alloc)?;
    on_way(
        alloc,
        lists.as_slice(),
        way.as_slice(),
        names,
        methods.len(),
    )
}

/// Of each class, the methods that it declares.
pub fn own_methods(
    alloc: Global,
    classes: usize,
    methods: &[MethodRow],
) -> Result<Vec<Items<Own>>, NoMemory>
    ensures { IfOk result (λ lists. lists.items ≡ all_own (replicate classes []) 0 methods.now) }
{
    let mut lists = empty_lists(alloc, classes)?;
    for (at, row) in methods.iter().enumerate() {
        add_own(lists.as_mut_slice(), at, row)?;
    }
    Ok(lists)
}

fn empty_lists(alloc: Global, count: usize) -> Result<Vec<Items<Own>>, NoMemory>
    ensures { IfOk result (λ lists. lists.items ≡ replicate count []) }
{
    let mut lists = Vec::new(alloc);
    for _class in 0..count {
        lists.push(Items::new(alloc))?;
    }
    Ok(lists)
}

/// Puts a method under its class.
#[tactic(auto, using(std::proofs::lemmas::List::set_past))]
fn add_own(lists: &mut [Items<Own>], at: usize, row: &MethodRow) -> Result<(), NoMemory>
    ensures { OnOk result (lists.new ≡ with_own lists.old at row.now) }
{
    let class = row.owner as usize;
    if !row.is_constructor && class < lists.len() {
        lists[class].push(Own {
            row: at,
            name: row.name,
            id: row.id,
        })?;
    }
    Ok(())
}

/// What each row overrides, found on a way through the classes.
fn on_way(
    alloc: Global,
    lists: &[Items<Own>],
    steps: &[Step],
    names: usize,
    rows: usize,
) -> Result<Items<Option<u32>>, NoMemory>
    ensures { IfOk result (λ overridden. overridden ≡ (after_way lists.now (none_seen names rows) steps.now).overridden) }
{
    let mut visible = vec![in alloc; None; names]?;
    let mut overridden = vec![in alloc; None; rows]?;
    for step in steps {
        take_step(
            lists,
            *step,
            visible.as_mut_slice(),
            overridden.as_mut_slice(),
        );
    }
    Ok(Items::from_vec(overridden))
}

/// On entering a class its methods come in front of those that they override; on leaving it these are in front again.
fn take_step(
    lists: &[Items<Own>],
    step: Step,
    visible: &mut [Option<u32>],
    overridden: &mut [Option<u32>],
)
    ensures { record { visible = visible.new; overridden = overridden.new } ≡ after_step lists.now (record { visible = visible.old; overridden = overridden.old }) step }
{
    match step {
        Step::Enter(class) => {
            let own = own_of(lists, class as usize);
            note_overridden(own, visible, overridden);
            put_in_front(own, visible);
        }
        Step::Leave(class) => put_back(own_of(lists, class as usize), overridden, visible),
    }
}

/// The methods of a class.
pub fn own_of(lists: &[Items<Own>], class: usize) -> &[Own]
    ensures { result.now ≡ slice_index_or lists.now class [] }
{
    match lists.get(class) {
        Some(own) => own.as_slice(),
        None => &[],
    }
}

fn note_overridden(own: &[Own], visible: &[Option<u32>], overridden: &mut [Option<u32>])
    ensures { overridden.new ≡ all_overriding visible.now overridden.old own.now }
{
    for method in own {
        put(overridden, method.row, entry(visible, method.name as usize));
    }
}

fn put_in_front(own: &[Own], visible: &mut [Option<u32>])
    ensures { visible.new ≡ all_in_front visible.old own.now }
{
    for method in own {
        put(visible, method.name as usize, Some(method.id));
    }
}

fn put_back(own: &[Own], overridden: &[Option<u32>], visible: &mut [Option<u32>])
    ensures { visible.new ≡ all_after overridden.now visible.old own.now }
{
    for method in own {
        put(visible, method.name as usize, entry(overridden, method.row));
    }
}

fn entry(entries: &[Option<u32>], at: usize) -> Option<u32>
    ensures { result ≡ entry_at entries.now at }
{
    entries.get(at).copied().flatten()
}

/// Puts an entry in the place of one that is there.
#[tactic(auto, using(std::proofs::lemmas::List::set_past))]
fn put(entries: &mut [Option<u32>], at: usize, entry: Option<u32>)
    ensures { entries.new ≡ slice_set entries.old at entry }
{
    if at < entries.len() {
        entries[at] = entry;
    }
}
