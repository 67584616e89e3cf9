ghost use Rattle.std.specs.Prelude.{◌≡◌, ℕ, ◌<◌, [], map, fold, length, replicate, slice_index_or, unwrap_or, option_map, IfOk, OnOk};
ghost use Rattle.decl_headers.specs.Headers.{parent_of, parents_of, class_count};
ghost use Rattle.decl_headers.specs.Inheriting.{made_at, of_each_class};
ghost use Rattle.decl_headers.specs.Way.{IsForest, entered, entered_on};
ghost use Rattle.decl_table.specs.Inherited.{with_member, declared_methods, members_after, members_in};
ghost use Rattle.decl_table.specs.Table.{headers_of};

use crate::Table;
use crate::overridden::{Own, own_methods, own_of};
use decl_headers::{Headers, Step};
use lang_base::{Items, NoMemory, Plain};
use std::alloc::Global;

/// Of each class the members in its rows: those of its superclass come first, and a method stands in the row of the
/// one that it overrides.
pub fn all_rows(alloc: Global, table: &Table) -> Result<Items<Items<u32>>, NoMemory>
    ensures forest { IfOk result (λ all. IsForest (parents_of (headers_of table.now))) }
    ensures made { IfOk result (λ all. all ≡ of_each_class (headers_of table.now) (members_in table.now)) }
{
    let own = own_methods(alloc, table.headers().len(), table.methods())?;
    let way = table.headers().way(alloc)?;
    on_way(alloc, table, own.as_slice(), way.as_slice())
}

/// Of each class the members in its rows, put there on a way through the classes.
fn on_way(
    alloc: Global,
    table: &Table,
    own: &[Items<Own>],
    steps: &[Step],
) -> Result<Items<Items<u32>>, NoMemory>
    requires as_many { length own.now ≡ class_count (headers_of table.now) }
    requires filed { (class : ℕ) → class < length own.now → map (λ method. method.id) (slice_index_or own.now class []) ≡ declared_methods table.now class }
    ensures { IfOk result (λ all. all ≡ entered_on (made_at (headers_of table.now) [] (members_after table.now)) (replicate (class_count (headers_of table.now)) []) steps.now) }
{
    let mut all = no_rows(alloc, own.len())?;
    for step in steps {
        take_step(alloc, table, own, *step, all.as_mut_slice())?;
    }
    Ok(Items::from_vec(all))
}

fn no_rows(alloc: Global, classes: usize) -> Result<Vec<Items<u32>>, NoMemory>
    ensures { IfOk result (λ lists. lists.items ≡ replicate classes []) }
{
    let mut lists = Vec::new(alloc);
    for _class in 0..classes {
        lists.push(Items::new(alloc))?;
    }
    Ok(lists)
}

/// On entering a class its members get their rows.
#[tactic(auto, using(std::proofs::lemmas::List::set_past))]
fn take_step(
    alloc: Global,
    table: &Table,
    own: &[Items<Own>],
    step: Step,
    all: &mut [Items<u32>],
) -> Result<(), NoMemory>
    requires as_many { length all.old ≡ length own.now }
    requires filed { (class : ℕ) → class < length own.now → map (λ method. method.id) (slice_index_or own.now class []) ≡ declared_methods table.now class }
    ensures { OnOk result (all.new ≡ entered (made_at (headers_of table.now) [] (members_after table.now)) all.old step) }
{
    if let Step::Enter(class) = step {
        if (class as usize) < all.len() {
            let mut rows = inherited_rows(alloc, table.headers(), all, class)?;
            add_members(table, own_of(own, class as usize), &mut rows)?;
            all[class as usize] = rows;
        }
    }
    Ok(())
}

/// The members in the rows of the superclass.
fn inherited_rows(
    alloc: Global,
    headers: &Headers,
    all: &[Items<u32>],
    class: u32,
) -> Result<Items<u32>, NoMemory>
    ensures { IfOk result (λ rows. rows ≡ unwrap_or (option_map (λ above. slice_index_or all.now above []) (parent_of headers.now class)) []) }
{
    let inherited = headers
        .parent(class)
        .and_then(|above| all.get(above as usize));
    match inherited {
        Some(rows) => rows.copy(alloc),
        None => Ok(Items::new(alloc)),
    }
}

/// Puts the methods of a class into rows.
fn add_members(table: &Table, own: &[Own], rows: &mut Items<u32>) -> Result<(), NoMemory>
    ensures { OnOk result (rows.new ≡ fold (with_member table.now) rows.old (map (λ method. method.id) own.now)) }
{
    for method in own {
        add_member(table, method.id, rows)?;
    }
    Ok(())
}

/// Puts a method into the row of the one that it overrides, or else into a new one.
#[tactic(auto, using(std::proofs::lemmas::List::set_past))]
fn add_member(table: &Table, method: u32, rows: &mut Items<u32>) -> Result<(), NoMemory>
    ensures { OnOk result (rows.new ≡ with_member table.now rows.old method) }
{
    if table.overrides(method).is_none() {
        return rows.push(method);
    }
    let row = table.row(method) as usize;
    if row < rows.len() {
        rows.set(row, method);
    }
    Ok(())
}
