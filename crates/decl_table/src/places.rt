ghost use Rattle.std.specs.Prelude.{◌≡◌, ℕ, ◌<◌, length, slice_index_or, cond, Some, IfOk, OnOk};
ghost use Rattle.lang_base.specs.declared.ty.Super.{Super as SuperRow};
ghost use Rattle.decl_headers.specs.Numbers.{owned_number};
ghost use Rattle.decl_table.specs.declared.rows.MethodRow.{MethodRow as Row};
ghost use Rattle.decl_table.specs.Finding.{Finds, FindsConstructors, FindsSupers, IsEntered};
ghost use Rattle.decl_table.specs.Places.{entry_at, is_method_of, is_constructor_of, field_place, method_number};

use crate::rows::{FieldRow, MethodRow, Signatures};
use decl_headers::{OwnedNumbers, number_at};
use lang_base::{Items, NoMemory, Super};
use std::alloc::Global;

/// Where the row of each class and name stands.
#[derive(Drop)]
pub struct Places {
    pub supers: Items<Option<u32>>,
    pub fields: OwnedNumbers,
    pub methods: OwnedNumbers,
    pub constructors: Items<Option<u32>>,
}

/// Finds the rows of so many classes.
pub fn find_places(alloc: Global, classes: usize, made: &Signatures) -> Result<Places, NoMemory>
    requires owned { (at : ℕ) (row : Row) → at < length made.now.methods → (slice_index_or made.now.methods at row).owner < classes }
    requires extending { (at : ℕ) (row : SuperRow) → at < length made.now.supers → (slice_index_or made.now.supers at row).class < classes }
    ensures { IfOk result (λ places. Finds made.now.supers made.now.fields made.now.methods places) }
{
    let supers = super_places(alloc, classes, made.supers.as_slice())?;
    let fields = field_places(alloc, made.fields.as_slice())?;
    let methods = method_places(alloc, made.methods.as_slice())?;
    let constructors = constructors(alloc, classes, made.methods.as_slice())?;
    Ok(Places {
        supers,
        fields,
        methods,
        constructors,
    })
}

/// What the list has for a class.
pub fn entry_at(entries: &[Option<u32>], class: u32) -> Option<u32>
    ensures { result ≡ entry_at entries.now class }
{
    entries.get(class as usize).copied().flatten()
}

/// The position of each class among the rows of superclasses.
fn super_places(
    alloc: Global,
    classes: usize,
    supers: &[Super],
) -> Result<Items<Option<u32>>, NoMemory>
    requires { (at : ℕ) (row : SuperRow) → at < length supers.now → (slice_index_or supers.now at row).class < classes }
    ensures { IfOk result (λ places. FindsSupers supers.now places) }
{
    let mut places = vec![in alloc; None; classes]?;
    for (at, row) in supers.iter().enumerate() {
        enter(places.as_mut_slice(), row.class, number_at(at));
    }
    Ok(Items::from_vec(places))
}

/// Puts a number in the place of an entry.
#[tactic(auto, using(crate::proofs::Finding::entering))]
fn enter(entries: &mut [Option<u32>], at: u32, number: u32)
    requires { at < length entries.old }
    ensures { IsEntered at number entries.old entries.new }
{
    entries[at as usize] = Some(number);
}

fn field_places(alloc: Global, fields: &[FieldRow]) -> Result<OwnedNumbers, NoMemory>
    ensures { IfOk result (λ places. (number : ℕ) (name : ℕ) → owned_number places number name ≡ field_place fields.now number name) }
{
    let mut places = OwnedNumbers::new(alloc);
    for (at, row) in fields.iter().enumerate() {
        places.set(row.owner, row.name, number_at(at))?;
    }
    Ok(places)
}

fn method_places(alloc: Global, methods: &[MethodRow]) -> Result<OwnedNumbers, NoMemory>
    ensures { IfOk result (λ places. (number : ℕ) (name : ℕ) → owned_number places number name ≡ method_number methods.now number name) }
{
    let mut places = OwnedNumbers::new(alloc);
    for row in methods {
        put_method(&mut places, row)?;
    }
    Ok(places)
}

/// Puts the number of a method that is no constructor under its class and name.
fn put_method(places: &mut OwnedNumbers, row: &MethodRow) -> Result<(), NoMemory>
    ensures { OnOk result ((number : ℕ) (name : ℕ) → owned_number places.new number name ≡ cond (is_method_of number name row.now) (Some row.now.id) (owned_number places.old number name)) }
{
    if row.is_constructor {
        return Ok(());
    }
    places.set(row.owner, row.name, row.id)
}

/// The constructor of each class.
fn constructors(
    alloc: Global,
    classes: usize,
    methods: &[MethodRow],
) -> Result<Items<Option<u32>>, NoMemory>
    requires { (at : ℕ) (row : Row) → at < length methods.now → (slice_index_or methods.now at row).owner < classes }
    ensures { IfOk result (λ found. FindsConstructors methods.now found) }
{
    let mut found = vec![in alloc; None; classes]?;
    for row in methods {
        put_constructor(found.as_mut_slice(), row);
    }
    Ok(Items::from_vec(found))
}

/// Puts the number of a constructor at its class.
fn put_constructor(found: &mut [Option<u32>], row: &MethodRow)
    requires { row.now.owner < length found.old }
    ensures as_many { length found.new ≡ length found.old }
    ensures entries { (number : ℕ) → entry_at found.new number ≡ cond (is_constructor_of number row.now) (Some row.now.id) (entry_at found.old number) }
{
    if row.is_constructor {
        enter(found, row.owner, row.id);
    }
}
