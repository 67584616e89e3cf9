ghost use Rattle.std.specs.Prelude.{◌≡◌, ℕ, false, [], map, slice_index_or, OnOk, IfOk};
ghost use Rattle.decl_headers.specs.Faults.{noted, all_noted};
ghost use Rattle.decl_headers.specs.Numbers.{number_of};
ghost use Rattle.decl_headers.specs.Passes.{first_named, second_classes, named_parent, unknown_parent, unknown_parents, is_constructor, has_constructor, extends_place, is_among, cycles, closed_parents};
ghost use Rattle.decl_headers.specs.Rounds.{is_round};

use crate::faults::Faults;
use crate::numbers::{NameNumbers, number_at};
use crate::rounds::going_round;
use lang_base::{Items, Kind, NoMemory, Place};
use std::alloc::Global;
use syntax_tree::{Class, Member, MethodResult};

/// The classes by name. Where two have one name, the name means the first, and the second is a fault.
#[tactic(auto, using(crate::proofs::Noting::noting))]
pub fn number_classes(
    alloc: Global,
    classes: &[Class],
    faults: &mut Faults,
) -> Result<NameNumbers, NoMemory>
    ensures faults { OnOk result (faults.new ≡ all_noted faults.old (second_classes [] classes.now)) }
    ensures first { IfOk result (λ numbers. (name : ℕ) → number_of numbers name ≡ first_named name 0 classes.now) }
{
    let mut numbers = NameNumbers::new(alloc);
    for (at, class) in classes.iter().enumerate() {
        if numbers.get(class.name).is_some() {
            faults.note(Kind::Duplicate, class.place);
        } else {
            numbers.set(class.name, number_at(at))?;
        }
    }
    Ok(numbers)
}

/// The superclass of each class. One that isn't there is a fault.
#[tactic(auto, using(crate::proofs::Noting::noting))]
pub fn find_parents(
    alloc: Global,
    classes: &[Class],
    numbers: &NameNumbers,
    faults: &mut Faults,
) -> Result<Items<Option<u32>>, NoMemory>
    ensures faults { OnOk result (faults.new ≡ all_noted faults.old (unknown_parents (number_of numbers.now) classes.now)) }
    ensures found { IfOk result (λ parents. parents ≡ map (named_parent (number_of numbers.now)) classes.now) }
{
    let mut parents = Items::new(alloc);
    for class in classes {
        parents.push(find_parent(class, numbers, faults))?;
    }
    Ok(parents)
}

#[tactic(auto, using(crate::proofs::Noting::noting))]
fn find_parent(class: &Class, numbers: &NameNumbers, faults: &mut Faults) -> Option<u32>
    ensures faults { faults.new ≡ all_noted faults.old (unknown_parent (number_of numbers.now) class.now) }
    ensures found { result ≡ named_parent (number_of numbers.now) class.now }
{
    let Some(parent) = &class.parent else {
        return None;
    };
    let found = numbers.get(parent.name.name);
    if found.is_none() {
        faults.note(Kind::Unknown, parent.name.place);
    }
    found
}

fn is_constructor(member: &Member) -> bool
    ensures { result ≡ is_constructor member.now }
{
    match member {
        Member::Method(method) => matches!(method.result, MethodResult::Constructor),
        _ => false,
    }
}

fn has_constructor(class: &Class) -> bool
    ensures { result ≡ has_constructor class.now }
{
    class.members.as_slice().iter().any(is_constructor)
}

/// Notes each class that extends one with a constructor.
#[tactic(auto, using(crate::proofs::Noting::noting))]
pub fn check_extended(
    alloc: Global,
    classes: &[Class],
    parents: &[Option<u32>],
    faults: &mut Faults,
) -> Result<(), NoMemory>
    ensures { OnOk result (faults.new ≡ all_noted faults.old (closed_parents (map has_constructor classes.now) classes.now parents.now)) }
{
    let found = with_constructors(alloc, classes)?;
    let closed = found.as_slice();
    for (at, class) in classes.iter().enumerate() {
        let Some(parent) = parents.get(at) else {
            return Ok(());
        };
        if is_among(closed, *parent) {
            faults.note(Kind::Override, extends_place(class));
        }
    }
    Ok(())
}

/// Of each class, whether it has a constructor.
fn with_constructors(alloc: Global, classes: &[Class]) -> Result<Items<bool>, NoMemory>
    ensures { IfOk result (λ closed. closed ≡ map has_constructor classes.now) }
{
    let mut closed = Items::new(alloc);
    for class in classes {
        closed.push(has_constructor(class))?;
    }
    Ok(closed)
}

fn is_among(closed: &[bool], parent: Option<u32>) -> bool
    ensures { result ≡ is_among closed.now parent }
{
    match parent {
        None => false,
        Some(number) => closed.get(number as usize).copied().unwrap_or(false),
    }
}

/// The place of the name after `extends`.
fn extends_place(class: &Class) -> Place
    ensures { result ≡ extends_place class.now }
{
    match &class.parent {
        Some(parent) => parent.name.place,
        None => class.place,
    }
}

/// Notes each class that is its own superclass.
#[tactic(auto, using(crate::proofs::Noting::noting))]
pub fn check_cycles(
    alloc: Global,
    classes: &[Class],
    parents: &[Option<u32>],
    faults: &mut Faults,
) -> Result<(), NoMemory>
    ensures { OnOk result (faults.new ≡ all_noted faults.old (cycles (is_round parents.now) 0 classes.now)) }
{
    let found = going_round(alloc, parents)?;
    let rounds = found.as_slice();
    for (at, class) in classes.iter().enumerate() {
        if is_round(rounds, at) {
            faults.note(Kind::Cycle, extends_place(class));
        }
    }
    Ok(())
}

fn is_round(rounds: &[bool], at: usize) -> bool
    ensures { result ≡ slice_index_or rounds.now at false }
{
    rounds.get(at).copied().unwrap_or(false)
}
