ghost use Rattle.std.specs.Prelude.{◌≡◌, ℕ, ◌++◌, [], length, replicate, IfOk, OnOk};
ghost use Rattle.decl_headers.specs.Way.{with_filed, extensions, walk, IsEnded, IsCounted, entered_below, following, way_of};

use crate::numbers::number_at;
use lang_base::{Items, NoMemory};
use std::alloc::Global;

/// A step of the way through all classes, each superclass before what extends it.
#[derive(Clone, Copy, Debug, PartialEq, Eq)]
pub enum Step {
    /// From here on the class and its superclasses are around us.
    Enter(u32),
    Leave(u32),
}

/// Of each class, the classes that extend it.
fn file_classes(alloc: Global, parents: &[Option<u32>]) -> Result<Vec<Items<u32>>, NoMemory>
    ensures { IfOk result (λ lists. lists.items ≡ extensions parents.now) }
{
    let mut lists = empty_lists(alloc, parents.len())?;
    for (at, parent) in parents.iter().enumerate() {
        if let Some(above) = *parent {
            file(lists.as_mut_slice(), above, number_at(at))?;
        }
    }
    Ok(lists)
}

fn empty_lists(alloc: Global, count: usize) -> Result<Vec<Items<u32>>, NoMemory>
    ensures { IfOk result (λ lists. lists.items ≡ replicate count []) }
{
    let mut lists = Vec::new(alloc);
    for _class in 0..count {
        lists.push(Items::new(alloc))?;
    }
    Ok(lists)
}

/// Puts a class under its superclass.
#[tactic(auto, using(std::proofs::lemmas::List::set_past))]
fn file(lists: &mut [Items<u32>], above: u32, number: u32) -> Result<(), NoMemory>
    ensures { OnOk result (lists.new ≡ with_filed lists.old above number) }
{
    let at = above as usize;
    if at < lists.len() {
        lists[at].push(number)?;
    }
    Ok(())
}

/// The way through all classes, each entered after its superclass and left after all that extends it.
pub fn way(alloc: Global, parents: &[Option<u32>]) -> Result<Items<Step>, NoMemory>
    ensures { IfOk result (λ steps. IsCounted parents.now → steps ≡ way_of parents.now) }
{
    let lists = file_classes(alloc, parents)?;
    let mut steps = Vec::new(alloc);
    for (at, parent) in parents.iter().enumerate() {
        if parent.is_none() {
            visit(alloc, lists.as_slice(), number_at(at), &mut steps)?;
        }
    }
    Ok(Items::from_vec(steps))
}

/// The way through a class and all that extend it.
fn visit(
    alloc: Global,
    lists: &[Items<u32>],
    root: u32,
    steps: &mut Vec<Step>,
) -> Result<(), NoMemory>
    ensures { OnOk result ((n : ℕ) → IsEnded lists.now n root → steps.new.items ≡ steps.old.items ++ walk lists.now n root) }
{
    let mut pending = Items::new(alloc);
    pending.push(Step::Enter(root))?;
    while let Some(step) = pending.pop() {
        steps.push(step)?;
        push_after(lists, step, &mut pending)?;
    }
    Ok(())
}

/// What comes after a step, the last first.
fn push_after(lists: &[Items<u32>], step: Step, pending: &mut Items<Step>) -> Result<(), NoMemory>
    ensures { OnOk result (pending.new ≡ pending.old ++ following lists.now step) }
{
    let Step::Enter(class) = step else {
        return Ok(());
    };
    pending.push(Step::Leave(class))?;
    if let Some(list) = lists.get(class as usize) {
        push_entered(list.as_slice(), pending)?;
    }
    Ok(())
}

fn push_entered(classes: &[u32], pending: &mut Items<Step>) -> Result<(), NoMemory>
    ensures { OnOk result (pending.new ≡ pending.old ++ entered_below classes.now) }
{
    for class in classes {
        pending.push(Step::Enter(*class))?;
    }
    Ok(())
}
