ghost use Rattle.std.specs.Prelude.{◌≡◌, ◌<◌, ℕ, true, false, map, length, slice_set, slice_index_or, IfOk};
ghost use Rattle.std.specs.Option.{option_and_then};
ghost use Rattle.decl_headers.specs.Rounds.{entry_of, up, is_round, with_round};

use lang_base::{Items, NoMemory};
use std::alloc::Global;

/// Of each class, whether it is its own superclass. Such classes, and no others, are above some class over more steps
/// than there are classes.
pub fn going_round(alloc: Global, parents: &[Option<u32>]) -> Result<Items<bool>, NoMemory>
    ensures { IfOk result (λ rounds. (at : ℕ) → slice_index_or rounds at false ≡ is_round parents.now at) }
{
    let jumps = far_up(alloc, parents)?;
    let mut rounds = vec![in alloc; false; parents.len()]?;
    for jump in jumps.as_slice() {
        mark_round(rounds.as_mut_slice(), *jump);
    }
    Ok(Items::from_vec(rounds))
}

fn mark_round(rounds: &mut [bool], jump: Option<u32>)
    ensures { rounds.new ≡ with_round rounds.old jump }
{
    if let Some(at) = jump {
        set_round(rounds, at as usize);
    }
}

#[tactic(auto, using(std::proofs::lemmas::List::set_past))]
fn set_round(rounds: &mut [bool], at: usize)
    ensures { rounds.new ≡ slice_set rounds.old at true }
{
    if at < rounds.len() {
        rounds[at] = true;
    }
}

/// Of each class, what is above it over so many steps, which are more than there are classes.
fn far_up(alloc: Global, parents: &[Option<u32>]) -> Result<Items<Option<u32>>, NoMemory>
    ensures { IfOk result (λ jumps. (steps : ℕ) × (length parents.now < steps) × ((at : ℕ) → entry_of jumps at ≡ up parents.now steps at)) }
{
    let mut jumps = copied(alloc, parents)?;
    let mut steps = 1usize;
    while steps <= parents.len() {
        jumps = twice(alloc, jumps.as_slice())?;
        steps *= 2;
    }
    Ok(jumps)
}

fn copied(alloc: Global, parents: &[Option<u32>]) -> Result<Items<Option<u32>>, NoMemory>
    ensures { IfOk result (λ jumps. jumps ≡ parents.now) }
{
    let mut jumps = Items::new(alloc);
    for parent in parents {
        jumps.push(*parent)?;
    }
    Ok(jumps)
}

/// Twice as far up.
fn twice(alloc: Global, jumps: &[Option<u32>]) -> Result<Items<Option<u32>>, NoMemory>
    ensures { IfOk result (λ made. made ≡ map (λ jump. option_and_then (entry_of jumps.now) jump) jumps.now) }
{
    let mut made = Items::new(alloc);
    for jump in jumps {
        made.push(jumped(jumps, *jump))?;
    }
    Ok(made)
}

fn jumped(jumps: &[Option<u32>], at: Option<u32>) -> Option<u32>
    ensures { result ≡ option_and_then (entry_of jumps.now) at }
{
    jumps.get(at? as usize).copied().flatten()
}
