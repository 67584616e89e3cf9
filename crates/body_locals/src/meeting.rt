ghost use Rattle.std.specs.Prelude.{◌≡◌, ◌↔◌, ◌⊎◌, ◌||◌, ◌==◌, ℕ, true, false, Contains, IsTrue, IfOk, OnOk};
ghost use Rattle.lang_base.specs.Pairs.{NoPair};
ghost use Rattle.body_locals.specs.Clash.{Uses, Clash};
ghost use Rattle.body_locals.specs.Gains.{has, is_noted};
ghost use Rattle.body_locals.specs.Earlier.{has_some, meets};

use crate::branch::Touched;
use lang_base::NoMemory;
use std::alloc::Global;
use std::collections::BTreeSet;

/// Whether some branch assigns a local that another one reads or assigns: whether `clash` finds two branches. Its
/// cost grows with the number of locals and not with that of pairs.
pub fn has_clash(alloc: Global, branches: &[Touched]) -> Result<bool, NoMemory>
    ensures none { IfOk result (λ met. met ≡ false → NoPair Clash branches.now) }
    ensures some { IfOk result (λ met. met ≡ true → ¬ NoPair Clash branches.now) }
{
    let mut used = BTreeSet::new(alloc);
    let mut assigned = BTreeSet::new(alloc);
    for branch in branches {
        if meets(&used, &assigned, branch) {
            return Ok(true);
        }
        add_used(&mut used, branch)?;
        add_assigned(&mut assigned, branch)?;
    }
    Ok(false)
}

/// Whether a branch assigns a local that is used before, or reads one that is assigned before.
fn meets(used: &BTreeSet<u32>, assigned: &BTreeSet<u32>, branch: &Touched) -> bool
    ensures { result ≡ meets used.now assigned.now branch.now }
{
    has_some(used, branch.writes.as_slice()) || has_some(assigned, branch.reads.as_slice())
}

fn has_some(set: &BTreeSet<u32>, locals: &[u32]) -> bool
    ensures { result ≡ has_some set.now locals.now }
{
    locals.iter().any(|local| has(set, *local))
}

fn has(set: &BTreeSet<u32>, local: u32) -> bool
    ensures { result ≡ has set.now local }
{
    set.contains(&local)
}

/// Adds the locals that a branch reads or assigns.
#[tactic(auto, using(crate::proofs::Earlier::used_reported))]
fn add_used(set: &mut BTreeSet<u32>, branch: &Touched) -> Result<(), NoMemory>
    ensures { OnOk result ((x : ℕ) → IsTrue (has set.new x) ↔ (IsTrue (has set.old x) ⊎ Uses branch.now x)) }
{
    add_all(set, branch.reads.as_slice())?;
    add_all(set, branch.writes.as_slice())?;
    Ok(())
}

/// Adds the locals that a branch assigns.
#[tactic(auto, using(crate::proofs::Earlier::assigned_reported))]
fn add_assigned(set: &mut BTreeSet<u32>, branch: &Touched) -> Result<(), NoMemory>
    ensures { OnOk result ((x : ℕ) → IsTrue (has set.new x) ↔ (IsTrue (has set.old x) ⊎ Contains branch.now.writes x)) }
{
    add_all(set, branch.writes.as_slice())?;
    Ok(())
}

fn add_all(set: &mut BTreeSet<u32>, locals: &[u32]) -> Result<(), NoMemory>
    ensures { OnOk result ((x : ℕ) → has set.new x ≡ (has set.old x || is_noted locals.now x)) }
{
    for local in locals {
        add(set, *local)?;
    }
    Ok(())
}

fn add(set: &mut BTreeSet<u32>, local: u32) -> Result<(), NoMemory>
    ensures { OnOk result ((x : ℕ) → has set.new x ≡ (has set.old x || local == x)) }
{
    set.insert(local)?;
    Ok(())
}
