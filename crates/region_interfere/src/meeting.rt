ghost use Rattle.std.specs.Prelude.{◌≡◌, ◌<◌, length, IsTrue, IfOk};
ghost use Rattle.lang_base.specs.Pairs.{FirstPair, FirstAfter};
ghost use Rattle.lang_base.specs.Branches.{lists_clash};
ghost use Rattle.region_interfere.specs.Nd.{plain_nd};

use crate::atomic::Atomic;
use crate::clash::lists_clash;
use crate::thin::thinned;
use lang_base::{Constraint, Effect, Items, NoMemory, Plain};
use region_effects::EffectSet;
use std::alloc::Global;

/// Up to so many effects of all branches are compared with each other, which takes less than to put them into groups.
const FEW: usize = 24;

/// The first two branches, in their order, of which an effect of one clashes with an effect of the other. `nd` says
/// what is declared atomic where the construct is one of nd. Of many effects such as can't interfere with another branch
/// are left out first, so that branches with regions of their own aren't compared with each other.
pub fn first_meeting(
    alloc: Global,
    branches: &[EffectSet],
    given: &[Constraint],
    nd: Option<Atomic<'_>>,
) -> Result<Option<(u32, u32)>, NoMemory>
    requires { length branches.now < 4294967296 }
    ensures { IfOk result (λ pair. FirstPair (λ es fs. IsTrue (lists_clash given.now (plain_nd nd.entry) es fs)) branches.now pair) }
{
    if are_few(branches) {
        let all = all_copied(alloc, branches)?;
        return Ok(first_pair(all.as_slice(), given, nd));
    }
    let left = thinned(alloc, branches)?;
    Ok(first_pair(left.as_slice(), given, nd))
}

fn are_few(branches: &[EffectSet]) -> bool {
    let mut count = 0usize;
    for branch in branches {
        count = count.saturating_add(branch.len());
    }
    count <= FEW
}

fn all_copied(alloc: Global, branches: &[EffectSet]) -> Result<Items<Items<Effect>>, NoMemory>
    ensures { IfOk result (λ copies. copies ≡ branches.now) }
{
    let mut copies = Items::new(alloc);
    for branch in branches {
        copies.push(copied(alloc, branch.as_slice())?)?;
    }
    Ok(copies)
}

fn copied(alloc: Global, effects: &[Effect]) -> Result<Items<Effect>, NoMemory>
    ensures { IfOk result (λ copies. copies ≡ effects.now) }
{
    let mut copies = Items::new(alloc);
    for e in effects {
        copies.push(e.copy(alloc)?)?;
    }
    Ok(copies)
}

fn first_pair(
    branches: &[Items<Effect>],
    given: &[Constraint],
    nd: Option<Atomic<'_>>,
) -> Option<(u32, u32)>
    requires { length branches.now < 4294967296 }
    ensures { FirstPair (λ es fs. IsTrue (lists_clash given.now (plain_nd nd.entry) es fs)) branches.now result }
{
    for i in 0..branches.len() {
        if let Some(j) = first_after(branches, given, nd, i) {
            return Some((i as u32, j as u32));
        }
    }
    None
}

/// The first branch after this one that it clashes with.
fn first_after(
    branches: &[Items<Effect>],
    given: &[Constraint],
    nd: Option<Atomic<'_>>,
    i: usize,
) -> Option<usize>
    requires { i < length branches.now }
    ensures { FirstAfter (λ es fs. IsTrue (lists_clash given.now (plain_nd nd.entry) es fs)) branches.now i result }
{
    let effects = &branches[i];
    if effects.is_empty() {
        return None;
    }
    for j in i + 1..branches.len() {
        if lists_clash(effects.as_slice(), branches[j].as_slice(), given, nd) {
            return Some(j);
        }
    }
    None
}
