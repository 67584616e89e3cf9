ghost use Rattle.std.specs.Prelude.{◌≡◌, ◌<◌, length, filter, not, IfOk};
ghost use Rattle.region_interfere.specs.Thinned.{Thinned};
ghost use Rattle.region_interfere.specs.Kept.{Grouped, kept, ThinnedBy};

use crate::grouping::{Groups, grouped, is_alone};
use crate::key::Key;
use lang_base::{Effect, Head, Items, NoMemory, Plain};
use region_effects::EffectSet;
use std::alloc::Global;

/// The effects of all branches, by groups of three kinds.
#[derive(Debug, Drop)]
pub struct Kinds<'a> {
    first: Groups<'a>,
    last: Groups<'a>,
    whole: Groups<'a>,
}

/// The head of the first effect.
fn main_head(branches: &[EffectSet]) -> Head {
    for branch in branches {
        if let [e, ..] = branch.as_slice() {
            return e.rpl.head;
        }
    }
    Head::Root
}

fn by_kinds<'a>(alloc: Global, branches: &'a [EffectSet]) -> Result<Kinds<'a>, NoMemory>
    requires { length branches.now < 4294967296 }
    ensures { IfOk result (λ made. Grouped made branches.now) }
{
    let head = main_head(branches);
    Ok(Kinds {
        first: grouped(alloc, branches, Key::First(head))?,
        last: grouped(alloc, branches, Key::Last)?,
        whole: grouped(alloc, branches, Key::Whole(head))?,
    })
}

/// Whether an effect of a branch is kept: it isn't alone by groups of any kind.
fn is_kept(kinds: &Kinds<'_>, e: &Effect, branch: u32) -> bool
    ensures { result ≡ kept kinds.now branch e.now }
{
    !(is_alone(&kinds.first, e, branch)
        || is_alone(&kinds.last, e, branch)
        || is_alone(&kinds.whole, e, branch))
}

fn thin_branch(
    alloc: Global,
    effects: &[Effect],
    branch: u32,
    kinds: &Kinds<'_>,
) -> Result<Items<Effect>, NoMemory>
    ensures { IfOk result (λ left. left ≡ filter (kept kinds.now branch) effects.now) }
{
    let mut left = Items::new(alloc);
    for e in effects {
        if is_kept(kinds, e, branch) {
            left.push(e.copy(alloc)?)?;
        }
    }
    Ok(left)
}

fn thin_all(
    alloc: Global,
    branches: &[EffectSet],
    kinds: &Kinds<'_>,
) -> Result<Items<Items<Effect>>, NoMemory>
    requires { length branches.now < 4294967296 }
    ensures { IfOk result (λ left. ThinnedBy (kept kinds.now) branches.now left) }
{
    let mut left = Items::new(alloc);
    for i in 0..branches.len() {
        left.push(thin_branch(alloc, branches[i].as_slice(), i as u32, kinds)?)?;
    }
    Ok(left)
}

/// The effects of each branch, but for such as can't interfere with an effect of another branch, as their paths'
/// first elements, last elements or all elements show: of many branches with regions of their own nothing is left.
pub fn thinned(alloc: Global, branches: &[EffectSet]) -> Result<Items<Items<Effect>>, NoMemory>
    requires { length branches.now < 4294967296 }
    ensures { IfOk result (λ left. Thinned branches.now left) }
{
    let kinds = by_kinds(alloc, branches)?;
    thin_all(alloc, branches, &kinds)
}
