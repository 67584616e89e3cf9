ghost use Rattle.std.specs.Prelude.{◌≡◌, IfOk};
ghost use Rattle.lang_base.specs.Branches.{some_clashes, lists_clash, iterations_clash};
ghost use Rattle.region_interfere.specs.Nd.{plain_nd};

use crate::atomic::Atomic;
use crate::by_group::ByGroup;
use crate::clash::{lists_clash, some_clashes};
use crate::renaming::renamed_all;
use lang_base::{Constraint, Effect, NoMemory};
use region_effects::EffectSet;
use std::alloc::Global;

/// Up to so many effects are compared with each other, which takes less than to put them into groups.
const FEW: usize = 16;

/// Whether an effect of a loop's body clashes with one of another iteration: `var` is the slot of the loop
/// variable. `nd` says what is declared atomic where the loop is one of nd.
pub fn iterations_clash(
    alloc: Global,
    body: &EffectSet,
    var: u32,
    given: &[Constraint],
    nd: Option<Atomic<'_>>,
) -> Result<bool, NoMemory>
    ensures { IfOk result (λ clash. clash ≡ iterations_clash given.now (plain_nd nd.entry) var body.now) }
{
    let renamed = renamed_all(alloc, body.as_slice(), var)?;
    if body.len() <= FEW {
        return Ok(lists_clash(body.as_slice(), renamed.as_slice(), given, nd));
    }
    let another = ByGroup::new(alloc, renamed.as_slice())?;
    Ok(clashes_by_group(body.as_slice(), &another, given, nd))
}

fn clashes_by_group(
    effects: &[Effect],
    others: &ByGroup<'_>,
    given: &[Constraint],
    nd: Option<Atomic<'_>>,
) -> bool
    ensures { result ≡ lists_clash given.now (plain_nd nd.entry) effects.now others.now.1 }
{
    for e in effects {
        if clashes_with(e, others, given, nd) {
            return true;
        }
    }
    false
}

/// Whether the effect clashes with one of the others: those of other groups need no look.
fn clashes_with(
    e: &Effect,
    others: &ByGroup<'_>,
    given: &[Constraint],
    nd: Option<Atomic<'_>>,
) -> bool
    ensures { result ≡ some_clashes given.now (plain_nd nd.entry) e.now others.now.1 }
{
    some_clashes(e, others.in_group(e), given, nd)
        || some_clashes(e, others.in_no_group(e), given, nd)
}
