ghost use Rattle.std.specs.Prelude.{◌≡◌};
ghost use Rattle.lang_base.specs.Branches.{clashes, some_clashes, lists_clash};
ghost use Rattle.region_interfere.specs.Nd.{plain_nd};

use crate::atomic::{Atomic, ordered_by_blocks};
use lang_base::{Constraint, Effect};
use region_effects::interferes;

/// Whether two effects of different branches interfere, and atomic blocks don't order them.
#[tactic(auto, unfolding(lang_base::specs::Branches::clashes))]
fn clashes(e: &Effect, f: &Effect, given: &[Constraint], nd: Option<Atomic<'_>>) -> bool
    ensures { result ≡ clashes given.now (plain_nd nd.entry) e.now f.now }
{
    interferes(e, f, given) && !ordered_by_blocks(e, f, nd)
}

pub fn some_clashes(
    e: &Effect,
    others: &[Effect],
    given: &[Constraint],
    nd: Option<Atomic<'_>>,
) -> bool
    ensures { result ≡ some_clashes given.now (plain_nd nd.entry) e.now others.now }
{
    for f in others {
        if clashes(e, f, given, nd) {
            return true;
        }
    }
    false
}

pub fn lists_clash(
    effects: &[Effect],
    others: &[Effect],
    given: &[Constraint],
    nd: Option<Atomic<'_>>,
) -> bool
    ensures { result ≡ lists_clash given.now (plain_nd nd.entry) effects.now others.now }
{
    for e in effects {
        if some_clashes(e, others, given, nd) {
            return true;
        }
    }
    false
}
