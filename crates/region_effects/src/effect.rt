ghost use Rattle.std.specs.Prelude.{◌≡◌};
ghost use Rattle.lang_base.specs.Effects.{is_write, covers_access, covers_effect, interferes};

use lang_base::{Access, Constraint, Effect};
use region_paths::{disjoint, includes};

fn is_write(access: Access) -> bool
    ensures { result ≡ is_write access }
{
    matches!(access, Access::Write)
}

/// A write covers both, a read covers reads alone.
fn covers_access(a: Access, b: Access) -> bool
    ensures { result ≡ covers_access a b }
{
    match a {
        Access::Write => true,
        Access::Read => !is_write(b),
    }
}

/// Whether the first effect covers the second: whoever may do the first may do the second.
#[tactic(auto, unfolding(lang_base::specs::Effects::covers_effect))]
pub fn covers(a: &Effect, b: &Effect) -> bool
    ensures { result ≡ covers_effect a.now b.now }
{
    includes(&a.rpl, &b.rpl) && covers_access(a.access, b.access) && (!a.atomic || b.atomic)
}

/// Whether the two effects interfere, where the constraints hold.
#[tactic(auto, unfolding(lang_base::specs::Effects::interferes))]
pub fn interferes(a: &Effect, b: &Effect, given: &[Constraint]) -> bool
    ensures { result ≡ interferes given.now a.now b.now }
{
    (is_write(a.access) || is_write(b.access)) && !disjoint(&a.rpl, &b.rpl, given)
}
