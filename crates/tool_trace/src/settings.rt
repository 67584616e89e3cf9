ghost use Rattle.std.specs.Prelude.{◌≡◌, ◌≤◌, ℕ, ℤ, MatchOption};
ghost use Rattle.lang_base.specs.declared.outcome.Limits.{Limits as IsLimits};
ghost use Rattle.tool_trace.specs.Reading.{IsSettings, IsEvents, AreLimits};
ghost use Rattle.tool_trace.specs.Text.{limits_text};

use crate::numbers::{argument, number};
use crate::pieces::{cut, following};
use lang_base::Limits;

/// What a run was given.
#[derive(Clone, Copy, Debug, PartialEq, Eq)]
pub struct Settings {
    pub arg: i32,
    pub limits: Limits,
}

/// What the line of the settings says.
pub fn read_settings(text: &[u8]) -> Option<Settings>
    ensures { MatchOption result
        ((arg : ℤ) (limits : IsLimits) → IsSettings text.now arg limits → ⊥)
        (λ settings. IsSettings text.now settings.arg settings.limits) }
{
    let (arg, rest) = cut(following(text, b"arg ")?, b' ')?;
    let arg = argument(arg)?;
    let limits = read_limits(rest)?;
    Some(Settings { arg, limits })
}

/// The limits that its second part says.
fn read_limits(text: &[u8]) -> Option<Limits>
    ensures { MatchOption result
        ((limits : IsLimits) → AreLimits limits → text.now ≡ limits_text limits → ⊥)
        (λ limits. AreLimits limits × (text.now ≡ limits_text limits)) }
{
    let (steps, rest) = cut(following(text, b"steps ")?, b' ')?;
    let steps = number(steps, 1, 20000000)?;
    let cells = number(following(rest, b"cells ")?, 1, 16777216)?;
    Some(Limits { steps, cells })
}

/// The number of events, at most so many, that its line says.
pub fn read_events(text: &[u8], most: u64) -> Option<u64>
    requires { most ≤ 40000002 }
    ensures { MatchOption result ((events : ℕ) → IsEvents text.now most events → ⊥) (IsEvents text.now most) }
{
    number(following(text, b"events ")?, 0, most)
}
