ghost use Rattle.std.specs.Prelude.{◌≡◌, ◌↔◌, IsTrue, MatchResult};
ghost use Rattle.tool_trace.specs.Reading.{IsMisfit};
ghost use Rattle.tool_trace.specs.Listing.{IsHead};

use crate::pieces::cut;
use crate::settings::{Settings, read_events, read_settings};

/// What the first three lines of a trace say, and the lines after them.
#[derive(Clone, Copy)]
pub struct Head<'a> {
    pub settings: Settings,
    pub events: u64,
    pub rest: &'a [u8],
}

/// Reads the first three lines of a trace. An `Err` is the first of them that isn't there, or doesn't fit.
pub fn read_head(bytes: &[u8]) -> Result<Head<'_>, u64>
    ensures { MatchResult result (λ head. IsHead bytes.now head.settings head.events head.rest.now) (IsMisfit bytes.now) }
{
    let Some((first, rest)) = cut(bytes, b'\n') else {
        return Err(1);
    };
    if !is(first, b"dpj-trace 1") {
        return Err(1);
    }
    let Some((second, rest)) = cut(rest, b'\n') else {
        return Err(2);
    };
    let Some(settings) = read_settings(second) else {
        return Err(2);
    };
    let Some((third, rest)) = cut(rest, b'\n') else {
        return Err(3);
    };
    let Some(events) = read_events(third, 2 * settings.limits.steps + 2) else {
        return Err(3);
    };
    Ok(Head {
        settings,
        events,
        rest,
    })
}

/// Whether two texts are the same.
pub fn is(text: &[u8], other: &[u8]) -> bool
    ensures { IsTrue result ↔ (text.now ≡ other.now) }
{
    text == other
}
