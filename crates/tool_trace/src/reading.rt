ghost use Rattle.std.specs.Prelude.{◌≡◌, ◌↔◌, IsTrue, IfOk, IfErr, codes};
ghost use Rattle.tool_trace.specs.Listing.{IsHead};
ghost use Rattle.tool_trace.specs.Reading.{IsTrace, WhyUnread};

use crate::head::{Head, is, read_head};
use crate::listed::Listed;
use crate::pieces::cut;
use lang_base::{Items, Limits, NoMemory};
use std::alloc::Global;

/// What a trace text says.
#[derive(Debug, Drop)]
pub struct Trace {
    pub arg: i32,
    pub limits: Limits,
    pub schedule: Items<u32>,
    /// Where the program's text begins: the position of its first byte, from 0.
    pub from: u64,
}

/// Why a trace wasn't read.
#[derive(Clone, Copy, Debug, PartialEq, Eq)]
pub enum TraceStop {
    /// The first line, from 1, that isn't there or doesn't fit.
    Bad(u64),
    NoMemory,
}

impl From<NoMemory> for TraceStop {
    ghost use Rattle.std.specs.Prelude.{◌≡◌};
    ghost use Rattle.tool_trace.specs.declared.reading.TraceStop.TheVariants.{NoMemory};

    ghost from_gives = { λ _ stop. stop ≡ NoMemory };

    fn from(_error: NoMemory) -> TraceStop {
        TraceStop::NoMemory
    }
}

/// Reads the text of a trace, up to its program. Lengths that add up to more events than there are to be take no memory.
pub fn read_trace(alloc: Global, bytes: &[u8]) -> Result<Trace, TraceStop>
    ensures trace { IfOk result (IsTrace bytes.now) }
    ensures why { IfErr result (WhyUnread bytes.now) }
{
    match read_head(bytes) {
        Ok(head) => read_schedule(alloc, bytes, head),
        Err(line) => Err(TraceStop::Bad(line)),
    }
}

/// Reads the schedule after the first three lines.
fn read_schedule(alloc: Global, bytes: &[u8], head: Head) -> Result<Trace, TraceStop>
    requires head { IsHead bytes.now head.settings head.events head.rest.now }
    ensures trace { IfOk result (IsTrace bytes.now) }
    ensures why { IfErr result (WhyUnread bytes.now) }
{
    let mut listed = Listed::new(alloc, head.events);
    let mut rest = head.rest;
    let mut line = 4;
    while let Some((text, following)) = cut(rest, b'\n') {
        if is_program(text, &listed) {
            return Ok(Trace {
                arg: head.settings.arg,
                limits: head.settings.limits,
                schedule: listed.numbers,
                from: (bytes.len() - following.len()) as u64,
            });
        }
        if !listed.take(text)? {
            return Err(TraceStop::Bad(line));
        }
        rest = following;
        line += 1;
    }
    Err(TraceStop::Bad(line))
}

/// Whether this is the line after the schedule, and that has as many events as there are to be.
fn is_program(text: &[u8], listed: &Listed) -> bool
    ensures { IsTrue result ↔ ((text.now ≡ codes "program") × (listed.now.total ≡ listed.now.events)) }
{
    is(text, b"program") && listed.total == listed.events
}
