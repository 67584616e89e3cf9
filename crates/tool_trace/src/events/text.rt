ghost use Rattle.std.specs.Prelude.{◌≡◌, IfOk};
ghost use Rattle.tool_trace.specs.events.Names.{spelling_of};
ghost use Rattle.tool_trace.specs.events.Text.{events_text};

use crate::events::event_lines::lines;
use crate::writing::{events_line, settings_line};
use exec_machine::MadeEvent;
use lang_base::{Bytes, Ending, Items, Limits, NoMemory};
use lang_typed::Program;
use std::alloc::Global;
use tool_words::ending_report;

/// The text of the events of a run on an argument within limits, which has come out so. `fields` has the names of the fields that each
/// class of the program declares itself.
pub fn events_text(
    alloc: Global,
    arg: i32,
    limits: Limits,
    program: &Program,
    fields: &[Items<Bytes>],
    events: &[MadeEvent],
    ending: Ending,
) -> Result<Bytes, NoMemory>
    ensures { IfOk result (λ text. text ≡ events_text arg limits (spelling_of program.now fields.now) events.now ending) }
{
    let mut out = Bytes::new(alloc);
    out.extend(b"dpj-events 1\n")?;
    out.extend(settings_line(alloc, arg, limits)?.as_bytes())?;
    out.extend(events_line(alloc, events.len())?.as_bytes())?;
    lines(alloc, program, fields, events, &mut out)?;
    out.extend(ending_report(alloc, &[], ending)?.as_slice())?;
    Ok(out)
}
