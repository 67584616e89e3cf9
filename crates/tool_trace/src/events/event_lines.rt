ghost use Rattle.std.specs.Prelude.{◌≡◌, ◌++◌, OnOk};
ghost use Rattle.tool_trace.specs.events.Names.{spelling_of};
ghost use Rattle.tool_trace.specs.events.Text.{event_text, lines_from, place_part, walk_at_start};
ghost use Rattle.tool_words.specs.Reports.{line};

use crate::events::acting::{act, answer};
use crate::events::walk::Walk;
use exec_machine::MadeEvent;
use lang_base::{Bytes, Items, NoMemory, Place};
use lang_typed::Program;
use std::alloc::Global;

/// Puts the lines of events after a text, from 1 on.
pub fn lines(
    alloc: Global,
    program: &Program,
    fields: &[Items<Bytes>],
    events: &[MadeEvent],
    out: &mut Bytes,
) -> Result<(), NoMemory>
    ensures { OnOk result (out.new ≡ out.old ++ lines_from (spelling_of program.now fields.now) (walk_at_start program.now.main_class.number) 1 events.now) }
{
    let mut walk = Walk::at_start(alloc, program.main_class.number)?;
    for at in 0..events.len() {
        let made = &events[at];
        line(alloc, program, fields, &walk, at as u64 + 1, made, out)?;
        walk.pass(&made.event.action)?;
    }
    Ok(())
}

/// Puts the line of an event, which is of this number in the run.
fn line(
    alloc: Global,
    program: &Program,
    fields: &[Items<Bytes>],
    walk: &Walk,
    number: u64,
    made: &MadeEvent,
    out: &mut Bytes,
) -> Result<(), NoMemory>
    ensures { OnOk result (out.new ≡ out.old ++ line (event_text (spelling_of program.now fields.now) walk.now number made.now)) }
{
    let task = made.event.task;
    out.extend(format!(in alloc; "{number} {task} ")?.as_bytes())?;
    act(alloc, program, fields, walk, &made.event.action, out)?;
    answer(alloc, program, walk, &made.answer, out)?;
    place(alloc, made.place, out)?;
    out.extend(b"\n")
}

fn place(alloc: Global, place: Option<Place>, out: &mut Bytes) -> Result<(), NoMemory>
    ensures { OnOk result (out.new ≡ out.old ++ place_part place) }
{
    match place {
        Some(place) => out.extend(format!(in alloc; " at {place}")?.as_bytes()),
        None => Ok(()),
    }
}
