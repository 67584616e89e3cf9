ghost use Rattle.std.specs.Prelude.{◌≡◌, ◌++◌, IfOk, OnOk};
ghost use Rattle.std.specs.String.{string_bytes};
ghost use Rattle.tool_trace.specs.Text.{line, settings_text, events_text, run_text, schedule_text, trace_text};

use crate::runs::{Run, first_run};
use lang_base::{Bytes, Limits, NoMemory};
use std::alloc::{AllocError, Global};

/// The trace text of a run on an argument within limits, with this schedule, of a program with this text.
pub fn trace_text(
    alloc: Global,
    arg: i32,
    limits: Limits,
    schedule: &[u32],
    source: &[u8],
) -> Result<Bytes, NoMemory>
    ensures { IfOk result (λ text. text ≡ trace_text arg limits schedule.now source.now) }
{
    let mut text = Bytes::new(alloc);
    text.extend(b"dpj-trace 1\n")?;
    text.extend(settings_line(alloc, arg, limits)?.as_bytes())?;
    text.extend(events_line(alloc, schedule.len())?.as_bytes())?;
    extend_schedule(alloc, &mut text, schedule)?;
    text.extend(b"program\n")?;
    text.extend(source)?;
    Ok(text)
}

/// What the run was given.
pub fn settings_line(alloc: Global, arg: i32, limits: Limits) -> Result<String, AllocError>
    ensures { IfOk result (λ text. string_bytes text ≡ line (settings_text arg limits)) }
{
    let Limits { steps, cells } = limits;
    format!(in alloc; "arg {arg} steps {steps} cells {cells}\n")
}

/// How many events there are.
pub fn events_line(alloc: Global, events: usize) -> Result<String, AllocError>
    ensures { IfOk result (λ text. string_bytes text ≡ line (events_text events)) }
{
    format!(in alloc; "events {events}\n")
}

fn run_line(alloc: Global, run: Run) -> Result<String, AllocError>
    ensures { IfOk result (λ text. string_bytes text ≡ line (run_text run)) }
{
    let Run { task, many } = run;
    format!(in alloc; "{task} {many}\n")
}

/// Puts the lines of a schedule after a text.
fn extend_schedule(alloc: Global, text: &mut Bytes, schedule: &[u32]) -> Result<(), NoMemory>
    ensures { OnOk result (text.new ≡ text.old ++ schedule_text schedule.now) }
{
    let mut rest = schedule;
    while let Some(run) = first_run(rest) {
        text.extend(run_line(alloc, run)?.as_bytes())?;
        rest = &rest[run.many..];
    }
    Ok(())
}
