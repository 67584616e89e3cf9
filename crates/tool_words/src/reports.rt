ghost use Rattle.std.specs.Prelude.{◌≡◌, [], IfOk};
ghost use Rattle.tool_words.specs.Reports.{report_of, status_of, ending_report, run_report, cost_report, demo_ending_report, ending_status};

use crate::verdict::{Figures, Status, Verdict};
use lang_base::{Bytes, Ending, NoMemory, Outcome, Plain};
use std::alloc::Global;

/// The bytes that a verdict is reported by. Each line of them ends with a line feed.
pub fn report(alloc: Global, verdict: &Verdict) -> Result<Bytes, NoMemory>
    ensures { IfOk result (λ bytes. bytes ≡ report_of verdict.now) }
{
    match verdict {
        Verdict::Usage => text(alloc, "usage: dpj COMMAND [NAME=VALUE]...\n"),
        Verdict::Refused(refusal) => {
            let refusal = *refusal;
            text(alloc, format!(in alloc; "refused {refusal}\n")?.as_str())
        }
        Verdict::Accepted => text(alloc, "accepted\n"),
        Verdict::Ran(outcome) => run_report(alloc, outcome),
        Verdict::Cost { outcome, figures } => cost_report(alloc, outcome, *figures),
        Verdict::Demo {
            classes,
            bytes,
            outcome,
        } => demo_report(alloc, *classes, *bytes, outcome),
        Verdict::Listed(reported)
        | Verdict::Effects(reported)
        | Verdict::Traced { text: reported, .. }
        | Verdict::Shown { text: reported, .. } => { reported.copy(alloc) }
    }
}

/// The status that a verdict ends the program with, where the report is written whole.
pub fn status(verdict: &Verdict) -> Status
    ensures { result ≡ status_of verdict.now }
{
    match verdict {
        Verdict::Usage => Status::Usage,
        Verdict::Refused(_) => Status::Refused,
        Verdict::Accepted | Verdict::Listed(_) | Verdict::Effects(_) => Status::Done,
        Verdict::Ran(outcome)
        | Verdict::Demo { outcome, .. }
        | Verdict::Traced { outcome, .. }
        | Verdict::Shown { outcome, .. }
        | Verdict::Cost { outcome, .. } => ending_status(outcome.ending),
    }
}

fn ending_status(ending: Ending) -> Status
    ensures { result ≡ ending_status ending }
{
    match ending {
        Ending::Done(_) => Status::Done,
        Ending::Trapped(..) => Status::Trapped,
        Ending::Limited => Status::Limited,
    }
}

fn text(alloc: Global, text: &str) -> Result<Bytes, NoMemory>
    ensures { IfOk result (λ bytes. bytes ≡ text.now) }
{
    Bytes::from_slice(alloc, text.as_bytes())
}

fn run_report(alloc: Global, outcome: &Outcome) -> Result<Bytes, NoMemory>
    ensures { IfOk result (λ bytes. bytes ≡ run_report outcome.now) }
{
    ending_report(alloc, outcome.out.as_slice(), outcome.ending)
}

// The report of a run, and a line for each of its costs and figures.
fn cost_report(alloc: Global, outcome: &Outcome, figures: Figures) -> Result<Bytes, NoMemory>
    ensures { IfOk result (λ bytes. bytes ≡ cost_report outcome.now figures) }
{
    let Figures {
        events,
        tasks,
        rounds,
    } = figures;
    let (steps, cells) = (outcome.steps, outcome.cells);
    let mut bytes = run_report(alloc, outcome)?;
    bytes.extend(format!(in alloc; "steps {steps}\n")?.as_bytes())?;
    bytes.extend(format!(in alloc; "cells {cells}\n")?.as_bytes())?;
    bytes.extend(format!(in alloc; "events {events}\n")?.as_bytes())?;
    bytes.extend(format!(in alloc; "tasks {tasks}\n")?.as_bytes())?;
    bytes.extend(format!(in alloc; "rounds {rounds}\n")?.as_bytes())?;
    Ok(bytes)
}

/// What a run printed, and the line of its ending.
pub fn ending_report(alloc: Global, out: &[u8], ending: Ending) -> Result<Bytes, NoMemory>
    ensures { IfOk result (λ bytes. bytes ≡ ending_report out.now ending) }
{
    let mut bytes = Bytes::new(alloc);
    match ending {
        Ending::Done(value) => {
            bytes.extend(out)?;
            bytes.extend(format!(in alloc; "result {value}\n")?.as_bytes())?;
        }
        Ending::Trapped(trap, place) => {
            bytes.extend(out)?;
            bytes.extend(format!(in alloc; "trap {trap} {place}\n")?.as_bytes())?;
        }
        Ending::Limited => bytes.extend(b"limit\n")?,
    }
    Ok(bytes)
}

fn demo_report(
    alloc: Global,
    classes: u32,
    bytes: u64,
    outcome: &Outcome,
) -> Result<Bytes, NoMemory>
    ensures { IfOk result
        (λ reported. reported ≡ demo_ending_report classes bytes outcome.now.steps outcome.now.ending) }
{
    let steps = outcome.steps;
    match outcome.ending {
        Ending::Done(value) => {
            let mut lines = Bytes::new(alloc);
            lines.extend(format!(in alloc; "classes {classes}\n")?.as_bytes())?;
            lines.extend(format!(in alloc; "bytes {bytes}\n")?.as_bytes())?;
            lines.extend(format!(in alloc; "result {value}\n")?.as_bytes())?;
            lines.extend(format!(in alloc; "steps {steps}\n")?.as_bytes())?;
            Ok(lines)
        }
        ending => ending_report(alloc, &[], ending),
    }
}
