ghost use Rattle.std.specs.Int.{w32};
ghost use Rattle.std.specs.Prelude.{◌≡◌, ◌≢◌, false, FitsSigned, IfOk};
ghost use Rattle.tool_front.specs.Front.{AreFieldNames, AreNames};
ghost use Rattle.tool_front.specs.Judging.{names_of_passed, typed_of};
ghost use Rattle.lang_typed.specs.Plain.{plain_program};
ghost use Rattle.lang_typed.specs.Resolved.{Resolved, HasMain};
ghost use Rattle.tool_words.specs.Jobs.{IsInRange};
ghost use Rattle.tool_words.specs.declared.command.Command.TheVariants.{Replay};
ghost use Rattle.tool_top.specs.Answer.{IsAcceptedAs, IsAnswer, IsElided, IsListing, IsRan, IsRunBy, IsShown, IsSummaries, limits_of, makes_run, verdict_of};

use crate::answered::{Answered, limits};
use crate::figures::figures;
use crate::laws::promise;
use body_infer::{infer, lines};
use code_compile::compile;
use code_listing::laws::law_plain;
use code_listing::listing;
use exec_machine::Schedule;
use exec_run::workers::Gate;
use exec_run::{Recorded, Shown, events, run, run_rounds, run_seeded};
use exec_walker::elide;
use lang_base::{NoMemory, Outcome};
use lang_typed::Program;
use sound_text::laws::law_passed;
use std::alloc::Global;
use std::sync::Wait;
use std::thread::Threads;
use tool_front::Passed;
use tool_trace::{events_text, trace_text};
use tool_words::{Command, Job, Mode, Verdict};

/// The answer to a job that asks for no run, on the accepted program of a text.
pub fn carry_out(
    alloc: Global,
    job: &Job,
    text: &[u8],
    passed: Passed,
) -> Result<Answered, NoMemory>
    requires in_range { IsInRange job.now }
    requires accepted { IsAcceptedAs text.now passed.place (typed_of passed) }
    requires named { AreNames text.now (names_of_passed passed) }
    requires no_run { makes_run job.now.command ≡ false }
    requires no_replay { job.now.command ≢ Replay }
    ensures { IfOk result (IsAnswer job.now text.now) }
{
    match job.command {
        Command::Elide => elided(alloc, job, passed),
        Command::List => listed(alloc, text, passed),
        Command::Effects => inferred(alloc, text, passed),
        _ => Ok(Answered::only(Verdict::Accepted)),
    }
}

/// The run of an accepted program, with its record.
pub fn ran<R: Threads + Wait + Sync, G: Gate + Sync>(
    rt: &R,
    alloc: Global,
    job: &Job,
    text: &[u8],
    passed: Passed,
    gate: &G,
) -> Result<Answered, NoMemory>
    requires in_range { IsInRange job.now }
    requires accepted { IsAcceptedAs text.now passed.place (typed_of passed) }
    ensures { IfOk result (IsRan job.now text.now (typed_of passed)) }
{
    promise();
    law_passed();
    let typed = passed.typed(alloc)?;
    let Some(run) = made(rt, alloc, job, &typed, gate)? else {
        unreachable!("an accepted program goes on until it has come out")
    };
    let Recorded { record, outcome } = run;
    let verdict = verdict_on(
        alloc,
        job,
        text,
        record.machine.schedule(),
        record.rounds,
        outcome,
    )?;
    Ok(Answered {
        verdict,
        recorded: Some(record),
    })
}

/// The run of an accepted program, with its record, and its events in place of a report.
pub fn shown<R: Threads + Wait + Sync, G: Gate + Sync>(
    rt: &R,
    alloc: Global,
    job: &Job,
    text: &[u8],
    passed: Passed,
    gate: &G,
) -> Result<Answered, NoMemory>
    requires in_range { IsInRange job.now }
    requires accepted { IsAcceptedAs text.now passed.place (typed_of passed) }
    requires named { AreNames text.now (names_of_passed passed) }
    requires fields { AreFieldNames text.now passed.fields }
    ensures { IfOk result (IsShown job.now text.now (typed_of passed)) }
{
    promise();
    law_passed();
    let (typed, fields) = passed.spelled(alloc)?;
    let Some(run) = made(rt, alloc, job, &typed, gate)? else {
        unreachable!("an accepted program goes on until it has come out")
    };
    let Recorded { record, outcome } = run;
    let tasks = record.machine.schedule().to_items(alloc)?;
    let schedule = tasks.as_slice();
    let Shown::Made(made_events) = events(alloc, &typed, limits(job), job.arg, schedule)? else {
        unreachable!("a schedule that was recorded makes its events")
    };
    let text = events_text(
        alloc,
        job.arg,
        limits(job),
        &typed,
        fields.as_slice(),
        made_events.as_slice(),
        outcome.ending,
    )?;
    let verdict = Verdict::Shown { outcome, text };
    let recorded = Some(record);
    Ok(Answered { verdict, recorded })
}

/// The run that the job's mode asks for: by workers, in rounds, or by a seed; none where it can't go on.
fn made<R: Threads + Wait + Sync, G: Gate + Sync>(
    rt: &R,
    alloc: Global,
    job: &Job,
    typed: &Program,
    gate: &G,
) -> Result<Option<Recorded>, NoMemory>
    requires in_range { IsInRange job.now }
    requires resolved { Resolved (plain_program typed.now) }
    requires main { HasMain (plain_program typed.now) }
    ensures run { IfOk result (IsRunBy job.now.mode (plain_program typed.now) (limits_of job.now) job.now.arg job.now.workers) }
    ensures fits { FitsSigned w32 job.now.arg }
{
    match job.mode {
        Mode::Steps => run(rt, alloc, typed, limits(job), job.arg, job.workers, gate),
        Mode::Rounds => run_rounds(rt, alloc, typed, limits(job), job.arg, job.workers),
        Mode::Seeded(seed) => run_seeded(alloc, typed, limits(job), job.arg, job.workers, seed),
    }
}

/// The verdict on a run of a text, by its schedule, the number of its rounds, and how it came out.
fn verdict_on(
    alloc: Global,
    job: &Job,
    text: &[u8],
    schedule: &Schedule,
    rounds: u64,
    outcome: Outcome,
) -> Result<Verdict, NoMemory>
    ensures { IfOk result (λ verdict. verdict ≡ verdict_of job.now text.now schedule.now rounds outcome) }
{
    Ok(match job.command {
        Command::Demo => Verdict::Demo {
            classes: job.n,
            bytes: text.len() as u64,
            outcome,
        },
        Command::Trace => {
            let tasks = schedule.to_items(alloc)?;
            let text = trace_text(alloc, job.arg, limits(job), tasks.as_slice(), text)?;
            Verdict::Traced { outcome, text }
        }
        Command::Cost => Verdict::Cost {
            outcome,
            figures: figures(schedule, rounds),
        },
        _ => Verdict::Ran(outcome),
    })
}

/// The elision of an accepted program.
fn elided(alloc: Global, job: &Job, passed: Passed) -> Result<Answered, NoMemory>
    requires in_range { IsInRange job.now }
    ensures { IfOk result (IsElided job.now (typed_of passed)) }
{
    let typed = passed.typed(alloc)?;
    let outcome = elide(alloc, &typed, job.arg, limits(job))?;
    Ok(Answered::only(Verdict::Ran(outcome)))
}

/// The inferred summaries of an accepted program.
fn inferred(alloc: Global, text: &[u8], passed: Passed) -> Result<Answered, NoMemory>
    requires { AreNames text.now (names_of_passed passed) }
    ensures { IfOk result (IsSummaries text.now (typed_of passed)) }
{
    let typed = passed.typed(alloc)?;
    let kept = infer(alloc, &typed)?;
    Ok(Answered::only(Verdict::Effects(lines(alloc, &typed, &kept)?)))
}

/// The listing of the code of an accepted program.
fn listed(alloc: Global, text: &[u8], passed: Passed) -> Result<Answered, NoMemory>
    requires { AreNames text.now (names_of_passed passed) }
    ensures { IfOk result (IsListing text.now (typed_of passed)) }
{
    law_plain();
    let typed = passed.typed(alloc)?;
    let code = compile(alloc, &typed)?;
    Ok(Answered::only(Verdict::Listed(listing(alloc, &code)?)))
}
