ghost use Rattle.std.specs.Prelude.{◌≡◌, ◌≢◌, ◌≤◌, true, false, length, IfOk};
ghost use Rattle.tool_words.specs.declared.command.Command.TheVariants.{Replay};
ghost use Rattle.tool_top.specs.Answer.{IsAnswer, makes_run};
ghost use Rattle.tool_words.specs.Jobs.{IsInRange};

use crate::answered::Answered;
use crate::carrying::{carry_out, ran, shown};
use exec_run::workers::Gate;
use lang_base::{NoMemory, Stop};
use std::alloc::Global;
use std::sync::Wait;
use std::thread::Threads;
use tool_front::front;
use tool_words::{Command, Job};

/// The most bytes that a text may have.
pub const MAX_TEXT: usize = 1048576;

/// The answer to a job of which a run is made, on a text that isn't too long: what its first fault is, or how its program came out.
/// No other answer is handed threads.
pub fn answer_by_run<R: Threads + Wait + Sync, G: Gate + Sync>(
    rt: &R,
    alloc: Global,
    job: &Job,
    text: &[u8],
    gate: &G,
) -> Result<Answered, NoMemory>
    requires short { length text.now ≤ MAX_TEXT }
    requires in_range { IsInRange job.now }
    requires run { makes_run job.now.command ≡ true }
    ensures { IfOk result (IsAnswer job.now text.now) }
{
    match front(alloc, text) {
        Ok(passed) => match job.command {
            Command::Events => shown(rt, alloc, job, text, passed, gate),
            _ => ran(rt, alloc, job, text, passed, gate),
        },
        Err(Stop::Refused(refusal)) => Ok(Answered::refused(refusal)),
        Err(Stop::NoMemory) => Err(NoMemory),
    }
}

/// The answer to a job of which no run is made, on a text that isn't too long: what its first fault is, or what becomes of its program.
/// It is handed nothing that makes a thread or waits for one.
pub fn answer_without_run(alloc: Global, job: &Job, text: &[u8]) -> Result<Answered, NoMemory>
    requires short { length text.now ≤ MAX_TEXT }
    requires in_range { IsInRange job.now }
    requires no_run { makes_run job.now.command ≡ false }
    requires no_replay { job.now.command ≢ Replay }
    ensures { IfOk result (IsAnswer job.now text.now) }
{
    match front(alloc, text) {
        Ok(passed) => carry_out(alloc, job, text, passed),
        Err(Stop::Refused(refusal)) => Ok(Answered::refused(refusal)),
        Err(Stop::NoMemory) => Err(NoMemory),
    }
}
