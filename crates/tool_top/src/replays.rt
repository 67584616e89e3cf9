ghost use Rattle.std.specs.Prelude.{◌≤◌, length, IfOk};
ghost use Rattle.tool_front.specs.Judging.{typed_of};
ghost use Rattle.tool_trace.specs.Reading.{AreLimits, IsTrace};
ghost use Rattle.tool_top.specs.Answer.{IsAcceptedAs};
ghost use Rattle.tool_top.specs.Replaying.{IsAnswerOnTrace, IsReplayOf, IsReplayed};

use crate::answered::Answered;
use crate::answers::MAX_TEXT;
use crate::laws::promise;
use exec_run::{Replayed, replay};
use lang_base::{Kind, NoMemory, Stop};
use sound_text::laws::law_passed;
use std::alloc::Global;
use tool_front::{Passed, front};
use tool_trace::{Trace, TraceStop, read_trace, trace_line};
use tool_words::Verdict;

/// The most bytes that a trace may have.
pub const MAX_TRACE: usize = 67108864;

/// The answer to the text of a trace that isn't too long.
pub fn replayed(alloc: Global, bytes: &[u8]) -> Result<Answered, NoMemory>
    requires short { length bytes.now ≤ MAX_TRACE }
    ensures { IfOk result (IsReplayed bytes.now) }
{
    match read_trace(alloc, bytes) {
        Ok(trace) => on_trace(alloc, bytes, &trace),
        Err(TraceStop::Bad(line)) => Ok(Answered::refused_at(Kind::Trace, line)),
        Err(TraceStop::NoMemory) => Err(NoMemory),
    }
}

/// The answer to bytes that are this trace.
fn on_trace(alloc: Global, bytes: &[u8], trace: &Trace) -> Result<Answered, NoMemory>
    requires trace { IsTrace bytes.now trace.now }
    ensures { IfOk result (IsAnswerOnTrace bytes.now trace.now) }
{
    let text = &bytes[trace.from as usize..];
    if text.len() > MAX_TEXT {
        return Ok(Answered::refused_at(Kind::TooLong, 1));
    }
    match front(alloc, text) {
        Ok(passed) => follow(alloc, trace, text, passed),
        Err(Stop::Refused(refusal)) => Ok(Answered::refused(refusal)),
        Err(Stop::NoMemory) => Err(NoMemory),
    }
}

/// The answer to a trace of an accepted program, which a text is.
fn follow(alloc: Global, trace: &Trace, text: &[u8], passed: Passed) -> Result<Answered, NoMemory>
    requires accepted { IsAcceptedAs text.now passed.place (typed_of passed) }
    requires limits { AreLimits trace.now.limits }
    ensures { IfOk result (IsReplayOf trace.now (typed_of passed)) }
{
    promise();
    law_passed();
    let typed = passed.typed(alloc)?;
    let schedule = trace.schedule.as_slice();
    match replay(alloc, &typed, trace.limits, trace.arg, schedule)? {
        Replayed::Ran(run) => Ok(Answered {
            verdict: Verdict::Ran(run.outcome),
            recorded: Some(run.record),
        }),
        Replayed::Unfit(at) => {
            let line = trace_line(schedule, at);
            Ok(Answered::refused_at(Kind::Schedule, line))
        }
        Replayed::Halted => unreachable!("an accepted program follows each number of a ready task"),
    }
}
