//! The laws of the answers of the tool, each the clause of a function that does nothing but name others.

ghost use Rattle.tool_total.specs.Answering.{EachAnswered, EachReplayed};
ghost use Rattle.tool_total.specs.Replaying.{TracesReplay};

use exec_progress::laws::law_code_progress;
use runs_program::laws::law_steps;
use runs_simulation::laws::law_lively;
use runs_theorem::laws::law_progress;
use sound_text::laws::{law_one_passing, law_passed};
use tool_trace::law_readings;

/// What `trace` writes is a trace of the run that is recorded, on its text; and each answer to a replay of these bytes tells the outcome
/// of that run, and records a run on the same code, in the same order.
pub fn law_replays()
    ensures { TracesReplay }
{
    law_lively();
    law_steps();
    law_code_progress();
    law_passed();
    law_one_passing();
    law_readings();
}

/// Each job within its ranges has an answer on each text, and so has a replay of any bytes: no part of what an answer is asks for more than
/// there is.
pub fn law_answered()
    ensures answered { EachAnswered }
    ensures replayed { EachReplayed }
{
    law_lively();
    law_code_progress();
    law_progress();
    law_passed();
    law_one_passing();
}
