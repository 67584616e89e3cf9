//! What the definitions of the answer say of themselves, and what they come to.
ghost use Rattle.tool_top.specs.Answer.{OneAnswer};
ghost use Rattle.tool_top.specs.Keeps.{KeepsGuarantee};
ghost use Rattle.tool_top.specs.Refusing.{RefusalsAreRight};
ghost use Rattle.tool_top.specs.Replaying.{OneReplay};

use body_infer::laws::law_one_inferred;
use exec_progress::laws::law_code_progress;
use runs_program::laws::law_steps;
use runs_simulation::laws::{law_lively, law_simulation};
use runs_theorem::laws::{
    law_elide, law_guarantee, law_inside, law_progress, law_readiness, law_reduced,
};
use sound_infer::laws::law_inferred;
use sound_means::laws::law_means;
use sound_text::laws::{law_one_passing, law_passed};
use tool_trace::law_readings;

/// There is at most one answer to a job on a text, for each run that was recorded; and to any bytes of which a replay is asked, of which there is one
/// verdict at all.
pub fn one_answer()
    ensures answer { OneAnswer }
    ensures replay { OneReplay }
{
    promise();
    law_one_passing();
    law_one_inferred();
    law_passed();
    law_code_progress();
    law_steps();
    law_readings();
}

/// The promise of the language. What is accepted is what the text means, and well typed, and its runs come out. A run of an accepted program without
/// nd constructs is answered by the outcome of its serial elision, whatever schedule it made; of every accepted program a run is one of the source,
/// whose unordered events that conflict lie in atomic blocks, gathered by blocks it comes out the same, and so it does with its deterministic
/// constructs in sequence, and with both; so is a run that a replay has made. The events that are shown of a run are those of the run of the source,
/// its rounds are of the tasks that are ready there, and by a schedule that is refused it can't go on. And an elision is answered by the outcome of
/// the elision, as which the run comes out in which the greatest ready task always goes on. With its inferred summaries it is well typed too.
pub fn promise()
    ensures { KeepsGuarantee }
{
    law_guarantee();
    law_elide();
    law_reduced();
    law_inside();
    law_progress();
    law_passed();
    law_inferred();
    law_means();
    law_steps();
    law_code_progress();
    law_simulation();
    law_refused_schedules();
    law_lively();
    law_readiness();
}

/// The refusal `schedule` of a replay is at the first number by which the run of the source can't go on: its task isn't ready in the run that
/// the numbers before it record, or that has finished, or the number is missing.
pub fn law_refused_schedules()
    ensures right { RefusalsAreRight }
{
    law_passed();
    law_lively();
    law_code_progress();
    law_steps();
}
