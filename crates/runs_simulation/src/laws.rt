//! The laws of recorded runs, each the clause of a function that does nothing.

ghost use Rattle.runs_simulation.specs.Laws.{EventForEvent, MachinesRecord, NoOthersAreReady, ReadyTasksAreReady, SomeTaskIsReady, SchedulesAreShort, StuckForFewReasons};

use exec_progress::laws::law_code_progress;
use runs_elision::laws::law_names;
use runs_program::laws::law_steps;

/// A schedule of a machine on compiled code records a run of the source, and what it makes is that run, event for event.
pub fn law_simulation()
    ensures records { MachinesRecord }
    ensures events { EventForEvent }
{}

/// A machine on compiled code has a ready task until its run has come out; ready are the tasks that are ready in the run, and no
/// others; its schedules are short, and it is stuck for few reasons alone.
pub fn law_lively()
    ensures ready { SomeTaskIsReady }
    ensures all_ready { ReadyTasksAreReady }
    ensures no_others { NoOthersAreReady }
    ensures short { SchedulesAreShort }
    ensures stuck { StuckForFewReasons }
{
    law_steps();
    law_names();
    law_code_progress();
}
