//! The laws of typed programs' runs, each the clause of a function that does nothing.

ghost use Rattle.runs_program.specs.Laws.{EachKeeps, RunsAgree, RunsCostNoMore, OutcomesAgree, SchedulesAreBounded, SchedulesComeOutTheSame};
ghost use Rattle.runs_program.specs.Laws.{SchedulesFinish, GreatestInOrder};
ghost use Rattle.runs_program.specs.Samples.{DividesRuns, FillsRun, SchedulesNeedFree};

/// Each typed program keeps to what the laws of runs ask of a program, so they hold of its runs.
pub fn law_steps()
    ensures keeps { EachKeeps }
    ensures agree { RunsAgree }
    ensures cost { RunsCostNoMore }
    ensures outcome { OutcomesAgree }
    ensures bounded { SchedulesAreBounded }
    ensures schedules { SchedulesComeOutTheSame }
    ensures finish { SchedulesFinish }
    ensures greatest { GreatestInOrder }
{}

/// Small programs have runs in other orders that come out and cost as in sequence; and a racy one has schedules that come out
/// in two ways.
pub fn law_samples()
    ensures divides { DividesRuns }
    ensures fills { FillsRun }
    ensures race { SchedulesNeedFree }
{}
