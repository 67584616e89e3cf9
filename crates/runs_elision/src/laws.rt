//! The laws of the serial elision, each the clause of a function that does nothing.

ghost use Rattle.runs_elision.specs.Laws.{ElisionIsLegal, ElisionIsScheduled, GreedyIsElided, GreedyOverIsLimited, NamesAreKnown};
ghost use Rattle.runs_elision.specs.Laws.{NoneCostsMoreThanElision, RunsAreElided, SchedulesAreElided};
ghost use Rattle.runs_elision.specs.Samples.{DeterminismNeedsFree, DividesElided, SumsElided};

/// The serial elision of each typed program is one of its legal runs, with the same ending, output, steps and cells.
pub fn law_elision()
    ensures legal { ElisionIsLegal }
    ensures scheduled { ElisionIsScheduled }
{}

/// In every program the run in which the ready task with the greatest number always goes on comes out as the serial elision,
/// limits included.
pub fn law_greatest()
    ensures ended { GreedyIsElided }
    ensures over { GreedyOverIsLimited }
{}

/// Where no legal run of a typed program has unordered conflicts, every legal run whose root has ended, and every finished
/// schedule, comes out as the serial elision, limits included.
pub fn law_determinism()
    ensures runs { RunsAreElided }
    ensures schedules { SchedulesAreElided }
    ensures cost { NoneCostsMoreThanElision }
{}

/// In every legal run, whatever the order, a task acts on objects that are there.
pub fn law_names()
    ensures known { NamesAreKnown }
{}

/// Of small programs the laws say how they come out; and where branches conflict determinism fails.
pub fn law_samples()
    ensures divides { DividesElided }
    ensures sums { SumsElided }
    ensures race { DeterminismNeedsFree }
{}
