//! The laws of runs, each the clause of a function that does nothing.

ghost use Rattle.runs_theory.specs.Laws.{BlocksByStanding, LegalIsFaithful, Respects, OrderOf, Present, Comparison, SameEvents, SameOutcome, NoneCostsMore};
ghost use Rattle.runs_theory.specs.Laws.{EachComesOut, OneOutcome, NothingAfter, SomeReady, OneNext, OneRun, RanIsLegal, EachRecorded};
ghost use Rattle.runs_theory.specs.Laws.{ScheduleIsBounded, FinishedIsBounded, SchedulesAgree, EachFinishes, GreatestFirst, GreatestFinishes};
ghost use Rattle.runs_theory.specs.Samples.{ComparisonApplies, ComparisonNeedsFree, RespectsNeedsPassing, ReadyApplies, ReadyNeedsKnown};
ghost use Rattle.runs_theory.specs.Samples.{BoundApplies, BoundNeedsPaced, DeterminismApplies, GreatestApplies};

/// Who stands inside which block is known from paths and from each task's own events.
pub fn law_blocks()
    ensures by_standing { BlocksByStanding }
    ensures faithful { LegalIsFaithful }
{}

/// Which of two events comes first is the same in every legal run, but for those of different branches of one fork.
pub fn law_order()
    ensures respects { Respects }
    ensures order_of { OrderOf }
    ensures present { Present }
{}

/// Legal runs without unordered conflicts agree as far as both go.
pub fn law_comparison()
    ensures comparison { Comparison }
    ensures same_events { SameEvents }
    ensures same_outcome { SameOutcome }
    ensures no_more { NoneCostsMore }
{}

/// A legal run whose root has ended comes out in exactly one way, and nothing comes after it.
pub fn law_outcome()
    ensures comes { EachComesOut }
    ensures one { OneOutcome }
    ensures nothing_after { NothingAfter }
{}

/// Until the root has ended some task is ready, also where tasks wait for blocks, and its next event is one.
pub fn law_ready()
    ensures some_ready { SomeReady }
    ensures one_next { OneNext }
{}

/// A schedule records one legal run, each legal run has a schedule, the limit of steps bounds its length, and each can be
/// carried on to a finished one.
pub fn law_schedule()
    ensures one_run { OneRun }
    ensures legal { RanIsLegal }
    ensures recorded { EachRecorded }
    ensures bounded { ScheduleIsBounded }
    ensures finished { FinishedIsBounded }
    ensures finishes { EachFinishes }
{}

/// Where the ready task with the greatest number always goes on, the run stands in the order of elision, and comes to an end
/// within limits.
pub fn law_greatest()
    ensures in_order { GreatestFirst }
    ensures finishes { GreatestFinishes }
{}

/// Where no legal run has unordered conflicts, all finished schedules come out the same, limits included.
pub fn law_determinism()
    ensures schedules { SchedulesAgree }
{}

/// The laws say something of some programs, and what they ask is needed.
pub fn law_samples()
    ensures comparison { ComparisonApplies }
    ensures conflict { ComparisonNeedsFree }
    ensures begin { RespectsNeedsPassing }
    ensures ready { ReadyApplies }
    ensures unknown { ReadyNeedsKnown }
    ensures bound { BoundApplies }
    ensures rests { BoundNeedsPaced }
    ensures determinism { DeterminismApplies }
    ensures greatest { GreatestApplies }
{}
