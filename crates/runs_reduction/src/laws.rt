//! The laws of gathering and moving, each the clause of a function that does nothing.

ghost use Rattle.runs_reduction.specs.Laws.{Arranging, Gathering, OneGathered, StillOpen, Moving, OneMoved, MovingBy, MovingEnded, MovingInside};
ghost use Rattle.runs_reduction.specs.Samples.{ArrangingApplies, BothApply, GatheringNeedsGuarded, GatheringNeedsKnown, MovingEndedApplies, MovingNeedsEnded, MovingNeedsWeaker};

/// Where unordered conflicts are guarded by blocks, each block's events can be gathered at its entry.
pub fn law_gathering()
    ensures gathering { Gathering }
    ensures one { OneGathered }
    ensures still_open { StillOpen }
{}

/// Deterministic constructs can be moved after their forks, by the rule of the run or by a weaker one.
pub fn law_reordering()
    ensures moving { Moving }
    ensures one { OneMoved }
    ensures by_weaker { MovingBy }
    ensures inside { MovingInside }
    ensures ended { MovingEnded }
{}

/// A gathered run can be moved: blocks stand together in it, and constructs after their forks.
pub fn law_arranging()
    ensures { Arranging }
{}

/// The laws say something of some runs, and what they ask is needed.
pub fn law_samples()
    ensures both { BothApply }
    ensures unguarded { GatheringNeedsGuarded }
    ensures forged { GatheringNeedsKnown }
    ensures weaker { MovingNeedsWeaker }
    ensures ended { MovingEndedApplies }
    ensures unended { MovingNeedsEnded }
    ensures arranged { ArrangingApplies }
{}
