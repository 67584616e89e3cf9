//! Laws of effects, each the clause of a function that does nothing.

ghost use Rattle.region_effects.specs.Laws.{CoveredDoNotInterfere, NoInterferenceNoCommon, InterferenceIsSymmetric, CoveringIsReflexive, CoveringIsTransitive};
ghost use Rattle.region_effects.specs.Laws.{SetCoversItself, SetCoversOn};

/// Interference is sound over what paths mean, and goes along with covering.
pub fn law_interference()
    ensures covered { CoveredDoNotInterfere }
    ensures no_common { NoInterferenceNoCommon }
    ensures symmetric { InterferenceIsSymmetric }
{}

/// Covering is an order, of effects and of sets.
pub fn law_covering()
    ensures reflexive { CoveringIsReflexive }
    ensures transitive { CoveringIsTransitive }
    ensures set_reflexive { SetCoversItself }
    ensures set_transitive { SetCoversOn }
{}
