//! Laws of region paths, each the clause of a function that does nothing.

ghost use Rattle.region_paths.specs.Laws.{MatchingIsInclusion, ApartMatchNoCommon, PatternsStayApart, IncludedStayApart, ApartIsSymmetric, ConstraintCarried, EnvironmentsExist, MatchedIsConcrete, SpecifiedMatchesOne, IncludedMatchesLess, InclusionIsReflexive, InclusionIsTransitive, SubstitutionMatches, SubstitutionPutsIn, GeneralMatchesMore, GeneralMatchesNoMore, GeneralForgets, IncludedInGeneral, MatchesByWhatOccurs, OwnIndexMatchesMore, OwnIndexPutsIn, RenamedMatches, KnownArgumentMatches, ParameterMatchesItself, OwnParametersPutIn, CopiesExist};

/// Disjointness is sound over what paths mean.
pub fn law_disjoint()
    ensures no_common { ApartMatchNoCommon }
    ensures patterns { PatternsStayApart }
{}

/// Disjointness goes along with inclusion, and is symmetric.
pub fn law_disjoint_included()
    ensures included { IncludedStayApart }
    ensures symmetric { ApartIsSymmetric }
{}

/// Matching by inclusion: what a run can test of its regions.
pub fn law_regions_as_paths()
    ensures { MatchingIsInclusion }
{}

/// Constraints that hold of arguments hold of the parameters that stand for them.
pub fn law_constraints()
    ensures { ConstraintCarried }
{}

/// What paths match are concrete regions, a fully specified path matches one, and it depends on what occurs in the
/// path alone.
pub fn law_matching()
    ensures one { SpecifiedMatchesOne }
    ensures concrete { MatchedIsConcrete }
    ensures occurs { MatchesByWhatOccurs }
{}

/// There are environments, and one for two different iterations of a loop.
pub fn law_environments()
    ensures exist { EnvironmentsExist }
    ensures copies { CopiesExist }
{}

/// Inclusion is sound over what paths mean, and an order.
pub fn law_inclusion()
    ensures sound { IncludedMatchesLess }
    ensures reflexive { InclusionIsReflexive }
    ensures transitive { InclusionIsTransitive }
{}

/// Putting arguments in agrees with what paths match.
pub fn law_substitution()
    ensures matches { SubstitutionMatches }
    ensures puts_in { SubstitutionPutsIn }
    ensures known { KnownArgumentMatches }
{}

/// A parameter matches its own region, and parameters put in for themselves change nothing.
pub fn law_parameters()
    ensures matches { ParameterMatchesItself }
    ensures own { OwnParametersPutIn }
{}

/// Putting an index in, for the own index of an array type or by renaming, agrees with what paths match.
pub fn law_indices()
    ensures more { OwnIndexMatchesMore }
    ensures puts_in { OwnIndexPutsIn }
    ensures renamed { RenamedMatches }
{}

/// Making a variable general agrees with what paths match.
pub fn law_generalising()
    ensures more { GeneralMatchesMore }
    ensures no_more { GeneralMatchesNoMore }
    ensures forgets { GeneralForgets }
    ensures included { IncludedInGeneral }
{}
