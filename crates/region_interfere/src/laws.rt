//! Laws of interference between branches, each the clause of a function that does nothing.

ghost use Rattle.region_interfere.specs.Laws.{AtomicWithin, CoveredDoNotClash};

/// What lies in an atomic path is atomic, and what clashes goes along with covering.
pub fn law_clashes()
    ensures within { AtomicWithin }
    ensures covered { CoveredDoNotClash }
{}
