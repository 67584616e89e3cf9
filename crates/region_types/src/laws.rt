//! Laws of types, each the clause of a function that does nothing.

ghost use Rattle.region_types.specs.Laws.{SubtypingIsReflexive, SubtypingIsTransitive, ClassIsBelowSuperclass};

/// Subtyping is an order, and a class type lies below its superclass.
pub fn law_subtyping()
    ensures reflexive { SubtypingIsReflexive }
    ensures transitive { SubtypingIsTransitive }
    ensures superclass { ClassIsBelowSuperclass }
{}
