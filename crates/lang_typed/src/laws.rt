//! Laws of the judgement, each the clause of a function that does nothing.

ghost use Rattle.lang_typed.specs.Laws.{OneFieldTwice, OneElementOften, PartialWrite, WellTypedIsResolved};

/// Small races and a partial write aren't well typed; their mended forms are.
pub fn law_samples()
    ensures field { OneFieldTwice }
    ensures element { OneElementOften }
    ensures partial { PartialWrite }
{}

/// A well-typed program has what a run asks of it.
pub fn law_resolved()
    ensures { WellTypedIsResolved }
{}
