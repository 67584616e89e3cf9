//! The laws of compiled code, each the clause of a function that does nothing.

ghost use Rattle.code_fit.specs.Laws.{CompiledIsFit, WellTypedIsClosed, WellTypedIsRoomy};

/// The code of a resolved program whose bodies keep to their slots is fit, and that of every well-typed program is closed too.
pub fn law_fit()
    ensures compiled { CompiledIsFit }
    ensures roomy { WellTypedIsRoomy }
    ensures closed { WellTypedIsClosed }
{}
