//! The laws of declarations and of inheritance, each the clause of a function that does nothing.

ghost use Rattle.sound_decls.specs.Laws.{AcceptedIsDeclared, AcceptedInherits, AcceptedHasMain};

/// The declarations of an accepted program are well formed.
pub fn law_declared()
    ensures declared { AcceptedIsDeclared }
{}

/// Classes of an accepted program keep what their superclasses have.
pub fn law_inherits()
    ensures inherits { AcceptedInherits }
{}

/// A run of an accepted program begins in a class and with a member as it should.
pub fn law_main()
    ensures main { AcceptedHasMain }
{}
