//! Laws of the walk, each the clause of a function that does nothing.

ghost use Rattle.exec_walker.specs.Laws.{EndsAsElision, StaysOver};

/// A walk ends as the elision does, and where one is over a limit the elision is.
pub fn law_walk()
    ensures ends { EndsAsElision }
    ensures limited { StaysOver }
{}
