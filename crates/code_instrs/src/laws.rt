//! The laws of code, each the clause of a function that does nothing. They hold for all names of objects and of made local
//! regions.

ghost use Rattle.code_instrs.specs.RunsToActions.{RunsAreSolo};

/// A task that gets its answers one at a time does what its solo run does.
pub fn law_runs_to_actions<N, M>()
    ensures solo { RunsAreSolo N M }
{}
