//! The laws of generated code, each the clause of a function that does nothing. They hold for all names of objects and of
//! made local regions.

ghost use Rattle.code_scheme.specs.Samples.{SamplesStand};
ghost use Rattle.code_scheme.specs.Laws.{CodeIsRight, MembersAreCompiled, BodiesAreCompiled, OneReply, NeverStuck, RunsAreRight, RunsEnd};

/// The code of a program does what the program means, whatever its tasks are answered.
pub fn law_code<N, M>()
    ensures right { CodeIsRight N M }
    ensures members { MembersAreCompiled N M }
    ensures bodies { BodiesAreCompiled N M }
{}

/// A solo run stands at one reply, and that of compiled code is never stuck.
pub fn law_solo<N, M>()
    ensures one { OneReply N M }
    ensures never { NeverStuck N M }
{}

/// A compiled task that gets its answers one at a time does what it means, and comes to an action after each answer.
pub fn law_runs_to_actions<N, M>()
    ensures right { RunsAreRight N M }
    ensures ends { RunsEnd N M }
{}

/// Small programs have the code that a person writes.
pub fn law_samples()
    ensures samples { SamplesStand }
{}
