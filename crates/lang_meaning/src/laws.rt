//! Laws of the meaning, each the clause of a function that does nothing.

ghost use Rattle.lang_meaning.specs.Coherent.{IsCoherent};
ghost use Rattle.lang_meaning.specs.Tasks.{IsDisciplined, IsLively, IsInTurn, IsPaced, LoopsAgain};
ghost use Rattle.lang_meaning.specs.Laws.{PrintsSum, RestsOnce, BeginsEach, BranchesInOrder, CountsFromFive, ReadsWritten, RunsLoops};

/// Small programs ask what their texts say.
pub fn law_samples()
    ensures prints { PrintsSum }
    ensures rests { RestsOnce }
    ensures begins { BeginsEach }
{}

/// Run in sequence small programs come out as their texts say: endings, output, costs and limits.
pub fn law_elision()
    ensures branches { BranchesInOrder }
    ensures counts { CountsFromFive }
    ensures reads { ReadsWritten }
    ensures loops { RunsLoops }
{}

/// What each task of each program keeps to, whatever it is answered and whatever names objects (N) and local regions (M):
/// nothing comes after its end, and after a fork come its begins and its join; something comes next until it has ended; and
/// no more than so many ticks go by without an event. A loop is its test, a tick, its body and the loop again.
/// Each branch of a fork does what its task is to do.
pub fn law_tasks<N, M>()
    ensures disciplined { IsDisciplined N M }
    ensures lively { IsLively N M }
    ensures in_turn { IsInTurn N M }
    ensures paced { IsPaced N M }
    ensures loops { LoopsAgain N M }
    ensures coherent { IsCoherent N M }
{}
