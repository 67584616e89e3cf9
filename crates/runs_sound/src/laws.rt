//! The laws of well-typed programs, each the clause of a function that does nothing.

ghost use Rattle.runs_sound.specs.Laws.{BranchesInOrder, BranchesQuiet, CallsEnterWhatTheySee, ExpressionsInOrder, ForkingInOrder, IterationsQuiet, NdBranchesQuiet, NdBranchesSeparate, NdIterationsQuiet, NdIterationsSeparate, RootInOrder, TasksInOrder};
ghost use Rattle.runs_sound.specs.KindLaws.{KindsAreLookedAtAlone, RunsMeetNoWrongKind};
ghost use Rattle.runs_sound.specs.RunLaws.{ConflictsAreGuarded, ConflictsAreLevelled, EntriesAreLet, NamesAreKnownByAnyRule, NdForksAreOutside, RunsAreFree, RunsAreSound};

/// Each expression of a well-typed program is in order. A call enters the class that it sees, which is that of its object's type or one
/// below it.
pub fn law_expressions()
    ensures expressions { ExpressionsInOrder }
    ensures calls { CallsEnterWhatTheySee }
{}

/// So are its statements, given that bodies that they call are; so is a task with all calls that it makes, so is each branch that
/// it forks, as a task of its own, and so is the root.
pub fn law_statements()
    ensures statements { ForkingInOrder }
    ensures tasks { TasksInOrder }
    ensures branches { BranchesInOrder }
    ensures root { RootInOrder }
{}

/// Branches and iterations of deterministic constructs whose effects don't clash touch no cell in a way that shows, and those of
/// nd constructs do so in atomic blocks alone: regions that these speak of are apart, but for those that both touch in atomic blocks.
pub fn law_quiet()
    ensures branches { BranchesQuiet }
    ensures iterations { IterationsQuiet }
    ensures nd_branches { NdBranchesQuiet }
    ensures nd_iterations { NdIterationsQuiet }
    ensures nd_branches_apart { NdBranchesSeparate }
    ensures nd_iterations_apart { NdIterationsSeparate }
{}

/// Each run of a well-typed program is sound, by whatever rule blocks are entered: in each cell stands a value of its type, each action is in
/// order where its task stands and is answered by what fits, tasks end with traps or with what has its type, joins bring what fits, and
/// unordered events that conflict stand inside atomic blocks, on a cell of an atomic region.
pub fn law_sound()
    ensures { RunsAreSound }
{}

/// No run of a well-typed program meets a value or an answer of a wrong kind: the meaning that looks at kinds replies in it as the meaning, whatever
/// is done at a wrong one. And where at a wrong kind is done what the meaning does there, both are one.
pub fn law_kinds()
    ensures runs { RunsMeetNoWrongKind }
    ensures meaning { KindsAreLookedAtAlone }
{}

/// So no legal run of a program without nd constructs has two unordered events that conflict; and of each program those that do stand inside
/// blocks that are never open at once, or in one. No nd construct is forked inside a block. Marks are taken off after deterministic constructs,
/// so such blocks are on one level, and blocks on two levels let each other by. By whatever rule blocks are entered, a task acts on what is
/// there.
pub fn law_runs()
    ensures free { RunsAreFree }
    ensures guarded { ConflictsAreGuarded }
    ensures outside { NdForksAreOutside }
    ensures levelled { ConflictsAreLevelled }
    ensures entries { EntriesAreLet }
    ensures known { NamesAreKnownByAnyRule }
{}
