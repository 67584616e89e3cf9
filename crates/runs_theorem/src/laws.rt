//! The laws of whole runs of well-typed programs, each the clause of a function that does nothing but name others.

ghost use Rattle.runs_theorem.specs.Laws.{NoRunCostsMore, RunsAreArranged, RunsAreGathered, RunsAreMoved, RunsComeOutAsElided, SchedulesComeOutAsElided};
ghost use Rattle.runs_theorem.specs.Inside.{MachinesElideInside};
ghost use Rattle.runs_theorem.specs.Guarantee.{GreedyMachinesElide, MachinesAreNotStuck, MachinesComeOutAsElided, MachinesMakeProgress};
ghost use Rattle.runs_theorem.specs.Readiness.{MachinesAreReadyAsTheirRuns};
ghost use Rattle.runs_theorem.specs.Reduced.{MachinesAreReduced};

use exec_progress::laws::law_code_progress;
use runs_elision::laws::{law_determinism, law_greatest, law_names};
use runs_program::laws::law_steps;
use runs_reduction::laws::{law_arranging, law_gathering, law_reordering};
use runs_simulation::laws::{law_lively, law_simulation};
use runs_sound::laws::{law_runs, law_sound};

/// Every legal run of a well-typed program without nd constructs whose root has ended, and every finished schedule, comes out as the
/// serial elision, limits included; and none costs more.
pub fn law_well_typed()
    ensures runs { RunsComeOutAsElided }
    ensures schedules { SchedulesComeOutAsElided }
    ensures cost { NoRunCostsMore }
{
    law_runs();
    law_determinism();
}

/// In every legal run of a well-typed program each atomic block's events can stand together at its entry.
pub fn law_reduction()
    ensures { RunsAreGathered }
{
    law_runs();
    law_steps();
    law_names();
    law_gathering();
}

/// In every legal run of a well-typed program whose root has ended each deterministic construct's branches can stand directly after its
/// fork, one after another, inside nd constructs too; blocks then don't wait for each other for effects on local regions alone.
pub fn law_reordered()
    ensures { RunsAreMoved }
{
    law_runs();
    law_steps();
    law_reordering();
}

/// Both can be had at once: in the gathered run, moved, each atomic block's events still stand together.
pub fn law_arranged()
    ensures { RunsAreArranged }
{
    law_steps();
    law_reduction();
    law_reordered();
    law_arranging();
}

/// A run of the code of a well-typed program without nd constructs comes out as the program's serial elision, limits included,
/// whatever its schedule is.
pub fn law_guarantee()
    ensures { MachinesComeOutAsElided }
{
    law_simulation();
    law_well_typed();
}

/// A run of the code of any resolved program with a `main`, in which the ready task with the greatest number always goes on, comes
/// out as the program's serial elision, limits included.
pub fn law_elide()
    ensures { GreedyMachinesElide }
{
    law_simulation();
    law_lively();
    law_steps();
    law_greatest();
}

/// A run of the code of a well-typed program, nd constructs or not, is a legal run of the source with the same outcome, which is sound: its
/// unordered events that conflict lie in atomic blocks. Gathered by blocks it comes out the same.
pub fn law_reduced()
    ensures { MachinesAreReduced }
{
    law_simulation();
    law_sound();
    law_reduction();
}

/// A run of a well-typed program, nd constructs or not, whose root has ended can be moved so that each deterministic construct's branches
/// stand directly after its fork, one after another; so can the run that a machine's schedule records, gathered first or not, with the same
/// outcome. Blocks then don't wait for each other for effects on local regions alone.
pub fn law_inside()
    ensures runs { RunsAreMoved }
    ensures machines { MachinesElideInside }
{
    law_simulation();
    law_reordered();
    law_arranged();
}

/// A machine on the code of any resolved program with a `main` is ready for exactly the tasks that are ready in the run that its schedule
/// records: so rounds are of the tasks that are ready in the run of the source.
pub fn law_readiness()
    ensures { MachinesAreReadyAsTheirRuns }
{
    law_simulation();
    law_lively();
}

/// A machine on the code of a well-typed program is never stuck: until its run has come out it has a ready task, whose next event can
/// be made, and it comes out before it has made as many events as it may.
pub fn law_progress()
    ensures stuck { MachinesAreNotStuck }
    ensures on { MachinesMakeProgress }
{
    law_simulation();
    law_lively();
    law_steps();
    law_names();
    law_code_progress();
}
