ghost use Rattle.std.specs.Prelude.{◌≤◌, IfOk};
ghost use Rattle.lang_typed.specs.Plain.{plain_program};
ghost use Rattle.lang_typed.specs.Resolved.{Resolved, HasMain};
ghost use Rattle.exec_run.specs.Events.{AreEvents};

use crate::history::{ReplayStop, show};
use crate::opening::open;
use exec_machine::MadeEvent;
use lang_base::{Items, Limits, NoMemory};
use lang_typed::Program;
use std::alloc::Global;

/// What a schedule shows.
#[derive(Drop)]
pub enum Shown {
    /// All events, in their order.
    Made(Items<MadeEvent>),
    /// The number at this position, from 0, isn't of a ready task, or comes after the end; or the schedule ends here, and the
    /// run doesn't.
    Unfit(u64),
    /// The run can't go on.
    Halted,
}

/// The events of the run of a program on the argument of `main` within limits, as a schedule says. The last number of a run that has
/// met a limit makes none.
pub fn events(
    alloc: Global,
    program: &Program,
    limits: Limits,
    argument: i32,
    schedule: &[u32],
) -> Result<Shown, NoMemory>
    requires resolved { Resolved (plain_program program.now) }
    requires main { HasMain (plain_program program.now) }
    requires steps { limits.steps ≤ 20000000 }
    requires cells { limits.cells ≤ 16777216 }
    ensures { IfOk result (AreEvents (plain_program program.now) limits argument schedule.now) }
{
    let Some(machine) = open(alloc, program, limits, argument)? else {
        return Ok(Shown::Halted);
    };
    match show(machine, schedule) {
        Ok(made) => Ok(Shown::Made(made)),
        Err(ReplayStop::Bad(at)) => Ok(Shown::Unfit(at)),
        Err(ReplayStop::Stuck(_)) => Ok(Shown::Halted),
        Err(ReplayStop::NoMemory) => Err(NoMemory),
    }
}
