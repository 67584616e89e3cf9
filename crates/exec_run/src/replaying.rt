ghost use Rattle.std.specs.Prelude.{◌≤◌, IsSome, IfOk};
ghost use Rattle.lang_typed.specs.Plain.{plain_program};
ghost use Rattle.lang_typed.specs.Resolved.{Resolved, HasMain};
ghost use Rattle.exec_run.specs.Replays.{IsFollowed, IsMadeBy};

use crate::history::{Record, ReplayStop};
use crate::opening::open;
use crate::recorded::Recorded;
use exec_machine::Machine;
use lang_base::{Items, Limits, NoMemory, Plain};
use lang_typed::Program;
use std::alloc::Global;

/// What a schedule comes to.
#[derive(Drop)]
pub enum Replayed {
    /// A run that has come out by exactly the schedule.
    Ran(Recorded),
    /// The number at this position, from 0, isn't of a ready task, or comes after the end; or the schedule ends here, and the
    /// run doesn't.
    Unfit(u64),
    /// The run can't go on.
    Halted,
}

/// Runs a program on the argument of `main` within limits, as a schedule says.
pub fn replay(
    alloc: Global,
    program: &Program,
    limits: Limits,
    argument: i32,
    schedule: &[u32],
) -> Result<Replayed, NoMemory>
    requires resolved { Resolved (plain_program program.now) }
    requires main { HasMain (plain_program program.now) }
    requires steps { limits.steps ≤ 20000000 }
    requires cells { limits.cells ≤ 16777216 }
    ensures { IfOk result (IsFollowed (plain_program program.now) limits argument schedule.now) }
{
    let Some(mut machine) = open(alloc, program, limits, argument)? else {
        return Ok(Replayed::Halted);
    };
    match crate::history::replay(&mut machine, schedule) {
        Ok(()) => Ok(Replayed::Ran(recorded(alloc, machine)?)),
        Err(ReplayStop::Bad(at)) => Ok(Replayed::Unfit(at)),
        Err(ReplayStop::Stuck(_)) => Ok(Replayed::Halted),
        Err(ReplayStop::NoMemory) => Err(NoMemory),
    }
}

/// The record of a run that has come out, of which the caller made all events.
fn recorded(alloc: Global, machine: Machine) -> Result<Recorded, NoMemory>
    requires { IsSome machine.outcome }
    ensures { IfOk result (IsMadeBy machine) }
{
    let Some(outcome) = machine.outcome() else {
        unreachable!()
    };
    let outcome = outcome.copy(alloc)?;
    let own = machine.schedule().len() as u64;
    let record = Record {
        machine,
        shares: Items::new(alloc),
        own,
        rounds: 0,
    };
    Ok(Recorded { record, outcome })
}
