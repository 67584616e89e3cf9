ghost use Rattle.std.specs.Prelude.{◌≤◌, IfOk};
ghost use Rattle.lang_typed.specs.Plain.{plain_program};
ghost use Rattle.lang_typed.specs.Resolved.{Resolved, HasMain};
ghost use Rattle.exec_run.specs.Rounding.{ComesByRounds};

use crate::opening::open;
use crate::recorded::{Recorded, made_alone};
use exec_machine::Halted;
use lang_base::{Limits, NoMemory};
use lang_typed::Program;
use std::alloc::Global;
use std::thread::Threads;

/// Runs a program on the argument of `main` within limits, in rounds, of which the caller makes all events; the workers make none, but
/// in as many threads what the tasks do up to their events is computed side by side. None, where the run can't go on.
pub fn run_rounds<R: Threads + Sync>(
    rt: &R,
    alloc: Global,
    program: &Program,
    limits: Limits,
    argument: i32,
    workers: u32,
) -> Result<Option<Recorded>, NoMemory>
    requires resolved { Resolved (plain_program program.now) }
    requires main { HasMain (plain_program program.now) }
    requires steps { limits.steps ≤ 20000000 }
    requires cells { limits.cells ≤ 16777216 }
    ensures { IfOk result (ComesByRounds (plain_program program.now) limits argument workers) }
{
    let Some(mut machine) = open(alloc, program, limits, argument)? else {
        return Ok(None);
    };
    let made = crate::rounds::run_rounds(rt, alloc, &mut machine, workers as usize);
    let _ = machine.schedule();
    match made {
        Ok(rounds) => made_alone(alloc, machine, workers, rounds),
        Err(Halted::Stuck) => Ok(None),
        Err(Halted::NoMemory) => Err(NoMemory),
    }
}
