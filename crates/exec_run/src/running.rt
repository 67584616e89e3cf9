ghost use Rattle.std.specs.Prelude.{◌≡◌, ◌≤◌, length, sum, IfOk};
ghost use Rattle.lang_typed.specs.Plain.{plain_program};
ghost use Rattle.lang_typed.specs.Resolved.{Resolved, HasMain};
ghost use Rattle.exec_run.specs.Run.{IsFinished, IsRun};

use crate::finish::finish;
use crate::history::Record;
use crate::opening::open;
use crate::recorded::Recorded;
use crate::workers::{Gate, Worked, work};
use lang_base::{Limits, NoMemory};
use lang_typed::Program;
use std::alloc::Global;
use std::sync::Wait;
use std::thread::Threads;

/// Runs a program on the argument of `main` within limits, by 1 to 64 workers, and what they leave by the caller. None,
/// where the run can't go on.
pub fn run<R: Threads + Wait + Sync, G: Gate + Sync>(
    rt: &R,
    alloc: Global,
    program: &Program,
    limits: Limits,
    argument: i32,
    workers: u32,
    gate: &G,
) -> Result<Option<Recorded>, NoMemory>
    requires resolved { Resolved (plain_program program.now) }
    requires main { HasMain (plain_program program.now) }
    requires steps { limits.steps ≤ 20000000 }
    requires cells { limits.cells ≤ 16777216 }
    requires workers { (1 ≤ workers) × (workers ≤ 64) }
    ensures { IfOk result (IsRun (plain_program program.now) limits argument workers) }
{
    match open(alloc, program, limits, argument)? {
        Some(machine) => finished(alloc, work(rt, alloc, machine, workers, gate)?),
        None => Ok(None),
    }
}

/// The run that workers have begun, once it has come out. None, where it can't go on.
fn finished(alloc: Global, worked: Worked) -> Result<Option<Recorded>, NoMemory>
    requires counted { length worked.machine.schedule ≡ sum worked.shares }
    ensures { IfOk result (IsFinished worked) }
{
    let Worked {
        mut machine,
        shares,
    } = worked;
    let made = machine.schedule().len();
    let Some(outcome) = finish(alloc, &mut machine)? else {
        return Ok(None);
    };
    let own = (machine.schedule().len() - made) as u64;
    let record = Record {
        machine,
        shares,
        own,
        rounds: 0,
    };
    Ok(Some(Recorded { record, outcome }))
}
