ghost use Rattle.std.specs.Prelude.{◌≤◌, IfErr, IfOk, OnOk};
ghost use Rattle.exec_machine.specs.Keeping.{HasEnded};
ghost use Rattle.lang_typed.specs.Plain.{plain_program};
ghost use Rattle.lang_typed.specs.Resolved.{Resolved, HasMain};
ghost use Rattle.exec_run.specs.Seeding.{ComesBySeed, SeedBreaksOff, WasSeeded};

use crate::drawing::{drawn, next_state};
use crate::opening::open;
use crate::recorded::{Recorded, made_alone};
use exec_machine::{Halted, Machine};
use lang_base::{Limits, NoMemory};
use lang_typed::Program;
use std::alloc::Global;

/// How many events are made by a seed at most. A run within the limits of a job has no more.
const MOST_EVENTS: usize = 40000002;

/// Runs a program on the argument of `main` within limits. The caller makes all events, each of the ready task that a generator draws,
/// which begins with the seed; of so many workers each makes none. None, where the run can't go on.
pub fn run_seeded(
    alloc: Global,
    program: &Program,
    limits: Limits,
    argument: i32,
    workers: u32,
    seed: u32,
) -> Result<Option<Recorded>, NoMemory>
    requires resolved { Resolved (plain_program program.now) }
    requires main { HasMain (plain_program program.now) }
    requires steps { limits.steps ≤ 20000000 }
    requires cells { limits.cells ≤ 16777216 }
    ensures { IfOk result (ComesBySeed (plain_program program.now) limits argument workers seed) }
{
    let Some(mut machine) = open(alloc, program, limits, argument)? else {
        return Ok(None);
    };
    let made = finish_seeded(&mut machine, seed);
    let _ = machine.schedule();
    match made {
        Ok(()) => made_alone(alloc, machine, workers, 0),
        Err(Halted::Stuck) => Ok(None),
        Err(Halted::NoMemory) => Err(NoMemory),
    }
}

/// Steps the task that is drawn next until the machine has finished, or no task is ready, or 40000002 events were made. After want of
/// memory, and where it is stuck, the machine is where its schedule leaves it.
fn finish_seeded(machine: &mut Machine, seed: u32) -> Result<(), Halted>
    ensures seeded { OnOk result (WasSeeded machine.old seed machine.new) }
    ensures done { OnOk result (HasEnded machine.new) }
    ensures why { IfErr result (SeedBreaksOff machine.old seed machine.new) }
{
    let mut state = seed as u64;
    for _step in 0..MOST_EVENTS {
        if machine.finished() {
            return Ok(());
        }
        let next = next_state(state);
        let Some(task) = drawn(machine, next) else {
            return Ok(());
        };
        let _ = machine.step(task)?;
        state = next;
    }
    Ok(())
}
