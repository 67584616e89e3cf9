ghost use Rattle.std.specs.Prelude.{◌≡◌, ◌↔◌, ◌+◌, None, length, reverse, IsTrue, IfOk, IfErr, OnOk, OnErr};
ghost use Rattle.exec_world.specs.Ready.{NoneReady};
ghost use Rattle.exec_machine.specs.Keeping.{HasEnded, WhyHaltedAt};
ghost use Rattle.exec_run.specs.rounds.Rounds.{IsTurn, HadTurns, IsOver, IsRound, RoundsOn, BreaksOff, RoundsBreakOff, TurnsBreakOff};

use crate::rounds::mark::Mark;
use crate::rounds::ready::ready_tasks;
use exec_machine::{Halted, Machine};
use lang_base::Items;
use std::alloc::Global;
use std::thread::Threads;

/// How many events `run_rounds` makes, after which it begins no more rounds. A run within the limits of a job has no more.
const MOST_EVENTS: usize = 40000002;

/// Makes rounds until the machine has finished, or no task is ready, or 40000002 events were made. Where it breaks off, the machine is
/// where its schedule leaves it. What the tasks do up to their events is computed in at most so many threads, side by side, wherever it
/// was long in the round before. The answer is the number of rounds.
pub fn run_rounds<R: Threads + Sync>(
    rt: &R,
    alloc: Global,
    machine: &mut Machine,
    threads: usize,
) -> Result<u64, Halted>
    ensures rounds { IfOk result (λ rounds. RoundsOn machine.old rounds machine.new) }
    ensures done { OnOk result (HasEnded machine.new) }
    ensures why { IfErr result (RoundsBreakOff machine.old machine.new) }
{
    let mut useful = 1;
    let mut rounds = 0;
    while !is_over(machine) {
        let begun = Mark::of(machine);
        let made = round(rt, alloc, machine, useful)?;
        if made == 0 {
            return Ok(rounds);
        }
        rounds += 1;
        useful = begun.useful_threads(machine, threads);
    }
    Ok(rounds)
}

/// Whether the machine has finished, or 40000002 events were made.
fn is_over(machine: &Machine) -> bool
    ensures { IsTrue result ↔ IsOver machine.now }
{
    machine.finished() || MOST_EVENTS <= machine.schedule().len()
}

/// Makes a round. The answer is its length, the number of events: 0 only where no task is ready.
pub fn round<R: Threads + Sync>(
    rt: &R,
    alloc: Global,
    machine: &mut Machine,
    threads: usize,
) -> Result<usize, Halted>
    requires unfinished { machine.old.outcome ≡ None }
    ensures round { OnOk result (IsRound machine.old machine.new) }
    ensures length { IfOk result (λ made. length machine.new.schedule ≡ length machine.old.schedule + made) }
    ensures idle { IfOk result (λ made. made ≡ 0 → NoneReady machine.old.world) }
    ensures why { IfErr result (BreaksOff machine.old machine.new) }
{
    let begun = machine.schedule().len();
    let tasks = ready_tasks(alloc, machine)?;
    prepare(rt, machine, threads, &tasks);
    turns(machine, tasks)?;
    Ok(machine.schedule().len() - begun)
}

/// Takes the tasks towards their events, where there are threads and tasks for them.
fn prepare<R: Threads + Sync>(rt: &R, machine: &mut Machine, threads: usize, tasks: &Items<u32>)
    ensures { machine.new ≡ machine.old }
{
    if threads > 1 && tasks.len() > 1 {
        machine.prepare(rt, threads, tasks.as_slice());
    }
}

/// Gives each task its turn, the last first.
fn turns(machine: &mut Machine, tasks: Items<u32>) -> Result<(), Halted>
    ensures turns { OnOk result (HadTurns machine.old (reverse tasks) machine.new) }
    ensures why { IfErr result (TurnsBreakOff machine.old (reverse tasks) machine.new) }
{
    let mut left = tasks;
    while let Some(task) = left.pop() {
        turn(machine, task)?;
    }
    Ok(())
}

/// The turn of a task.
fn turn(machine: &mut Machine, task: u32) -> Result<(), Halted>
    ensures turn { OnOk result (IsTurn machine.old task machine.new) }
    ensures why { IfErr result (WhyHaltedAt machine.old task) }
    ensures err { OnErr result (machine.new ≡ machine.old) }
{
    if machine.finished() {
        return Ok(());
    }
    if !machine.still_ready(task) {
        return Ok(());
    }
    let _ = machine.step(task)?;
    Ok(())
}
