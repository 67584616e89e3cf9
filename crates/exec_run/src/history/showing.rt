ghost use Rattle.std.specs.Prelude.{◌≡◌, [], None, length, IfErr, IfOk};
ghost use Rattle.exec_world.specs.Ready.{IsReady};
ghost use Rattle.exec_machine.specs.Keeping.{IsAfter, IsReplayed};
ghost use Rattle.exec_run.specs.history.Replaying.{HasMade, WhyStopped, WhyUnmade};
ghost use Rattle.exec_run.specs.history.Showing.{Shows};

use crate::history::replaying::ReplayStop;
use exec_machine::{EventMachine, Halted, Machine, MadeEvent};
use lang_base::Items;

/// The events of the run that a schedule says, of a machine that has made none.
pub fn show(machine: Machine, schedule: &[u32]) -> Result<Items<MadeEvent>, ReplayStop>
    requires nothing { machine.schedule ≡ [] }
    requires replayed { IsReplayed machine }
    ensures shows { IfOk result (Shows machine.code machine.limits machine.argument schedule.now) }
    ensures why { IfErr result (WhyStopped machine.code machine.limits machine.argument schedule.now) }
{
    let machine = follow(machine.with_events(), schedule)?;
    if machine.finished() {
        Ok(machine.into_made())
    } else {
        Err(ReplayStop::Bad(schedule.len() as u64))
    }
}

/// Makes the events of a schedule, on a machine that has made none.
fn follow(machine: EventMachine, schedule: &[u32]) -> Result<EventMachine, ReplayStop>
    requires nothing { machine.played.schedule ≡ [] }
    requires replayed { IsReplayed machine.played }
    ensures made { IfOk result (λ last. HasMade machine.played.code machine.played.limits machine.played.argument schedule.now (length schedule.now) last.played) }
    ensures why { IfErr result (WhyStopped machine.played.code machine.played.limits machine.played.argument schedule.now) }
{
    let mut at_work = machine;
    for at in 0..schedule.len() {
        at_work = make(at_work, schedule[at], at as u64)?;
    }
    Ok(at_work)
}

/// Lets a task make its next event, which is the one at this position.
fn make(machine: EventMachine, task: u32, at: u64) -> Result<EventMachine, ReplayStop>
    ensures made { IfOk result (λ next. IsAfter machine.played task next.played) }
    ensures why { IfErr result (WhyUnmade machine.played task at) }
{
    if machine.finished() || !machine.ready(task) {
        return Err(ReplayStop::Bad(at));
    }
    step(machine, task, at)
}

/// The same of a ready task.
fn step(machine: EventMachine, task: u32, at: u64) -> Result<EventMachine, ReplayStop>
    requires unfinished { machine.played.outcome ≡ None }
    requires ready { IsReady machine.played.world task }
    ensures made { IfOk result (λ next. IsAfter machine.played task next.played) }
    ensures why { IfErr result (WhyUnmade machine.played task at) }
{
    match machine.step(task) {
        Ok(next) => Ok(next),
        Err(Halted::Stuck) => Err(ReplayStop::Stuck(at)),
        Err(Halted::NoMemory) => Err(ReplayStop::NoMemory),
    }
}
