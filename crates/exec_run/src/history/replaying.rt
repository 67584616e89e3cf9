ghost use Rattle.std.specs.Prelude.{◌≡◌, [], None, length, IfErr, OnOk};
ghost use Rattle.exec_world.specs.Ready.{IsReady};
ghost use Rattle.exec_machine.specs.Keeping.{IsAfter, IsReplayed};
ghost use Rattle.exec_run.specs.history.Replaying.{HasMade, IsReplay, WhyStopped, WhyUnmade};

use exec_machine::{Halted, Machine};

/// Why a schedule wasn't made.
#[derive(Clone, Copy, Debug, PartialEq, Eq)]
pub enum ReplayStop {
    /// The number at this position, from 0, isn't of a ready task, or comes after the end; or the numbers end here, and the run doesn't.
    Bad(u64),
    /// The event of the number at this position can't be made.
    Stuck(u64),
    NoMemory,
}

/// Makes the run that a schedule says, on a machine that has made no event. Where it stops, the machine is where the numbers before lead.
pub fn replay(machine: &mut Machine, schedule: &[u32]) -> Result<(), ReplayStop>
    requires nothing { machine.old.schedule ≡ [] }
    requires replayed { IsReplayed machine.old }
    ensures replay { OnOk result (IsReplay machine.old.code machine.old.limits machine.old.argument schedule.now machine.new) }
    ensures why { IfErr result (WhyStopped machine.old.code machine.old.limits machine.old.argument schedule.now) }
{
    follow(machine, schedule)?;
    if machine.finished() {
        Ok(())
    } else {
        Err(ReplayStop::Bad(schedule.len() as u64))
    }
}

/// Makes the events of a schedule, on a machine that has made none.
fn follow(machine: &mut Machine, schedule: &[u32]) -> Result<(), ReplayStop>
    requires nothing { machine.old.schedule ≡ [] }
    requires replayed { IsReplayed machine.old }
    ensures made { OnOk result (HasMade machine.old.code machine.old.limits machine.old.argument schedule.now (length schedule.now) machine.new) }
    ensures why { IfErr result (WhyStopped machine.old.code machine.old.limits machine.old.argument schedule.now) }
{
    for at in 0..schedule.len() {
        make(machine, schedule[at], at as u64)?;
    }
    Ok(())
}

/// Lets a task make its next event, which is the one at this position.
fn make(machine: &mut Machine, task: u32, at: u64) -> Result<(), ReplayStop>
    ensures made { OnOk result (IsAfter machine.old task machine.new) }
    ensures why { IfErr result (WhyUnmade machine.old task at) }
{
    if machine.finished() || !machine.ready(task) {
        return Err(ReplayStop::Bad(at));
    }
    step(machine, task, at)
}

/// The same of a ready task.
fn step(machine: &mut Machine, task: u32, at: u64) -> Result<(), ReplayStop>
    requires unfinished { machine.old.outcome ≡ None }
    requires ready { IsReady machine.old.world task }
    ensures made { OnOk result (IsAfter machine.old task machine.new) }
    ensures why { IfErr result (WhyUnmade machine.old task at) }
{
    match machine.step(task) {
        Ok(_) => Ok(()),
        Err(Halted::Stuck) => Err(ReplayStop::Stuck(at)),
        Err(Halted::NoMemory) => Err(ReplayStop::NoMemory),
    }
}
