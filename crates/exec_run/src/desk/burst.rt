ghost use Rattle.std.specs.Prelude.{◌≡◌, ℕ, None, IfOk, IfErr, OnErr, MatchOption};
ghost use Rattle.exec_world.specs.Ready.{IsReady};
ghost use Rattle.exec_machine.specs.Keeping.{IsAfter, WhyHaltedAt};
ghost use Rattle.exec_run.specs.desk.Bursts.{IsBurst, WhyNoMore};

use exec_machine::{Halted, Machine};

/// How many events of one task are made at most while the lock is held.
const MOST_EVENTS: u64 = 256;

/// Events of one task, made one after the other.
#[derive(Clone, Copy, Debug, PartialEq, Eq)]
pub struct Burst {
    /// How many.
    pub events: u64,
    pub end: BurstEnd,
}

/// Why a burst has no more events.
#[derive(Clone, Copy, Debug, PartialEq, Eq)]
pub enum BurstEnd {
    /// It has as many as a burst may have.
    Full,
    /// The machine has finished.
    Finished,
    /// The task is no longer ready.
    Unready,
    /// The step of a further event was not made.
    Halted(Halted),
}

/// Makes events of a ready task for as long as it is ready and the machine is unfinished, 256 at most. Where the first can't
/// be made the machine is as it was.
pub fn make_burst(machine: &mut Machine, task: u32) -> Result<Burst, Halted>
    requires unfinished { machine.old.outcome ≡ None }
    requires ready { IsReady machine.old.world task }
    ensures ok { IfOk result (λ made. IsBurst machine.old task made machine.new) }
    ensures why { IfErr result (WhyHaltedAt machine.old task) }
    ensures err { OnErr result (machine.new ≡ machine.old) }
{
    let _ = machine.step(task)?;
    for events in 1..MOST_EVENTS {
        if let Some(end) = one_more(machine, task) {
            return Ok(Burst { events, end });
        }
    }
    Ok(Burst {
        events: MOST_EVENTS,
        end: BurstEnd::Full,
    })
}

/// Makes one event more, or tells why not.
fn one_more(machine: &mut Machine, task: u32) -> Option<BurstEnd>
    ensures { MatchOption result (IsAfter machine.old task machine.new) (λ end. (machine.new ≡ machine.old) × ((n : ℕ) → WhyNoMore machine.new task n end)) }
{
    if machine.finished() {
        return Some(BurstEnd::Finished);
    }
    if !machine.ready(task) {
        return Some(BurstEnd::Unready);
    }
    match machine.step(task) {
        Ok(_) => None,
        Err(halted) => Some(BurstEnd::Halted(halted)),
    }
}
