ghost use Rattle.std.specs.Prelude.{◌≡◌, reverse, IfOk};
ghost use Rattle.exec_run.specs.rounds.Rounds.{AreReady};

use exec_machine::Machine;
use lang_base::{Items, NoMemory};
use std::alloc::Global;

/// The tasks that are ready, the greatest first.
pub fn ready_tasks(alloc: Global, machine: &mut Machine) -> Result<Items<u32>, NoMemory>
    ensures same { machine.new ≡ machine.old }
    ensures ready { IfOk result (λ tasks. AreReady machine.old.world (reverse tasks)) }
{
    let mut tasks = Items::new(alloc);
    let mut next = machine.next_ready();
    while let Some(task) = next {
        tasks.push(task)?;
        next = machine.ready_below(task);
    }
    Ok(tasks)
}
