ghost use Rattle.std.specs.Prelude.{◌≡◌, None, Some, IfOk, IfSome};
ghost use Rattle.exec_machine.specs.Keeping.{GreedilyOn, IsReplayed};
ghost use Rattle.exec_run.specs.Run.{CannotGoOn};

use exec_machine::{Halted, Machine};
use lang_base::{NoMemory, Outcome, Plain};
use std::alloc::Global;

/// Steps the greatest ready task of a machine until the run has come out, and tells how. None, where it can't go on.
pub fn finish(alloc: Global, machine: &mut Machine) -> Result<Option<Outcome>, NoMemory>
    ensures greedily { GreedilyOn machine.old machine.new }
    ensures replayed { IsReplayed machine.new }
    ensures came { IfOk result (λ outcome. IfSome outcome (λ outcome. machine.new.outcome ≡ Some outcome)) }
    ensures stopped { IfOk result (λ outcome. outcome ≡ None → CannotGoOn machine.new) }
{
    let halted = machine.finish();
    let _ = machine.schedule();
    match halted {
        Ok(()) => came_out(alloc, machine),
        Err(Halted::Stuck) => Ok(None),
        Err(Halted::NoMemory) => Err(NoMemory),
    }
}

/// How the run of a machine came out.
pub fn came_out(alloc: Global, machine: &Machine) -> Result<Option<Outcome>, NoMemory>
    ensures { IfOk result (λ outcome. outcome ≡ machine.now.outcome) }
{
    match machine.outcome() {
        Some(outcome) => Ok(Some(outcome.copy(alloc)?)),
        None => Ok(None),
    }
}
