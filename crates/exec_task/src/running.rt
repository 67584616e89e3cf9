ghost use Rattle.code_instrs.specs.Plain.{plain_code};
ghost use Rattle.exec_task.specs.Fuel.{Least, Least-prop};

use crate::task::Task;
use code_instrs::Code;

/// A task on the way to its next action, with its code; the way has an end.
#[derive(Drop)]
pub struct Running<'a> {
    pub task: Task,
    pub code: &'a Code,
    ghost ends: { Least (plain_code code.now) task } by { Least-prop (plain_code code.now) task },
}
