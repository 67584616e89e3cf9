ghost use Rattle.std.specs.Prelude.{◌≡◌, OnOk, IfOk};
ghost use Rattle.code_instrs.specs.Plain.{plain_code};
ghost use Rattle.exec_task.specs.Halts.{Ends, Halts, IsAsking, OnTheWay, Paced, Reaches, IsActionOf, front_of};

use crate::action::{Action, Own};
use crate::run_local::run_local;
use crate::running::Running;
use crate::task::{Start, Task};
use code_instrs::Code;
use exec_frames::Frame;
use lang_base::{Items, NoMemory};
use std::alloc::Global;
use std::mem;

impl Task {
    /// Takes the task to its next action. A second call before the answer changes nothing, and gives the same. After want of
    /// memory the task is on its way there.
    pub fn run_to_action(&mut self, alloc: Global, code: &Code) -> Result<Action, NoMemory>
        requires ends { Ends (plain_code code.now) self.old }
        requires paced { Paced self.old }
        ensures ends { Ends (plain_code code.now) self.new }
        ensures paced { Paced self.new }
        ensures number { self.new.number ≡ self.old.number }
        ensures running { OnTheWay (plain_code code.now) self.old self.new }
        ensures halts { OnOk result (Halts (plain_code code.now) self.new (front_of (plain_code code.now) self.new)) }
        ensures is_action { IfOk result (λ action. IsActionOf (plain_code code.now) action (front_of (plain_code code.now) self.new)) }
        ensures again { IsAsking (front_of (plain_code code.now) self.old) → self.new ≡ self.old }
    {
        let task = mem::replace(self, absent(alloc));
        let mut running = Running { task, code };
        let action = run_to_action(&mut running, alloc);
        let Running { task, .. } = running;
        *self = task;
        action
    }
}

/// A task that stands where another is on its way.
fn absent(alloc: Global) -> Task {
    let frame = Frame {
        values: Items::new(alloc),
        regions: Items::new(alloc),
        locals: Items::new(alloc),
        left: 0,
    };
    Task::start(alloc, 0, Start { body: 0, frame })
}

/// Takes a task to its next action.
pub fn run_to_action(running: &mut Running, alloc: Global) -> Result<Action, NoMemory>
    requires { Paced running.old.task }
    ensures reaches { Reaches (plain_code running.old.code.now) running.old.task running.new.task }
    ensures code { running.new.code.now ≡ running.old.code.now }
    ensures halts { OnOk result (Halts (plain_code running.old.code.now) running.new.task (front_of (plain_code running.old.code.now) running.new.task)) }
    ensures is_action { IfOk result (λ action. IsActionOf (plain_code running.old.code.now) action (front_of (plain_code running.old.code.now) running.new.task)) }
{
    run_local(running)?;
    while running.task.ticks < 4096 {
        let code = running.code;
        if let Some(action) = running.task.advance(alloc, code)? {
            return Ok(action);
        }
        run_local(running)?;
    }
    Ok(Action::Do(Own::Rest))
}
