ghost use Rattle.std.specs.Prelude.{◌≡◌, ◌<◌, ◌+◌, ◌^◌, suc, IfOk, OnErr, MatchOption};
ghost use Rattle.code_instrs.specs.Machine.{Stuck};
ghost use Rattle.code_instrs.specs.Plain.{plain_code};
ghost use Rattle.exec_task.specs.Advances.{step_at, Kept, StepsTo, Advances, StandsAt};
ghost use Rattle.exec_task.specs.Halts.{Paced, IsAsking, stands};
ghost use Rattle.exec_task.specs.StepsLocally.{IsAtOther};
ghost use Rattle.exec_task.specs.Steps.{HasNext, with_local};
ghost use Rattle.exec_task.specs.Tasks.{plain_level};

use crate::action::{Action, Ending};
use crate::exec::exec;
use crate::lines::line;
use crate::step::Step;
use crate::task::{Standing, Task};
use code_instrs::Code;
use lang_base::NoMemory;
use std::alloc::Global;

impl Task {
    /// One step, but for the counts. When memory runs out, the task is as it was.
    fn step(&mut self, alloc: Global, code: &Code) -> Result<Step, NoMemory>
        requires { IsAtOther (plain_code code.now) self.old }
        ensures ok { IfOk result (λ s. StepsTo (plain_code code.now) self.old s self.new) }
        ensures kept { Kept self.old self.new }
        ensures err { OnErr result (self.new ≡ self.old) }
    {
        match &self.standing {
            Standing::At => self.run(alloc, code),
            Standing::Rested => self.level.enter(alloc, code),
            Standing::Ended(ending) => Ok(Step::Waits(Action::End(ending.copy(alloc)?))),
            Standing::Nowhere => Ok(Step::Stuck),
        }
    }

    /// The instruction at which the task stands.
    fn run(&mut self, alloc: Global, code: &Code) -> Result<Step, NoMemory>
        requires at { self.old.standing ≡ Standing.At }
        requires other { IsAtOther (plain_code code.now) self.old }
        ensures ok { IfOk result (λ s. StepsTo (plain_code code.now) self.old s self.new) }
        ensures kept { Kept self.old self.new }
        ensures err { OnErr result (self.new ≡ self.old) }
    {
        let Some(line) = line(code, self.level.body, self.level.at) else {
            return Ok(Step::Stuck);
        };
        exec(alloc, code, line, &mut self.level, &mut self.callers)
    }

    /// Another step on the way, or the action at which the task stands. It is kept apart from the
    /// loop around it, whose quick steps would slow down with it.
    #[inline(never)]
    pub fn advance(&mut self, alloc: Global, code: &Code) -> Result<Option<Action>, NoMemory>
        requires paced { Paced self.old }
        requires going { self.old.ticks < 4096 }
        requires alive { step_at (plain_code code.now) self.old ≡ Stuck → ⊥ }
        requires other { IsAtOther (plain_code code.now) self.old }
        ensures ok { IfOk result (λ o. MatchOption o (Advances (plain_code code.now) self.old self.new) (λ action. StandsAt (plain_code code.now) self.old action self.new)) }
        ensures moved { IfOk result (λ o. MatchOption o (IsAsking (stands self.old.ticks self.old.made (step_at (plain_code code.now) self.old)) → ⊥) (λ _. Unit {0})) }
        ensures paced { Paced self.new }
        ensures number { self.new.number ≡ self.old.number }
        ensures err { OnErr result (self.new ≡ self.old) }
    {
        match self.step(alloc, code)? {
            Step::Goes => Ok(None),
            Step::Makes(declaration) => {
                self.make_region(declaration);
                Ok(None)
            }
            Step::Ends(ending) => {
                self.standing = Standing::Ended(ending);
                Ok(None)
            }
            Step::Waits(action) => Ok(Some(action)),
            Step::Stuck => unreachable!(),
        }
    }

    /// A new local region for a declaration.
    fn make_region(&mut self, declaration: u32)
        requires next { HasNext self.old.level }
        requires ticks { self.old.ticks + 1 < 2 ^ 32 }
        requires names { self.old.made + 1 < 2 ^ 32 }
        ensures level { plain_level self.new.level ≡ with_local declaration (self.old.number, suc self.old.made) (plain_level self.old.level) }
        ensures callers { self.new.callers ≡ self.old.callers }
        ensures standing { self.new.standing ≡ self.old.standing }
        ensures number { self.new.number ≡ self.old.number }
        ensures ticks { self.new.ticks ≡ suc self.old.ticks }
        ensures made { self.new.made ≡ suc self.old.made }
    {
        self.made += 1;
        self.ticks += 1;
        let made = (self.number, self.made);
        let at = declaration as usize;
        if at < self.level.frame.locals.len() {
            self.level.frame.locals.set(at, made);
        }
        self.level.at += 1;
    }
}
