ghost use Rattle.std.specs.Prelude.{◌≡◌, All, OnOk, OnErr, IfOk};
ghost use Rattle.exec_task.specs.Advances.{step_at, Kept};
ghost use Rattle.code_instrs.specs.Plain.{plain_code};
ghost use Rattle.exec_task.specs.Answers.{LeadsTo, IsCounted};
ghost use Rattle.exec_task.specs.Halts.{front_of, Follows, IsWidthBounded};
ghost use Rattle.exec_task.specs.Tasks.{plain_answer, state_in};

use crate::action::Answer;
use crate::lines::line;
use crate::resume::resume;
use crate::task::{Standing, Task};
use code_instrs::Code;
use lang_base::NoMemory;
use std::alloc::Global;

impl Task {
    /// Goes on after the answer to the action at which the task stands. When memory runs out, it still stands there.
    pub fn answer(&mut self, alloc: Global, code: &Code, answer: Answer) -> Result<(), NoMemory>
        requires few { All IsWidthBounded code.now.sites }
        requires counted { IsCounted answer }
        ensures follows { OnOk result (Follows (front_of (plain_code code.now) self.old) answer self.new) }
        ensures number { self.new.number ≡ self.old.number }
        ensures err { OnErr result (self.new ≡ self.old) }
    {
        if self.ticks == 4096 {
            self.ticks = 0;
            return Ok(());
        }
        let standing = self.resumed(alloc, code, answer)?;
        self.standing = standing;
        self.ticks = 0;
        Ok(())
    }

    /// How the task stands after the answer.
    fn resumed(&mut self, alloc: Global, code: &Code, answer: Answer) -> Result<Standing, NoMemory>
        requires few { All IsWidthBounded code.now.sites }
        requires counted { IsCounted answer }
        ensures ok { IfOk result (λ s. LeadsTo (step_at (plain_code code.now) self.old) (plain_answer answer) (state_in s self.new.level self.new.callers)) }
        ensures kept { Kept self.old self.new }
        ensures err { OnErr result (self.new ≡ self.old) }
    {
        let Some(line) = line(code, self.level.body, self.level.at) else {
            return Ok(Standing::Nowhere);
        };
        match &self.standing {
            Standing::At => resume(
                alloc,
                code,
                line,
                &mut self.level,
                &mut self.callers,
                answer,
            ),
            Standing::Rested => Ok(self.level.after_nothing()),
            Standing::Ended(ending) => Ok(Standing::Nowhere),
            Standing::Nowhere => Ok(Standing::Nowhere),
        }
    }
}
