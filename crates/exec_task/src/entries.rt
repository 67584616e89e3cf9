ghost use Rattle.std.specs.Prelude.{slice_get, IfOk};
ghost use Rattle.code_instrs.specs.Machine.{rested_at, rested_line};
ghost use Rattle.code_instrs.specs.Plain.{plain_code, body_at};
ghost use Rattle.exec_task.specs.Steps.{Enters};
ghost use Rattle.exec_task.specs.Tasks.{plain_level};

use crate::action::{Action, Own};
use crate::lines::line;
use crate::regions::concrete_effects;
use crate::step::Step;
use crate::task::Level;
use code_instrs::{Code, Instr, Site};
use lang_base::NoMemory;
use std::alloc::Global;

impl Level {
    /// The entry in front of which the task has rested.
    pub fn enter(&self, alloc: Global, code: &Code) -> Result<Step, NoMemory>
        ensures { IfOk result (λ s. Enters (plain_code code.now) (λ names fs. rested_line names (plain_code code.now) (slice_get (body_at (plain_code code.now) self.now.body).lines self.now.at) (plain_level self.now) fs) s) }
    {
        let Some(line) = line(code, self.body, self.at) else {
            return Ok(Step::Stuck);
        };
        self.enter_line(alloc, code, line.0)
    }

    fn enter_line(&self, alloc: Global, code: &Code, instr: Instr) -> Result<Step, NoMemory>
        ensures { IfOk result (λ s. Enters (plain_code code.now) (λ names fs. rested_at names (plain_code code.now) instr (plain_level self.now) fs) s) }
    {
        let Instr::Enter(site) = instr else {
            return Ok(Step::Stuck);
        };
        let Some(Site::Block { effects }) = code.sites.get(site) else {
            return Ok(Step::Stuck);
        };
        Ok(Step::Waits(Action::Do(Own::Enter(concrete_effects(alloc, &self.frame, effects)?))))
    }
}
