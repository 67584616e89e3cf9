ghost use Rattle.std.specs.Prelude.{◌≡◌, [], slice_index_or, IfOk};
ghost use Rattle.lang_meaning.specs.Actions.{Do, Print};
ghost use Rattle.lang_meaning.specs.Counts.{text_of, line};
ghost use Rattle.code_instrs.specs.Machine.{one, next, Waits};
ghost use Rattle.exec_task.specs.Steps.{Local};
ghost use Rattle.exec_task.specs.Tasks.{plain_level};

use crate::action::{Action, Own};
use crate::step::Step;
use crate::task::Level;
use code_instrs::Code;
use exec_frames::{text_line, value_line};
use lang_base::{Bytes, NoMemory};
use std::alloc::Global;

impl Level {
    /// The print of a value.
    pub fn print(&self, alloc: Global) -> Result<Step, NoMemory>
        ensures { IfOk result (λ s. Local (λ fs. one (plain_level self.now).stack (λ v st. Waits (Do (Print (line (text_of v)))) (λ a. next (plain_level self.now) st fs))) self.now s self.now) }
    {
        let Some(value) = self.stack.top() else {
            return Ok(Step::Stuck);
        };
        Ok(Step::Waits(Action::Do(Own::Print(value_line(alloc, value)?))))
    }

    /// The print of a text.
    pub fn print_text(&self, alloc: Global, code: &Code, text: usize) -> Result<Step, NoMemory>
        ensures { IfOk result (λ s. Local (λ fs. Waits (Do (Print (line (slice_index_or code.now.texts text [])))) (λ a. next (plain_level self.now) (plain_level self.now).stack fs)) self.now s self.now) }
    {
        Ok(Step::Waits(Action::Do(Own::Print(numbered_line(alloc, code, text)?))))
    }
}

/// The line of a text, and an empty one where there is none of this number.
#[tactic(auto, using(exec_frames::proofs::Lists::none_at))]
fn numbered_line(alloc: Global, code: &Code, text: usize) -> Result<Bytes, NoMemory>
    ensures { IfOk result (λ bytes. bytes ≡ line (slice_index_or code.now.texts text [])) }
{
    match code.texts.get(text) {
        Some(text) => text_line(alloc, text),
        None => text_line(alloc, &Bytes::new(alloc)),
    }
}
