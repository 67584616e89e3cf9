ghost use Rattle.std.specs.Prelude.{◌≡◌, ◌≢◌, ℕ, All, None, IfOk, OnOk, IfSome};
ghost use Rattle.code_instrs.specs.Plain.{plain_code};
ghost use Rattle.exec_task.specs.Answers.{IsCounted};
ghost use Rattle.exec_task.specs.Halts.{Halts, IsActionOf, IsWidthBounded, front_of};
ghost use Rattle.exec_machine.specs.Running.{Running, Goes, StandsFor, IsFirst};

use crate::answers::copied;
use code_instrs::Code;
use exec_frames::Frame;
use exec_task::{Action, Answer, Start, Task};
use lang_base::{Items, NoMemory};
use std::alloc::Global;

/// A task that has begun and not ended.
#[derive(Drop)]
pub struct Slot {
    pub task: Task,
    /// The answer to its last event, which it hasn't been given yet.
    pub pending: Option<Answer>,
}

impl Slot {
    /// A task of this number, at the start.
    pub fn start(alloc: Global, number: u32, start: Start) -> Slot
        ensures { IsFirst number start result }
    {
        Slot {
            task: Task::start(alloc, number, start),
            pending: None,
        }
    }

    /// What holds the place of a task of this number, which was taken out. It takes no memory.
    pub fn in_place_of(alloc: Global, number: u32) -> Slot
        ensures { result.task.number ≢ number }
    {
        let frame = Frame {
            values: Items::new(alloc),
            regions: Items::new(alloc),
            locals: Items::new(alloc),
            left: 0,
        };
        Slot {
            task: Task::start(alloc, another(number), Start { body: 0, frame }),
            pending: None,
        }
    }

    /// Gives the task the answer to its last event. When memory runs out, it is still to be given.
    fn deliver(&mut self, alloc: Global, code: &Code) -> Result<(), NoMemory>
        requires few { All IsWidthBounded code.now.sites }
        requires counted { IfSome self.old.pending IsCounted }
        ensures given { OnOk result (self.new.pending ≡ None) }
        ensures stands { (k : ℕ) (t : Running) → Goes (plain_code code.now) k t → StandsFor (plain_code code.now) k self.old t → StandsFor (plain_code code.now) k self.new t }
    {
        let Some(answer) = &self.pending else {
            return Ok(());
        };
        let copy = copied(alloc, answer)?;
        self.task.answer(alloc, code, copy)?;
        self.pending = None;
        Ok(())
    }

    /// Takes the task to its next action. When memory runs out, it is on its way there.
    pub fn advance(&mut self, alloc: Global, code: &Code) -> Result<Action, NoMemory>
        requires few { All IsWidthBounded code.now.sites }
        requires stands { (k : ℕ) × (t : Running) × Goes (plain_code code.now) k t × StandsFor (plain_code code.now) k self.old t }
        ensures stands { (k : ℕ) (t : Running) → Goes (plain_code code.now) k t → StandsFor (plain_code code.now) k self.old t → StandsFor (plain_code code.now) k self.new t }
        ensures given { OnOk result (self.new.pending ≡ None) }
        ensures halts { OnOk result (Halts (plain_code code.now) self.new.task (front_of (plain_code code.now) self.new.task)) }
        ensures is_action { IfOk result (λ action. IsActionOf (plain_code code.now) action (front_of (plain_code code.now) self.new.task)) }
    {
        self.deliver(alloc, code)?;
        self.task.run_to_action(alloc, code)
    }
}

/// Another number.
fn another(number: u32) -> u32
    ensures { result ≢ number }
{
    if number == 0 { 1 } else { 0 }
}
