ghost use Rattle.std.specs.Prelude.{◌≡◌, ◌<◌, ◌^◌, ◌∷◌, ℕ, map, pos, Some, IfOk, OnErr};
ghost use Rattle.lang_base.specs.declared.place.Place.{Place};
ghost use Rattle.lang_typed.specs.declared.stmt.Forking.{Forking};
ghost use Rattle.lang_meaning.specs.Actions as meaning;
ghost use Rattle.lang_meaning.specs.Counts.{number, how_many, brought};
ghost use Rattle.lang_meaning.specs.Values.{Int};
ghost use Rattle.code_instrs.specs.Machine.{one, two, next, all_copied, joined, joins_fork, joins_spread, spread};
ghost use Rattle.code_instrs.specs.Plain.{spread_site};
ghost use Rattle.exec_task.specs.Answers.{IsIn, Leads, below_top};
ghost use Rattle.exec_task.specs.Steps.{HasNext};
ghost use Rattle.exec_task.specs.Tasks.{plain_level, plain_answer};

use crate::action::Answer;
use crate::answers::trapped;
use crate::copying::copy_back;
use crate::task::{Level, Standing};
use code_instrs::BranchCopies;
use exec_frames::{counted, number};
use lang_base::{NoMemory, Value};

impl Level {
    /// After the join of all branches, with so many values less.
    pub fn after_joining(
        &mut self,
        taken: usize,
        copies: &[BranchCopies],
        answer: &Answer,
    ) -> Standing
        requires { HasNext self.old }
        ensures { IsIn (joined (all_copied (map (λ c. c.slots) copies.now)) (brought (plain_answer answer.now)) (record (plain_level self.old) { stack = below_top taken (plain_level self.old) })) result self.new }
    {
        match answer {
            Answer::Fell(trap, place) => return trapped(*trap, *place),
            Answer::Joined(slots) => copy_back(&mut self.frame.values, copies, slots.as_slice()),
            _ => (),
        }
        self.pass(taken);
        Standing::At
    }

    /// After the begin of a branch, or the join of all, of a fork.
    pub fn after_join_fork(
        &mut self,
        total: usize,
        copies: &[BranchCopies],
        answer: &Answer,
    ) -> Standing
        requires { HasNext self.old }
        ensures { Leads (λ fs. one (plain_level self.old).stack (λ left st. joins_fork total (all_copied (map (λ c. c.slots) copies.now)) (how_many (number left)) (plain_level self.old) st fs)) (plain_answer answer.now) result self.new }
    {
        let Some(left) = self.stack.top() else {
            return Standing::Nowhere;
        };
        let left = counted(number(left));
        if left == 0 {
            return self.after_joining(1, copies, answer);
        }
        self.stack.set_top(Value::Int(left - 1));
        Standing::At
    }

    /// After the begin of a branch, or the join of all, of a spread.
    pub fn after_join_spread(&mut self, answer: &Answer) -> Standing
        requires { HasNext self.old }
        ensures { Leads (λ fs. one (plain_level self.old).stack (λ left more. two more (λ total next st. joins_spread next (how_many (number total)) (how_many (number left)) (plain_level self.old) st fs))) (plain_answer answer.now) result self.new }
    {
        let Some((total, next, left)) = self.stack.top_three() else {
            return Standing::Nowhere;
        };
        let left = counted(number(left));
        if left == 0 {
            return self.after_joining(3, &[], answer);
        }
        self.stack.set(0, Value::Int(left - 1));
        self.stack.set(1, Value::Int(number(next).wrapping_add(1)));
        self.stack.set(2, Value::Int(counted(number(total))));
        Standing::At
    }

    /// After a fork of so many branches.
    pub fn after_fork(&mut self, branches: usize) -> Result<Standing, NoMemory>
        requires next { HasNext self.old }
        requires few { branches < 2 ^ 31 }
        ensures ok { IfOk result (λ s. IsIn (next (plain_level self.old) (Int (pos branches) ∷ (plain_level self.old).stack)) s self.new) }
        ensures err { OnErr result (self.new ≡ self.old) }
    {
        self.pass_with(0, Value::Int(branches as i32))?;
        Ok(Standing::At)
    }

    /// After the fork of a branch for each number.
    pub fn after_spread(&mut self) -> Result<Standing, NoMemory>
        requires { HasNext self.old }
        ensures ok { IfOk result (λ s. (place : Place) (forking : Forking) (j x : ℕ) (a : meaning.Answer ℕ (ℕ × ℕ)) → Leads (spread place (Some (spread_site forking j x)) (plain_level self.old)) a s self.new) }
        ensures err { OnErr result (self.new ≡ self.old) }
    {
        let Some((start, count)) = self.stack.top_two() else {
            return Ok(Standing::Nowhere);
        };
        let count = counted(number(count));
        if self.stack.push(Value::Int(count)).is_err() {
            return Err(NoMemory);
        }
        self.stack.set(1, Value::Int(number(start)));
        self.stack.set(2, Value::Int(count));
        self.at += 1;
        Ok(Standing::At)
    }
}
