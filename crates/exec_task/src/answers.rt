ghost use Rattle.std.specs.Prelude.{◌≡◌, ◌∷◌, option_map, suc, pos, drop, IfOk, OnOk, OnErr};
ghost use Rattle.lang_meaning.specs.Counts.{value_read, is_out, length_seen, name_made};
ghost use Rattle.lang_meaning.specs.Values.{Int};
ghost use Rattle.code_instrs.specs.Machine.{cell_read, cell_written, next};
ghost use Rattle.exec_task.specs.Answers.{IsIn, IsCounted, below_top};
ghost use Rattle.exec_frames.specs.Names.{plain_value};
ghost use Rattle.exec_task.specs.Steps.{HasNext};
ghost use Rattle.exec_task.specs.Tasks.{plain_level, plain_answer};

use crate::action::{Answer, Ending};
use crate::task::{Level, Standing};
use exec_frames::set_slot;
use lang_base::{Items, NoMemory, Place, SlotValue, Trap, Value};

/// The value that a read is answered; None where the index is out of bounds.
fn value_read(answer: &Answer) -> Option<Value>
    ensures { option_map plain_value result ≡ value_read (plain_answer answer.now) }
{
    match answer {
        Answer::Out => None,
        Answer::Got(value) => Some(*value),
        _ => Some(Value::Null),
    }
}

/// Whether the index of a write is out of bounds.
fn is_out(answer: &Answer) -> bool
    ensures { result ≡ is_out (plain_answer answer.now) }
{
    matches!(answer, Answer::Out)
}

/// The length that is answered.
fn length_seen(answer: &Answer) -> i32
    requires { IsCounted answer.now }
    ensures { result ≡ pos (length_seen (plain_answer answer.now)) }
{
    match answer {
        Answer::Length(len) => *len as i32,
        _ => 0,
    }
}

/// The object or array that is made.
pub fn name_made(answer: &Answer) -> Value
    ensures { plain_value result ≡ name_made (plain_answer answer.now) }
{
    match answer {
        Answer::Made(object) => Value::Obj(*object),
        _ => Value::Null,
    }
}

pub fn trapped(trap: Trap, place: Place) -> Standing
    ensures { result ≡ Standing.Ended (Ending.Trapped trap place) }
{
    Standing::Ended(Ending::Trapped(trap, place))
}

impl Level {
    /// At the next instruction, without so many values.
    pub fn pass(&mut self, taken: usize)
        requires { HasNext self.old }
        ensures { plain_level self.new ≡ record (plain_level self.old) { at = suc self.old.at; stack = below_top taken (plain_level self.old) } }
    {
        self.stack.drop_top(taken);
        self.at += 1;
    }

    /// At the next instruction, without so many values and the one below.
    pub fn pass_receiver(&mut self, above: usize)
        requires { HasNext self.old }
        ensures { plain_level self.new ≡ record (plain_level self.old) { at = suc self.old.at; stack = drop (suc above) (plain_level self.old).stack } }
    {
        self.stack.drop_top(above);
        self.pass(1);
    }

    /// At the next instruction, with a value in the place of so many.
    pub fn pass_with(&mut self, taken: usize, value: Value) -> Result<(), NoMemory>
        requires { HasNext self.old }
        ensures ok { OnOk result (plain_level self.new ≡ record (plain_level self.old) { at = suc self.old.at; stack = plain_value value ∷ below_top taken (plain_level self.old) }) }
        ensures err { OnErr result (self.new ≡ self.old) }
    {
        self.replace(taken, value)?;
        self.at += 1;
        Ok(())
    }

    /// A value in the place of so many on top.
    pub fn replace(&mut self, taken: usize, value: Value) -> Result<(), NoMemory>
        ensures ok { OnOk result (self.new ≡ record self.old { stack = value ∷ drop taken self.old.stack }) }
        ensures err { OnErr result (self.new ≡ self.old) }
    {
        let taken = taken.min(self.stack.len());
        if taken > 0 {
            self.stack.drop_top(taken - 1);
            self.stack.set_top(value);
            return Ok(());
        }
        match self.stack.push(value) {
            Ok(()) => Ok(()),
            Err(_) => Err(NoMemory),
        }
    }

    /// After a read, of so many values.
    pub fn after_read(
        &mut self,
        place: Place,
        taken: usize,
        answer: &Answer,
    ) -> Result<Standing, NoMemory>
        requires { HasNext self.old }
        ensures ok { IfOk result (λ s. IsIn (cell_read place (value_read (plain_answer answer.now)) (plain_level self.old) (below_top taken (plain_level self.old))) s self.new) }
        ensures err { OnErr result (self.new ≡ self.old) }
    {
        let Some(value) = value_read(answer) else {
            return Ok(trapped(Trap::Index, place));
        };
        self.pass_with(taken, value)?;
        Ok(Standing::At)
    }

    /// After a write, of so many values.
    pub fn after_write(&mut self, place: Place, taken: usize, answer: &Answer) -> Standing
        requires { HasNext self.old }
        ensures { IsIn (cell_written place (is_out (plain_answer answer.now)) (plain_level self.old) (below_top taken (plain_level self.old))) result self.new }
    {
        if is_out(answer) {
            return trapped(Trap::Index, place);
        }
        self.pass(taken);
        Standing::At
    }

    /// After the look at an array's length.
    pub fn after_length(&mut self, answer: &Answer) -> Result<Standing, NoMemory>
        requires next { HasNext self.old }
        requires counted { IsCounted answer.now }
        ensures ok { IfOk result (λ s. IsIn (next (plain_level self.old) (Int (pos (length_seen (plain_answer answer.now))) ∷ below_top 1 (plain_level self.old))) s self.new) }
        ensures err { OnErr result (self.new ≡ self.old) }
    {
        self.pass_with(1, Value::Int(length_seen(answer)))?;
        Ok(Standing::At)
    }

    /// After something is made of so many values.
    pub fn after_making(&mut self, taken: usize, answer: &Answer) -> Result<Standing, NoMemory>
        requires { HasNext self.old }
        ensures ok { IfOk result (λ s. IsIn (next (plain_level self.old) (name_made (plain_answer answer.now) ∷ below_top taken (plain_level self.old))) s self.new) }
        ensures err { OnErr result (self.new ≡ self.old) }
    {
        self.pass_with(taken, name_made(answer))?;
        Ok(Standing::At)
    }
}
