ghost use Rattle.std.specs.Prelude.{◌≡◌, ◌∷◌, ℕ, false, suc, cond, map, IfOk, OnErr};
ghost use Rattle.lang_meaning.specs.Counts.{unary, truth, slot_value, part_taken};
ghost use Rattle.lang_meaning.specs.Statements.{with_value, with_values};
ghost use Rattle.lang_meaning.specs.Expressions.{none};
ghost use Rattle.lang_meaning.specs.Values.{Int};
ghost use Rattle.code_instrs.specs.Machine.{exec, pushes, one, two, next, operates, in_part, returned, left_with, Goes, Ticks, On};
ghost use Rattle.code_instrs.specs.Plain.{PlainCode};
ghost use Rattle.exec_frames.specs.Names.{plain_value};
ghost use Rattle.exec_task.specs.Names.{names_of};
ghost use Rattle.exec_task.specs.StepsLocally.{StepsLocally, IsOwn, is_own};
ghost use Rattle.exec_task.specs.Steps.{Comes, Local, HasNext};
ghost use Rattle.exec_task.specs.Tasks.{plain_level};

use crate::action::Ending;
use crate::local_step::LocalStep;
use crate::step::Step;
use crate::task::Level;
use code_instrs::Instr;
use exec_frames::{Stack, apply, number, operated, part_place, set_slot, slot, take_part, truth};
use lang_base::{BinaryOp, NoMemory, Place, Trap, UnaryOp, Value};

impl Level {
    /// An instruction of values and jumps; at any other the level stays as it is.
    pub fn local_step(&mut self, instr: Instr) -> LocalStep
        requires { HasNext self.old }
        ensures local_step { (task : ℕ) (C : PlainCode) → StepsLocally (λ place fs. exec (names_of task) C place instr (plain_level self.old) fs) self.old result self.new }
        ensures other { result ≡ LocalStep.Other → is_own instr ≡ false }
        ensures body { self.new.body ≡ self.old.body }
    {
        match instr {
            Instr::Int(n) => self.push(Value::Int(n)),
            Instr::Bool(b) => self.push(Value::Bool(b)),
            Instr::Null => self.push(Value::Null),
            Instr::Load(at) => self.load(at),
            Instr::Store(at) => self.store(at),
            Instr::Pop => self.discard(),
            Instr::Unary(op) => self.apply(op),
            Instr::Binary(op) => self.operate(op),
            Instr::Jump(to) => self.jump(to),
            Instr::Unless(to) => self.jump_unless(to),
            Instr::Turn => self.tick(),
            _ => LocalStep::Other,
        }
    }

    /// Puts a value on the stack.
    fn push(&mut self, value: Value) -> LocalStep
        requires { HasNext self.old }
        ensures local_step { StepsLocally (λ place. pushes (plain_value value) (plain_level self.old)) self.old result self.new }
        ensures own { IsOwn self.old result self.new }
    {
        if self.stack.push(value).is_err() {
            return LocalStep::Full;
        }
        self.at += 1;
        LocalStep::Goes
    }

    /// Puts the value of a slot on the stack.
    fn load(&mut self, at: usize) -> LocalStep
        requires { HasNext self.old }
        ensures local_step { StepsLocally (λ place. pushes (slot_value (map plain_value self.old.frame.values) at) (plain_level self.old)) self.old result self.new }
        ensures own { IsOwn self.old result self.new }
    {
        let value = slot(&self.frame.values, at);
        self.push(value)
    }

    /// Takes a value into a slot.
    fn store(&mut self, slot: usize) -> LocalStep
        requires { HasNext self.old }
        ensures local_step { StepsLocally (λ place fs. one (plain_level self.old).stack (λ v st. Goes (On (record (plain_level self.old) { at = suc self.old.at; frame = with_value (plain_level self.old).frame slot v; stack = st }) fs))) self.old result self.new }
        ensures own { IsOwn self.old result self.new }
    {
        let Some(value) = self.stack.pop() else {
            return LocalStep::Stuck;
        };
        set_slot(&mut self.frame.values, slot, value);
        self.at += 1;
        LocalStep::Goes
    }

    /// An operation on the two values on top.
    fn operate(&mut self, op: BinaryOp) -> LocalStep
        requires { HasNext self.old }
        ensures local_step { StepsLocally (λ place. operates (names_of 0) place op (plain_level self.old)) self.old result self.new }
        ensures own { IsOwn self.old result self.new }
    {
        let Some((left, right)) = self.stack.top_two() else {
            return LocalStep::Stuck;
        };
        let Some(value) = operated(op, left, right) else {
            return LocalStep::Divides;
        };
        self.stack.drop_top(1);
        self.stack.set_top(value);
        self.at += 1;
        LocalStep::Goes
    }

    /// Takes a value off.
    fn discard(&mut self) -> LocalStep
        requires { HasNext self.old }
        ensures local_step { StepsLocally (λ place fs. one (plain_level self.old).stack (λ v st. Goes (next (plain_level self.old) st fs))) self.old result self.new }
        ensures own { IsOwn self.old result self.new }
    {
        if self.stack.pop().is_none() {
            return LocalStep::Stuck;
        }
        self.at += 1;
        LocalStep::Goes
    }

    /// An operation on the value on top.
    fn apply(&mut self, op: UnaryOp) -> LocalStep
        requires { HasNext self.old }
        ensures local_step { StepsLocally (λ place fs. one (plain_level self.old).stack (λ v st. Goes (next (plain_level self.old) (unary op v ∷ st) fs))) self.old result self.new }
        ensures own { IsOwn self.old result self.new }
    {
        let Some(value) = self.stack.top() else {
            return LocalStep::Stuck;
        };
        self.stack.set_top(apply(op, value));
        self.at += 1;
        LocalStep::Goes
    }

    /// To another position.
    fn jump(&mut self, at: usize) -> LocalStep
        ensures local_step { StepsLocally (λ place fs. Goes (On (record (plain_level self.old) { at = at }) fs)) self.old result self.new }
        ensures own { IsOwn self.old result self.new }
    {
        self.at = at;
        LocalStep::Goes
    }

    /// To another position, where the value on top is false.
    fn jump_unless(&mut self, at: usize) -> LocalStep
        requires { HasNext self.old }
        ensures local_step { StepsLocally (λ place fs. one (plain_level self.old).stack (λ v st. Goes (On (record (plain_level self.old) { at = cond (truth v) (suc self.old.at) at; stack = st }) fs))) self.old result self.new }
        ensures own { IsOwn self.old result self.new }
    {
        let Some(value) = self.stack.pop() else {
            return LocalStep::Stuck;
        };
        if truth(value) {
            self.at += 1;
        } else {
            self.at = at;
        }
        LocalStep::Goes
    }

    /// A tick of a loop.
    fn tick(&mut self) -> LocalStep
        requires { HasNext self.old }
        ensures local_step { StepsLocally (λ place fs. Ticks (next (plain_level self.old) (plain_level self.old).stack fs)) self.old result self.new }
        ensures own { IsOwn self.old result self.new }
    {
        self.at += 1;
        LocalStep::Ticks
    }

    /// Takes the part of an array that the branch has.
    pub fn take_part(&mut self, part: usize) -> Step
        requires { HasNext self.old }
        ensures { Local (λ fs. Goes (On (record (plain_level self.old) { at = suc self.old.at; frame = with_values (plain_level self.old).frame (part_taken part (plain_level self.old).frame.values) }) fs)) self.old result self.new }
    {
        take_part(&mut self.frame.values, part);
        self.at += 1;
        Step::Goes
    }

    /// The index on top becomes the array of a part and the place in it.
    pub fn in_part(&mut self, place: Place, part: usize) -> Result<Step, NoMemory>
        requires { HasNext self.old }
        ensures ok { IfOk result (λ s. Local (λ fs. one (plain_level self.old).stack (λ v st. in_part place part v (plain_level self.old) (λ p a. Goes (next (plain_level self.old) (Int p ∷ a ∷ st) fs)))) self.old s self.new) }
        ensures err { OnErr result (self.new ≡ self.old) }
    {
        let Some(index) = self.stack.top() else {
            return Ok(Step::Stuck);
        };
        let Some(at) = part_place(&self.frame.values, part, number(index)) else {
            return Ok(Step::Ends(Ending::Trapped(Trap::Index, place)));
        };
        let array = slot(&self.frame.values, part);
        if self.stack.push(Value::Int(at)).is_err() {
            return Err(NoMemory);
        }
        self.stack.set(1, array);
        self.at += 1;
        Ok(Step::Goes)
    }

    /// The same with the index below the top; the value on top stays there.
    pub fn in_parts(&mut self, place: Place, part: usize) -> Result<Step, NoMemory>
        requires { HasNext self.old }
        ensures ok { IfOk result (λ s. Local (λ fs. two (plain_level self.old).stack (λ v u st. in_part place part v (plain_level self.old) (λ p a. Goes (next (plain_level self.old) (u ∷ Int p ∷ a ∷ st) fs)))) self.old s self.new) }
        ensures err { OnErr result (self.new ≡ self.old) }
    {
        let Some((index, above)) = self.stack.top_two() else {
            return Ok(Step::Stuck);
        };
        let Some(at) = part_place(&self.frame.values, part, number(index)) else {
            return Ok(Step::Ends(Ending::Trapped(Trap::Index, place)));
        };
        let array = slot(&self.frame.values, part);
        if self.stack.push(above).is_err() {
            return Err(NoMemory);
        }
        self.stack.set(1, Value::Int(at));
        self.stack.set(2, array);
        self.at += 1;
        Ok(Step::Goes)
    }
}

/// Back to the caller with a value; the first body ends the task with it.
pub fn return_value(level: &mut Level, callers: &mut Stack<Level>) -> Result<Step, NoMemory>
    ensures ok { IfOk result (λ s. (C : PlainCode) → Comes C (one (plain_level level.old).stack (λ v st. Goes (returned v (map plain_level callers.old)))) level.old callers.old s level.new callers.new) }
    ensures err { OnErr result ((level.new ≡ level.old) × (callers.new ≡ callers.old)) }
{
    let Some(value) = level.stack.top() else {
        return Ok(Step::Stuck);
    };
    if callers.len() == 0 {
        return Ok(Step::Ends(Ending::Returned(value)));
    }
    callers.swap_top(level);
    if level.stack.push(value).is_err() {
        callers.swap_top(level);
        return Err(NoMemory);
    }
    callers.drop_top(1);
    Ok(Step::Goes)
}

/// Back to the caller without a value.
pub fn leave(level: &mut Level, callers: &mut Stack<Level>) -> Step
    ensures { (C : PlainCode) → Comes C (Goes (left_with none (map plain_level callers.old))) level.old callers.old result level.new callers.new }
{
    let Some(caller) = callers.pop() else {
        return Step::Ends(Ending::Returned(Value::Null));
    };
    *level = caller;
    Step::Goes
}
