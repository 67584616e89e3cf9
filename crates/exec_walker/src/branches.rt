ghost use Rattle.std.specs.Prelude.{◌≡◌, ◌<◌, ◌^◌, ◌-◌, ℕ, suc, [], IfOk};
ghost use Rattle.lang_typed.specs.Plain.{plain_stmt};
ghost use Rattle.lang_meaning.specs.Statements.{branch_of, numbered_frame, begun, iterations};
ghost use Rattle.exec_frames.specs.Names.{plain_frame};
ghost use Rattle.lang_meaning.specs.Actions.{Frame as Locals};
ghost use Rattle.lang_meaning.specs.Elision.{LocalRegion};
ghost use Rattle.exec_walker.specs.Falls.{Begins};
ghost use Rattle.exec_walker.specs.States.{plain_level};
ghost use Rattle.exec_walker.specs.declared.waiting.Rest.TheVariants as rest;

use crate::level::Level;
use crate::waiting::{Fork, Numbers, Rest};
use exec_frames::{Frame, plus, set_slot, take_part};
use lang_base::{NoMemory, Value};
use std::alloc::Global;
use std::slice;

impl<'p> Fork<'p> {
    /// The body of the next branch; None, where all have begun.
    pub fn begin(&mut self, alloc: Global, outer: &Level) -> Result<Option<Level<'p>>, NoMemory>
        ensures { IfOk result (λ level. Begins (plain_level outer.now) self.old level self.new) }
    {
        match self.rest {
            Rest::Branches(at) => self.begin_branch(alloc, at, outer),
            Rest::Numbers(numbers) => self.begin_iteration(alloc, numbers, outer),
        }
    }

    /// The branch of a `cobegin` at a place.
    fn begin_branch(
        &mut self,
        alloc: Global,
        at: usize,
        outer: &Level,
    ) -> Result<Option<Level<'p>>, NoMemory>
        ensures { IfOk result (λ level. Begins (plain_level outer.now) (record self.old { rest = rest.Branches at }) level self.new) }
    {
        if at >= self.branches.len() {
            return Ok(None);
        }
        let branch = &self.branches[at];
        let frame = outer.frame.deeper(alloc)?;
        self.running = branch.copies.as_slice();
        self.rest = Rest::Branches(at + 1);
        Ok(Some(Level::beginning(alloc, slice::from_ref(&branch.body), frame)?))
    }

    /// The next iteration of a loop.
    fn begin_iteration(
        &mut self,
        alloc: Global,
        numbers: Numbers<'p>,
        outer: &Level,
    ) -> Result<Option<Level<'p>>, NoMemory>
        ensures { IfOk result (λ level. Begins (plain_level outer.now) (record self.old { rest = rest.Numbers numbers.entry }) level self.new) }
    {
        if numbers.left == 0 {
            return Ok(None);
        }
        let frame = numbers.frame(alloc, &outer.frame)?;
        self.running = &[];
        self.rest = Rest::Numbers(numbers.after());
        Ok(Some(Level::beginning(alloc, slice::from_ref(numbers.body), frame)?))
    }
}

impl<'p> Numbers<'p> {
    /// The frame of the next iteration.
    fn frame(&self, alloc: Global, outer: &Frame) -> Result<Frame, NoMemory>
        requires { self.now.next < 2 ^ 31 }
        ensures { IfOk result (λ f. plain_frame f ≡ begun self.now.takes (branch_of self.now.takes [] (plain_stmt self.now.body.now) (numbered_frame self.now.slot self.now.start self.now.next (plain_frame outer.now))).frame) }
    {
        let mut frame = outer.deeper(alloc)?;
        let number = plus(self.start, self.next);
        set_slot(&mut frame.values, self.slot, Value::Int(number));
        if let Some(part) = self.takes {
            take_part(&mut frame.values, part);
        }
        Ok(frame)
    }

    /// Those after the next.
    fn after(self) -> Numbers<'p>
        requires { 0 < self.left }
        ensures { (f : Locals ℕ LocalRegion) → iterations result.takes result.slot (plain_stmt result.body.now) f result.start result.next result.left ≡ iterations self.entry.takes self.entry.slot (plain_stmt self.entry.body.now) f self.entry.start (suc self.entry.next) (self.entry.left - 1) }
    {
        Numbers {
            takes: self.takes,
            slot: self.slot,
            body: self.body,
            start: self.start,
            next: self.next + 1,
            left: self.left - 1,
        }
    }
}
