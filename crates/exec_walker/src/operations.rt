ghost use Rattle.std.specs.Prelude.{◌∷◌, ◌+◌, pos, drop};
ghost use Rattle.lang_meaning.specs.Core.{run};
ghost use Rattle.lang_meaning.specs.Counts.{number, slot_value, text_of, unary, length_seen};
ghost use Rattle.lang_meaning.specs.Counts.{line as plain_line};
ghost use Rattle.lang_meaning.specs.Elision.{after, sequential, in_order};
ghost use Rattle.lang_meaning.specs.Expressions.{gives, operation, unless_null, read_cell, part_element};
ghost use Rattle.lang_meaning.specs.Statements.{with_value, write_cell};
ghost use Rattle.lang_meaning.specs.Core.{Act};
ghost use Rattle.lang_meaning.specs.Actions.{Look, Print};
ghost use Rattle.lang_meaning.specs.Values.{Int};
ghost use Rattle.exec_frames.specs.Names.{plain_value};
ghost use Rattle.exec_walker.specs.Walk.{At, lands, pushed, without};
ghost use Rattle.exec_walker.specs.States.{Does};

use crate::Halt;
use crate::walker::{Over, Walker};
use exec_frames::{
    apply, number, operated, part_place, reference, set_slot, slot, slot_after, text_line,
    value_line,
};
use lang_base::{BinaryOp, Bytes, Place, Trap, UnaryOp, Value};
use lang_typed::{FieldSlot, Slot};

impl<'p> Walker<'p> {
    /// A value in the place of so many operands.
    pub fn give(&mut self, many: usize, value: Value) -> Result<Option<Over>, Halt>
        ensures { Does (λ g ws w. At (record g { operands = plain_value value ∷ drop many g.operands }) ws w) self.old result self.new }
    {
        self.level.give(many, value)?;
        Ok(None)
    }

    /// The operands without so many.
    pub fn discard(&mut self, many: usize) -> Result<Option<Over>, Halt>
        ensures { Does (λ g ws w. At (record g { operands = drop many g.operands }) ws w) self.old result self.new }
    {
        self.level.operands.drop_top(many);
        Ok(None)
    }

    /// The value of a local.
    pub fn local(&mut self, local: Slot) -> Result<Option<Over>, Halt>
        ensures { Does (λ g ws w. At (pushed (slot_value g.frame.values local.number) g) ws w) self.old result self.new }
    {
        let value = slot(&self.level.frame.values, local.number as usize);
        self.give(0, value)
    }

    /// The length of a part.
    pub fn part_length(&mut self, part: Slot) -> Result<Option<Over>, Halt>
        ensures { Does (λ g ws w. At (pushed (slot_value g.frame.values (part.number + 2)) g) ws w) self.old result self.new }
    {
        let len = slot_after(&self.level.frame.values, part.number as usize, 2);
        self.give(0, len)
    }

    /// An operation on the operand on top.
    pub fn unary(&mut self, op: UnaryOp) -> Result<Option<Over>, Halt>
        ensures { Does (λ g ws w. At (pushed (unary op (slot_value g.operands 0)) (without 1 g)) ws w) self.old result self.new }
    {
        let value = apply(op, self.level.operand(0));
        self.give(1, value)
    }

    /// An operation on the two operands on top.
    pub fn binary(&mut self, place: Place, op: BinaryOp) -> Result<Option<Over>, Halt>
        ensures { Does (λ g ws w. lands g (λ v. v ∷ drop 2 g.operands) ws (run sequential (operation in_order.same place op (slot_value g.operands 1) (slot_value g.operands 0) g.frame) w)) self.old result self.new }
    {
        match operated(op, self.level.operand(1), self.level.operand(0)) {
            Some(value) => self.give(2, value),
            None => self.fall(Trap::Divide, place),
        }
    }

    /// The value at an index of an object or an array, in the place of so many operands.
    #[tactic(auto, using(crate::proofs::OverLimit::overs))]
    pub fn read(
        &mut self,
        place: Place,
        of: Value,
        index: i64,
        many: usize,
    ) -> Result<Option<Over>, Halt>
        ensures { Does (λ g ws w. lands g (λ v. v ∷ drop many g.operands) ws (run sequential (unless_null place (plain_value of) (λ n. read_cell place n index g.frame)) w)) self.old result self.new }
    {
        let Some(object) = reference(of) else {
            return self.fall(Trap::Null, place);
        };
        match self.store.read(object, index)? {
            Some(value) => self.give(many, value),
            None => self.fall(Trap::Index, place),
        }
    }

    /// The field of the object on top.
    pub fn read_field(&mut self, place: Place, field: FieldSlot) -> Result<Option<Over>, Halt>
        ensures { Does (λ g ws w. lands g (λ v. v ∷ drop 1 g.operands) ws (run sequential (unless_null place (slot_value g.operands 0) (λ n. read_cell place n (pos field.number) g.frame)) w)) self.old result self.new }
    {
        let object = self.level.operand(0);
        self.read(place, object, i64::from(field.number), 1)
    }

    /// The element of an array, at the index on top.
    pub fn read_element(&mut self, place: Place) -> Result<Option<Over>, Halt>
        ensures { Does (λ g ws w. lands g (λ v. v ∷ drop 2 g.operands) ws (run sequential (unless_null place (slot_value g.operands 1) (λ n. read_cell place n (number (slot_value g.operands 0)) g.frame)) w)) self.old result self.new }
    {
        let array = self.level.operand(1);
        let index = number(self.level.operand(0));
        self.read(place, array, i64::from(index), 2)
    }

    /// The element of a part, at the index on top.
    pub fn read_part(&mut self, place: Place, part: usize) -> Result<Option<Over>, Halt>
        ensures { Does (λ g ws w. lands g (λ v. v ∷ drop 1 g.operands) ws (run sequential (part_element place part (number (slot_value g.operands 0)) g.frame (λ n j. read_cell place n j g.frame)) w)) self.old result self.new }
    {
        let index = number(self.level.operand(0));
        match part_place(&self.level.frame.values, part, index) {
            Some(at) => {
                let array = slot(&self.level.frame.values, part);
                self.read(place, array, i64::from(at), 1)
            }
            None => self.fall(Trap::Index, place),
        }
    }

    /// The length of the array on top.
    pub fn length(&mut self, place: Place) -> Result<Option<Over>, Halt>
        ensures { Does (λ g ws w. lands g (λ v. v ∷ drop 1 g.operands) ws (run sequential (unless_null place (slot_value g.operands 0) (λ n. Act (Look n) (λ x. gives (Int (pos (length_seen x))) g.frame))) w)) self.old result self.new }
    {
        let Some(object) = reference(self.level.operand(0)) else {
            return self.fall(Trap::Null, place);
        };
        let len = self.store.look_length(object)?;
        self.give(1, len)
    }

    /// A value at an index of an object or an array, which takes so many operands off.
    #[tactic(auto, using(crate::proofs::OverLimit::overs))]
    pub fn write(
        &mut self,
        place: Place,
        of: Value,
        index: i64,
        value: Value,
        many: usize,
    ) -> Result<Option<Over>, Halt>
        ensures { Does (λ g ws w. lands g (λ v. drop many g.operands) ws (run sequential (unless_null place (plain_value of) (λ n. write_cell place n index (plain_value value) g.frame)) w)) self.old result self.new }
    {
        let Some(object) = reference(of) else {
            return self.fall(Trap::Null, place);
        };
        if self.store.write(object, index, value)? {
            return self.fall(Trap::Index, place);
        }
        self.discard(many)
    }

    /// The value on top into a local.
    pub fn assign(&mut self, slot: Slot) -> Result<Option<Over>, Halt>
        ensures { Does (λ g ws w. At (record (without 1 g) { frame = with_value g.frame slot.number (slot_value g.operands 0) }) ws w) self.old result self.new }
    {
        let value = self.level.operand(0);
        set_slot(&mut self.level.frame.values, slot.number as usize, value);
        self.discard(1)
    }

    /// The value on top into a field of the object below it.
    pub fn write_field(&mut self, place: Place, field: FieldSlot) -> Result<Option<Over>, Halt>
        ensures { Does (λ g ws w. lands g (λ v. drop 2 g.operands) ws (run sequential (unless_null place (slot_value g.operands 1) (λ n. write_cell place n (pos field.number) (slot_value g.operands 0) g.frame)) w)) self.old result self.new }
    {
        let value = self.level.operand(0);
        let object = self.level.operand(1);
        self.write(place, object, i64::from(field.number), value, 2)
    }

    /// The value on top into the element of an array, whose index is below it.
    pub fn write_element(&mut self, place: Place) -> Result<Option<Over>, Halt>
        ensures { Does (λ g ws w. lands g (λ v. drop 3 g.operands) ws (run sequential (unless_null place (slot_value g.operands 2) (λ n. write_cell place n (number (slot_value g.operands 1)) (slot_value g.operands 0) g.frame)) w)) self.old result self.new }
    {
        let value = self.level.operand(0);
        let index = number(self.level.operand(1));
        let array = self.level.operand(2);
        self.write(place, array, i64::from(index), value, 3)
    }

    /// The value on top into the element of a part whose index is below it.
    pub fn write_part(&mut self, place: Place, part: usize) -> Result<Option<Over>, Halt>
        ensures { Does (λ g ws w. lands g (λ v. drop 2 g.operands) ws (run sequential (part_element place part (number (slot_value g.operands 1)) g.frame (λ n l. write_cell place n l (slot_value g.operands 0) g.frame)) w)) self.old result self.new }
    {
        let value = self.level.operand(0);
        let index = number(self.level.operand(1));
        match part_place(&self.level.frame.values, part, index) {
            Some(at) => {
                let array = slot(&self.level.frame.values, part);
                self.write(place, array, i64::from(at), value, 2)
            }
            None => self.fall(Trap::Index, place),
        }
    }

    /// The value on top, printed.
    pub fn print_value(&mut self) -> Result<Option<Over>, Halt>
        ensures { Does (λ g ws w. At (without 1 g) ws (after (Print (plain_line (text_of (slot_value g.operands 0)))) w)) self.old result self.new }
    {
        let line = value_line(self.alloc, self.level.operand(0))?;
        self.print(line.as_slice(), 1)
    }

    /// A text, printed.
    pub fn print_text(&mut self, text: &Bytes) -> Result<Option<Over>, Halt>
        ensures { Does (λ g ws w. At g ws (after (Print (plain_line text.now)) w)) self.old result self.new }
    {
        let line = text_line(self.alloc, text)?;
        self.print(line.as_slice(), 0)
    }

    /// A printed line, which takes so many operands off.
    fn print(&mut self, line: &[u8], many: usize) -> Result<Option<Over>, Halt>
        ensures { Does (λ g ws w. At (record g { operands = drop many g.operands }) ws (after (Print line.now) w)) self.old result self.new }
    {
        self.store.print(line)?;
        self.discard(many)
    }
}
