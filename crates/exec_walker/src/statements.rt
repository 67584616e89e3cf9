ghost use Rattle.std.specs.Prelude.{◌≡◌, List, [], cond, map, option_map, slice_set};
ghost use Rattle.std.specs.Option.{option_copied};
ghost use Rattle.lang_base.specs.declared.effect.Effect.{Effect};
ghost use Rattle.lang_base.specs.declared.place.Place.{Place};
ghost use Rattle.lang_typed.specs.Plain.{PlainProgram, TypedExpr, branches_of, choice_form, plain_expr, plain_stmt, statement, stmts_of};
ghost use Rattle.lang_typed.specs.Plain.{StmtForm as form};
ghost use Rattle.lang_meaning.specs.Core.{Returns, run};
ghost use Rattle.lang_meaning.specs.Counts.{how_many, number, reference, slot_value, truth};
ghost use Rattle.lang_meaning.specs.Elision.{Made, after, sequential};
ghost use Rattle.lang_meaning.specs.Actions.{Exit, Look};
ghost use Rattle.lang_meaning.specs.Statements.{makes, all_copies, tasks_of, iterations};
ghost use Rattle.exec_walker.specs.Agenda.{evaluate, counted, tick};
ghost use Rattle.exec_walker.specs.Walk.{At, does_item, doing, ends, finishes, forks_at, or_null, parts_at, lands, ticks, with_length, without};
ghost use Rattle.exec_frames.specs.Names.{plain_local};
ghost use Rattle.exec_walker.specs.Forms.{parts_from};
ghost use Rattle.exec_walker.specs.States.{Does, plain_branch, plain_item, plain_parts, tasks_in};

use crate::Halt;
use crate::item::{ExprStage, Item, LoopStage, PartsLoop, StmtStage};
use crate::level::Level;
use crate::waiting::{Fork, Numbers, Rest};
use crate::walker::{Over, Walker};
use exec_frames::{how_many, number, reference, set_slot_after, slot, slot_after, truth};
use lang_base::{Boxed, Items, Place, Trap, Value};
use lang_typed::{Branch, Expr, LocalRegion, PartSource, Slot, Stmt, StmtForm};
use std::mem;

impl<'p> Walker<'p> {
    /// The end of an atomic block.
    pub fn leave(&mut self) -> Result<Option<Over>, Halt>
        ensures { Does (λ g ws w. At g ws (after Exit w)) self.old result self.new }
    {
        self.store.count()?;
        Ok(None)
    }

    /// A statement whose operands are on top.
    #[tactic(auto, using(crate::proofs::Forms::shapes))]
    pub fn finish(&mut self, s: &'p Stmt) -> Result<Option<Over>, Halt>
        ensures { (P : PlainProgram) → Does (finishes P (plain_stmt s.now)) self.old result self.new }
    {
        let place = s.place;
        match &s.form {
            StmtForm::Declare { slot, .. } | StmtForm::Store { slot, .. } => self.assign(*slot),
            StmtForm::StoreField { field, .. } => self.write_field(place, *field),
            StmtForm::StoreElement { .. } => self.write_element(place),
            StmtForm::StorePart { part, .. } => self.write_part(place, part.number as usize),
            StmtForm::Perform(_) => self.discard(1),
            StmtForm::Block(all) => self.next(0, Item::GoesOn(all.as_slice())),
            StmtForm::If { then, other, .. } => self.choose(then.get(), other.as_ref()),
            StmtForm::While { test, body } => self.next(0, Item::Loop(LoopStage::Test, test, body)),
            StmtForm::Return(None) => self.end(Some(Value::Null)),
            StmtForm::Return(Some(_)) => self.end_with_value(),
            StmtForm::PrintInt(_) | StmtForm::PrintBool(_) => self.print_value(),
            StmtForm::PrintText(text) => self.print_text(text),
            StmtForm::Regions(made) => self.make_regions(made),
            StmtForm::Atomic { body, .. } => self.enter(body.as_slice()),
            StmtForm::Cobegin { branches, .. } => self.cobegin(place, branches.as_slice()),
            StmtForm::Foreach { slot, body, .. } => self.iterate(place, *slot, body.get()),
            StmtForm::ForeachParts {
                part,
                source,
                count,
                body,
            } => self.begin_parts(PartsLoop {
                place,
                part: *part,
                source,
                count,
                body,
            }),
        }
    }

    /// A choice by the test on top, with or without a statement for where it is false.
    fn choose(
        &mut self,
        then: &'p Stmt,
        other: Option<&'p Boxed<Stmt>>,
    ) -> Result<Option<Over>, Halt>
        ensures { (P : PlainProgram) (at : Place) (e : TypedExpr) → Does (finishes P (statement at (choice_form e (plain_stmt then.now) (option_map plain_stmt (option_copied other.entry))))) self.old result self.new }
    {
        if truth(self.level.operand(0)) {
            return self.next(1, Item::Stmt(StmtStage::CarryOut, then));
        }
        match other {
            Some(other) => self.next(1, Item::Stmt(StmtStage::CarryOut, other.get())),
            None => self.discard(1),
        }
    }

    /// An atomic block is entered.
    fn enter(&mut self, body: &'p [Stmt]) -> Result<Option<Over>, Halt>
        ensures { (P : PlainProgram) (at : Place) (effects : List Effect) → Does (finishes P (statement at (form.atomic effects (stmts_of (map plain_stmt body.now))))) self.old result self.new }
    {
        self.store.count()?;
        self.level.will(Item::Leave)?;
        self.next(0, Item::GoesOn(body))
    }

    /// The body at work ends with the value on top.
    fn end_with_value(&mut self) -> Result<Option<Over>, Halt>
        ensures { Does (λ g ws w. ends ws (Returns (slot_value g.operands 0)) w) self.old result self.new }
    {
        let value = self.level.operand(0);
        self.end(Some(value))
    }

    /// An item comes next, and so many operands are taken off.
    fn next(&mut self, many: usize, item: Item<'p>) -> Result<Option<Over>, Halt>
        ensures { Does (λ g ws w. At (doing (plain_item item.entry) (without many g)) ws w) self.old result self.new }
    {
        self.level.operands.drop_top(many);
        self.level.will(item)?;
        Ok(None)
    }

    /// New local regions, each of which costs a tick.
    fn make_regions(&mut self, made: &Items<LocalRegion>) -> Result<Option<Over>, Halt>
        ensures { Does (λ g ws w. lands g (λ v. g.operands) ws (run sequential (makes (map (λ region. region.number) made.now) g.frame) w)) self.old result self.new }
    {
        for region in made.as_slice() {
            let number = self.store.make_region()?;
            set_local(&mut self.level.frame.locals, region.number as usize, number);
        }
        Ok(None)
    }

    /// A while loop in front of its test.
    pub fn test(&mut self, test: &'p Expr, body: &'p Boxed<Stmt>) -> Result<Option<Over>, Halt>
        ensures { Does (λ g ws w. At (doing (evaluate (plain_expr test.now)) (doing (tick (plain_expr test.now) (plain_stmt body.now)) g)) ws w) self.old result self.new }
    {
        self.level.will(Item::Loop(LoopStage::Tick, test, body))?;
        self.next(0, Item::Expr(ExprStage::Evaluate, test))
    }

    /// After the test: a tick and the body, where it is true.
    pub fn tick(&mut self, test: &'p Expr, body: &'p Boxed<Stmt>) -> Result<Option<Over>, Halt>
        ensures { Does (λ g ws w. cond (truth (slot_value g.operands 0)) (ticks w.ticks (plain_expr test.now) (plain_stmt body.now) (without 1 g) ws w) (At (without 1 g) ws w)) self.old result self.new }
    {
        if !truth(self.level.operand(0)) {
            return self.discard(1);
        }
        self.store.tick()?;
        self.level.operands.drop_top(1);
        self.level.will(Item::Loop(LoopStage::Test, test, body))?;
        self.next(0, Item::Stmt(StmtStage::CarryOut, body.get()))
    }

    /// The count of the parts comes next, and then the loop over them.
    fn begin_parts(&mut self, parts: PartsLoop<'p>) -> Result<Option<Over>, Halt>
        ensures { (P : PlainProgram) → Does (finishes P (plain_parts parts.entry)) self.old result self.new }
    {
        self.level.start_parts(parts.part, parts.source);
        self.level.will(Item::Counted(parts))?;
        self.next(0, Item::Expr(ExprStage::Evaluate, parts.count))
    }

    /// A loop over parts whose count is on top.
    pub fn counted(&mut self, parts: PartsLoop<'p>) -> Result<Option<Over>, Halt>
        ensures { (P : PlainProgram) → Does (does_item P (counted (plain_parts parts.entry))) self.old result self.new }
    {
        self.level.take_count(parts.part.number as usize);
        self.parts_from(parts.place, parts.part, parts.source, parts.body.get())
    }

    /// A branch for each part of an array, or of a part.
    fn parts_from(
        &mut self,
        place: Place,
        part: Slot,
        source: &PartSource,
        body: &'p Stmt,
    ) -> Result<Option<Over>, Halt>
        ensures { Does (parts_from place part.number source.now (plain_stmt body.now)) self.old result self.new }
    {
        match source {
            PartSource::Array(_) => self.parts_of_array(place, part, body),
            PartSource::Part(whole) => {
                self.level
                    .take_length(part.number as usize, whole.number as usize);
                self.parts(place, part, body)
            }
        }
    }

    /// A branch for each part of an array.
    fn parts_of_array(
        &mut self,
        place: Place,
        part: Slot,
        body: &'p Stmt,
    ) -> Result<Option<Over>, Halt>
        ensures { Does (λ g ws w. or_null place (reference (slot_value g.frame.values part.number)) ws w (λ n. parts_at place part.number (plain_stmt body.now) (with_length part.number n w g) ws (after (Look n) w))) self.old result self.new }
    {
        let first = part.number as usize;
        let Some(array) = reference(slot(&self.level.frame.values, first)) else {
            return self.fall(Trap::Null, place);
        };
        let len = self.store.look_length(array)?;
        set_slot_after(&mut self.level.frame.values, first, 2, len);
        self.parts(place, part, body)
    }

    /// A branch for each part.
    fn parts(&mut self, place: Place, part: Slot, body: &'p Stmt) -> Result<Option<Over>, Halt>
        ensures { Does (parts_at place part.number (plain_stmt body.now)) self.old result self.new }
    {
        let first = part.number as usize;
        let count = number(slot_after(&self.level.frame.values, first, 3));
        self.numbers(place, Some(first), first + 4, body, 0, count)
    }

    /// A branch for each number, whose count and start are on top.
    fn iterate(&mut self, place: Place, slot: Slot, body: &'p Stmt) -> Result<Option<Over>, Halt>
        ensures { Does (λ g ws w. forks_at g.left place (without 2 g) [] (iterations None slot.number (plain_stmt body.now) g.frame (number (slot_value g.operands 1)) 0 (how_many (number (slot_value g.operands 0)))) ws w) self.old result self.new }
    {
        let count = number(self.level.operand(0));
        let start = number(self.level.operand(1));
        self.level.operands.drop_top(2);
        self.numbers(place, None, slot.number as usize, body, start, count)
    }

    /// The branches of a `cobegin`.
    fn cobegin(&mut self, place: Place, branches: &'p [Branch]) -> Result<Option<Over>, Halt>
        ensures { Does (λ g ws w. forks_at g.left place g (all_copies (branches_of (map plain_branch branches.now))) (tasks_of (branches_of (map plain_branch branches.now)) g.frame) ws w) self.old result self.new }
    {
        self.forks(place, branches, Rest::Branches(0))
    }

    /// A branch for each number.
    fn numbers(
        &mut self,
        place: Place,
        takes: Option<usize>,
        slot: usize,
        body: &'p Stmt,
        start: i32,
        count: i32,
    ) -> Result<Option<Over>, Halt>
        ensures { Does (λ g ws w. forks_at g.left place g [] (iterations takes slot (plain_stmt body.now) g.frame start 0 (how_many count)) ws w) self.old result self.new }
    {
        let rest = Rest::Numbers(Numbers {
            takes,
            slot,
            body,
            start,
            next: 0,
            left: how_many(count),
        });
        self.forks(place, &[], rest)
    }

    /// Branches that stand one call deeper, where that may be.
    fn forks(
        &mut self,
        place: Place,
        branches: &'p [Branch],
        rest: Rest<'p>,
    ) -> Result<Option<Over>, Halt>
        ensures { Does (λ g ws w. forks_at g.left place g (all_copies (branches_of (map plain_branch branches.now))) (tasks_in branches.now rest.entry g.frame) ws w) self.old result self.new }
    {
        if self.level.frame.left == 0 {
            return self.fall(Trap::Stack, place);
        }
        self.store.count()?;
        let outer = mem::replace(&mut self.level, Level::empty(self.alloc));
        let fork = Fork {
            branches,
            back: Items::new(self.alloc),
            fell: None,
            running: &[],
            rest,
        };
        self.branches(outer, fork)
    }
}

/// A local region is made, where a frame has a place for it.
fn set_local(locals: &mut Items<(u32, u32)>, at: usize, number: u32)
    ensures { map plain_local locals.new ≡ slice_set (map plain_local locals.old) at (Made number) }
{
    if at < locals.len() {
        locals.set(at, (number, 1));
    }
}
