ghost use Rattle.std.specs.Prelude.{◌≡◌, ◌+◌, ◌∷◌, List, map, drop, OnOk, IfOk};
ghost use Rattle.lang_typed.specs.Plain.{PlainProgram, plain_expr, plain_stmt, exprs_of, stmts_of};
ghost use Rattle.lang_meaning.specs.Counts.{slot_value};
ghost use Rattle.lang_meaning.specs.Elision.{Store};
ghost use Rattle.lang_meaning.specs.Statements.{part_begun, part_taken_over, with_value};
ghost use Rattle.exec_frames.specs.Names.{plain_value, plain_frame};
ghost use Rattle.exec_walker.specs.Agenda.{evaluate, goes_on, operate, finish, operands_of, needs};
ghost use Rattle.exec_walker.specs.Walk.{Waiting, At, does_item, beginning, each};
ghost use Rattle.exec_walker.specs.Forms.{parts_begun};
ghost use Rattle.exec_walker.specs.States.{plain_level};

use crate::item::{ExprStage, Item, StmtStage};
use crate::level::Level;
use exec_frames::{Frame, Stack, set_slot, set_slot_after, slot, slot_after};
use lang_base::{Items, NoMemory, Value};
use lang_typed::{Expr, ExprForm, PartSource, Slot, Stmt, StmtForm};
use std::alloc::Global;

impl<'p> Level<'p> {
    /// A body that begins.
    pub fn beginning(alloc: Global, body: &'p [Stmt], frame: Frame) -> Result<Level<'p>, NoMemory>
        ensures { IfOk result (λ g. plain_level g ≡ beginning (stmts_of (map plain_stmt body.now)) (plain_frame frame) frame.left) }
    {
        let mut level = Level {
            items: Stack::new(alloc),
            operands: Stack::new(alloc),
            frame,
        };
        level.will(Item::GoesOn(body))?;
        Ok(level)
    }

    /// A body with nothing to do, which takes no memory.
    pub fn empty(alloc: Global) -> Level<'p> {
        Level {
            items: Stack::new(alloc),
            operands: Stack::new(alloc),
            frame: Frame {
                values: Items::new(alloc),
                regions: Items::new(alloc),
                locals: Items::new(alloc),
                left: 0,
            },
        }
    }

    /// The first of some statements comes next, and then the others.
    pub fn go_on(&mut self, stmts: &'p [Stmt]) -> Result<(), NoMemory>
        ensures { (P : PlainProgram) (ws : List Waiting) (w : Store) → OnOk result (At (plain_level self.new) ws w ≡ does_item P (goes_on (stmts_of (map plain_stmt stmts.now))) (plain_level self.old) ws w) }
    {
        let Some((first, rest)) = stmts.split_first() else {
            return Ok(());
        };
        self.will(Item::GoesOn(rest))?;
        self.will(Item::Stmt(StmtStage::CarryOut, first))
    }

    /// Puts an item in front of the others.
    pub fn will(&mut self, item: Item<'p>) -> Result<(), NoMemory>
        ensures { OnOk result (self.new ≡ record self.old { items = item.entry ∷ self.old.items }) }
    {
        if self.items.push(item).is_err() {
            return Err(NoMemory);
        }
        Ok(())
    }

    /// Puts a value in the place of so many operands.
    pub fn give(&mut self, many: usize, value: Value) -> Result<(), NoMemory>
        ensures { OnOk result (self.new ≡ record self.old { operands = value ∷ drop many self.old.operands }) }
    {
        self.operands.drop_top(many);
        if self.operands.push(value).is_err() {
            return Err(NoMemory);
        }
        Ok(())
    }

    /// The operand so many below the top; null, where there is none.
    #[tactic(auto, using(exec_frames::proofs::Lists::none_there))]
    pub fn operand(&self, below: usize) -> Value
        ensures { plain_value result ≡ slot_value (map plain_value self.now.operands) below }
    {
        match self.operands.get(below) {
            Some(value) => *value,
            None => Value::Null,
        }
    }

    /// The slots of a part of the array on top, or of a part, up to its count.
    pub fn start_parts(&mut self, part: Slot, source: &PartSource)
        ensures { plain_level self.new ≡ parts_begun part.number source.now (plain_level self.old) }
    {
        match source {
            PartSource::Array(_) => self.begin_part(part.number as usize),
            PartSource::Part(whole) => {
                self.take_over_part(part.number as usize, whole.number as usize)
            }
        }
    }

    /// The slots of a part of the array on top, up to its count.
    fn begin_part(&mut self, part: usize)
        ensures { plain_level self.new ≡ record (plain_level self.old) { operands = drop 1 (plain_level self.old).operands; frame = part_begun part (slot_value (plain_level self.old).operands 0) (plain_level self.old).frame } }
    {
        let array = self.operand(0);
        self.operands.drop_top(1);
        set_slot(&mut self.frame.values, part, array);
        set_slot_after(&mut self.frame.values, part, 1, Value::Int(0));
    }

    /// The slots of a part of a part, up to its count.
    fn take_over_part(&mut self, part: usize, whole: usize)
        ensures { plain_level self.new ≡ record (plain_level self.old) { frame = part_taken_over part whole (plain_level self.old).frame } }
    {
        let array = slot(&self.frame.values, whole);
        set_slot(&mut self.frame.values, part, array);
        let first = slot_after(&self.frame.values, whole, 1);
        set_slot_after(&mut self.frame.values, part, 1, first);
    }

    /// The count of the parts, which is on top.
    pub fn take_count(&mut self, part: usize)
        ensures { plain_level self.new ≡ record (plain_level self.old) { operands = drop 1 (plain_level self.old).operands; frame = with_value (plain_level self.old).frame (part + 3) (slot_value (plain_level self.old).operands 0) } }
    {
        let count = self.operand(0);
        self.operands.drop_top(1);
        set_slot_after(&mut self.frame.values, part, 3, count);
    }

    /// The length of the whole.
    pub fn take_length(&mut self, part: usize, whole: usize)
        ensures { plain_level self.new ≡ record (plain_level self.old) { frame = with_value (plain_level self.old).frame (part + 2) (slot_value (plain_level self.old).frame.values (whole + 2)) } }
    {
        let len = slot_after(&self.frame.values, whole, 2);
        set_slot_after(&mut self.frame.values, part, 2, len);
    }

    /// The values of expressions come next, from the first on.
    pub fn will_evaluate(&mut self, all: &'p [Expr]) -> Result<(), NoMemory>
        ensures { OnOk result (plain_level self.new ≡ record (plain_level self.old) { items = each (exprs_of (map plain_expr all.now)) (plain_level self.old).items }) }
    {
        for below in 0..all.len() {
            self.will(Item::Expr(ExprStage::Evaluate, &all[all.len() - 1 - below]))?;
        }
        Ok(())
    }

    /// The operands of an expression come next, and then its operation.
    #[tactic(auto, using(crate::proofs::Forms::forms))]
    pub fn evaluate(&mut self, e: &'p Expr) -> Result<(), NoMemory>
        ensures { OnOk result (plain_level self.new ≡ record (plain_level self.old) { items = each (operands_of (plain_expr e.now)) (operate (plain_expr e.now) ∷ (plain_level self.old).items) }) }
    {
        self.will(Item::Expr(ExprStage::Operate, e))?;
        match &e.form {
            ExprForm::Field { of: one, .. }
            | ExprForm::Length(one)
            | ExprForm::NewArray(one)
            | ExprForm::Unary { arg: one, .. }
            | ExprForm::And { left: one, .. }
            | ExprForm::Or { left: one, .. }
            | ExprForm::PartElement { index: one, .. } => self.will(Item::Expr(
                ExprStage::Evaluate,
                one.get(),
            )),
            ExprForm::Element { array, index } => self.will_both(array.get(), index.get()),
            ExprForm::Binary { left, right, .. } => self.will_both(left.get(), right.get()),
            ExprForm::Call { of, actuals, .. } => {
                self.will_evaluate(actuals.as_slice())?;
                self.will(Item::Expr(ExprStage::Evaluate, of.get()))
            }
            ExprForm::New(actuals) => self.will_evaluate(actuals.as_slice()),
            ExprForm::Int(_)
            | ExprForm::Bool(_)
            | ExprForm::Null
            | ExprForm::Local(_)
            | ExprForm::PartLength(_) => Ok(()),
        }
    }

    /// The values of two expressions come next.
    fn will_both(&mut self, first: &'p Expr, second: &'p Expr) -> Result<(), NoMemory>
        ensures { OnOk result (plain_level self.new ≡ record (plain_level self.old) { items = evaluate (plain_expr first.now) ∷ evaluate (plain_expr second.now) ∷ (plain_level self.old).items }) }
    {
        self.will(Item::Expr(ExprStage::Evaluate, second))?;
        self.will(Item::Expr(ExprStage::Evaluate, first))
    }

    /// The values of three expressions come next.
    fn will_three(
        &mut self,
        first: &'p Expr,
        second: &'p Expr,
        third: &'p Expr,
    ) -> Result<(), NoMemory>
        ensures { OnOk result (plain_level self.new ≡ record (plain_level self.old) { items = evaluate (plain_expr first.now) ∷ evaluate (plain_expr second.now) ∷ evaluate (plain_expr third.now) ∷ (plain_level self.old).items }) }
    {
        self.will(Item::Expr(ExprStage::Evaluate, third))?;
        self.will_both(first, second)
    }

    /// The operands of a statement come next, and then the statement.
    #[tactic(auto, using(crate::proofs::Forms::shapes))]
    pub fn carry_out(&mut self, s: &'p Stmt) -> Result<(), NoMemory>
        ensures { OnOk result (plain_level self.new ≡ record (plain_level self.old) { items = each (needs (plain_stmt s.now)) (finish (plain_stmt s.now) ∷ (plain_level self.old).items) }) }
    {
        self.will(Item::Stmt(StmtStage::Finish, s))?;
        match &s.form {
            StmtForm::Declare { value, .. } | StmtForm::Store { value, .. } => {
                self.will(Item::Expr(ExprStage::Evaluate, value))
            }
            StmtForm::StoreField { of, value, .. } => self.will_both(of, value),
            StmtForm::StoreElement {
                array,
                index,
                value,
            } => self.will_three(array, index, value),
            StmtForm::StorePart { index, value, .. } => self.will_both(index, value),
            StmtForm::Perform(value) | StmtForm::PrintInt(value) | StmtForm::PrintBool(value) => {
                self.will(Item::Expr(ExprStage::Evaluate, value))
            }
            StmtForm::If { test, .. } => self.will(Item::Expr(ExprStage::Evaluate, test)),
            StmtForm::Return(Some(value)) => self.will(Item::Expr(ExprStage::Evaluate, value)),
            StmtForm::Foreach { start, count, .. } => self.will_both(start, count),
            StmtForm::ForeachParts { source, .. } => match source {
                PartSource::Array(array) => self.will(Item::Expr(ExprStage::Evaluate, array)),
                PartSource::Part(_) => Ok(()),
            },
            StmtForm::Block(_)
            | StmtForm::While { .. }
            | StmtForm::Return(None)
            | StmtForm::PrintText(_)
            | StmtForm::Regions(_)
            | StmtForm::Atomic { .. }
            | StmtForm::Cobegin { .. } => Ok(()),
        }
    }
}
