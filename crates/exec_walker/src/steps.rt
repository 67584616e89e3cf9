ghost use Rattle.std.specs.Prelude.{cond, not};
ghost use Rattle.lang_typed.specs.Plain.{plain_program, plain_expr};
ghost use Rattle.lang_meaning.specs.Counts.{slot_value, truth};
ghost use Rattle.lang_meaning.specs.Values.{Boolean};
ghost use Rattle.exec_walker.specs.Walk.{At, step, does_item, operates, pushed, doing, without};
ghost use Rattle.exec_walker.specs.Agenda.{evaluate};
ghost use Rattle.exec_walker.specs.States.{Does, plain_item};
ghost use Rattle.exec_walker.specs.Walks.{CostsMore, IsHolding, Walks};

use crate::Halt;
use crate::calls::Call;
use crate::item::{ExprStage, Item, LoopStage, StmtStage};
use crate::walker::{Over, Walker};
use exec_frames::truth;
use lang_base::Value;
use lang_typed::{Expr, ExprForm, Program};

impl<'p> Walker<'p> {
    /// Steps up to one that costs something, or to the end. Those before it leave less work each.
    pub fn to_next_cost(&mut self, program: &'p Program) -> Result<Option<Over>, Halt>
        requires { IsHolding self.old }
        ensures walks { Walks (plain_program program.now) self.old result self.new }
        ensures costs { CostsMore self.old result self.new }
    {
        let before = self.store.steps;
        loop {
            if let Some(over) = self.step(program)? {
                return Ok(Some(over));
            }
            if self.store.steps > before {
                return Ok(None);
            }
        }
    }

    /// One step of the walk.
    fn step(&mut self, program: &'p Program) -> Result<Option<Over>, Halt>
        ensures { Does (λ g ws w. step (plain_program program.now) (At g ws w)) self.old result self.new }
    {
        match self.level.items.pop() {
            Some(item) => self.do_item(program, item),
            None => self.end(None),
        }
    }

    fn do_item(&mut self, program: &'p Program, item: Item<'p>) -> Result<Option<Over>, Halt>
        ensures { Does (does_item (plain_program program.now) (plain_item item.entry)) self.old result self.new }
    {
        match item {
            Item::Expr(ExprStage::Evaluate, e) => {
                self.level.evaluate(e)?;
                Ok(None)
            }
            Item::Expr(ExprStage::Operate, e) => self.operate(program, e),
            Item::Stmt(StmtStage::CarryOut, s) => {
                self.level.carry_out(s)?;
                Ok(None)
            }
            Item::Stmt(StmtStage::Finish, s) => self.finish(s),
            Item::Counted(parts) => self.counted(parts),
            Item::GoesOn(stmts) => {
                self.level.go_on(stmts)?;
                Ok(None)
            }
            Item::Loop(LoopStage::Test, test, body) => self.test(test, body),
            Item::Loop(LoopStage::Tick, test, body) => self.tick(test, body),
            Item::Leave => self.leave(),
        }
    }

    /// What an expression does over its operands.
    #[tactic(auto, using(crate::proofs::Forms::forms))]
    fn operate(&mut self, program: &'p Program, e: &'p Expr) -> Result<Option<Over>, Halt>
        ensures { Does (operates (plain_program program.now) (plain_expr e.now)) self.old result self.new }
    {
        let place = e.place;
        match &e.form {
            ExprForm::Int(n) => self.give(0, Value::Int(*n)),
            ExprForm::Bool(b) => self.give(0, Value::Bool(*b)),
            ExprForm::Null => self.give(0, Value::Null),
            ExprForm::Local(slot) => self.local(*slot),
            ExprForm::Field { field, .. } => self.read_field(place, *field),
            ExprForm::Element { .. } => self.read_element(place),
            ExprForm::Length(_) => self.length(place),
            ExprForm::Call {
                class,
                row,
                regions,
                actuals,
                ..
            } => {
                let call = Call {
                    place,
                    class: class.number,
                    row: row.number,
                    regions,
                    actuals: actuals.len(),
                };
                self.call(program, call)
            }
            ExprForm::New(actuals) => self.create(program, place, &e.ty, actuals.len()),
            ExprForm::NewArray(_) => self.create_array(place, &e.ty),
            ExprForm::Unary { op, .. } => self.unary(*op),
            ExprForm::Binary { op, .. } => self.binary(place, *op),
            ExprForm::And { right, .. } => self.second(true, right.get()),
            ExprForm::Or { right, .. } => self.second(false, right.get()),
            ExprForm::PartLength(part) => self.part_length(*part),
            ExprForm::PartElement { part, .. } => self.read_part(place, part.number as usize),
        }
    }

    /// The second operand comes next, where the first is this; else the first stands for the whole.
    fn second(&mut self, asked: bool, right: &'p Expr) -> Result<Option<Over>, Halt>
        ensures { Does (λ g ws w. cond (cond asked (truth (slot_value g.operands 0)) (not (truth (slot_value g.operands 0)))) (At (doing (evaluate (plain_expr right.now)) (without 1 g)) ws w) (At (pushed (Boolean (not asked)) (without 1 g)) ws w)) self.old result self.new }
    {
        if truth(self.level.operand(0)) != asked {
            return self.give(1, Value::Bool(!asked));
        }
        self.level.operands.drop_top(1);
        self.level.will(Item::Expr(ExprStage::Evaluate, right))?;
        Ok(None)
    }
}
