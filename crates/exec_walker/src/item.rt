use lang_base::{Boxed, Place};
use lang_typed::{Expr, PartSource, Slot, Stmt};

/// What comes next of an expression.
#[derive(Clone, Copy, Debug, PartialEq, Eq)]
pub enum ExprStage {
    /// Its value, onto the operands.
    Evaluate,
    /// What it does once its operands stand there, the last on top.
    Operate,
}

/// What comes next of a statement.
#[derive(Clone, Copy, Debug, PartialEq, Eq)]
pub enum StmtStage {
    CarryOut,
    /// What it does once its operands stand there.
    Finish,
}

/// Where a while loop stands: in front of its test, or after it.
#[derive(Clone, Copy, Debug, PartialEq, Eq)]
pub enum LoopStage {
    Test,
    Tick,
}

/// A loop over the parts of an array, or of a part.
#[derive(Clone, Copy, Drop)]
pub struct PartsLoop<'p> {
    pub place: Place,
    pub part: Slot,
    pub source: &'p PartSource,
    pub count: &'p Expr,
    pub body: &'p Boxed<Stmt>,
}

/// A thing that a body at work has to do.
#[derive(Clone, Copy, Drop)]
pub enum Item<'p> {
    Expr(ExprStage, &'p Expr),
    Stmt(StmtStage, &'p Stmt),
    /// A while loop, of this test and this body.
    Loop(LoopStage, &'p Expr, &'p Boxed<Stmt>),
    /// A loop over parts, whose count is on top.
    Counted(PartsLoop<'p>),
    GoesOn(&'p [Stmt]),
    /// The end of an atomic block.
    Leave,
}
