//! The tree of a program: what the parser makes of a text and every later pass reads.
//!
//! Every node has a place. Names are positions in the program's list of distinct names. `specs/Plain.antt` has the same tree as plain data, over which the rules of
//! the language are written, and the map from the one to the other; `specs/Shaped.antt` says what is true of
//! every tree that the parser makes.
#![tactic(auto)]

mod class;
mod expr;
mod nd;
mod region;
mod stmt;

pub use class::{
    Class, Field, Formal, Item, Member, Method, MethodResult, Parent, Program, SummaryTree,
};
pub use expr::{Expr, ExprKind, InfixOp};
pub use nd::uses_nd;
pub use region::{
    BaseTree, ConstrTree, ElemTree, Named, ParamTree, Params, RName, RplHead, RplTree, Suffix,
    TypeTree,
};
pub use stmt::{Stmt, StmtKind};
