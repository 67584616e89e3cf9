//! Expressions of a text as typed expressions, with their effects.
//!
//! `expr` reads one expression in an `Env`, which says what is around it: the class, the method, the locals and the
//! local regions in scope and the constraints in force. It gives the typed expression, and adds the effects to those found so
//! far, in the order of evaluation. It refuses the first expression, in post-order, that has a fault. `read_target`
//! and `write` do the same for what is assigned to, which isn't read.
//!
//! The rules are a function, `type_expr` of `specs/Typing.antt`: one clause for a construct, whose steps are evaluated in order, and
//! the first step that refuses is the fault. `type_call` and `type_creation` of `specs/Uses.antt` are its clauses for uses,
//! `type_target` of `specs/Targeting.antt` is that of what is assigned to. So each expression has one answer where it stands.
//!
//! `Env` counts the slots of a member: 0 is `this`, and each local that is declared has the next one, whatever went out
//! of scope before. So no two locals of a member have one slot, and an index variable is known by its slot.
//!
//! Reads and writes through a part of an array are kept apart from the other effects.
#![tactic(auto)]

mod actuals;
mod arrays;
mod assigned;
mod calls;
mod creations;
mod env;
mod fields;
mod fitting;
mod found;
mod nodes;
mod operations;
mod shapes;
mod supers;
mod table_ref;
mod typed;
mod typing;

pub use assigned::{Spot, Target, read_target};
pub use env::{Env, LocalRow, Mark, length_name};
pub use fitting::{fits, refused};
pub use found::Found;
pub use supers::Supers;
pub use typed::Typed;
pub use typing::expr;
