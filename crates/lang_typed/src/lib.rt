//! The typed program: what the checker makes of a text that it accepts, and what all of the back half starts from.
//!
//! The front half (tokens, tree, class table, rules) ends here; the compiler, the walker, the inference of
//! summaries and all theory begin here. Nothing after it sees a name, a tree of the parser or a class table, and
//! nothing before it knows frames, rows of methods at run time or instructions.
//!
//! Classes, members, fields, rows, locals and local regions go by number. A local is its slot: slot 0 is
//! `this`, then come the formals, then each declared local and loop variable of the member in the order of the
//! text, without reuse. So the identity of an index variable comes from counting, and two are never one.
//!
//! A class keeps the fields that it declares itself, and what else it has is found by going up its superclasses: `superclasses`
//! gives them (`specs/Inherited.antt`), and `first_values` what all fields hold before they are assigned.
//!
//! `specs/Plain.antt` has the same program as plain data, in which a class has all its fields, inherited ones first, and `specs/WellTyped.antt` says when it keeps the rules
//! of the language: the judgement that soundness and determinism are proved from. `specs/Resolved.antt` is the part of it that
//! a run asks for: each row and member that is named is there, and a call gives a value exactly where one is used.
//! A proof that only hands something on from a statement to those directly in it goes by `proofs/Parts.antt`.
#![tactic(auto)]

mod expr;
mod ids;
mod inherited;
pub mod laws;
mod program;
mod stmt;

pub use expr::{Expr, ExprForm};
pub use ids::{ClassId, FieldSlot, LocalRegion, MemberId, Row, Slot};
pub use inherited::{first_values, superclasses};
pub use program::{Class, Field, Member, Parent, Program, RegionName, RegionParam};
pub use stmt::{Branch, Forking, PartSource, Stmt, StmtForm};
