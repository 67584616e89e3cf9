//! The least summaries: what of the written summaries of a program its bodies need.
//!
//! A summary that is inferred keeps of each written item the item, the item as a read, or nothing. What a body does, with the
//! calls in it, and what is kept of the methods that override a method, has to lie in what is kept; the inferred summaries are the
//! least for which this holds (`specs/PostFixpoint.antt`).
//!
//! That is what `infer` answers: of each item of each member it says something, this is post_fixpoint, and nothing post_fixpoint keeps less of an item.
//! So what lies in the written summaries lies in what is kept of them (`specs/Covered.antt`).
//!
//! The summaries are found by asking members until none rises, each again only where one has risen that its body calls or that
//! overrides it (`settling`); passes over all members see that no more is asked for (`inferring`).
//!
//! The field that an access names is looked for from the class at the top down (`fields`, `specs/Sought.antt`).
//!
//! `summary` writes effects as `specs/Lines.antt` says, those of a run too, and `lines` exactly the lines that `specs/Lines.antt` says of the summaries that are left, and a program has one such summary
//! for each member (`laws::law_one_inferred`).
#![tactic(auto)]

mod asking;
mod callers;
mod classes;
mod exprs;
mod fields;
mod inferring;
mod kept;
pub mod laws;
mod leaving;
mod numbers;
mod own;
mod scope;
mod settling;
mod simple;
mod stmts;
mod text;
mod walk;

pub use inferring::infer;
pub use kept::Kept;
pub use text::{class_name, lines, summary};
pub use walk::Keeping;
