//! The declarations of an accepted program are well formed, and its classes keep what their superclasses have: laws over the definitions of
//! the class table, with no code of their own.
//!
//! `specs/Laws.antt` says it of constraints, superclasses, fields and signatures: paths and types are good, in the sense of the judgement
//! (`lang_typed`), where nothing is in scope but the region parameters of a class and of a member; and of what is inherited: fields, the
//! members in rows and those that override them, constructors, and the class with which a run begins.
#![tactic(auto)]

pub mod laws;
