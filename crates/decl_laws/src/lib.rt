//! Laws of the class table, over its definitions, with no code of their own.
//!
//! A method has one row, that of the method which it overrides or the next one (`specs/Rows.antt`). It is in that row in each class in which
//! its name means it, and a class keeps the rows of its superclass.
#![tactic(auto)]

pub mod laws;
