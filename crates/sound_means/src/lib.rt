//! What a text that passes means: the law that ties the checker to `syntax_means`.
//!
//! An accepted program's typed program is one that its tree means, and a text that passes has that tree. So what is
//! promised of an accepted text can be said of a well-typed program that the text means, without the checker's rules.
#![tactic(auto)]

pub mod laws;
