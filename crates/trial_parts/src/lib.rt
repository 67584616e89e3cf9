//! The tests of single parts: tokens, the algebra of regions and effects, input and output. Their answers come from outside.
//!
//! They stand here and not in the crates that they try, since a crate with tests is proved twice. They show besides that memory
//! suffices and that costs don't grow with pairs, which no contract can say. What a program can show is tried by `tests/cases`
//! instead, which takes no proof.
#![tactic(auto)]

#[cfg(test)]
mod disjoint;
#[cfg(test)]
mod growth;
#[cfg(test)]
mod io;
#[cfg(test)]
mod tokens;
