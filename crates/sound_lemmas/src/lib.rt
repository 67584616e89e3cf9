//! What accepted programs have that no code asks for: lemmas for the laws which say that such a program is well typed, and one law.
//!
//! `specs/Accepted.antt` says what it is that the checker accepts: a class table that has rows and no fault, and bodies that pass.
//! The law says that the table of a text which isn't too long has rows. The lemmas are cited by `sound_decls` and
//! `sound_bodies`: where no fault is reported none was found, what is written without faults is known, each method of the table
//! has a member in the program that is put together, and what is accepted takes these steps: an expression (`Rules`), a statement
//! (`StatementRules`), a body (`BodyRules`).
#![tactic(auto)]

pub mod laws;
