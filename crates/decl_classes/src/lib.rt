//! The class table: what each class of a program has, and whether its declarations fit together.
//!
//! `build` makes the table of the tree. It refuses, in four passes one after the other: what the headers refuse by
//! names alone, in two passes; then what is wrong in types, region paths, constraints and summaries of signatures;
//! then methods that don't fit those that they override, and a program without its `Main`. In each pass the fault
//! with the least place is reported.
//!
//! `build` answers as `check_table` of `specs/Build.antt` does, which is a function of the program. `specs/Tables.antt` says
//! what its table is: its rows are those of `specs/Rows.antt`, and what a part of a signature means, with its faults, is
//! said by `specs/Signatures.antt`; `specs/Overriding.antt` says when a method fits the one that it overrides. Which one
//! that is and its row are found by `decl_table`, which methods reach an nd construct by `decl_reach`.
#![tactic(auto)]

mod around;
mod make;
mod overriding;
mod signatures;
mod summary;
mod written;

pub use make::build;
