//! The code of a typed program.
//!
//! The crate has no compiler (`code_compile` is that): it says which code a compiler is to give, and what that code is worth.
//! `specs/Scheme.antt` has one equation a construct, and `specs/Whole.antt` puts members and branches in their order.
//! What the code asks of a program is `Resolved` of `lang_typed`, and every well-typed program is that (`law_resolved` there).
//!
//! The laws say that the solo run of the code does what the meaning of the program says, whatever its tasks are answered.
//! They are proved over `specs/Stands.antt`, which says what stands where in a code without saying how it was made: code
//! that is made in another way and meets it has the same laws. What is so of all pieces of code is proved by `proofs/Built.antt`.
#![tactic(auto)]

pub mod laws;
