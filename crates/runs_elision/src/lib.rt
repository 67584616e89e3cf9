//! The serial elision of a typed program is one of its legal runs.
//!
//! The elision numbers objects as they are made, and runs one task after the other over one heap. Here it is shown that
//! the events which it makes are a legal run of the program, in the order of elision, that comes out and costs as the elision
//! says; so what is proved of all legal runs holds of the elision.
#![tactic(auto)]

pub mod laws;
