//! That compiled code is fit and closed.
//!
//! `code_instrs` says when a code is fit: its instructions fit each other in each body, and its bodies fit each other.
//! `specs/Closed.antt` says what else holds of compiled code: how bodies are left, that no jump leads to a join, and that what
//! classes, sites and `main` name is there and has room. Here it is shown that the code of every well-typed program is both, from
//! what `specs/Room.antt` asks of a resolved program. That such code never gets stuck is shown by way of the meaning
//! (`code_scheme`, `exec_progress`).
#![tactic(auto)]

pub mod laws;
