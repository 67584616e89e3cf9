//! What `effects` answers may be written into the program: laws over the definitions of the judgement (`lang_typed`) and of the
//! inferred summaries (`body_infer`), with no code of their own.
//!
//! `specs/Laws.antt` says that the effects with which summaries are inferred are those of the judgement, and that a well-typed
//! program is well typed with whatever is kept of its summaries that covers what is done, so with its inferred ones, where each
//! atomic block is entered by what it does then. `specs/Written.antt` says that a text means that program whose tree has, in
//! place of the written summaries, others that say what is kept, and that there are such. `specs/Reading.antt` says that the lines of
//! `effects` are such summaries: they are cut into tokens and read by the grammar, and mean what is kept.
#![tactic(auto)]

pub mod laws;
