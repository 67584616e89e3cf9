//! What the checker accepts is well typed: laws that tie its rules to the judgement, with no code of its own.
//!
//! The checker says of a body what it gives, or its first fault (`body_exprs`, `body_check`); the judgement says of a typed
//! program when it keeps the rules of the language (`lang_typed`), and from it soundness and determinism follow. The rules of
//! expressions are a function; the proofs go over the steps that it takes where it accepts (`Rules` of `sound_lemmas`).
//! `specs/Seen.antt` and `specs/Ready.antt` say how what is around a place of a body is what is in scope in the judgement,
//! `specs/Laws.antt` what follows of types, expressions and blocks of statements there, and `specs/Whole.antt` what a whole
//! accepted program keeps: its class table tells what it has, and where nd constructs are reached, and its bodies pass. Promised
//! are these laws, and with the declarations (`sound_decls`) and the superclasses (`sound_decls`) that each accepted program
//! that a text derives is well typed.
#![tactic(auto)]

pub mod laws;
