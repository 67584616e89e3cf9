//! What the program of an accepted text is good for: laws over the definitions of the front half, with no code of its own.
//!
//! The typed program of a text that passes is well typed (`sound_bodies`), since a text gives no tree but as the grammar has it
//! (`syntax_grammar`); so it is what the compiler asks for, and no fork of its code has more branches than a value counts: a fork has a branch
//! for each statement of a `cobegin`, and a machine is opened only on code whose forks have fewer than 2^31 (`IsWidthBounded` of `exec_task`).
//!
//! And a text has one verdict: it passes as one typed program, or it has one fault. That it has one at all is joined of what tokens and
//! grammar answer (`syntax_grammar`), and of what a program is judged as, which is a function of it (`tool_front`). All is in
//! `specs/Laws.antt`.
#![tactic(auto)]

pub mod laws;
