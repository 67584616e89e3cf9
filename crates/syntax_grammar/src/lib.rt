//! The grammar: which tree of a program a text's terminals derive, and where a text is refused.
//!
//! Definitions and laws, with no code of their own; the parser is in `syntax_parse`. `specs/Taking` to `specs/Classes` say
//! which terminals derive which tree, `specs/Reading` says the same of expressions and statements as they are read from
//! left to right, `specs/Expecting` what is expected after each terminal, and `specs/Limits` how it is counted. A fault is
//! `syntax` where no program begins with the tokens up to and including one, and `nest` where the text nests deeper, joins
//! longer or suffixes more than 32 times.
//!
//! Proved as laws: tokens derive one program at most; what is expected after each terminal is what the grammar says; and
//! each text is read within the limits or refused at one place, `syntax` only at the first terminal with which no program
//! goes on, `nest` only at one with which it can still become a program. As a lemma for the parser and for laws above
//! (`Promised`): the tree of a text has at most as many nodes as the text has bytes, and its names are among those
//! of the text.
//!
//! Of every text (`specs/Texts.antt`): it is cut into tokens or has a first fault there, and its tokens derive a program or
//! are refused. `specs/Written.antt` says what is so of the tree of a text beside its form: numbers have 32 bits, a
//! statement that is an expression is a call or a creation, constraints come after region parameters, a constructor has
//! no region parameters. The rules of bodies don't ask it again (`body_check`), and what passes them is well typed because
//! of it (`sound_bodies`).
#![tactic(auto)]

mod laws;
mod texts;

pub use laws::{expected_text, law_samples, one_fault, one_program, one_refusal, one_tree};
pub use texts::{law_each_reading, law_each_text, law_written};
