//! Closed samples of the definitions: a program with every construct of the language, which is well typed and of a whole run of which
//! the laws say something; and trees that mean one program each, and no other of the same form. No crate stands on them.
//!
//! `specs/Sample.antt` has the program, with its text, and `specs/Constructs.antt` says what every construct is; `specs/Regions.antt` has a program
//! with a local region made before a block and one made inside. `specs/trees` has the trees, with their texts, and the wrong programs that they
//! don't mean.
#![tactic(auto)]

pub mod laws;
