//! The laws of accepted texts, the clauses of functions that do nothing but name others.

ghost use Rattle.sound_text.specs.Laws.{AcceptedIsWidthBounded, PassedKeeps, OneNaming, OnePassing, OneVerdict};

use lang_typed::laws::law_resolved;
use sound_bodies::laws::law_well_typed;
use sound_lemmas::laws::law_has_rows;
use syntax_grammar::{law_each_reading, law_each_text, law_written, one_program, one_refusal};
use syntax_tokens::one_cutting;

/// No fork in the code of an accepted program has more branches than a value counts.
pub fn law_width()
    ensures narrow { AcceptedIsWidthBounded }
{}

/// The typed program of a text that passes is well typed, can be compiled and run, and has no fork that is too wide.
pub fn law_passed()
    ensures keeps { PassedKeeps }
{
    law_well_typed();
    law_resolved();
    law_written();
    law_width();
    law_has_rows();
}

/// A text passes as one typed program, whose names are one list, or it has one fault, and not both.
pub fn law_one_passing()
    ensures one { OnePassing }
    ensures naming { OneNaming }
    ensures verdict { OneVerdict }
{
    law_each_text();
    law_each_reading();
    one_cutting();
    one_program();
    one_refusal();
}
