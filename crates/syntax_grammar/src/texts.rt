//! Laws of every text and every tree.

ghost use Rattle.syntax_grammar.specs.Texts.{EachReading, EachText, TextsAreWritten};

use crate::laws::one_refusal;

/// Each text is cut into tokens, or has a first fault there.
pub fn law_each_text()
    ensures some { EachText }
{}

/// The tokens of each text derive a program, or are refused.
pub fn law_each_reading()
    ensures some { EachReading }
{
    one_refusal();
}

/// The tree of a text within the bound of texts is as texts have it.
pub fn law_written()
    ensures written { TextsAreWritten }
{}
