//! Laws of what is accepted, each the clause of a function that does nothing but name others.

ghost use Rattle.sound_means.specs.Laws.{AcceptedMeans, FieldNamesMean, NamesMean, PassedMeans};

use sound_bodies::laws::law_well_typed;
use sound_lemmas::laws::law_has_rows;
use syntax_grammar::law_written;
use syntax_tokens::one_cutting;

/// The typed program of an accepted program is what its tree means.
pub fn law_accepted_means()
    ensures means { AcceptedMeans }
{}

/// A text that passes has a tree, in which no name is declared twice and which means its typed program, and this is well typed; and its names are those
/// of the tree, and so are the names of fields.
pub fn law_means()
    ensures means { PassedMeans }
    ensures names { NamesMean }
    ensures fields { FieldNamesMean }
{
    law_accepted_means();
    law_well_typed();
    law_written();
    law_has_rows();
    one_cutting();
}
