//! That a text has one elision, the clause of a function that does nothing but name others.

ghost use Rattle.syntax_means.specs.Laws.{OneMeaning};

use syntax_grammar::one_tree;
use syntax_tokens::one_cutting;

/// Whatever well-typed programs a text is accepted as, they have one elision.
pub fn law_one_meaning()
    ensures { OneMeaning }
{
    one_tree();
    one_cutting();
}
