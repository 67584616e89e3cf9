//! The law of class tables, the clause of a function that does nothing.

ghost use Rattle.sound_lemmas.specs.Accepted.{SmallHasRows};

/// A class table has rows, where the text isn't too long.
pub fn law_has_rows()
    ensures has_rows { SmallHasRows }
{}
