ghost use Rattle.tool_words.specs.Laws.{NumbersAreTheirTexts, ArgumentsAreTheirTexts};

/// The values of words are the decimal texts of numbers, without a leading zero, and with a `-` before a
/// number below 0 alone. This says it of every number and every text.
pub fn law_values()
    ensures numbers { NumbersAreTheirTexts }
    ensures arguments { ArgumentsAreTheirTexts }
{}
