ghost use Rattle.syntax_grammar.specs.ExpectedText.{ExpectedText};
ghost use Rattle.syntax_grammar.specs.OneProgram.{OneProgram};
ghost use Rattle.syntax_grammar.specs.OneRefusal.{OneRefusal};
ghost use Rattle.syntax_grammar.specs.OneTree.{OneTree};
ghost use Rattle.syntax_grammar.specs.Samples.{Samples};
ghost use Rattle.syntax_grammar.specs.Viable.{OneFault};

/// A list of terminals derives one program at most.
pub fn one_tree()
    ensures { OneTree }
{}

/// The tokens of a text say one program at most.
pub fn one_program()
    ensures { OneProgram }
{}

/// What is expected of a text after each of its terminals is what the grammar says: what derives a program is read
/// to its end, what is read to its end derives one, and where a text is lost it has its fault of syntax.
pub fn expected_text()
    ensures { ExpectedText }
{}

/// Each text derives a program or has a fault of syntax, and not both, and it has one such fault at most.
pub fn one_fault()
    ensures { OneFault }
{}

/// Each text is read within the limits or refused, not both, and refused at one place at most.
pub fn one_refusal()
    ensures { OneRefusal }
{}

/// A small program is read, and texts that are just within the limits; with one thing more they are refused, at that.
pub fn law_samples()
    ensures { Samples }
{}
