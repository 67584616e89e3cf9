//! The laws of inferred summaries, the clauses of a function that does nothing.
ghost use Rattle.sound_infer.specs.Laws.{EffectsAreThose, InferredIsWellTyped, PostFixpointsAreWellTyped};
ghost use Rattle.sound_infer.specs.Reading.{LinesAreAccepted, LinesCanBeRead, LinesSayWhatIsKept};
ghost use Rattle.sound_infer.specs.Written.{KeptCanBeWritten, KeptIsAccepted, KeptMeans};

/// What a body does by the judgement is what the inference takes it to do; and a program that is well typed is so with whatever
/// is kept of its summaries that covers what is done by that, so with its inferred summaries.
pub fn law_inferred()
    ensures effects { EffectsAreThose }
    ensures post_fixpoints { PostFixpointsAreWellTyped }
    ensures well_typed { InferredIsWellTyped }
{}

/// The tree of a program may have, in place of its summaries, others that say what is kept of them: there are such, and then it
/// means the program with what is kept, and a text of that tree is accepted where that covers what is done.
pub fn law_written()
    ensures written { KeptCanBeWritten }
    ensures means { KeptMeans }
    ensures accepted { KeptIsAccepted }
{}

/// The lines of an accepted text can be read as summaries, and however they are read, they say what is kept of the written ones; so a
/// text is accepted whose tree has them in their place, where that covers what is done.
pub fn law_lines()
    ensures read { LinesCanBeRead }
    ensures say { LinesSayWhatIsKept }
    ensures accepted { LinesAreAccepted }
{}
