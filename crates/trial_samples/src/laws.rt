//! The laws of the samples, each the clause of a function that does nothing but name others.

ghost use Rattle.trial_samples.specs.Constructs.{HasEvery};
ghost use Rattle.trial_samples.specs.Laws.{SampleIsElided, SampleRuns};
ghost use Rattle.trial_samples.specs.Regions.{OnlyLaterAreInside};
ghost use Rattle.trial_samples.specs.Sample.{sample};
ghost use Rattle.trial_samples.specs.trees.Details.{DetailsMean};
ghost use Rattle.trial_samples.specs.trees.Laws.{OtherMeans, RowsMean, SampleMeans, WrongAreRefused, WrongOthersAreRefused};
ghost use Rattle.trial_samples.specs.trees.Paths.{PathsMean};
ghost use Rattle.lang_typed.specs.WellTyped.{WellTyped};

use runs_program::laws::law_steps;
use runs_sound::laws::law_sound;
use runs_theorem::laws::law_reduction;

/// There is a program with every construct of the language that is well typed, and a whole run of it that the laws of well-typed
/// programs speak of, with conflicts that atomic blocks order. Of the local regions of a task those that it made before a block aren't made inside.
pub fn law_sample()
    ensures well_typed { WellTyped sample }
    ensures every { HasEvery sample }
    ensures elided { SampleIsElided }
    ensures runs { SampleRuns }
    ensures regions { OnlyLaterAreInside }
{
    law_steps();
    law_sound();
    law_reduction();
}

/// Three small trees, which have most constructs between them, mean one program each, and no other of that form; each path of a
/// fourth, in which names hide each other, means one; and so do `final`, constraints and a call of an inherited method.
pub fn law_trees()
    ensures means { SampleMeans }
    ensures refused { WrongAreRefused }
    ensures others { OtherMeans }
    ensures others_refused { WrongOthersAreRefused }
    ensures rows { RowsMean }
    ensures paths { PathsMean }
    ensures details { DetailsMean }
{}
