//! What the definition of inferred summaries says of itself.
ghost use Rattle.body_infer.specs.Once.{OneInferred};

/// A program has one inferred summary for each member.
pub fn law_one_inferred()
    ensures { OneInferred }
{}
