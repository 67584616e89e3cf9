ghost use Rattle.exec_run.specs.Seeding.{OneDraw};

/// A state of the generator draws one task at most, so a seed leaves no choice at any moment of a run.
pub fn law_one_draw()
    ensures { OneDraw }
{}
