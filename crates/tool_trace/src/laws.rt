ghost use Rattle.tool_trace.specs.Laws.{OneReading, OneMisfit, NoMisfitInTrace};

/// A text is the text of one trace at most, or has one first line that doesn't fit; not both.
pub fn law_readings()
    ensures one_reading { OneReading }
    ensures one_misfit { OneMisfit }
    ensures apart { NoMisfitInTrace }
{}
