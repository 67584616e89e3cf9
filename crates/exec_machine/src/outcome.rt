ghost use Rattle.std.specs.Prelude.{◌≡◌};
ghost use Rattle.exec_machine.specs.Replay.{limited, came_to};

use exec_task::Ending;
use lang_base::{Bytes, Ending as Came, Limits, Outcome, Value};
use std::alloc::Global;

/// How a run ends whose root ends so. `main` gives an int.
pub fn came_to(ending: &Ending) -> Came
    ensures { result ≡ came_to ending.now }
{
    match ending {
        Ending::Returned(Value::Int(n)) => Came::Done(*n),
        Ending::Returned(_) | Ending::Assigned(_) => Came::Done(0),
        Ending::Trapped(trap, place) => Came::Trapped(*trap, *place),
    }
}

/// A run that would be over a limit.
pub fn limited(alloc: Global, limits: Limits) -> Outcome
    ensures { result ≡ limited limits }
{
    Outcome {
        ending: Came::Limited,
        out: Bytes::new(alloc),
        steps: limits.steps,
        cells: limits.cells,
    }
}
