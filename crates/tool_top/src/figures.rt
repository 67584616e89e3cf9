ghost use Rattle.std.specs.Prelude.{◌≡◌};
ghost use Rattle.tool_top.specs.Answer.{figures_of};

use exec_machine::Schedule;
use tool_words::Figures;

/// What a run is made of, by its schedule and the number of its rounds.
pub fn figures(schedule: &Schedule, rounds: u64) -> Figures
    ensures { result ≡ figures_of schedule.now rounds }
{
    Figures {
        events: schedule.len() as u64,
        tasks: schedule.tasks(),
        rounds,
    }
}
