ghost use Rattle.std.specs.Prelude.{◌≡◌, option_map, slice_get};
ghost use Rattle.code_instrs.specs.Plain.{plain_code, body_at};
ghost use Rattle.exec_task.specs.Tasks.{state_of};
ghost use Rattle.exec_machine.specs.Events.{place_at};

use code_instrs::Code;
use exec_task::{Standing, Task, line};
use lang_base::Place;

/// The place of the instruction at which a task stands, unless it is at its end.
pub fn place_of(code: &Code, task: &Task) -> Option<Place>
    ensures { result ≡ place_at (plain_code code.now) (state_of task.now) }
{
    match task.standing {
        Standing::At | Standing::Rested => place_in(code, task.level.body, task.level.at),
        Standing::Ended(_) | Standing::Nowhere => None,
    }
}

/// The place of the instruction at a position of a body.
fn place_in(code: &Code, body: usize, at: usize) -> Option<Place>
    ensures { result ≡ option_map (λ l. l.place) (slice_get (body_at (plain_code code.now) body).lines at) }
{
    match line(code, body, at) {
        Some(line) => Some(line.1),
        None => None,
    }
}
