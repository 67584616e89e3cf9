ghost use Rattle.std.specs.Prelude.{◌≡◌, ◌↔◌, ◌+◌, ◌≤◌, map, IsTrue};
ghost use Rattle.lang_base.specs.FirstValues.{constant_of};
ghost use Rattle.exec_world.specs.Costs.{steps_of, own_steps, cells_of, first_fields};

use code_instrs::Code;
use exec_task::{Action, Own};
use lang_base::FirstValue;

/// The steps of an action besides its ticks.
pub fn steps_of(action: &Action) -> u64
    ensures { result ≡ steps_of action.now }
{
    match action {
        Action::Do(own) => own_steps(own),
        Action::End(_) => 0,
        _ => 1,
    }
}

fn own_steps(own: &Own) -> u64
    ensures { result ≡ own_steps own.now }
{
    match own {
        Own::Rest => 0,
        Own::NewObject { constructor, .. } => { if *constructor { 2 } else { 1 } }
        _ => 1,
    }
}

/// What the fields of a class hold at first: nothing, where there is no such class.
pub fn first_fields(code: &Code, class: u32) -> &[FirstValue]
    ensures { map constant_of result.now ≡ first_fields code.now class }
{
    match code.classes.get(class as usize) {
        Some(class) => class.fields.as_slice(),
        None => &[],
    }
}

/// The cells of an action.
pub fn cells_of(code: &Code, action: &Action) -> u64
    ensures { result ≡ cells_of code.now action.now }
{
    let Action::Do(own) = action else {
        return 0;
    };
    match own {
        Own::NewObject { class, .. } => first_fields(code, *class).len() as u64 + 1,
        Own::NewArray { len, .. } => u64::from(*len) + 1,
        Own::Print(bytes) => bytes.len() as u64,
        _ => 0,
    }
}

/// Whether so many ticks and an action of so many steps more are within the limit of steps.
pub fn has_steps(steps: u64, most: u64, ticks: u32, more: u64) -> bool
    requires { more ≤ 2 }
    ensures { IsTrue result ↔ (steps + (ticks + more) ≤ most) }
{
    let cost = u64::from(ticks) + more;
    steps <= most && cost <= most - steps
}
