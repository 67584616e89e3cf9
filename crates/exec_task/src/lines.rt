ghost use Rattle.std.specs.Prelude.{◌≡◌, ◌<◌, ◌+◌, ◌^◌, OnSome, option_map, slice_get};
ghost use Rattle.code_instrs.specs.Plain.{plain_code, body_at};
ghost use Rattle.exec_task.specs.Steps.{plain_line};

use code_instrs::{Code, Instr};
use lang_base::Place;

/// The instruction at a position of a body, with the place of its trap.
pub fn line(code: &Code, body: usize, at: usize) -> Option<(Instr, Place)>
    ensures line { option_map plain_line result ≡ slice_get (body_at (plain_code code.now) body).lines at }
    ensures next { OnSome result (at + 1 < 2 ^ 64) }
{
    let Some(body) = code.bodies.get(body) else {
        return None;
    };
    let Some(place) = body.places.get(at) else {
        return None;
    };
    if at >= body.instrs.len() {
        return None;
    }
    let Some(instr) = body.instrs.get(at) else {
        return None;
    };
    Some((*instr, *place))
}
