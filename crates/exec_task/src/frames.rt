ghost use Rattle.std.specs.Prelude.{◌≡◌, map, IfOk};
ghost use Rattle.code_instrs.specs.Plain.{plain_code, body_at};
ghost use Rattle.exec_task.specs.Frames.{frame_of};
ghost use Rattle.exec_frames.specs.Names.{plain_value};
ghost use Rattle.exec_task.specs.Names.{names_of, plain_region};
ghost use Rattle.exec_task.specs.Tasks.{plain_frame};

use code_instrs::Code;
use exec_frames::{Frame, fresh_frame};
use lang_base::{Items, NoMemory, Region, Value};
use std::alloc::Global;

/// The frame with which a body is entered: its first slots have these values.
pub fn frame_of(
    alloc: Global,
    code: &Code,
    body: usize,
    values: Items<Value>,
    regions: Items<Region>,
    left: u32,
) -> Result<Frame, NoMemory>
    ensures { IfOk result (λ f. plain_frame f ≡ frame_of (names_of 0) (plain_code code.now) body (map plain_value values) (map plain_region regions) left) }
{
    fresh_frame(alloc, sizes(code, body), values, regions, left)
}

/// How many slots and how many local regions a body has; none, where it isn't there.
fn sizes(code: &Code, body: usize) -> (u32, u32)
    ensures slots { result.0 ≡ (body_at (plain_code code.now) body).slots }
    ensures locals { result.1 ≡ (body_at (plain_code code.now) body).local_regions }
{
    match code.bodies.get(body) {
        Some(body) => (body.slots, body.locals),
        None => (0, 0),
    }
}
