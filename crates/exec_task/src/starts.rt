ghost use Rattle.std.specs.Prelude.{◌≡◌, IfOk};
ghost use Rattle.code_instrs.specs.Machine.{begins_at, root_start};
ghost use Rattle.code_instrs.specs.Plain.{plain_code};
ghost use Rattle.exec_task.specs.Names.{names_of};
ghost use Rattle.exec_task.specs.Tasks.{state_of, plain_start};

use crate::frames::frame_of;
use crate::task::{Level, Standing, Start, Task};
use code_instrs::Code;
use exec_frames::Stack;
use lang_base::{Items, NoMemory, Value};
use std::alloc::Global;

/// How the root of a run starts: `main` on an object and its argument.
pub fn main_start(alloc: Global, code: &Code, object: u32, argument: i32) -> Result<Start, NoMemory>
    ensures { IfOk result (λ start. plain_start start ≡ root_start (names_of 0) (plain_code code.now) object argument) }
{
    let mut values = Items::new(alloc);
    values.push(Value::Obj(object))?;
    values.push(Value::Int(argument))?;
    Ok(Start {
        body: code.main_body,
        frame: frame_of(alloc, code, code.main_body, values, Items::new(alloc), 499)?,
    })
}

impl Task {
    /// A task of this number, at the start.
    pub fn start(alloc: Global, number: u32, start: Start) -> Task
        ensures state { state_of result ≡ begins_at (plain_start start) }
        ensures number { result.number ≡ number }
        ensures ticks { result.ticks ≡ 0 }
        ensures made { result.made ≡ 0 }
    {
        Task {
            number,
            standing: Standing::At,
            level: Level {
                body: start.body,
                at: 0,
                frame: start.frame,
                stack: Stack::new(alloc),
            },
            callers: Stack::new(alloc),
            ticks: 0,
            made: 0,
        }
    }
}
