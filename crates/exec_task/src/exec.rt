ghost use Rattle.std.specs.Prelude.{◌≡◌, ℕ, false, map, IfOk, OnErr};
ghost use Rattle.code_instrs.specs.Machine.{exec};
ghost use Rattle.code_instrs.specs.Plain.{plain_code};
ghost use Rattle.exec_task.specs.Names.{names_of};
ghost use Rattle.exec_task.specs.StepsLocally.{is_own};
ghost use Rattle.exec_task.specs.Steps.{Comes, HasNext};
ghost use Rattle.exec_task.specs.Tasks.{plain_level};

use crate::action::{Action, Own};
use crate::local::{leave, return_value};
use crate::step::Step;
use crate::task::Level;
use code_instrs::{Code, Instr};
use exec_frames::Stack;
use lang_base::{NoMemory, Place};
use std::alloc::Global;

/// One instruction that isn't one of values and jumps. When memory runs out, all is as it was.
pub fn exec(
    alloc: Global,
    code: &Code,
    line: (Instr, Place),
    level: &mut Level,
    callers: &mut Stack<Level>,
) -> Result<Step, NoMemory>
    requires next { HasNext level.old }
    requires other { is_own line.0 ≡ false }
    ensures ok { IfOk result (λ s. (task : ℕ) → Comes (plain_code code.now) (exec (names_of task) (plain_code code.now) line.1 line.0 (plain_level level.old) (map plain_level callers.old)) level.old callers.old s level.new callers.new) }
    ensures err { OnErr result ((level.new ≡ level.old) × (callers.new ≡ callers.old)) }
{
    let place = line.1;
    match line.0 {
        Instr::Get(field) => Ok(level.get(place, field)),
        Instr::Put(field) => Ok(level.put(place, field)),
        Instr::Elem => Ok(level.element(place)),
        Instr::PutElem => Ok(level.put_element(place)),
        Instr::Length => Ok(level.length(place)),
        Instr::Call(site) => level.call(alloc, code, place, site),
        Instr::New(site) => level.create(alloc, code, place, site),
        Instr::Array(site) => level.create_array(alloc, code, place, site),
        Instr::Return => return_value(level, callers),
        Instr::Leave => Ok(leave(level, callers)),
        Instr::Print => level.print(alloc),
        Instr::Text(text) => level.print_text(alloc, code, text),
        Instr::Fork(site) => Ok(level.fork(code, place, site)),
        Instr::Spread(site) => Ok(level.spread(code, place, site)),
        Instr::Join => Ok(level.join(code)),
        // in front of an entry the task rests
        Instr::Enter(_) => Ok(Step::Waits(Action::Do(Own::Rest))),
        Instr::Exit => Ok(Step::Waits(Action::Do(Own::Exit))),
        Instr::End => level.end_branch(alloc, code, callers),
        Instr::Region(declaration) => Ok(Step::Makes(declaration)),
        Instr::Part(part) => Ok(level.take_part(part)),
        Instr::InPart(part) => level.in_part(place, part),
        Instr::InParts(part) => level.in_parts(place, part),
        _ => unreachable!(),
    }
}
