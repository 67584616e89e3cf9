ghost use Rattle.std.specs.Prelude.{◌≤◌, IfOk};
ghost use Rattle.lang_typed.specs.Plain.{plain_program};
ghost use Rattle.lang_typed.specs.Resolved.{Resolved, HasMain};
ghost use Rattle.exec_run.specs.Run.{IsOpened};

use crate::few::all_few;
use code_compile::compile;
use exec_machine::Machine;
use exec_progress::laws::law_code_progress;
use lang_base::{Limits, NoMemory};
use lang_typed::Program;
use std::alloc::Global;

/// A machine on the code of a program, which has made no event. None, where the code has a fork of more branches than a
/// value counts.
pub fn open(
    alloc: Global,
    program: &Program,
    limits: Limits,
    argument: i32,
) -> Result<Option<Machine>, NoMemory>
    requires resolved { Resolved (plain_program program.now) }
    requires main { HasMain (plain_program program.now) }
    requires steps { limits.steps ≤ 20000000 }
    requires cells { limits.cells ≤ 16777216 }
    ensures { IfOk result (IsOpened (plain_program program.now) limits argument) }
{
    let code = compile(alloc, program)?;
    if !all_few(code.sites.as_slice()) {
        return Ok(None);
    }
    law_code_progress();
    let machine = Machine::open(alloc, code, limits, argument)?;
    Ok(Some(machine))
}
