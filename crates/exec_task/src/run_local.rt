ghost use Rattle.std.specs.Prelude.{◌≡◌, ◌<◌, ◌≤◌, OnOk};
ghost use Rattle.code_instrs.specs.Plain.{plain_code};
ghost use Rattle.exec_task.specs.Halts.{Paced, Reaches};
ghost use Rattle.exec_task.specs.StepsLocally.{IsAtOther};

use crate::action::Ending;
use crate::lines::line;
use crate::local_step::LocalStep;
use crate::running::Running;
use crate::task::Standing;
use lang_base::{NoMemory, Trap};

/// Takes a task over the instructions of values and jumps that come next in its body. Most instructions are such: what
/// doesn't change between them is looked up once, and the quick loop is kept apart from all else.
#[inline(never)]
pub fn run_local(running: &mut Running) -> Result<(), NoMemory>
    requires { Paced running.old.task }
    ensures reaches { Reaches (plain_code running.old.code.now) running.old.task running.new.task }
    ensures code { running.new.code.now ≡ running.old.code.now }
    ensures other { OnOk result (running.new.task.ticks < 4096 → IsAtOther (plain_code running.old.code.now) running.new.task) }
    ensures nearer { running.new.ends.0 ≤ running.old.ends.0 }
{
    let code = running.code;
    let Standing::At = &running.task.standing else {
        return Ok(());
    };
    let Some(body) = code.bodies.get(running.task.level.body) else {
        return Ok(());
    };
    let instrs = body.instrs.as_slice();
    if running.task.ticks >= 4096 {
        return Ok(());
    }
    while running.task.level.at < instrs.len() {
        let Some(instr) = body.instrs.get(running.task.level.at) else {
            return Ok(());
        };
        match running.task.level.local_step(*instr) {
            LocalStep::Goes => (),
            LocalStep::Ticks => {
                running.task.ticks += 1;
                if running.task.ticks == 4096 {
                    return Ok(());
                }
            }
            LocalStep::Divides => {
                let Some(line) = line(code, running.task.level.body, running.task.level.at) else {
                    unreachable!()
                };
                running.task.standing = Standing::Ended(Ending::Trapped(Trap::Divide, line.1));
                return Ok(());
            }
            LocalStep::Full => return Err(NoMemory),
            LocalStep::Other => return Ok(()),
            LocalStep::Stuck => unreachable!(),
        }
    }
    Ok(())
}
