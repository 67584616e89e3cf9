ghost use Rattle.std.specs.Prelude.{◌≡◌, ◌==◌, ℕ, IfOk, option_map, map, slice_get};
ghost use Rattle.std.specs.Option.{option_copied};
ghost use Rattle.exec_task.specs.Names.{names_of, plain_effect, plain_part};
ghost use Rattle.exec_task.specs.Tasks.{plain_frame, state_of};
ghost use Rattle.code_instrs.specs.Machine.{Level};
ghost use Rattle.code_instrs.specs.Plain.{plain_code, body_at};
ghost use Rattle.lang_meaning.specs.Asking.{most_ticks};
ghost use Rattle.lang_meaning.specs.Regions.{around, concrete_effect};
ghost use Rattle.exec_machine.specs.Wants.{WantsRightly, wants_at, wanted_after, effects_of, entry_of, entry_by, noted, noted_part};

use code_instrs::{Code, Instr, Site};
use exec_frames::Frame;
use exec_task::{Action, Own, Standing, Task, concrete_effect, line};
use lang_base::{Effect, Elem, Elems, Head, Index, Items, NoMemory, Rpl};
use std::alloc::Global;

/// The effects of the entry at a position of a body, if there is one.
fn entry_at(code: &Code, body: usize, at: usize) -> Option<&Items<Effect>>
    ensures { (g : Level ℕ (ℕ × ℕ)) → effects_of g (option_copied result) ≡ entry_of (plain_code code.now) g (slice_get (body_at (plain_code code.now) body).lines at) }
{
    let Some(line) = line(code, body, at) else {
        return None;
    };
    entry_by(code, line.0)
}

/// The effects of an instruction that enters a block.
fn entry_by(code: &Code, instr: Instr) -> Option<&Items<Effect>>
    ensures { (g : Level ℕ (ℕ × ℕ)) → effects_of g (option_copied result) ≡ entry_by (plain_code code.now) g instr }
{
    let Instr::Enter(site) = instr else {
        return None;
    };
    let Some(Site::Block { effects }) = code.sites.get(site) else {
        return None;
    };
    Some(effects)
}

/// With which effects a task is to enter that stands at this action, if it rests in front of an entry.
pub fn wants_at(
    alloc: Global,
    code: &Code,
    task: &Task,
    action: &Action,
) -> Result<Option<Items<Effect>>, NoMemory>
    ensures { IfOk result (λ wants. WantsRightly (plain_code code.now) (state_of task.now) task.now.ticks action.now wants) }
{
    match action {
        Action::Do(Own::Rest) => wants_of(alloc, code, task),
        _ => Ok(None),
    }
}

/// The effects of the entry in front of which a task stands, if it does and hasn't made its last tick without an event.
fn wants_of(alloc: Global, code: &Code, task: &Task) -> Result<Option<Items<Effect>>, NoMemory>
    ensures { IfOk result (λ wants. wants ≡ option_map (map noted) (wanted_after (plain_code code.now) task.now.ticks (state_of task.now))) }
{
    if is_spent(task) {
        return Ok(None);
    }
    let Standing::At = task.standing else {
        return Ok(None);
    };
    let level = &task.level;
    let Some(accesses) = entry_at(code, level.body, level.at) else {
        return Ok(None);
    };
    Ok(Some(effects_of(alloc, &level.frame, accesses)?))
}

/// Whether a task has made all ticks that it may make without an event.
fn is_spent(task: &Task) -> bool
    ensures { result ≡ (task.now.ticks == most_ticks) }
{
    task.ticks == 4096
}

/// The effects of accesses in a frame, as they are noted.
fn effects_of(
    alloc: Global,
    frame: &Frame,
    accesses: &Items<Effect>,
) -> Result<Items<Effect>, NoMemory>
    ensures { IfOk result (λ effects. effects ≡ map noted (map (concrete_effect (names_of 0) (around (plain_frame frame.now))) accesses.now)) }
{
    let mut effects = Items::new(alloc);
    for access in accesses.as_slice() {
        let effect = concrete_effect(alloc, frame, access)?;
        effects.push(noted(alloc, &effect)?)?;
    }
    Ok(effects)
}

/// An effect as it is noted: its path begins at the root, and each index is a whole number.
fn noted(alloc: Global, effect: &Effect) -> Result<Effect, NoMemory>
    ensures { IfOk result (λ e. e ≡ noted (plain_effect effect.now)) }
{
    let mut elems = Elems::new(alloc);
    for elem in effect.rpl.elems.as_slice() {
        elems.push(noted_elem(*elem))?;
    }
    Ok(Effect {
        access: effect.access,
        atomic: false,
        rpl: Rpl {
            head: Head::Root,
            elems,
        },
    })
}

/// An element of a noted path. No variable stands in a region of a run, and nothing is known of one but that it is an index.
fn noted_elem(elem: Elem) -> Elem
    ensures { result ≡ noted_part (plain_part elem) }
{
    match elem {
        Elem::At(Index::Variable(_) | Index::Renamed(_)) => Elem::Any,
        Elem::At(Index::Own(_)) => Elem::At(Index::Own(0)),
        _ => elem,
    }
}
