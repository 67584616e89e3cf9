ghost use Rattle.std.specs.Prelude.{◌≡◌, IfOk};

use exec_task::{Action, Own};
use exec_world::Event;
use lang_base::{Effect, Items, NoMemory, Plain};
use std::alloc::Global;

/// An equal event.
pub fn copied(alloc: Global, event: &Event) -> Result<Event, NoMemory>
    ensures { IfOk result (λ copy. copy ≡ event.now) }
{
    Ok(Event {
        task: event.task,
        ticks: event.ticks,
        action: copied_action(alloc, &event.action)?,
        wants: copied_wants(alloc, &event.wants)?,
    })
}

fn copied_wants(
    alloc: Global,
    wants: &Option<Items<Effect>>,
) -> Result<Option<Items<Effect>>, NoMemory>
    ensures { IfOk result (λ copy. copy ≡ wants.now) }
{
    match wants {
        Some(effects) => Ok(Some(effects.copy(alloc)?)),
        None => Ok(None),
    }
}

fn copied_action(alloc: Global, action: &Action) -> Result<Action, NoMemory>
    ensures { IfOk result (λ copy. copy ≡ action.now) }
{
    Ok(match action {
        Action::Do(own) => Action::Do(copied_own(alloc, own)?),
        Action::Fork { forking, branches } => Action::Fork {
            forking: *forking,
            branches: *branches,
        },
        Action::Begin { branch } => Action::Begin { branch: *branch },
        Action::Join => Action::Join,
        Action::End(ending) => Action::End(ending.copy(alloc)?),
    })
}

fn copied_own(alloc: Global, own: &Own) -> Result<Own, NoMemory>
    ensures { IfOk result (λ copy. copy ≡ own.now) }
{
    Ok(match own {
        Own::Rest => Own::Rest,
        Own::Read { object, index } => Own::Read {
            object: *object,
            index: *index,
        },
        Own::Write {
            object,
            index,
            value,
        } => Own::Write {
            object: *object,
            index: *index,
            value: *value,
        },
        Own::Look { object } => Own::Look { object: *object },
        Own::NewObject {
            class,
            regions,
            constructor,
        } => Own::NewObject {
            class: *class,
            regions: regions.copy(alloc)?,
            constructor: *constructor,
        },
        Own::NewArray { region, len, first } => Own::NewArray {
            region: region.copy(alloc)?,
            len: *len,
            first: *first,
        },
        Own::Print(bytes) => Own::Print(bytes.copy(alloc)?),
        Own::Enter(effects) => Own::Enter(effects.copy(alloc)?),
        Own::Exit => Own::Exit,
    })
}
