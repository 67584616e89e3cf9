ghost use Rattle.std.specs.Prelude.{◌≡◌, replicate, None, IfOk, MatchOption};
ghost use Rattle.exec_run.specs.Rounding.{IsMadeAlone};

use crate::finish::came_out;
use crate::history::Record;
use exec_machine::Machine;
use lang_base::{Items, NoMemory, Outcome};
use std::alloc::Global;

/// A run that has come out, and how.
#[derive(Drop)]
pub struct Recorded {
    pub record: Record,
    pub outcome: Outcome,
}

/// The record of a run that the caller made, by so many rounds, once it has come out.
pub fn made_alone(
    alloc: Global,
    machine: Machine,
    workers: u32,
    rounds: u64,
) -> Result<Option<Recorded>, NoMemory>
    ensures { IfOk result (λ made. MatchOption made (machine.outcome ≡ None) (IsMadeAlone workers rounds machine)) }
{
    let Some(outcome) = came_out(alloc, &machine)? else {
        return Ok(None);
    };
    let shares = no_shares(alloc, workers)?;
    let own = machine.schedule().len() as u64;
    let record = Record {
        machine,
        shares,
        own,
        rounds,
    };
    Ok(Some(Recorded { record, outcome }))
}

/// A share of 0 for each worker.
fn no_shares(alloc: Global, workers: u32) -> Result<Items<u64>, NoMemory>
    ensures { IfOk result (λ shares. shares ≡ replicate workers 0) }
{
    Ok(Items::from_vec(vec![in alloc; 0; workers as usize]?))
}
