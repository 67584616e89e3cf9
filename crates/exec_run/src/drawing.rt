ghost use Rattle.std.specs.Prelude.{◌≡◌, MatchOption};
ghost use Rattle.exec_world.specs.Ready.{NoneReady};
ghost use Rattle.exec_run.specs.Seeding.{next_state, number_drawn, IsDrawn};

use exec_machine::Machine;

/// The state of a generator after another, with the constants of Knuth's MMIX.
pub fn next_state(state: u64) -> u64
    ensures { result ≡ next_state state }
{
    state
        .wrapping_mul(6364136223846793005)
        .wrapping_add(1442695040888963407)
}

/// The ready task that a state draws, if any is ready.
pub fn drawn(machine: &mut Machine, state: u64) -> Option<u32>
    ensures same { machine.new ≡ machine.old }
    ensures drawn { MatchOption result (NoneReady machine.old.world) (IsDrawn machine.old.world state) }
{
    let greatest = machine.next_ready()?;
    let bound = number_drawn(state, greatest);
    match machine.ready_below(bound) {
        Some(task) => Some(task),
        None => Some(greatest),
    }
}

/// The number up to a greatest one that a state gives. The high half of a state is taken, since its low bits repeat soon.
fn number_drawn(state: u64, greatest: u32) -> u32
    ensures { result ≡ number_drawn state greatest }
{
    ((state >> 32) % (greatest as u64 + 1)) as u32
}
