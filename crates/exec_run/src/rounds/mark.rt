use exec_machine::Machine;

/// How many steps an event must cost, taken together, for the tasks' ways to be long.
const LONG: u64 = 64;

/// How many steps a thread must make to be worth its beginning.
const SHARE: u64 = 4096;

/// How far a machine is.
#[derive(Clone, Copy, Debug)]
pub struct Mark {
    steps: u64,
    events: usize,
}

impl Mark {
    pub fn of(machine: &Machine) -> Mark {
        Mark {
            steps: machine.steps(),
            events: machine.schedule().len(),
        }
    }

    /// How many threads, of at most so many, would have been useful for what the machine has done since.
    pub fn useful_threads(self, machine: &Machine, most: usize) -> usize {
        let events = machine.schedule().len().saturating_sub(self.events) as u64;
        let steps = machine.steps().saturating_sub(self.steps);
        if events > steps / LONG {
            return 1;
        }
        most.min((steps / SHARE) as usize)
    }
}
