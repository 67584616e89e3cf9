ghost use Rattle.std.specs.Prelude.{◌≡◌, ◌≤◌, ◌↔◌, IsTrue};
ghost use Rattle.tool_io.specs.Ends.{next_count};

use std::marker::Model;

/// Which calls of an end in memory fail, with counts of its calls and of its faults.
#[derive(Debug, Drop)]
pub(crate) struct Plan {
    fails: Vec<u64>,
    calls: u64,
    faults: u64,
}

impl Model for Plan {
    ghost use Rattle.tool_io.specs.Plan.{FaultPlan};

    ghost Value = { FaultPlan };

    ghost view = { λ p. record { fails = p.fails.items; calls = p.calls; faults = p.faults } };
}

impl Plan {
    ghost use Rattle.tool_io.specs.Plan.{FailsNext};

    /// No call was made yet. The calls numbered in `fails`, counted from 1, are those that fail.
    pub(crate) fn new(fails: Vec<u64>) -> Plan
        ensures { result ≡ record { fails = fails.items; calls = 0; faults = 0 } }
    {
        Plan {
            fails,
            calls: 0,
            faults: 0,
        }
    }

    /// Counts a call, and says whether it is one that fails.
    pub(crate) fn next_fails(&mut self) -> bool
        ensures answer { IsTrue result ↔ FailsNext self.old }
        ensures counted { self.new ≡ record self.old { calls = next_count self.old.calls } }
    {
        let Some(call) = self.calls.checked_add(1) else {
            return false;
        };
        self.calls = call;
        self.fails.contains(&call)
    }

    /// Counts a fault.
    pub(crate) fn count_fault(&mut self)
        ensures counted { self.new ≡ record self.old { faults = next_count self.old.faults } }
        ensures never_falls { self.old.faults ≤ self.new.faults }
    {
        self.faults = self.faults.saturating_add(1);
    }
}
