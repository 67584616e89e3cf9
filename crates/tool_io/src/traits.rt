ghost use Rattle.std.specs.Prelude.{◌≡◌, ◌<◌, ◌≤◌, ◌-◌, ◌++◌, ℕ, Option, List, Some, length, take, drop, IfOk, IfSome, OnErr};
ghost use Rattle.tool_io.specs.Ends.{Rose, Fills};

use thiserror::Error;

/// A call of a source or a sink that failed. The end's count of faults tells that it did.
#[derive(Clone, Copy, Debug, PartialEq, Eq, Error)]
#[error("a read or a write failed")]
pub struct Failed;

/// Where bytes come from.
pub trait Source {
    /// What is left, where the source tells it.
    ghost left: { Self → Option (List ℕ) };

    /// How many calls failed. It never falls.
    ghost faults: { Self → ℕ };

    /// Puts bytes at the front of the buffer and answers how many; 0 is the end of input. It takes no
    /// memory. After `Failed` the content of the buffer isn't known.
    fn fill(&mut self, buf: &mut [u8]) -> Result<usize, Failed>
        requires { 0 < length buf.old }
        ensures bound { IfOk result (λ n. n ≤ length buf.old) }
        ensures never_falls { faults self.old ≤ faults self.new }

        // Where it says what is left: what came, and what is left then.
        ensures filled { IfOk result (λ n. IfSome (left self.old) (λ bytes. Fills bytes buf.new n)) }
        ensures taken { IfOk result (λ n. IfSome (left self.old) (λ bytes. left self.new ≡ Some (drop n bytes))) }

        ensures failed { OnErr result (Rose (faults self.old) (faults self.new)) }
        ensures kept { OnErr result (IfSome (left self.old) (λ bytes. left self.new ≡ Some bytes)) };
}

/// Where bytes go.
pub trait Sink {
    /// What it holds, where the sink tells it.
    ghost held: { Self → Option (List ℕ) };

    /// How many bytes it still takes, where the sink tells it.
    ghost room: { Self → Option ℕ };

    /// How many calls failed. It never falls.
    ghost faults: { Self → ℕ };

    /// Appends some first bytes of the piece, at least one, and answers how many. It takes no memory.
    fn put(&mut self, bytes: &[u8]) -> Result<usize, Failed>
        requires { 0 < length bytes.now }
        ensures bound { IfOk result (λ n. (1 ≤ n) × (n ≤ length bytes.now)) }
        ensures never_falls { faults self.old ≤ faults self.new }

        // Where it says what it holds.
        ensures appended { IfOk result (λ n. IfSome (held self.old) (λ old. held self.new ≡ Some (old ++ take n bytes.now))) }
        ensures kept { OnErr result (IfSome (held self.old) (λ old. held self.new ≡ Some old)) }

        ensures failed { OnErr result (Rose (faults self.old) (faults self.new)) }

        // Where it says how much room there is: it falls by the answer, and only a full sink fails or counts a fault.
        ensures room { IfOk result (λ n. IfSome (room self.old) (λ old. (n ≤ old) × (room self.new ≡ Some (old - n)))) }
        ensures room_kept { OnErr result (room self.new ≡ room self.old) }
        ensures full { OnErr result (IfSome (room self.old) (λ old. old ≡ 0)) }
        ensures untroubled { IfSome (room self.old) (λ old. 0 < old → faults self.new ≡ faults self.old) };
}
