ghost use Rattle.std.specs.Prelude.{◌≡◌, ◌↔◌, ◌<◌, ◌≤◌, ◌+◌, ◌-◌, ◌++◌, ℕ, Some, length, take, IsOk, OnOk, OnErr, IfSome};
ghost use Rattle.tool_io.specs.Ends.{Rose};

use crate::traits::{Failed, Sink};
use thiserror::Error;

/// A write that failed before all bytes were written.
#[derive(Clone, Copy, Debug, PartialEq, Eq, Error)]
#[error("writing failed")]
pub struct WriteFault;

impl From<Failed> for WriteFault {
    fn from(_failed: Failed) -> WriteFault {
        WriteFault
    }
}

/// Writes all bytes after what the sink holds. After a fault a first part of them is written. It takes no
/// memory.
pub fn write_all<K: Sink>(sink: &mut K, bytes: &[u8]) -> Result<(), WriteFault>
    ensures all { OnOk result (IfSome (K.held sink.old) (λ old. K.held sink.new ≡ Some (old ++ bytes.now))) }
    ensures some { OnErr result (IfSome (K.held sink.old) (λ old. (n : ℕ) × (n ≤ length bytes.now) × (K.held sink.new ≡ Some (old ++ take n bytes.now)))) }
    ensures fault { OnErr result (Rose (K.faults sink.old) (K.faults sink.new)) }
    ensures never_falls { K.faults sink.old ≤ K.faults sink.new }

    // Where the sink tells its room: what suffices, and what is left of it.
    ensures succeeds { IfSome (K.room sink.old) (λ room. IsOk result ↔ (length bytes.now ≤ room)) }
    ensures room { OnOk result (IfSome (K.room sink.old) (λ room. K.room sink.new ≡ Some (room - length bytes.now))) }
    ensures untroubled { OnOk result (IfSome (K.room sink.old) (λ _. K.faults sink.new ≡ K.faults sink.old)) }
    ensures full { OnErr result (IfSome (K.room sink.old) (λ _. K.room sink.new ≡ Some 0)) }
    ensures filled { OnErr result (IfSome (K.room sink.old) (λ room. IfSome (K.held sink.old) (λ old. K.held sink.new ≡ Some (old ++ take room bytes.now)))) }
{
    let mut done = 0;
    while done < bytes.len() {
        done += sink.put(&bytes[done..])?;
    }
    Ok(())
}
