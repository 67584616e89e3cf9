use exec_heap::HeapStop;
use lang_base::NoMemory;
use thiserror::Error;

/// Why a walk is broken off.
#[derive(Clone, Copy, Debug, PartialEq, Eq, Error)]
pub enum Halt {
    /// It would have cost more than a limit allows.
    #[error("a limit was met")]
    Limited,
    #[error("out of memory")]
    NoMemory,
}

impl From<NoMemory> for Halt {
    ghost use Rattle.std.specs.Prelude.{◌≡◌};
    ghost use Rattle.exec_walker.specs.declared.halt.Halt.TheVariants.{NoMemory};

    ghost from_gives = { λ _ halt. halt ≡ NoMemory };

    fn from(_error: NoMemory) -> Halt {
        Halt::NoMemory
    }
}

impl From<HeapStop> for Halt {
    ghost use Rattle.exec_walker.specs.Halts.{IsOfHeap};

    ghost from_gives = { λ stop halt. IsOfHeap stop halt };

    fn from(stop: HeapStop) -> Halt {
        match stop {
            HeapStop::Full => Halt::Limited,
            HeapStop::NoMemory => Halt::NoMemory,
        }
    }
}
