use lang_base::NoMemory;
use std::alloc::{AllocError, AllocFailed};
use thiserror::Error;

/// The heap would have more cells than its limit allows.
#[derive(Clone, Copy, Debug, PartialEq, Eq, Error)]
#[error("the heap is full")]
pub struct HeapFull;

/// Why an object couldn't be made. The heap is as it was.
#[derive(Clone, Copy, Debug, PartialEq, Eq, Error)]
pub enum HeapStop {
    /// It would have brought the heap over its limit.
    #[error("the heap is full")]
    Full,
    #[error("out of memory")]
    NoMemory,
}

impl From<NoMemory> for HeapStop {
    ghost use Rattle.std.specs.Prelude.{◌≡◌};
    ghost use Rattle.exec_heap.specs.declared.stop.HeapStop.TheVariants.{NoMemory};

    ghost from_gives = { λ _ stop. stop ≡ NoMemory };

    fn from(_error: NoMemory) -> HeapStop {
        HeapStop::NoMemory
    }
}

impl From<AllocError> for HeapStop {
    ghost use Rattle.std.specs.Prelude.{◌≡◌};
    ghost use Rattle.exec_heap.specs.declared.stop.HeapStop.TheVariants.{NoMemory};

    ghost from_gives = { λ _ stop. stop ≡ NoMemory };

    fn from(_error: AllocError) -> HeapStop {
        HeapStop::NoMemory
    }
}

impl<T: Drop> From<AllocFailed<T>> for HeapStop {
    ghost use Rattle.std.specs.Prelude.{◌≡◌};
    ghost use Rattle.exec_heap.specs.declared.stop.HeapStop.TheVariants.{NoMemory};

    ghost from_gives = { λ _ stop. stop ≡ NoMemory };

    fn from(_failed: AllocFailed<T>) -> HeapStop {
        HeapStop::NoMemory
    }
}
