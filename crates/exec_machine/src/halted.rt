use lang_base::NoMemory;
use thiserror::Error;

/// Why a step was not made. The machine is as it was.
#[derive(Clone, Copy, Debug, PartialEq, Eq, Error)]
pub enum Halted {
    /// The task can't make its next event.
    #[error("the machine is stuck")]
    Stuck,
    #[error("out of memory")]
    NoMemory,
}

impl From<NoMemory> for Halted {
    ghost use Rattle.std.specs.Prelude.{◌≡◌};
    ghost use Rattle.exec_machine.specs.declared.halted.Halted.TheVariants.{NoMemory};

    ghost from_gives = { λ _ halted. halted ≡ NoMemory };

    fn from(_error: NoMemory) -> Halted {
        Halted::NoMemory
    }
}
