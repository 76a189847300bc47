//! Why a line gives no command.

ghost use Rattle.std.specs.Prelude.{◌≡◌};
ghost use Rattle.macro_script.specs.declared.stop.Stop.TheVariants.{Fault, OutOfMemory};

use ed_types::Cause;
use std::alloc::{AllocError, AllocFailed};

/// Why a line gives no command.
#[derive(Clone, Copy)]
pub enum Stop {
    /// The line is at fault.
    Fault(Cause),
    /// An allocation failed.
    OutOfMemory,
}

impl From<Cause> for Stop {
    ghost from_gives = { λ cause stop. stop ≡ Fault cause };

    fn from(cause: Cause) -> Stop {
        Stop::Fault(cause)
    }
}

impl From<AllocError> for Stop {
    ghost from_gives = { λ _ stop. stop ≡ OutOfMemory };

    fn from(_refused: AllocError) -> Stop {
        Stop::OutOfMemory
    }
}

impl<T: Drop> From<AllocFailed<T>> for Stop {
    ghost from_gives = { λ _ stop. stop ≡ OutOfMemory };

    fn from(_refused: AllocFailed<T>) -> Stop {
        Stop::OutOfMemory
    }
}
