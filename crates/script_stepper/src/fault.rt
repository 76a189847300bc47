//! The faults of a stepper.

ghost use Rattle.std.specs.Prelude.{◌≡◌};
ghost use Rattle.script_stepper.specs.declared.fault.StepFault.TheVariants.{OutOfMemory};

use std::alloc::AllocError;
use thiserror::Error;

/// Why a stepper did not move. The stepper is then unchanged.
#[derive(Clone, Copy, Debug, PartialEq, Eq, Error)]
pub enum StepFault {
    /// The script has fewer commands.
    #[error("out of range")]
    OutOfRange,
    /// An allocation failed.
    #[error("out of memory")]
    OutOfMemory,
}

impl From<AllocError> for StepFault {
    ghost from_gives = { λ _ fault. fault ≡ OutOfMemory };

    fn from(_refused: AllocError) -> StepFault {
        StepFault::OutOfMemory
    }
}
