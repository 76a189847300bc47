//! Why a run stopped, and the exit status of the program.

ghost use Rattle.std.specs.Prelude.{◌≡◌};
ghost use Rattle.ed_types.specs.declared.script.ScriptFault.TheVariants.{OutOfMemory};
ghost use Rattle.script_ends.specs.declared.fault.RunFault.TheVariants.{Script, Read, Write};
ghost use Rattle.script_ends.specs.Status.{status};

use crate::ends::{ReadFailed, WriteFailed};
use ed_types::ScriptFault;
use std::alloc::AllocError;
use thiserror::Error;

/// Why a script was not run to its end.
#[derive(Clone, Copy, Debug, PartialEq, Eq, Error)]
pub enum RunFault {
    /// The bytes are no script, or an allocation failed.
    #[error("{0}")]
    Script(ScriptFault),
    /// A read failed.
    #[error("read fault")]
    Read,
    /// A write failed, or took no byte.
    #[error("write fault")]
    Write,
}

impl From<ScriptFault> for RunFault {
    ghost from_gives = { λ cause fault. fault ≡ Script cause };

    fn from(cause: ScriptFault) -> RunFault {
        RunFault::Script(cause)
    }
}

impl From<AllocError> for RunFault {
    ghost from_gives = { λ _ fault. fault ≡ Script OutOfMemory };

    fn from(_refused: AllocError) -> RunFault {
        RunFault::Script(ScriptFault::OutOfMemory)
    }
}

impl From<ReadFailed> for RunFault {
    ghost from_gives = { λ _ fault. fault ≡ Read };

    fn from(_failed: ReadFailed) -> RunFault {
        RunFault::Read
    }
}

impl From<WriteFailed> for RunFault {
    ghost from_gives = { λ _ fault. fault ≡ Write };

    fn from(_failed: WriteFailed) -> RunFault {
        RunFault::Write
    }
}

/// Returns the exit status of the program for the answer of a run: 0 if it is done and each `expect` was met, 4 if one
/// was not, 1 for a refused script or a failed allocation, 3 for a failed read or write. (2 is for words that are no
/// job, and never returned here.) Allocates nothing.
pub fn status_of(answer: &Result<u64, RunFault>) -> u8
    ensures { result ≡ status answer.now }
{
    match answer {
        Ok(0) => 0,
        Ok(_) => 4,
        Err(RunFault::Script(_)) => 1,
        Err(RunFault::Read | RunFault::Write) => 3,
    }
}
