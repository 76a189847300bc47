//! Why a call is refused.

ghost use Rattle.std.specs.Prelude.{◌≡◌};
ghost use Rattle.ed_types.specs.declared.refusal.Refusal.TheVariants.{OutOfMemory};

use std::alloc::AllocError;
use thiserror::Error;

/// Why a call is refused. A refused call has changed nothing. Scripts print `refusal as u8`.
#[derive(Clone, Copy, Debug, PartialEq, Eq, Error)]
pub enum Refusal {
    /// An allocation failed.
    #[error("out of memory")]
    OutOfMemory = 1,
    /// No view has that id.
    #[error("no such view")]
    NoSuchView = 2,
    /// The profile has no such message.
    #[error("unknown message")]
    UnknownMessage = 3,
    /// No document has that id, or the caller holds no reference to it.
    #[error("no such document")]
    NoSuchDocument = 4,
    /// After some step the text would be longer than its limit.
    #[error("text too long")]
    TooLong = 5,
    /// An argument is outside the range that the message documents.
    #[error("bad argument")]
    BadArgument = 6,
    /// The handles, the ids, the references, the depth of groups or the open views are used up.
    #[error("too many")]
    TooMany = 7,
}

impl From<AllocError> for Refusal {
    ghost from_gives = { λ _ refusal. refusal ≡ OutOfMemory };

    fn from(_failed: AllocError) -> Refusal {
        Refusal::OutOfMemory
    }
}
