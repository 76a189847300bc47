//! Commands of scripts, their outcomes, and the faults of a script.

ghost use Rattle.std.specs.Prelude.{◌≡◌};
ghost use Rattle.ed_types.specs.declared.script.ScriptFault.TheVariants.{OutOfMemory};

use crate::message::Message;
use crate::refusal::Refusal;
use crate::reply::Reply;
use std::alloc::AllocError;
use thiserror::Error;

/// One command of a script.
#[derive(Debug, Drop)]
pub enum Command {
    /// Opens a view on a new document.
    OpenView,
    /// Closes a view.
    CloseView { view: u32 },
    /// Replaces the text of a view's document by that of a file; the first file is 1.
    LoadFile { view: u32, file: u32 },
    /// Sends a message to a view.
    SendMessage { view: u32, message: Message },
    /// Compares the value of the last command that is no `Expect` with `value`.
    Expect { value: i64 },
}

/// The outcome of a command.
#[derive(Debug, Drop)]
pub enum Outcome {
    /// A view was opened, with this id.
    Opened(u32),
    /// A view was closed.
    Closed,
    /// A message was answered.
    Replied(Reply),
    /// The command was refused, and changed nothing.
    Refused(Refusal),
    /// Whether the value was the expected one.
    Expected { met: bool, value: i64 },
}

/// Why a line is not a line of a script.
#[derive(Clone, Copy, Debug, PartialEq, Eq, Error)]
pub enum Cause {
    /// The line has more than 65,536 bytes before its end.
    #[error("LineTooLong")]
    LineTooLong,
    /// The last line has no LF. An empty script has this fault, too.
    #[error("NoLineEnd")]
    NoLineEnd,
    /// Line 1 is not `sci 1` or `sci 2`.
    #[error("BadVersion")]
    BadVersion,
    /// The bytes up to the first space or the end of the line are no command of the script's version.
    #[error("UnknownCommand")]
    UnknownCommand,
    /// A space, a number or an opening quote is missing, or something follows the last field.
    #[error("BadShape")]
    BadShape,
    /// A number is not written in the form of this language, or is out of range.
    #[error("BadNumber")]
    BadNumber,
    /// An escape is wrong, unneeded or cut short, a raw byte needs one, or the closing quote is missing.
    #[error("BadText")]
    BadText,
}

/// Why bytes are not a script, or no script could be made of them.
#[derive(Clone, Copy, Debug, PartialEq, Eq, Error)]
pub enum ScriptFault {
    /// The script has more than 16 MiB.
    #[error("script too long")]
    TooLong,
    /// The first line at fault, counted from 1, and its first cause.
    #[error("line {line}: {cause}")]
    BadLine { line: u64, cause: Cause },
    /// An allocation failed.
    #[error("out of memory")]
    OutOfMemory,
}

impl From<AllocError> for ScriptFault {
    ghost from_gives = { λ _ fault. fault ≡ OutOfMemory };

    fn from(_failed: AllocError) -> ScriptFault {
        ScriptFault::OutOfMemory
    }
}
