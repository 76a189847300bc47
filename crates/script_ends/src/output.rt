//! Text that is written to a sink through a buffer.

ghost use Rattle.std.specs.Prelude.{◌≡◌, ◌<◌, OnOk, false, length};
ghost use Rattle.script_ends.specs.Ends.{WritesAll, WriteEnds};
ghost use Rattle.script_ends.specs.Answers.{Pours, PutsOutcome, PutCause};

use crate::ends::{Sink, WriteFailed};
use crate::fault::RunFault;
use ed_types::Outcome;
use macro_script::printing::append_outcome;

/// A buffer is written once it has this length, in bytes.
pub const FULL: usize = 65_536;

/// Writes all bytes.
///
/// # Errors
///
/// `WriteFailed` if a write fails or takes no byte. A front part of the bytes may be written then.
pub fn write_all<W: Sink>(sink: &mut W, bytes: &[u8]) -> Result<(), WriteFailed>
    requires { W.has_failed sink.old ≡ false }
    ensures written { WritesAll bytes.now (W.contents sink.old) (W.contents sink.new) result }
    ensures cause { WriteEnds result (W.has_failed sink.new) }
{
    let mut at = 0;
    while at < bytes.len() {
        let count = sink.write(&bytes[at..])?;
        if count == 0 {
            return Err(WriteFailed);
        }
        at += count;
    }
    Ok(())
}

/// Writes a buffer if it is full, and empties it then.
///
/// # Errors
///
/// `WriteFailed` if a write fails or takes no byte.
pub fn pour<W: Sink>(sink: &mut W, buffer: &mut Vec<u8>) -> Result<(), WriteFailed>
    requires { W.has_failed sink.old ≡ false }
    ensures poured { Pours result (W.contents sink.old) (W.contents sink.new) buffer.old.items buffer.new.items }
    ensures short { OnOk result (length buffer.new.items < 65536) }
    ensures cause { WriteEnds result (W.has_failed sink.new) }
{
    if buffer.len() >= FULL {
        write_all(sink, buffer)?;
        buffer.clear();
    }
    Ok(())
}

/// Appends what an outcome prints to the buffer, and writes the buffer if it is full then.
///
/// # Errors
///
/// `Script` if an allocation fails, and `Write` if a write fails or takes no byte.
pub fn put<W: Sink>(sink: &mut W, buffer: &mut Vec<u8>, outcome: &Outcome) -> Result<(), RunFault>
    requires { W.has_failed sink.old ≡ false }
    ensures put { PutsOutcome outcome.now result (W.contents sink.old) (W.contents sink.new) buffer.old buffer.new }
    ensures cause { PutCause result (W.has_failed sink.new) }
{
    append_outcome(buffer, outcome)?;
    pour(sink, buffer)?;
    Ok(())
}
