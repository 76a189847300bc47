//! Listing and checking of scripts, from a source to a sink.

ghost use Rattle.std.specs.Prelude.{◌≡◌, IfSome, false};
ghost use Rattle.ed_model.specs.Listing.{listing};
ghost use Rattle.ed_model.specs.Reading.{reading};
ghost use Rattle.script_ends.specs.Ends.{TakesAtMost};
ghost use Rattle.script_ends.specs.Answers.{Answers, HasCause, WritesNoneAtRead, checked, none};

use crate::ends::{Sink, Source};
use crate::fault::RunFault;
use crate::output::write_all;
use crate::reading::read_script;
use macro_script::list;
use macro_script::printing::append_number;
use std::alloc::Global;

/// Reads a script, assembles it, and writes its listing. Returns 0.
///
/// # Errors
///
/// `Script` with the fault of bytes that are no script, or if an allocation fails; `Read` if a read fails; and `Write`
/// if a write fails or takes no byte. Nothing is written before the listing is made. What was written before an error
/// is a front part of the listing.
pub fn list_script<R: Source, W: Sink>(
    alloc: Global,
    reader: &mut R,
    writer: &mut W,
) -> Result<u64, RunFault>
    requires reader { R.has_failed reader.old ≡ false }
    requires writer { W.has_failed writer.old ≡ false }
    ensures listed { IfSome (R.remaining reader.old) (λ bytes.
        Answers (listing 2) none (reading bytes) result (W.contents writer.old) (W.contents writer.new)) }
    ensures taken { TakesAtMost 16777217 (R.remaining reader.old) (R.remaining reader.new) }
    ensures cause { HasCause result (R.has_failed reader.new) (W.has_failed writer.new) }
    ensures unread { WritesNoneAtRead result (W.contents writer.old) (W.contents writer.new) }
{
    let script = read_script(alloc, reader)?;
    let text = list(alloc, &script)?;
    write_all(writer, &text)?;
    Ok(0)
}

/// Reads a script, assembles it, and writes `ok N`, where N is the number of its commands. Returns 0.
///
/// # Errors
///
/// Those of `list_script`.
pub fn check_script<R: Source, W: Sink>(
    alloc: Global,
    reader: &mut R,
    writer: &mut W,
) -> Result<u64, RunFault>
    requires reader { R.has_failed reader.old ≡ false }
    requires writer { W.has_failed writer.old ≡ false }
    ensures checked { IfSome (R.remaining reader.old) (λ bytes.
        Answers checked none (reading bytes) result (W.contents writer.old) (W.contents writer.new)) }
    ensures taken { TakesAtMost 16777217 (R.remaining reader.old) (R.remaining reader.new) }
    ensures cause { HasCause result (R.has_failed reader.new) (W.has_failed writer.new) }
    ensures unread { WritesNoneAtRead result (W.contents writer.old) (W.contents writer.new) }
{
    let script = read_script(alloc, reader)?;
    let mut line = Vec::from_slice(alloc, b"ok ")?;
    append_number(&mut line, script.commands().len() as u64)?;
    line.extend_from_slice(b"\n")?;
    write_all(writer, &line)?;
    Ok(0)
}
