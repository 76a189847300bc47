//! Reading of the lines of a script.

ghost use Rattle.std.specs.Prelude.{◌≡◌, ◌≤◌, ◌<◌, ◌^◌, ◌==◌, length, [], ◌∷◌, MatchOption, if◌then◌else◌, Err, Ok, ◌*◌, vec_len, vec_capacity, IfOk};
ghost use Rattle.std.specs.List.{slice_split};
ghost use Rattle.ed_types.specs.declared.script.Cause.TheVariants.{NoLineEnd, LineTooLong};
ghost use Rattle.ed_types.specs.declared.script.ScriptFault.TheVariants.{BadLine};
ghost use Rattle.ed_model.specs.Listing.{fits_line};
ghost use Rattle.ed_model.specs.Reading.{at_line, read_command as read_command_of, read_version as read_version_of};
ghost use Rattle.macro_script.specs.Versions.{number_of};
ghost use Rattle.macro_script.specs.Lines.{SplitsLine, OrMemory, ReadsLines, version_numbers};

use crate::commands::{Version, read_command};
use crate::stop::Stop;
use ed_types::{Cause, Command, ScriptFault};
use memchr::memchr;
use std::alloc::Global;

/// The greatest length of a line, without its LF, in bytes.
pub const LINE_LIMIT: usize = 65_536;

/// Returns the first line without its LF, and what comes behind it, or `None` if no LF ends a line.
pub(crate) fn split_line(text: &[u8]) -> Option<(&[u8], &[u8])>
    ensures { SplitsLine text.now result }
{
    let Some(end) = memchr(b'\n', text) else {
        return None;
    };
    Some((&text[..end], &text[end + 1..]))
}

/// Returns the fault of a last line without an LF. Lines are counted from 1.
pub(crate) fn unended(number: u64, line: &[u8]) -> ScriptFault
    ensures { result ≡ BadLine number (if fits_line line.now then NoLineEnd else LineTooLong) }
{
    let cause = if line.len() > LINE_LIMIT {
        Cause::LineTooLong
    } else {
        Cause::NoLineEnd
    };
    ScriptFault::BadLine {
        line: number,
        cause,
    }
}

/// Returns the version that the first line names.
///
/// # Errors
///
/// `BadLine` if it names none.
pub(crate) fn read_version(line: &[u8]) -> Result<Version, ScriptFault>
    ensures { version_numbers result ≡ at_line 1 line.now (read_version_of line.now) }
{
    if line == b"sci 1".as_slice() {
        return Ok(Version::One);
    }
    if line == b"sci 2".as_slice() {
        return Ok(Version::Two);
    }
    let cause = if line.len() > LINE_LIMIT {
        Cause::LineTooLong
    } else {
        Cause::BadVersion
    };
    Err(ScriptFault::BadLine { line: 1, cause })
}

/// Reads the command of a line.
fn read_line(
    alloc: Global,
    version: Version,
    number: u64,
    line: &[u8],
) -> Result<Command, ScriptFault>
    ensures { OrMemory (at_line number line.now (read_command_of (number_of version) line.now)) result }
{
    if line.len() > LINE_LIMIT {
        return Err(ScriptFault::BadLine {
            line: number,
            cause: Cause::LineTooLong,
        });
    }
    match read_command(alloc, version, line) {
        Ok(command) => Ok(command),
        Err(Stop::Fault(cause)) => Err(ScriptFault::BadLine {
            line: number,
            cause,
        }),
        Err(Stop::OutOfMemory) => Err(ScriptFault::OutOfMemory),
    }
}

/// Reads the commands of the lines after the first.
///
/// # Errors
///
/// `BadLine` with the first line at fault, counted from 1, and `OutOfMemory` if an allocation fails.
pub(crate) fn read_lines(
    alloc: Global,
    version: Version,
    text: &[u8],
) -> Result<Vec<Command>, ScriptFault>
    requires { length text.now ≤ 16777216 }
    ensures lines { ReadsLines (number_of version) text.now result }
    ensures few { IfOk result (λ commands. vec_capacity commands ≤ 2 * vec_len commands) }
{
    let mut commands = Vec::new(alloc);
    let mut rest = text;
    let mut number = 2u64;
    while let Some((line, after)) = split_line(rest) {
        let command = match read_line(alloc, version, number, line) {
            Ok(command) => command,
            Err(fault) => return Err(fault),
        };
        vec_room::reserve(&mut commands, 1)?;
        commands.push_reserved(command);
        rest = after;
        number += 1;
    }
    if rest.is_empty() {
        return Ok(commands);
    }
    Err(unended(number, rest))
}
