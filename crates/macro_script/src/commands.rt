//! Reading of commands from their lines.

ghost use Rattle.std.specs.Prelude.{◌≡◌, option_map};
ghost use Rattle.ed_model.specs.Reading.{verb_in, verbs_of, command_of, opens, closes, loads, sends, expects, read_command as read_command_of};
ghost use Rattle.macro_script.specs.Stops.{Answers};
ghost use Rattle.macro_script.specs.Versions.{number_of, verb_of as verb_meant};

use crate::fields::Fields;
use crate::stop::Stop;
use ed_types::{Cause, Command, Message};
use std::alloc::Global;

/// A version of the language, as the first line names it.
#[derive(Clone, Copy)]
pub enum Version {
    One,
    Two,
}

/// The kinds of commands.
#[derive(Clone, Copy)]
pub enum Verb {
    Open,
    Close,
    Load,
    Send,
    Expect,
}

/// Returns the kind of command that a word names in a version, or `None`.
fn named(version: Version, word: &[u8]) -> Option<Verb>
    ensures { option_map verb_meant result ≡ verb_in (verbs_of (number_of version)) word.now }
{
    if word == b"send".as_slice() {
        return Some(Verb::Send);
    }
    if word == b"open".as_slice() {
        return Some(Verb::Open);
    }
    if word == b"close".as_slice() {
        return Some(Verb::Close);
    }
    if word == b"load".as_slice() {
        return Some(Verb::Load);
    }
    match version {
        Version::Two if word == b"expect".as_slice() => Some(Verb::Expect),
        _ => None,
    }
}

fn read_close(fields: &mut Fields) -> Result<Command, Cause>
    ensures { result ≡ command_of closes fields.old }
{
    let view = fields.natural()?;
    fields.ended(Command::CloseView { view })
}

fn read_load(fields: &mut Fields) -> Result<Command, Cause>
    ensures { result ≡ command_of loads fields.old }
{
    let view = fields.natural()?;
    let file = fields.natural()?;
    fields.ended(Command::LoadFile { view, file })
}

fn read_expect(fields: &mut Fields) -> Result<Command, Cause>
    ensures { result ≡ command_of expects fields.old }
{
    let value = fields.integer()?;
    fields.ended(Command::Expect { value })
}

fn read_send(alloc: Global, fields: &mut Fields) -> Result<Command, Stop>
    ensures { Answers (command_of sends fields.old) result }
{
    let view = fields.natural()?;
    let number = fields.natural()?;
    let w = fields.integer()?;
    let l = fields.integer()?;
    let text = fields.text(alloc)?;
    let message = Message { number, w, l, text };
    Ok(fields.ended(Command::SendMessage { view, message })?)
}

/// Reads the command of a line in a version.
///
/// # Errors
///
/// `Stop::Fault` if the line is no command of the version, and `Stop::OutOfMemory` if an allocation fails.
pub(crate) fn read_command(alloc: Global, version: Version, line: &[u8]) -> Result<Command, Stop>
    ensures { Answers (read_command_of (number_of version) line.now) result }
{
    let mut fields = Fields::new(line);
    let word = fields.word();
    match named(version, word) {
        Some(Verb::Open) => Ok(fields.ended(Command::OpenView)?),
        Some(Verb::Close) => Ok(read_close(&mut fields)?),
        Some(Verb::Load) => Ok(read_load(&mut fields)?),
        Some(Verb::Send) => read_send(alloc, &mut fields),
        Some(Verb::Expect) => Ok(read_expect(&mut fields)?),
        None => Err(Stop::Fault(Cause::UnknownCommand)),
    }
}
