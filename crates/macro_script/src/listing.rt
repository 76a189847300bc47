//! Listing of scripts as text.

ghost use Rattle.std.specs.Prelude.{◌≡◌, ◌∷◌, [], pos, Ok, IfOk, MatchResult};
ghost use Rattle.ed_types.specs.declared.script.Command.TheVariants.{SendMessage};
ghost use Rattle.ed_types.specs.declared.script.ScriptFault.TheVariants.{OutOfMemory};
ghost use Rattle.ed_model.specs.Listing.{listed_command, ended_line, listing};
ghost use Rattle.ed_model.specs.Reading.{reading};
ghost use Rattle.macro_script.specs.Appending.{Appends};

use crate::appending::append_line;
use crate::script::Script;
use ed_model::laws_of_scripts;
use ed_types::{Command, Message, ScriptFault};
use std::alloc::{AllocError, Global};

/// Returns the numbers of a sent message, in the order of its line.
fn send_numbers(view: u32, message: &Message) -> [i64; 4]
    ensures { result ≡ pos view ∷ pos message.now.number ∷ message.now.w ∷ message.now.l ∷ [] }
{
    [
        i64::from(view),
        i64::from(message.number),
        message.w,
        message.l,
    ]
}

/// Appends the line of a sent message.
fn append_send(out: &mut Vec<u8>, view: u32, message: &Message) -> Result<(), AllocError>
    ensures { Appends (ended_line (listed_command (SendMessage view message.now))) out.old.items out.new.items result }
{
    let numbers = send_numbers(view, message);
    append_line(out, b"send", &numbers, Some(message.text.as_slice()))
}

/// Appends the line of a command.
fn append_command(out: &mut Vec<u8>, command: &Command) -> Result<(), AllocError>
    ensures { Appends (ended_line (listed_command command.now)) out.old.items out.new.items result }
{
    match command {
        Command::OpenView => append_line(out, b"open", &[], None),
        Command::CloseView { view } => append_line(out, b"close", &[i64::from(*view)], None),
        Command::LoadFile { view, file } => {
            append_line(out, b"load", &[i64::from(*view), i64::from(*file)], None)
        }
        Command::SendMessage { view, message } => append_send(out, *view, message),
        Command::Expect { value } => append_line(out, b"expect", &[*value], None),
    }
}

/// Returns the listing of a script, in version 2. `assemble` reads it as the same script.
///
/// # Errors
///
/// `OutOfMemory` if an allocation fails.
pub fn list(alloc: Global, script: &Script) -> Result<Vec<u8>, ScriptFault>
    ensures read_back { IfOk result (λ text. reading text.items ≡ Ok script.now) }
    ensures listed { MatchResult result (λ text. text.items ≡ listing 2 script.now) (λ fault. fault ≡ OutOfMemory) }
{
    laws_of_scripts();
    let mut text = Vec::with_capacity(alloc, script.listed_len())?;
    text.extend_from_slice(b"sci 2\n")?;
    for command in script.commands() {
        append_command(&mut text, command)?;
    }
    Ok(text)
}
