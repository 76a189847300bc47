//! Scripts as values.

ghost use Rattle.std.specs.Prelude.{◌≡◌, ◌⊎◌, ◌↔◌, ◌++◌, ◌∷◌, ◌*◌, ◌≤◌, [], length, vec_len, vec_capacity, OnOk, OnErr, IfErr, Ok, Err, false};
ghost use Rattle.ed_types.specs.declared.script.ScriptFault.TheVariants.{TooLong, OutOfMemory};
ghost use Rattle.ed_model.specs.Listing.{keeps_limits, listing};
ghost use Rattle.ed_model.specs.ScriptLaws.{IsScript};
ghost use Rattle.macro_script.specs.Recorded.{send_command};
ghost use Rattle.macro_script.specs.Scripts.{IsProper};

use crate::lengths::{line_len, send_len};
use ed_types::{Command, ScriptFault};
use std::alloc::Global;
use std::marker::Model;

/// The greatest length of a script's listing, in bytes.
pub const SCRIPT_LIMIT: usize = 16_777_216;

/// The length of a listing's first line, with its LF.
const FIRST_LINE: usize = 6;

/// A list of commands whose listing keeps the limits of a line and of a script.
#[derive(Drop)]
pub struct Script {
    commands: Vec<Command>,
    listed: usize,
}

impl Model for Script {
    ghost use Rattle.std.specs.Prelude.{List, ◌*◌, ◌≤◌, vec_len, vec_capacity};
    ghost use Rattle.ed_types.specs.declared.script.Command.{Command};
    ghost use Rattle.macro_script.specs.Scripts.{IsProper};

    ghost Value = { List Command };

    ghost view = { λ script. script.commands.items };

    // The capacity is at most twice the number of commands.
    ghost invariant = { λ script. record {
      proper : IsProper script.commands.items script.listed;
      few : vec_capacity script.commands ≤ 2 * vec_len script.commands;
    } };
}

impl Script {
    /// Returns a script without commands. Allocates nothing.
    pub fn new(alloc: Global) -> Self
        ensures { result ≡ [] }
    {
        Script {
            commands: Vec::new(alloc),
            listed: FIRST_LINE,
        }
    }

    /// Returns the script of commands whose listing has this length.
    pub(crate) fn of_listing(commands: Vec<Command>, listed: usize) -> Self
        requires proper { IsProper commands.items listed }
        requires few { vec_capacity commands ≤ 2 * vec_len commands }
        ensures { result ≡ commands.items }
    {
        Script { commands, listed }
    }

    /// Returns the length of the listing, in bytes.
    pub(crate) fn listed_len(&self) -> usize
        ensures { result ≡ length (listing 2 self.now) }
    {
        self.listed
    }

    /// Returns the commands as a slice.
    pub fn commands(&self) -> &[Command]
        ensures commands { result.now ≡ self.now }
        ensures within { IsScript 2 self.now }
    {
        self.commands.as_slice()
    }

    /// Returns whether the script keeps the limits with one more message, sent to `view`. Allocates nothing.
    pub(crate) fn fits_send(&self, view: u32, number: u32, w: i64, l: i64, text: &[u8]) -> bool
        ensures { result ≡ keeps_limits (self.now ++ send_command view number w l text.now ∷ []) }
    {
        match send_len(view, number, w, l, text) {
            Some(len) => len < SCRIPT_LIMIT - self.listed,
            None => false,
        }
    }

    /// Appends a command.
    ///
    /// # Errors
    ///
    /// `TooLong` if its line or the script would exceed its limit in the listing, and `OutOfMemory` if an allocation
    /// fails. The script is then unchanged.
    pub fn push(&mut self, command: Command) -> Result<(), ScriptFault>
        ensures too_long { (result ≡ Err TooLong) ↔ (keeps_limits (self.old ++ command ∷ []) ≡ false) }
        ensures refused { IfErr result (λ fault. (fault ≡ TooLong) ⊎ (fault ≡ OutOfMemory)) }
        ensures added { OnOk result (self.new ≡ self.old ++ command ∷ []) }
        ensures kept { OnErr result (self.new ≡ self.old) }
    {
        let Some(len) = line_len(&command) else {
            return Err(ScriptFault::TooLong);
        };
        if len >= SCRIPT_LIMIT - self.listed {
            return Err(ScriptFault::TooLong);
        }
        vec_room::reserve(&mut self.commands, 1)?;
        self.commands.push_reserved(command);
        self.listed += len + 1;
        Ok(())
    }
}
