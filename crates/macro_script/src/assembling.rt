//! Assembling of scripts from their text.

ghost use Rattle.std.specs.Prelude.{◌≡◌, ◌⊎◌, Err};
ghost use Rattle.ed_types.specs.declared.script.ScriptFault.TheVariants.{OutOfMemory};
ghost use Rattle.ed_model.specs.Reading.{reading};

use crate::lines::{read_lines, read_version, split_line, unended};
use crate::script::{SCRIPT_LIMIT, Script};
use ed_model::laws_of_scripts;
use ed_types::ScriptFault;
use std::alloc::Global;

/// Returns the script that the bytes spell, in the version that their first line names.
///
/// # Errors
///
/// `BadLine` with the first line at fault, counted from 1, or `TooLong`, if the bytes spell no script; `OutOfMemory` if
/// an allocation fails.
pub fn assemble(alloc: Global, bytes: &[u8]) -> Result<Script, ScriptFault>
    ensures { (result ≡ reading bytes.now) ⊎ (result ≡ Err OutOfMemory) }
{
    laws_of_scripts();
    if bytes.len() > SCRIPT_LIMIT {
        return Err(ScriptFault::TooLong);
    }
    let Some((first, rest)) = split_line(bytes) else {
        return Err(unended(1, bytes));
    };
    let version = match read_version(first) {
        Ok(version) => version,
        Err(fault) => return Err(fault),
    };
    match read_lines(alloc, version, rest) {
        Ok(commands) => Ok(Script::of_listing(commands, bytes.len())),
        Err(fault) => Err(fault),
    }
}
