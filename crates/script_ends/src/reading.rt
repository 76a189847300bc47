//! Reading of scripts and files from a source.

ghost use Rattle.std.specs.Prelude.{◌≡◌, [], OnOk, ◌+◌, ◌<◌, ◌^◌, length, IfSome, IfOk, false};
ghost use Rattle.ed_model.specs.Reading.{reading as reading_of};
ghost use Rattle.script_ends.specs.Ends.{TakesAtMost, AreFirstBytes};
ghost use Rattle.script_ends.specs.Answers.{ReadEnds, ReadsScript, ReadCause};
ghost use Rattle.script_ends.specs.Files.{ReadsFile};

use crate::ends::Source;
use crate::fault::RunFault;
use ed_types::Bytes;
use macro_script::{SCRIPT_LIMIT, Script, assemble};
use std::alloc::{AllocError, Global};

/// The greatest length of a file, in bytes.
const FILE_LIMIT: usize = 2_147_483_647;

/// How many bytes are requested at a time.
const BLOCK: usize = 65_536;

/// Returns a block of `len` bytes to read into.
fn new_block(alloc: Global, len: usize) -> Result<Vec<u8>, AllocError>
    ensures { IfOk result (λ block. length block.items ≡ len) }
{
    vec![in alloc; 0u8; len]
}

/// Reads into a text, block by block, to the end or one byte past the limit.
fn fill<S: Source>(
    source: &mut S,
    text: &mut Vec<u8>,
    block: &mut [u8],
    limit: usize,
) -> Result<(), RunFault>
    requires fresh { S.has_failed source.old ≡ false }
    requires small { limit < 2 ^ 62 }
    requires empty { text.old.items ≡ [] }
    requires room { 0 < length block.old }
    ensures text { OnOk result (AreFirstBytes (limit + 1) (S.remaining source.old) text.new.items) }
    ensures taken { TakesAtMost (limit + 1) (S.remaining source.old) (S.remaining source.new) }
    ensures cause { ReadEnds result (S.has_failed source.new) }
{
    while text.len() <= limit {
        let room = block.len().min(limit + 1 - text.len());
        let part = &mut block[..room];
        let count = source.read(part)?;
        if count == 0 {
            return Ok(());
        }
        text.extend_from_slice(&part[..count])?;
    }
    Ok(())
}

/// Reads to the end, or one byte past the limit.
fn read_up_to<S: Source>(alloc: Global, source: &mut S, limit: usize) -> Result<Vec<u8>, RunFault>
    requires fresh { S.has_failed source.old ≡ false }
    requires small { limit < 2 ^ 62 }
    ensures text { IfOk result (λ text. AreFirstBytes (limit + 1) (S.remaining source.old) text.items) }
    ensures taken { TakesAtMost (limit + 1) (S.remaining source.old) (S.remaining source.new) }
    ensures cause { ReadEnds result (S.has_failed source.new) }
{
    let mut text = Vec::new(alloc);
    let mut block = new_block(alloc, BLOCK)?;
    fill(source, &mut text, &mut block, limit)?;
    Ok(text)
}

/// Reads the bytes of a script, at most 16 MiB and one byte.
///
/// # Errors
///
/// `Read` if a read fails, and `Script` if an allocation fails.
pub fn read_text<S: Source>(alloc: Global, source: &mut S) -> Result<Vec<u8>, RunFault>
    requires { S.has_failed source.old ≡ false }
    ensures text { IfOk result (λ text. AreFirstBytes 16777217 (S.remaining source.old) text.items) }
    ensures taken { TakesAtMost 16777217 (S.remaining source.old) (S.remaining source.new) }
    ensures cause { ReadEnds result (S.has_failed source.new) }
{
    read_up_to(alloc, source, SCRIPT_LIMIT)
}

/// Reads a script and assembles it. Reads at most 16 MiB and one byte.
///
/// # Errors
///
/// `Script` with the fault of bytes that are no script, or if an allocation fails, and `Read` if a read fails.
pub fn read_script<S: Source>(alloc: Global, source: &mut S) -> Result<Script, RunFault>
    requires { S.has_failed source.old ≡ false }
    ensures script { IfSome (S.remaining source.old) (λ bytes. ReadsScript (reading_of bytes) result) }
    ensures taken { TakesAtMost 16777217 (S.remaining source.old) (S.remaining source.new) }
    ensures cause { ReadCause result (S.has_failed source.new) }
{
    let text = read_up_to(alloc, source, SCRIPT_LIMIT)?;
    match assemble(alloc, &text) {
        Ok(script) => Ok(script),
        Err(fault) => Err(RunFault::Script(fault)),
    }
}

/// Reads a whole file.
///
/// # Errors
///
/// `Read` if a read fails or the file has more than 2^31 - 1 bytes, and `Script` if an allocation fails.
pub fn read_file<S: Source>(alloc: Global, source: &mut S) -> Result<Bytes, RunFault>
    requires { S.has_failed source.old ≡ false }
    ensures file { IfSome (S.remaining source.old) (λ bytes. ReadsFile bytes result (S.has_failed source.new)) }
    ensures taken { TakesAtMost 2147483648 (S.remaining source.old) (S.remaining source.new) }
{
    let bytes = read_up_to(alloc, source, FILE_LIMIT)?;
    if bytes.len() > FILE_LIMIT {
        return Err(RunFault::Read);
    }
    Ok(Bytes::new(bytes))
}
