//! Reading of texts from their spelling.

ghost use Rattle.std.specs.Prelude.{◌≡◌, ℕ, ◌+◌, ◌<◌, ◌≤◌, ◌++◌, ◌∷◌, [], length, drop, slice_index, IfSome, IfNone, IfOk, OnOk, false, true};
ghost use Rattle.ed_model.specs.Spelling.{hex_digit, hex_value as hex_value_of, spelled_byte};
ghost use Rattle.ed_model.specs.Reading.{front_byte as front_byte_of, spells_front, text_past};
ghost use Rattle.macro_script.specs.Fronts.{IsFront, ReadsText};
ghost use Rattle.macro_script.specs.declared.texts.Front.TheVariants.{Byte};

use crate::spelled::{is_escape, plain_len, spell_byte};
use crate::stop::Stop;
use ed_types::{Bytes, Cause};
use std::alloc::{AllocError, Global};

/// The front of a text's spelling.
#[derive(Clone, Copy)]
pub enum Front {
    /// The closing quote.
    Closing,
    /// The spelling of a byte: the byte, and the length of its spelling.
    Byte(u8, usize),
    /// Nothing that spells a byte.
    Wrong,
}

/// Returns the value of a hexadecimal digit. For other bytes the result does not matter.
fn hex_value(digit: u8) -> u16
    ensures { result ≡ hex_value_of digit }
{
    if digit < b'a' {
        u16::from(digit.saturating_sub(b'0'))
    } else {
        u16::from(digit - 87)
    }
}

/// Returns the byte at `place`, or 0 past the end.
fn byte_at(text: &[u8], place: usize) -> u8
    ensures { result ≡ slice_index text.now place }
{
    if place < text.len() { text[place] } else { 0 }
}

/// Returns the byte that the front would spell.
fn front_byte(text: &[u8]) -> u16
    ensures { result ≡ front_byte_of text.now }
{
    if byte_at(text, 0) != b'\\' {
        return u16::from(byte_at(text, 0));
    }
    if byte_at(text, 1) != b'x' {
        return u16::from(byte_at(text, 1));
    }
    16 * hex_value(byte_at(text, 2)) + hex_value(byte_at(text, 3))
}

/// Returns the value of a hexadecimal digit. For other bytes the result does not matter. It has no branch, since a
/// processor would mispredict half of them: digits come in no order.
fn digit_value(digit: u8) -> u8
    ensures value { (v : ℕ) → v < 16 → digit ≡ hex_digit v → result ≡ v }
    ensures below { result < 16 }
{
    ((digit & 0xF) + 9 * (digit >> 6)) & 0xF
}

/// Returns the byte that an escape of two digits at the front spells, if there is one.
fn escaped_byte(text: &[u8]) -> Option<u8>
    ensures { IfSome result (λ byte. IsFront text.now (Byte byte 4)) }
{
    let [b'\\', b'x', high, low, ..] = text else {
        return None;
    };
    let byte = 16 * digit_value(*high) + digit_value(*low);
    if is_escape(byte, *high, *low) {
        Some(byte)
    } else {
        None
    }
}

/// Returns the front of a spelling.
fn front_of(text: &[u8]) -> Front
    ensures { IsFront text.now result }
{
    match text {
        [b'"', ..] => Front::Closing,
        [b'\\', b'"', ..] => Front::Byte(b'"', 2),
        [b'\\', b'\\', ..] => Front::Byte(b'\\', 2),
        _ => match escaped_byte(text) {
            Some(byte) => Front::Byte(byte, 4),
            None => other_front(text),
        },
    }
}

/// The slow path of `front_of`: spells the byte that the front would spell, and compares.
fn other_front(text: &[u8]) -> Front
    ensures { IsFront text.now result }
{
    if text.is_empty() {
        return Front::Wrong;
    }
    if text[0] == b'"' {
        return Front::Closing;
    }
    let value = front_byte(text);
    if value > 255 {
        return Front::Wrong;
    }
    let byte = value as u8;
    let (spelling, len) = spell_byte(byte);
    if text.starts_with(&spelling[..len]) {
        Front::Byte(byte, len)
    } else {
        Front::Wrong
    }
}

/// Appends a run of bytes, if it is not empty. It usually is between two escapes.
fn append_run(text: &mut Vec<u8>, run: &[u8]) -> Result<(), AllocError>
    ensures { OnOk result (text.new.items ≡ text.old.items ++ run.now) }
{
    if run.is_empty() {
        return Ok(());
    }
    text.extend_from_slice(run)
}

/// Copies bytes. Allocates exactly what they need, and nothing if there are none.
pub(crate) fn copied(alloc: Global, bytes: &[u8]) -> Result<Bytes, AllocError>
    ensures { IfOk result (λ copy. copy ≡ bytes.now) }
{
    if bytes.is_empty() {
        return Ok(Bytes::empty(alloc));
    }
    let copy = Vec::from_slice(alloc, bytes)?;
    Ok(Bytes::new(copy))
}

/// Reads a text up to its closing quote. Returns the text, and the length of its spelling with that quote.
///
/// # Errors
///
/// `Stop::Fault` with `BadText` if it is spelled wrongly or no quote closes it, and `Stop::OutOfMemory` if an
/// allocation fails.
pub(crate) fn read_text(alloc: Global, spelling: &[u8]) -> Result<(Bytes, usize), Stop>
    ensures { ReadsText spelling.now result }
{
    let run = plain_len(spelling);
    if byte_at(spelling, run) != b'"' {
        return read_behind(alloc, spelling, run);
    }
    let text = copied(alloc, &spelling[..run])?;
    Ok((text, run + 1))
}

/// Like `read_text`, if `run` bytes at the front are spelled by themselves.
fn read_behind(alloc: Global, spelling: &[u8], run: usize) -> Result<(Bytes, usize), Stop>
    requires within { run ≤ length spelling.now }
    requires plain { (k : ℕ) → k < run → spelled_byte (slice_index spelling.now k) ≡ slice_index spelling.now k ∷ [] }
    ensures { ReadsText spelling.now result }
{
    let mut text = Vec::new(alloc);
    append_run(&mut text, &spelling[..run])?;
    let mut at = run;
    loop {
        match front_of(&spelling[at..]) {
            Front::Closing => return Ok((Bytes::new(text), at + 1)),
            Front::Byte(byte, len) => {
                text.push(byte)?;
                at += len;
            }
            Front::Wrong => return Err(Stop::Fault(Cause::BadText)),
        }
        let run = plain_len(&spelling[at..]);
        append_run(&mut text, &spelling[at..at + run])?;
        at += run;
    }
}
