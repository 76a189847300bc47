//! Appending of pieces of text to an output.

ghost use Rattle.std.specs.Prelude.{◌≡◌, ◌+◌, ◌∷◌, ◌++◌, [], ◌<◌, length};
ghost use Rattle.ed_model.specs.Spelling.{spelled, spelled_int, spelled_byte, spelled_bytes, spelled_text};
ghost use Rattle.macro_script.specs.Appending.{Appends, AppendsSome, number_fields, text_field, behind_word, line_of, lent_text};

use crate::spelled::{plain_len, spell_byte};
use itoa::Buffer;
use std::alloc::AllocError;

/// Appends bytes as they are.
fn append_bytes(out: &mut Vec<u8>, bytes: &[u8]) -> Result<(), AllocError>
    ensures { Appends bytes.now out.old.items out.new.items result }
{
    out.extend_from_slice(bytes)
}

/// Appends a number that is not negative, in decimal digits.
///
/// # Errors
///
/// `AllocError` if the allocation fails. A front part of the digits may be appended then.
pub fn append_number(out: &mut Vec<u8>, number: u64) -> Result<(), AllocError>
    ensures { Appends (spelled number) out.old.items out.new.items result }
{
    let mut buffer = Buffer::new();
    append_bytes(out, buffer.format(number).as_bytes())
}

/// Appends a number in decimal digits, with `-` before them if it is negative.
///
/// # Errors
///
/// `AllocError` if an allocation fails. A front part may be appended then.
pub fn append_integer(out: &mut Vec<u8>, value: i64) -> Result<(), AllocError>
    ensures { Appends (spelled_int value) out.old.items out.new.items result }
{
    let mut buffer = Buffer::new();
    append_bytes(out, buffer.format(value).as_bytes())
}

/// Returns the digit of a number below 10.
fn digit(value: u64) -> u8
    requires { value < 10 }
    ensures { result ≡ 48 + value }
{
    b'0' + value as u8
}

/// Appends a space and a number of up to four digits, as one array. Its length is a constant in each case, so that the
/// bytes are stored without a call.
fn append_short_field(out: &mut Vec<u8>, number: u64) -> Result<(), AllocError>
    requires { number < 10000 }
    ensures { Appends (32 ∷ spelled number) out.old.items out.new.items result }
{
    if number < 10 {
        return append_bytes(out, &[b' ', digit(number)]);
    }
    let ones = digit(number % 10);
    let tens = digit(number / 10 % 10);
    if number < 100 {
        return append_bytes(out, &[b' ', tens, ones]);
    }
    let hundreds = digit(number / 100 % 10);
    if number < 1000 {
        return append_bytes(out, &[b' ', hundreds, tens, ones]);
    }
    append_bytes(out, &[b' ', digit(number / 1000), hundreds, tens, ones])
}

/// Appends a space and a number of any length.
fn append_long_field(out: &mut Vec<u8>, number: i64) -> Result<(), AllocError>
    ensures { Appends (32 ∷ spelled_int number) out.old.items out.new.items result }
{
    append_bytes(out, b" ")?;
    append_integer(out, number)
}

/// Appends a space and a number.
fn append_field(out: &mut Vec<u8>, number: i64) -> Result<(), AllocError>
    ensures { Appends (32 ∷ spelled_int number) out.old.items out.new.items result }
{
    if (0..10_000).contains(&number) {
        append_short_field(out, number as u64)
    } else {
        append_long_field(out, number)
    }
}

/// Appends numbers, each after a space.
fn append_fields(out: &mut Vec<u8>, numbers: &[i64]) -> Result<(), AllocError>
    ensures { Appends (number_fields numbers.now) out.old.items out.new.items result }
{
    for number in numbers {
        append_field(out, *number)?;
    }
    Ok(())
}

/// Appends the spelling of a byte, as an array. Its length is a constant in each case, so that it is stored without a
/// call.
fn append_byte(out: &mut Vec<u8>, byte: u8) -> Result<(), AllocError>
    ensures { Appends (spelled_byte byte) out.old.items out.new.items result }
{
    let (bytes, len) = spell_byte(byte);
    match len {
        4 => append_bytes(out, &bytes),
        2 => append_bytes(out, &bytes[..2]),
        1 => append_bytes(out, &bytes[..1]),
        // There is no other length. This arm saves the proof of that.
        _ => append_bytes(out, &bytes[..len]),
    }
}

/// Appends the spelling of the first bytes, at least one, and returns their number.
#[tactic(auto, using(crate::proofs::Pieces::byte_refused))]
fn append_some(out: &mut Vec<u8>, text: &[u8]) -> Result<usize, AllocError>
    requires { 0 < length text.now }
    ensures { AppendsSome text.now out.old.items out.new.items result }
{
    let run = plain_len(text);
    if run > 1 {
        append_bytes(out, &text[..run])?;
        return Ok(run);
    }
    append_byte(out, text[0])?;
    Ok(1)
}

/// Appends the spelling of a text, without quotes.
fn append_spelled(out: &mut Vec<u8>, text: &[u8]) -> Result<(), AllocError>
    ensures { Appends (spelled_bytes text.now) out.old.items out.new.items result }
{
    let mut at = 0;
    while at < text.len() {
        at += append_some(out, &text[at..])?;
    }
    Ok(())
}

/// Appends the spelling of a text, between quotes.
///
/// # Errors
///
/// `AllocError` if an allocation fails. A front part may be appended then.
pub fn append_text(out: &mut Vec<u8>, text: &[u8]) -> Result<(), AllocError>
    ensures { Appends (spelled_text text.now) out.old.items out.new.items result }
{
    append_bytes(out, b"\"")?;
    append_spelled(out, text)?;
    append_bytes(out, b"\"")
}

/// Appends the end of a line: a space, a text and the LF.
fn append_text_end(out: &mut Vec<u8>, text: &[u8]) -> Result<(), AllocError>
    ensures { Appends ((32 ∷ spelled_text text.now) ++ 10 ∷ []) out.old.items out.new.items result }
{
    if text.is_empty() {
        return append_bytes(out, b" \"\"\n");
    }
    append_bytes(out, b" \"")?;
    append_spelled(out, text)?;
    append_bytes(out, b"\"\n")
}

/// Appends the end of a line, with a text if there is one.
fn append_end(out: &mut Vec<u8>, text: Option<&[u8]>) -> Result<(), AllocError>
    ensures { Appends (text_field (lent_text text.entry) ++ 10 ∷ []) out.old.items out.new.items result }
{
    match text {
        Some(text) => append_text_end(out, text),
        None => append_bytes(out, b"\n"),
    }
}

/// Appends what follows the word of a line: numbers and a text.
fn append_behind_word(
    out: &mut Vec<u8>,
    numbers: &[i64],
    text: Option<&[u8]>,
) -> Result<(), AllocError>
    ensures { Appends (behind_word numbers.now (lent_text text.entry)) out.old.items out.new.items result }
{
    append_fields(out, numbers)?;
    append_end(out, text)
}

/// Appends a line: a word, numbers and a text.
///
/// # Errors
///
/// `AllocError` if an allocation fails. A front part of the line may be appended then.
pub(crate) fn append_line(
    out: &mut Vec<u8>,
    word: &[u8],
    numbers: &[i64],
    text: Option<&[u8]>,
) -> Result<(), AllocError>
    ensures { Appends (line_of word.now numbers.now (lent_text text.entry)) out.old.items out.new.items result }
{
    append_bytes(out, word)?;
    append_behind_word(out, numbers, text)
}
