//! Bytes as they are shown to people.

ghost use Rattle.std.specs.Prelude.{◌≡◌, ◌++◌, OnOk, length, string_bytes};
ghost use Rattle.script_ends.specs.Shown.{is_printable as is_printable_byte, shown as shown_byte, shown_bytes, quoted};

use std::alloc::AllocError;

/// The most characters of a line that are shown.
const WIDTH: usize = 120;

/// Returns whether a byte is shown as its own character.
fn is_printable(byte: u8) -> bool
    ensures { result ≡ is_printable_byte byte }
{
    byte >= 0x20 && byte <= 0x7E
}

/// Returns how many characters show a byte: 1 or 4.
pub fn shown_width(byte: u8) -> usize
    ensures { result ≡ length (shown_byte byte) }
{
    if is_printable(byte) { 1 } else { 4 }
}

/// Appends a byte as it is shown: a printable one as its character, any other as `\xhh`.
///
/// # Errors
///
/// `AllocError` if an allocation fails.
pub fn append_byte(out: &mut String, byte: u8) -> Result<(), AllocError>
    ensures { OnOk result (string_bytes out.new ≡ string_bytes out.old ++ shown_byte byte) }
{
    if is_printable(byte) {
        out.push(char::from(byte))
    } else {
        write!(out, "\\x{byte:02x}")
    }
}

/// Appends bytes as they are shown.
///
/// # Errors
///
/// `AllocError` if an allocation fails. A front part may be appended then.
pub fn append_bytes(out: &mut String, bytes: &[u8]) -> Result<(), AllocError>
    ensures { OnOk result (string_bytes out.new ≡ string_bytes out.old ++ shown_bytes bytes.now) }
{
    for byte in bytes {
        append_byte(out, *byte)?;
    }
    Ok(())
}

/// Appends a text between quotes, as it is shown, with `"` and `\` escaped.
///
/// # Errors
///
/// `AllocError` if an allocation fails. A front part may be appended then.
pub fn append_quoted(out: &mut String, text: &[u8]) -> Result<(), AllocError>
    ensures { OnOk result (string_bytes out.new ≡ string_bytes out.old ++ quoted text.now) }
{
    out.push_str("\"")?;
    for byte in text {
        if *byte == b'"' || *byte == b'\\' {
            out.push_str("\\")?;
        }
        append_byte(out, *byte)?;
    }
    out.push_str("\"")
}

/// Returns the first line of a text without its LF, and what comes behind it.
fn split_line(text: &[u8]) -> (&[u8], &[u8]) {
    match text.iter().position(|byte| *byte == b'\n') {
        Some(at) => (&text[..at], &text[at + 1..]),
        None => (text, &[]),
    }
}

/// Returns a line of a text, counted from 1, without its LF; it is empty behind the last one.
fn line_at(text: &[u8], line: u64) -> &[u8] {
    let mut rest = text;
    for _ in 1..line {
        rest = split_line(rest).1;
    }
    split_line(rest).0
}

/// Sets `shown` to a line of a text, counted from 1, as it is shown: at most 120 characters, and `...` if there are
/// more.
///
/// # Errors
///
/// `AllocError` if an allocation fails. `shown` has a front part then.
pub fn show_line(shown: &mut String, text: &[u8], line: u64) -> Result<(), AllocError> {
    shown.clear();
    for byte in line_at(text, line) {
        if shown.len().saturating_add(shown_width(*byte)) > WIDTH {
            return shown.push_str("...");
        }
        append_byte(shown, *byte)?;
    }
    Ok(())
}
