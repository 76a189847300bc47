//! The output of a run, piece by piece.

ghost use Rattle.std.specs.Prelude.{◌≡◌, pos, flat_map};
ghost use Rattle.ed_types.specs.Heard.{with_text};
ghost use Rattle.ed_model.specs.Printed.{printed_answer, printed_note, printed_reply, printed_outcome, refusal_number as number_of_refusal};
ghost use Rattle.macro_script.specs.Appending.{Appends};
ghost use Rattle.macro_script.specs.Notes.{numbers_of_note};

use crate::appending::append_line;
pub use crate::appending::{append_integer, append_number, append_text};
use ed_types::{Note, Outcome, Refusal, Reply};
use std::alloc::AllocError;

/// Appends the line of an answer.
///
/// # Errors
///
/// `AllocError` if an allocation fails. A front part of the line may be appended then.
pub fn append_answer(out: &mut Vec<u8>, value: i64, text: &[u8]) -> Result<(), AllocError>
    ensures { Appends (printed_answer value text.now) out.old.items out.new.items result }
{
    append_line(out, b"=", &[value], Some(text))
}

/// Returns the numbers of a note, in the order of its line.
fn note_numbers(note: &Note) -> [i64; 13]
    ensures { result ≡ numbers_of_note note.entry.now }
{
    [
        i64::from(note.view),
        i64::from(note.code),
        i64::from(note.kind),
        note.position,
        note.length,
        note.lines,
        note.line,
        note.now,
        note.prev,
        note.token,
        i64::from(note.message),
        note.w,
        note.l,
    ]
}

/// Appends the line of a note with its text.
fn append_note(out: &mut Vec<u8>, note: &Note, text: &[u8]) -> Result<(), AllocError>
    ensures { Appends (printed_note (with_text note.entry.now text.now)) out.old.items out.new.items result }
{
    let numbers = note_numbers(note);
    append_line(out, b"@", &numbers, Some(text))
}

/// Appends the lines of a reply's notes.
fn append_notes(out: &mut Vec<u8>, reply: &Reply) -> Result<(), AllocError>
    ensures { Appends (flat_map printed_note reply.now.notes) out.old.items out.new.items result }
{
    let count = reply.note_count();
    for index in 0..count {
        let (note, text) = reply.note(index);
        append_note(out, note, text)?;
    }
    Ok(())
}

/// Appends the line of a reply, and the lines of its notes.
fn append_reply(out: &mut Vec<u8>, reply: &Reply) -> Result<(), AllocError>
    ensures { Appends (printed_reply reply.now) out.old.items out.new.items result }
{
    append_answer(out, reply.value(), reply.text())?;
    append_notes(out, reply)
}

/// Returns the number of a refusal, as scripts print it.
fn refusal_number(refusal: Refusal) -> i64
    ensures { result ≡ pos (number_of_refusal refusal) }
{
    i64::from(refusal as u8)
}

/// Appends what an outcome prints.
///
/// # Errors
///
/// `AllocError` if an allocation fails. A front part may be appended then.
pub fn append_outcome(out: &mut Vec<u8>, outcome: &Outcome) -> Result<(), AllocError>
    ensures { Appends (printed_outcome outcome.now) out.old.items out.new.items result }
{
    match outcome {
        Outcome::Opened(view) => append_answer(out, i64::from(*view), &[]),
        Outcome::Closed => append_answer(out, 0, &[]),
        Outcome::Replied(reply) => append_reply(out, reply),
        Outcome::Refused(refusal) => append_line(out, b"!", &[refusal_number(*refusal)], None),
        Outcome::Expected { met: true, value } => append_line(out, b"+", &[*value], None),
        Outcome::Expected { met: false, value } => append_line(out, b"-", &[*value], None),
    }
}
