//! Describes commands, replies and notes in words.

use ed_types::{Command, Kind, Message, Note, Outcome, Reply, modification, notification};
use script_ends::shown::append_quoted;
use std::alloc::AllocError;

/// The bits of a change's kind, each with its name.
static BITS: [(u32, &str); 17] = [
    (modification::INSERT_TEXT, "InsertText"),
    (modification::DELETE_TEXT, "DeleteText"),
    (modification::CHANGE_STYLE, "ChangeStyle"),
    (modification::CHANGE_FOLD, "ChangeFold"),
    (modification::PERFORMED_USER, "User"),
    (modification::PERFORMED_UNDO, "Undo"),
    (modification::PERFORMED_REDO, "Redo"),
    (modification::MULTI_STEP, "MultiStep"),
    (modification::LAST_STEP, "LastStep"),
    (modification::CHANGE_MARKER, "ChangeMarker"),
    (modification::BEFORE_INSERT, "BeforeInsert"),
    (modification::BEFORE_DELETE, "BeforeDelete"),
    (modification::MULTI_LINE, "MultiLine"),
    (modification::START_ACTION, "StartAction"),
    (modification::CHANGE_INDICATOR, "ChangeIndicator"),
    (modification::CHANGE_LINE_STATE, "ChangeLineState"),
    (modification::CONTAINER, "Container"),
];

/// Appends a message's number and name.
fn say_message(out: &mut String, number: u32) -> Result<(), AllocError> {
    match Kind::from_number(number) {
        Some(kind) => write!(out, "{kind:?} {number}"),
        None => write!(out, "{number} (no message of the profile)"),
    }
}

/// Appends a message that a command sends.
fn say_send(out: &mut String, view: u32, message: &Message) -> Result<(), AllocError> {
    let w = message.w;
    let l = message.l;
    out.push_str("send ")?;
    say_message(out, message.number)?;
    write!(out, " to view {view}, w {w}, l {l}, text ")?;
    append_quoted(out, message.text.as_slice())
}

/// Appends a command.
pub(crate) fn say_command(out: &mut String, command: &Command) -> Result<(), AllocError> {
    match command {
        Command::OpenView => out.push_str("open a view"),
        Command::CloseView { view } => write!(out, "close view {view}"),
        Command::LoadFile { view, file } => write!(out, "load file {file} into view {view}"),
        Command::SendMessage { view, message } => say_send(out, *view, message),
        Command::Expect { value } => write!(out, "expect {value}"),
    }
}

/// Returns the name of a note.
fn note_name(code: u32) -> &'static str {
    match code {
        notification::STYLE_NEEDED => "StyleNeeded",
        notification::SAVE_POINT_REACHED => "SavePointReached",
        notification::SAVE_POINT_LEFT => "SavePointLeft",
        notification::MODIFY_ATTEMPT => "ModifyAttemptRO",
        notification::MODIFIED => "Modified",
        notification::MACRO_RECORD => "MacroRecord",
        _ => "a note",
    }
}

/// Appends the names of the bits of a change's kind, each after a space.
fn say_bits(out: &mut String, kind: u32) -> Result<(), AllocError> {
    for (bit, name) in &BITS {
        if kind & *bit != 0 {
            write!(out, " {name}")?;
        }
    }
    Ok(())
}

/// Appends those fields of a note that are not 0.
fn say_fields(out: &mut String, note: &Note) -> Result<(), AllocError> {
    let fields = [
        ("lines", note.lines),
        ("line", note.line),
        ("level now", note.now),
        ("level before", note.prev),
        ("token", note.token),
        ("w", note.w),
        ("l", note.l),
    ];
    for (name, value) in &fields {
        if *value != 0 {
            write!(out, ", {name} {value}")?;
        }
    }
    Ok(())
}

/// Appends a note with its text.
fn say_note(out: &mut String, note: &Note, text: &[u8]) -> Result<(), AllocError> {
    let view = note.view;
    let code = note.code;
    let name = note_name(code);
    write!(out, "  note to view {view}: {name} {code}")?;
    say_bits(out, note.kind)?;
    if code == notification::MODIFIED || note.position != 0 {
        let position = note.position;
        write!(out, ", position {position}")?;
    }
    if note.length != 0 {
        let length = note.length;
        write!(out, ", length {length}")?;
    }
    if note.message != 0 {
        out.push_str(", message ")?;
        say_message(out, note.message)?;
    }
    say_fields(out, note)?;
    if !text.is_empty() {
        out.push_str(", text ")?;
        append_quoted(out, text)?;
    }
    out.push_str("\n")
}

/// Appends a reply and its notes, a line each.
fn say_reply(out: &mut String, reply: &Reply) -> Result<(), AllocError> {
    let value = reply.value();
    write!(out, "  answer {value}")?;
    if !reply.text().is_empty() {
        out.push_str(", text ")?;
        append_quoted(out, reply.text())?;
    }
    out.push_str("\n")?;
    let count = reply.note_count();
    for index in 0..count {
        let (note, text) = reply.note(index);
        say_note(out, note, text)?;
    }
    Ok(())
}

/// Appends the outcome of a command: one line for it, and one for each note.
pub(crate) fn say_outcome(out: &mut String, outcome: &Outcome) -> Result<(), AllocError> {
    match outcome {
        Outcome::Opened(view) => write!(out, "  answer {view}, the id of the view\n"),
        Outcome::Closed => out.push_str("  answer 0\n"),
        Outcome::Replied(reply) => say_reply(out, reply),
        Outcome::Refused(refusal) => {
            let number = *refusal as u8;
            write!(out, "  refused with {number}: {refusal}\n")
        }
        Outcome::Expected { met: true, .. } => out.push_str("  met\n"),
        Outcome::Expected { met: false, .. } => out.push_str("  not met\n"),
    }
}

/// Appends the changes of the text that the notes of a reply describe, each after a space.
pub(crate) fn say_changes(out: &mut String, reply: &Reply) -> Result<(), AllocError> {
    let count = reply.note_count();
    for index in 0..count {
        let (note, text) = reply.note(index);
        let position = note.position;
        if note.code != notification::MODIFIED {
            continue;
        }
        if note.kind & modification::INSERT_TEXT != 0 {
            write!(out, " puts in at {position} ")?;
            append_quoted(out, text)?;
        } else if note.kind & modification::DELETE_TEXT != 0 {
            write!(out, " takes out at {position} ")?;
            append_quoted(out, text)?;
        } else if note.kind & modification::CONTAINER != 0 {
            let token = note.token;
            write!(out, " container's token {token}")?;
        }
    }
    Ok(())
}
