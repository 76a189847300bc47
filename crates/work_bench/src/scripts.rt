//! Recorded sessions: listed, read again, run with notes and without, checked, and stepped through.

ghost use Rattle.std.specs.Prelude.{◌≡◌, None, false};

use crate::desk::{Desk, argument};
use crate::dice::Dice;
use crate::digest::Digest;
use crate::source::{Ends, source_lines, word};
use ed_types::{Bytes, Command, Kind, Message};
use macro_script::{Script, assemble, list};
use script_ends::{Sink, TextSource, WriteFailed, check_script};
use script_jobs::{run_script, run_without_notes};
use script_stepper::Stepper;
use std::alloc::{AllocError, Global};

/// A sink that adds the bytes written to it, and their number, to a digest.
#[derive(Drop)]
struct DigestSink {
    digest: Digest,
    failed: bool,
}

impl DigestSink {
    /// Returns an empty sink.
    fn new() -> Self
        ensures { result.failed ≡ false }
    {
        DigestSink {
            digest: Digest::new(),
            failed: false,
        }
    }
}

impl Sink for DigestSink {
    ghost contents = { λ _. None };

    ghost has_failed = { λ sink. sink.failed };

    fn write(&mut self, bytes: &[u8]) -> Result<usize, WriteFailed> {
        self.digest.bytes(bytes);
        Ok(bytes.len())
    }
}

/// Appends a message to view 1, if it fits.
fn push(
    script: &mut Script,
    alloc: Global,
    kind: Kind,
    w: i64,
    l: i64,
    text: &[u8],
) -> Result<(), AllocError> {
    let mut bytes = Vec::new(alloc);
    bytes.extend_from_slice(text)?;
    let message = Message {
        number: kind.number(),
        w,
        l,
        text: Bytes::new(bytes),
    };
    let _ = script.push(Command::SendMessage { view: 1, message });
    Ok(())
}

/// Appends the bytes of a word, typed one by one.
fn push_word(script: &mut Script, alloc: Global, dice: &mut Dice) -> Result<(), AllocError> {
    for byte in word(dice) {
        push(script, alloc, Kind::AddText, 1, 0, &[*byte])?;
    }
    push(script, alloc, Kind::AddText, 1, 0, b" ")
}

/// Returns a message without a text to a document of this length, chosen at random: its kind and its first argument.
fn plain_deed(dice: &mut Dice, length: usize) -> (Kind, i64) {
    match dice.below(10) {
        0 => (Kind::GotoPos, argument(dice.below(length))),
        1 => (Kind::Undo, 0),
        2 => (Kind::Redo, 0),
        3 => (Kind::DeleteBack, 0),
        4 => (Kind::NewLine, 0),
        5 => (Kind::LineFromPosition, argument(dice.below(length))),
        6 => (Kind::GetLine, argument(dice.below(100))),
        7 => (Kind::MarkerAdd, argument(dice.below(100))),
        8 => (Kind::CharRight, 0),
        _ => (Kind::GetLength, 0),
    }
}

/// Appends one action of a user: a word typed, or another message.
fn push_deed(
    script: &mut Script,
    alloc: Global,
    dice: &mut Dice,
    length: usize,
) -> Result<(), AllocError> {
    if dice.happens(38) {
        return push_word(script, alloc, dice);
    }
    let (kind, w) = plain_deed(dice, length);
    push(script, alloc, kind, w, 3, &[])
}

/// Returns a session that opens a view on a text and performs this many actions in it.
fn recorded(
    alloc: Global,
    dice: &mut Dice,
    lines: usize,
    deeds: usize,
) -> Result<Script, AllocError> {
    let text = source_lines(alloc, dice, lines, Ends::Feeds)?;
    let mut script = Script::new(alloc);
    let _ = script.push(Command::OpenView);
    for line in text.split_inclusive(|byte| *byte == b'\n') {
        push(
            &mut script,
            alloc,
            Kind::AppendText,
            argument(line.len()),
            0,
            line,
        )?;
    }
    for _ in 0..deeds {
        push_deed(&mut script, alloc, dice, text.len())?;
    }
    Ok(script)
}

/// Returns a session of few messages with long texts, in which each byte is spelled by an escape.
fn escaped(alloc: Global, dice: &mut Dice, count: usize) -> Result<Script, AllocError> {
    let mut script = Script::new(alloc);
    let _ = script.push(Command::OpenView);
    for _ in 0..count {
        let mut text = Vec::new(alloc);
        for _ in 0..1_800 {
            text.extend_from_slice(&dice.number().to_le_bytes())?;
        }
        for byte in text.iter_mut() {
            *byte |= 0x80;
        }
        push(
            &mut script,
            alloc,
            Kind::AppendText,
            argument(text.len()),
            0,
            &text,
        )?;
    }
    Ok(script)
}

/// Runs a script with notes and without, and checks it.
fn run_each_way(desk: &mut Desk, alloc: Global, listing: &[u8]) {
    let mut sink = DigestSink::new();
    let files = Vec::new(alloc);
    let unmet = run_script(alloc, &mut TextSource::new(listing), files, &mut sink);
    desk.note_down(unmet.unwrap_or(u64::MAX));
    desk.note_down(sink.digest.value());
    let mut sink = DigestSink::new();
    let unmet = run_without_notes(alloc, &mut TextSource::new(listing), &[], &mut sink);
    desk.note_down(unmet.unwrap_or(u64::MAX));
    desk.note_down(sink.digest.value());
    let mut sink = DigestSink::new();
    let checked = check_script(alloc, &mut TextSource::new(listing), &mut sink);
    desk.note_down(checked.unwrap_or(u64::MAX));
    desk.note_down(sink.digest.value());
}

/// Lists a script, and runs the listing.
fn list_and_run(desk: &mut Desk, alloc: Global, script: &Script) {
    if let Ok(listing) = list(alloc, script) {
        desk.note_bytes(&listing);
        run_each_way(desk, alloc, &listing);
    }
}

/// Steps through a script to its end, and goes back a few times.
fn step_through(desk: &mut Desk, alloc: Global, listing: &[u8]) {
    let Ok(script) = assemble(alloc, listing) else {
        return;
    };
    let steps = script.commands().len();
    let mut stepper = Stepper::new(alloc, script, Vec::new(alloc));
    let done = stepper.run_to(steps / 2).is_ok();
    desk.note_down(u64::from(done));
    for _ in 0..4 {
        let back = stepper.back().unwrap_or(false);
        desk.note_down(u64::from(back));
    }
    for _ in 0..steps / 2 {
        if let Ok(Some(outcome)) = stepper.step() {
            desk.take_outcome(&outcome);
        }
    }
    desk.note_down(stepper.state() as u64);
}

/// Lists a recorded session, and steps through the listing.
fn list_and_step(desk: &mut Desk, alloc: Global, script: &Script) {
    if let Ok(listing) = list(alloc, script) {
        step_through(desk, alloc, &listing);
    }
}

/// Works on recorded sessions of three kinds.
pub fn scripts(
    desk: &mut Desk,
    alloc: Global,
    dice: &mut Dice,
    size: usize,
) -> Result<(), AllocError> {
    for _ in 0..4 {
        let script = recorded(alloc, dice, size / 20, size)?;
        list_and_run(desk, alloc, &script);
    }
    let script = escaped(alloc, dice, size / 500)?;
    list_and_run(desk, alloc, &script);
    let script = recorded(alloc, dice, size / 40, size / 8)?;
    list_and_step(desk, alloc, &script);
    Ok(())
}
