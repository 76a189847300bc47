//! Changes of everything: a word replaced everywhere, all lines indented, line ends converted, and each of these undone
//! and redone.

use crate::desk::{Desk, argument};
use crate::dice::Dice;
use crate::dressing::{Dress, dress_up};
use crate::source::{Ends, source_lines};
use ed_types::Kind;
use std::alloc::{AllocError, Global};

/// The flag of searches with case: `SCFIND_MATCHCASE`.
const MATCH_CASE: i64 = 4;

/// Searches for a text between two places, and returns where it starts.
fn search(desk: &mut Desk, view: u32, from: i64, to: i64, text: &[u8]) -> i64 {
    desk.send(view, Kind::SetTargetRange, from, to, &[]);
    desk.send(view, Kind::SearchInTarget, argument(text.len()), 0, text)
}

/// Replaces each match from the start to the end.
fn replace_forwards(desk: &mut Desk, view: u32, text: &[u8], by: &[u8]) {
    let mut from = 0i64;
    for _ in 0..desk.length(view) {
        let length = argument(desk.length(view));
        if search(desk, view, from, length, text) < 0 {
            return;
        }
        desk.send(view, Kind::ReplaceTarget, -1, 0, by);
        from = desk.ask(view, Kind::GetTargetEnd, 0, 0);
    }
}

/// Replaces each match from the end to the start.
fn replace_backwards(desk: &mut Desk, view: u32, text: &[u8], by: &[u8]) {
    let mut from = argument(desk.length(view));
    for _ in 0..desk.length(view) {
        if search(desk, view, from, 0, text) < 0 {
            return;
        }
        desk.send(view, Kind::ReplaceTarget, -1, 0, by);
        from = desk.ask(view, Kind::GetTargetStart, 0, 0);
    }
}

/// Inserts a text at the start of each line, from the last line to the first if `upwards`, and otherwise from the first
/// on.
fn indent(desk: &mut Desk, view: u32, text: &[u8], upwards: bool) {
    let lines = desk.lines(view);
    for turn in 0..lines {
        let line = if upwards {
            lines.wrapping_sub(turn).wrapping_sub(1)
        } else {
            turn
        };
        let start = desk.ask(view, Kind::PositionFromLine, argument(line), 0);
        desk.send(view, Kind::InsertText, start, 0, text);
    }
}

/// Deletes four bytes at the start of each line that begins with a space, from the first line on.
fn outdent(desk: &mut Desk, view: u32) {
    for line in 0..desk.lines(view) {
        let start = desk.ask(view, Kind::PositionFromLine, argument(line), 0);
        let first = desk.ask(view, Kind::GetCharAt, start, 0);
        if first == 32 {
            let length = desk.ask(view, Kind::LineLength, argument(line), 0);
            desk.send(view, Kind::DeleteRange, start, length.clamp(0, 4), &[]);
        }
    }
}

/// Undoes and redoes this many transactions.
fn there_and_back(desk: &mut Desk, view: u32, count: usize) {
    for _ in 0..count {
        desk.send(view, Kind::Undo, 0, 0, &[]);
    }
    for _ in 0..count {
        desk.send(view, Kind::Redo, 0, 0, &[]);
    }
}

/// Makes one change of everything, as a transaction of its own.
fn change_all(desk: &mut Desk, view: u32, which: usize) {
    desk.send(view, Kind::BeginUndoAction, 0, 0, &[]);
    match which {
        0 => replace_forwards(desk, view, b"self", b"this"),
        1 => indent(desk, view, b"    ", false),
        2 => replace_backwards(desk, view, b"result", b"answer_of_all"),
        3 => outdent(desk, view),
        4 => indent(desk, view, b"// ", true),
        _ => replace_forwards(desk, view, b"position = True", b"place = False"),
    }
    desk.send(view, Kind::EndUndoAction, 0, 0, &[]);
}

/// Makes each of these changes in a dressed document of this many lines, and undoes them all.
fn change_document(
    desk: &mut Desk,
    alloc: Global,
    dice: &mut Dice,
    lines: usize,
    ends: Ends,
) -> Result<u32, AllocError> {
    let text = source_lines(alloc, dice, lines, ends)?;
    let view = desk.open_on(&text);
    let dressed = Dress {
        markers: lines / 200,
        ranges: lines / 20,
    };
    dress_up(desk, alloc, view, dice, &text, dressed)?;
    desk.send(view, Kind::SetSearchFlags, MATCH_CASE, 0, &[]);
    for which in 0..6 {
        change_all(desk, view, which);
        there_and_back(desk, view, 1);
    }
    Ok(view)
}

/// Converts line ends to each kind, and undoes and redoes all of it.
fn convert(desk: &mut Desk, view: u32) {
    for mode in [0, 1, 2, 0] {
        desk.send(view, Kind::ConvertEols, mode, 0, &[]);
    }
    there_and_back(desk, view, 8);
    desk.read(view, Kind::GetText, 0, 0);
}

/// Changes documents of two sizes.
pub fn change(
    desk: &mut Desk,
    alloc: Global,
    dice: &mut Dice,
    size: usize,
) -> Result<(), AllocError> {
    let small = change_document(desk, alloc, dice, size, Ends::Feeds)?;
    convert(desk, small);
    desk.close(small);
    let large = change_document(desk, alloc, dice, size.saturating_mul(4), Ends::Pairs)?;
    let other = desk.open_beside(large);
    convert(desk, large);
    there_and_back(desk, other, 10);
    Ok(())
}
