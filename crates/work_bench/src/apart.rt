//! Edits far apart: many carets, a patch applied, a block sorted, in any order of places.

use crate::desk::{Desk, argument};
use crate::dice::Dice;
use crate::dressing::{Dress, dress_up};
use crate::source::{Ends, source_lines, word};
use ed_types::Kind;
use std::alloc::{AllocError, Global};

/// Makes an edit at a place: inserts words, inserts a line, or deletes some bytes.
fn change_at(desk: &mut Desk, view: u32, dice: &mut Dice, place: usize) {
    let at = argument(place);
    match dice.below(4) {
        0 => {
            desk.send(
                view,
                Kind::DeleteRange,
                at,
                argument(dice.within(1, 30)),
                &[],
            );
        }
        1 => {
            desk.send(view, Kind::InsertText, at, 0, b"    return None\n");
        }
        _ => {
            desk.send(view, Kind::InsertText, at, 0, word(dice));
        }
    }
}

/// Makes an edit at each of `count` places, chosen at random.
fn anywhere(desk: &mut Desk, view: u32, dice: &mut Dice, count: usize) {
    for _ in 0..count {
        let place = dice.below(desk.length(view));
        change_at(desk, view, dice, place);
    }
}

/// Moves the beginnings of lines from one place to another, as sorting a block does.
fn move_lines(desk: &mut Desk, view: u32, dice: &mut Dice, count: usize) {
    for _ in 0..count {
        let from = argument(dice.below(desk.lines(view)));
        let start = desk.ask(view, Kind::PositionFromLine, from, 0);
        let size = desk.read(view, Kind::GetLine, from, 0);
        let mut line = [0u8; 32];
        let kept = desk.last_text().len().min(32);
        for (to, byte) in line.iter_mut().zip(desk.last_text()) {
            *to = *byte;
        }
        desk.send(view, Kind::DeleteRange, start, size, &[]);
        let to = argument(dice.below(desk.lines(view)));
        let start = desk.ask(view, Kind::PositionFromLine, to, 0);
        let text = line.get(..kept).unwrap_or(&[]);
        desk.send(view, Kind::InsertText, start, 0, text);
    }
}

/// Makes edits at places from the start to the end, far from each other.
fn onwards(desk: &mut Desk, view: u32, dice: &mut Dice, count: usize) {
    let stride = (desk.length(view) / count.max(1)).max(1);
    for turn in 0..count {
        let length = desk.length(view);
        let place = turn.wrapping_mul(stride).min(length);
        change_at(desk, view, dice, place);
    }
}

/// Makes edits at the two ends of the text in turn.
fn by_turns(desk: &mut Desk, view: u32, dice: &mut Dice, count: usize) {
    for turn in 0..count {
        let length = desk.length(view);
        let off = dice.below(length / 8);
        let place = if turn % 2 == 0 {
            off
        } else {
            length.saturating_sub(off)
        };
        change_at(desk, view, dice, place);
    }
}

/// Makes edits all over a dressed document of this many lines.
fn all_over(
    desk: &mut Desk,
    alloc: Global,
    dice: &mut Dice,
    lines: usize,
    count: usize,
) -> Result<(), AllocError> {
    let text = source_lines(alloc, dice, lines, Ends::Feeds)?;
    let view = desk.open_on(&text);
    let dressed = Dress {
        markers: lines / 100,
        ranges: lines / 50,
    };
    dress_up(desk, alloc, view, dice, &text, dressed)?;
    desk.send(view, Kind::BeginUndoAction, 0, 0, &[]);
    anywhere(desk, view, dice, count);
    move_lines(desk, view, dice, count / 2);
    onwards(desk, view, dice, count);
    by_turns(desk, view, dice, count / 2);
    desk.send(view, Kind::EndUndoAction, 0, 0, &[]);
    desk.send(view, Kind::Undo, 0, 0, &[]);
    desk.length(view);
    desk.close(view);
    Ok(())
}

/// Makes edits all over documents of three sizes, and more of them in the smaller ones.
pub fn apart(
    desk: &mut Desk,
    alloc: Global,
    dice: &mut Dice,
    size: usize,
) -> Result<(), AllocError> {
    all_over(desk, alloc, dice, size, size / 8)?;
    all_over(desk, alloc, dice, size.saturating_mul(4), size / 32)?;
    all_over(desk, alloc, dice, size.saturating_mul(16), size / 128)
}
