//! Typing and editing as people do it: runs of bytes with caret moves between them, deletions, undo and redo, the
//! clipboard, a changed line styled again, and sometimes a window drawn.

use crate::desk::{Desk, argument, place_of};
use crate::dice::Dice;
use crate::dressing::{Dress, draw, dress_up, hide_half, restyle_line};
use crate::source::{Ends, source_lines, word};
use ed_types::Kind;
use std::alloc::{AllocError, Global};

/// Types bytes one by one at the caret.
fn type_bytes(desk: &mut Desk, view: u32, bytes: &[u8]) {
    for byte in bytes {
        desk.send(view, Kind::AddText, 1, 0, &[*byte]);
    }
}

/// Types some words, sometimes with a line end among them.
fn type_words(desk: &mut Desk, view: u32, dice: &mut Dice) {
    for _ in 0..dice.within(1, 6) {
        type_bytes(desk, view, word(dice));
        if dice.happens(15) {
            desk.send(view, Kind::NewLine, 0, 0, &[]);
        } else {
            type_bytes(desk, view, b" ");
        }
    }
}

/// Deletes some characters before the caret, one by one.
fn delete_back(desk: &mut Desk, view: u32, dice: &mut Dice) {
    for _ in 0..dice.within(1, 12) {
        desk.send(view, Kind::DeleteBack, 0, 0, &[]);
    }
}

/// Moves the caret by characters and lines, with or without selecting.
fn move_caret(desk: &mut Desk, view: u32, dice: &mut Dice) {
    for _ in 0..dice.within(1, 8) {
        let key = match dice.below(6) {
            0 => Kind::CharLeft,
            1 => Kind::CharRight,
            2 => Kind::Home,
            3 => Kind::LineEnd,
            4 => Kind::CharRightExtend,
            _ => Kind::CharLeftExtend,
        };
        desk.send(view, key, 0, 0, &[]);
    }
}

/// Undoes some transactions, and redoes all of them or all but one.
fn undo_and_redo(desk: &mut Desk, view: u32, dice: &mut Dice) {
    let count = dice.within(1, 5);
    for _ in 0..count {
        desk.send(view, Kind::Undo, 0, 0, &[]);
    }
    for _ in dice.below(2)..count {
        desk.send(view, Kind::Redo, 0, 0, &[]);
    }
}

/// Selects some bytes from the caret on, cuts or copies them, and pastes them elsewhere.
fn cut_and_paste(desk: &mut Desk, view: u32, dice: &mut Dice) {
    let from = desk.ask(view, Kind::GetCurrentPos, 0, 0);
    let size = argument(dice.within(1, 400));
    desk.send(view, Kind::SetSel, from, from.wrapping_add(size), &[]);
    let taken = if dice.happens(50) {
        Kind::Cut
    } else {
        Kind::Copy
    };
    desk.send(view, taken, 0, 0, &[]);
    let to = next_place(desk, view, dice);
    desk.send(view, Kind::GotoPos, argument(to), 0, &[]);
    desk.send(view, Kind::Paste, 0, 0, &[]);
}

/// Returns the place of the next edit: mostly nearby, sometimes some screens away, and seldom anywhere.
fn next_place(desk: &mut Desk, view: u32, dice: &mut Dice) -> usize {
    let here = place_of(desk.ask(view, Kind::GetCurrentPos, 0, 0));
    let length = desk.length(view);
    let reach = match dice.below(10) {
        0..=5 => 2_000,
        6..=8 => 100_000,
        _ => return dice.below(length),
    };
    dice.within(here.saturating_sub(reach / 2), reach)
        .min(length)
}

/// Performs one action of a user at a place.
fn do_something(desk: &mut Desk, view: u32, dice: &mut Dice) {
    match dice.below(10) {
        0 => delete_back(desk, view, dice),
        1 => undo_and_redo(desk, view, dice),
        2 => cut_and_paste(desk, view, dice),
        3 => move_caret(desk, view, dice),
        _ => type_words(desk, view, dice),
    }
}

/// Performs this many actions in a view, each followed by the messages that an editor sends after it.
fn work(
    desk: &mut Desk,
    alloc: Global,
    view: u32,
    dice: &mut Dice,
    count: usize,
) -> Result<(), AllocError> {
    for turn in 0..count {
        let place = next_place(desk, view, dice);
        desk.send(view, Kind::GotoPos, argument(place), 0, &[]);
        do_something(desk, view, dice);
        let caret = desk.ask(view, Kind::GetCurrentPos, 0, 0);
        let line = place_of(desk.ask(view, Kind::LineFromPosition, caret, 0));
        restyle_line(desk, alloc, view, line)?;
        if turn % 16 == 0 {
            draw(desk, view, line.saturating_sub(10), 20);
        }
        if turn % 200 == 0 {
            desk.send(view, Kind::SetSavePoint, 0, 0, &[]);
        }
    }
    Ok(())
}

/// Opens a dressed document of this many lines.
fn open_dressed(
    desk: &mut Desk,
    alloc: Global,
    dice: &mut Dice,
    lines: usize,
    dressed: Dress,
) -> Result<u32, AllocError> {
    let text = source_lines(alloc, dice, lines, Ends::Feeds)?;
    let view = desk.open_on(&text);
    dress_up(desk, alloc, view, dice, &text, dressed)?;
    Ok(view)
}

/// Works in a document with two views, and sometimes adds a marker.
fn with_two_views(
    desk: &mut Desk,
    alloc: Global,
    dice: &mut Dice,
    size: usize,
) -> Result<(), AllocError> {
    let dressed = Dress {
        markers: 200,
        ranges: 2_000,
    };
    let lines = size.saturating_mul(50);
    let view = open_dressed(desk, alloc, dice, lines, dressed)?;
    let other = desk.open_beside(view);
    work(desk, alloc, view, dice, size.saturating_mul(4))?;
    work(desk, alloc, other, dice, size.saturating_mul(2))?;
    desk.close(other);
    desk.close(view);
    Ok(())
}

/// Works in a large document with many markers, with half of its lines hidden.
fn with_hidden_lines(
    desk: &mut Desk,
    alloc: Global,
    dice: &mut Dice,
    size: usize,
) -> Result<(), AllocError> {
    let lines = size.saturating_mul(200);
    let dressed = Dress {
        markers: lines / 2,
        ranges: 500,
    };
    let view = open_dressed(desk, alloc, dice, lines, dressed)?;
    hide_half(desk, view, dice);
    work(desk, alloc, view, dice, size.saturating_mul(3))?;
    desk.close(view);
    Ok(())
}

/// Works in a small document with many views.
fn with_many_views(
    desk: &mut Desk,
    alloc: Global,
    dice: &mut Dice,
    size: usize,
) -> Result<(), AllocError> {
    let dressed = Dress {
        markers: 50,
        ranges: 200,
    };
    let view = open_dressed(desk, alloc, dice, size, dressed)?;
    for _ in 0..63 {
        desk.open_beside(view);
    }
    work(desk, alloc, view, dice, size / 20)
}

/// Works in documents of three kinds.
pub fn edit(
    desk: &mut Desk,
    alloc: Global,
    dice: &mut Dice,
    size: usize,
) -> Result<(), AllocError> {
    with_two_views(desk, alloc, dice, size)?;
    with_hidden_lines(desk, alloc, dice, size)?;
    with_many_views(desk, alloc, dice, size)
}
