//! Whole files styled, marked and folded while a view hears it, and then drawn.

use crate::desk::{Desk, argument};
use crate::dice::Dice;
use crate::dressing::{HEADER, draw, set_levels, style_by_runs};
use crate::source::{Ends, source_lines};
use ed_types::Kind;
use std::alloc::{AllocError, Global};

/// Adds markers to lines chosen at random, and sometimes deletes one.
fn mark_anywhere(desk: &mut Desk, view: u32, dice: &mut Dice, count: usize) {
    let lines = desk.lines(view);
    for _ in 0..count {
        let line = argument(dice.below(lines));
        let kind = if dice.happens(10) {
            Kind::MarkerDelete
        } else {
            Kind::MarkerAdd
        };
        desk.send(view, kind, line, argument(dice.below(6)), &[]);
    }
}

/// Fills ranges of an indicator at random places, and clears some.
fn fill_anywhere(desk: &mut Desk, view: u32, dice: &mut Dice, count: usize) {
    let length = desk.length(view);
    desk.send(view, Kind::SetIndicatorCurrent, 12, 0, &[]);
    for _ in 0..count {
        let place = argument(dice.below(length));
        let kind = if dice.happens(10) {
            Kind::IndicatorClearRange
        } else {
            Kind::IndicatorFillRange
        };
        desk.send(view, kind, place, argument(dice.within(1, 16)), &[]);
    }
}

/// Contracts each header, the outer ones last, and expands them from the first on.
fn fold_all(desk: &mut Desk, view: u32) {
    let lines = desk.lines(view);
    for turn in 0..lines {
        let line = argument(lines.wrapping_sub(turn).wrapping_sub(1));
        if desk.ask(view, Kind::GetFoldLevel, line, 0) & HEADER != 0 {
            desk.send(view, Kind::FoldLine, line, 0, &[]);
        }
    }
    for line in 0..lines {
        if desk.ask(view, Kind::GetFoldLevel, argument(line), 0) & HEADER != 0 {
            desk.send(view, Kind::FoldLine, argument(line), 1, &[]);
        }
    }
}

/// Contracts headers and hides lines, chosen at random.
fn fold_anywhere(desk: &mut Desk, view: u32, dice: &mut Dice, count: usize) {
    let lines = desk.lines(view);
    for _ in 0..count {
        let line = argument(dice.below(lines));
        desk.send(view, Kind::ToggleFold, line, 0, &[]);
        let other = argument(dice.below(lines));
        desk.send(view, Kind::EnsureVisible, other, 0, &[]);
        desk.ask(view, Kind::GetFoldParent, other, 0);
    }
}

/// Draws windows of fifty lines, one screen further or anywhere.
fn draw_windows(desk: &mut Desk, view: u32, dice: &mut Dice, count: usize) {
    let lines = desk.lines(view);
    let mut first = 0usize;
    for _ in 0..count {
        first = if dice.happens(40) || first >= lines {
            dice.below(lines)
        } else {
            first.wrapping_add(50)
        };
        draw(desk, view, first, 50);
    }
}

/// Walks through the marked lines from one to the next.
fn walk_markers(desk: &mut Desk, view: u32, dice: &mut Dice) {
    let mask = argument(dice.within(1, 62));
    let mut line = 0i64;
    for _ in 0..desk.lines(view) {
        line = desk.ask(view, Kind::MarkerNext, line, mask);
        if line < 0 {
            return;
        }
        line = line.wrapping_add(1);
    }
}

/// Walks back through them from the last line to the first.
fn walk_back(desk: &mut Desk, view: u32, dice: &mut Dice) {
    let mask = argument(dice.within(1, 62));
    let mut line = argument(desk.lines(view));
    for _ in 0..desk.lines(view) {
        line = desk.ask(view, Kind::MarkerPrevious, line, mask);
        if line <= 0 {
            return;
        }
        line = line.wrapping_sub(1);
    }
}

/// Styles, folds and marks a document of this many lines, and draws it.
fn paint_document(
    desk: &mut Desk,
    alloc: Global,
    dice: &mut Dice,
    lines: usize,
    ends: Ends,
) -> Result<(), AllocError> {
    let text = source_lines(alloc, dice, lines, ends)?;
    let view = desk.open_on(&text);
    style_by_runs(desk, view, &text);
    set_levels(desk, view, &text);
    mark_anywhere(desk, view, dice, lines / 4);
    fill_anywhere(desk, view, dice, lines / 4);
    walk_markers(desk, view, dice);
    walk_back(desk, view, dice);
    draw_windows(desk, view, dice, lines / 200);
    fold_all(desk, view);
    fold_anywhere(desk, view, dice, lines / 16);
    draw_windows(desk, view, dice, lines / 200);
    desk.close(view);
    Ok(())
}

/// Paints documents of two sizes.
pub fn paint(
    desk: &mut Desk,
    alloc: Global,
    dice: &mut Dice,
    size: usize,
) -> Result<(), AllocError> {
    paint_document(desk, alloc, dice, size, Ends::Feeds)?;
    paint_document(desk, alloc, dice, size.saturating_mul(4), Ends::Pairs)
}
