//! A document as editors have them: styled word by word, with fold levels by indentation, markers and indicators.

use crate::desk::{Desk, argument, place_of};
use crate::dice::Dice;
use ed_types::Kind;
use std::alloc::{AllocError, Global};

// Numbers of the messages, written out: the constants of `ed_types` are younger than the checkouts in which this
// benchmark is timed.

/// The fold level of a line without indentation: `SC_FOLDLEVELBASE`.
const BASE: i64 = 0x400;

/// The flag of a line under which others are folded: `SC_FOLDLEVELHEADERFLAG`.
pub const HEADER: i64 = 0x2000;

/// The mask of a view that hears all kinds of changes: `SC_MODEVENTMASKALL`.
const ALL: i64 = 0x7F_FFFF;

/// Returns the style of a byte of a word: a letter, a digit, or another byte.
fn style_of(byte: u8) -> u8 {
    match byte {
        b'a'..=b'z' | b'_' => 11,
        b'A'..=b'Z' => 5,
        b'0'..=b'9' => 2,
        b' ' | b'\n' | b'\r' => 0,
        _ => 10,
    }
}

/// Sets a style for each byte of a text, in one message.
pub fn style_at_once(
    desk: &mut Desk,
    alloc: Global,
    view: u32,
    text: &[u8],
) -> Result<(), AllocError> {
    let mut styles = Vec::with_capacity(alloc, text.len())?;
    for byte in text {
        styles.push(style_of(*byte))?;
    }
    desk.send(view, Kind::StartStyling, 0, 0, &[]);
    desk.send(view, Kind::SetStylingEx, argument(text.len()), 0, &styles);
    Ok(())
}

/// Styles a text from the end of the styled text on, by one message for each run of one style.
pub fn style_by_runs(desk: &mut Desk, view: u32, text: &[u8]) {
    let mut run = 0i64;
    let mut style = 0u8;
    for byte in text {
        let next = style_of(*byte);
        if next != style {
            desk.send(view, Kind::SetStyling, run, i64::from(style), &[]);
            run = 0;
            style = next;
        }
        run = run.wrapping_add(1);
    }
    desk.send(view, Kind::SetStyling, run, i64::from(style), &[]);
}

/// Styles a line again, as a lexer does after its text changed.
pub fn restyle_line(
    desk: &mut Desk,
    alloc: Global,
    view: u32,
    line: usize,
) -> Result<(), AllocError> {
    let start = desk.ask(view, Kind::PositionFromLine, argument(line), 0);
    desk.read(view, Kind::GetLine, argument(line), 0);
    let mut text = Vec::new(alloc);
    text.extend_from_slice(desk.last_text())?;
    desk.send(view, Kind::StartStyling, start, 0, &[]);
    style_by_runs(desk, view, &text);
    Ok(())
}

/// Returns the indentation of a line, in spaces. An empty line has that of the line before.
fn indentation(line: &[u8], before: i64) -> i64 {
    let mut spaces = 0i64;
    for byte in line {
        match *byte {
            b' ' => spaces = spaces.wrapping_add(1),
            b'\r' | b'\n' => return before,
            _ => return spaces,
        }
    }
    before
}

/// Sets the level of each line by its indentation: the line before a deeper one is a header.
pub fn set_levels(desk: &mut Desk, view: u32, text: &[u8]) {
    let mut before = 0i64;
    let mut number = 0i64;
    for line in text.split(|byte| *byte == b'\n') {
        let depth = indentation(line, before);
        if depth > before {
            let header = number.wrapping_sub(1);
            let level = BASE.wrapping_add(before) | HEADER;
            desk.send(view, Kind::SetFoldLevel, header, level, &[]);
        }
        let level = BASE.wrapping_add(depth);
        desk.send(view, Kind::SetFoldLevel, number, level, &[]);
        before = depth;
        number = number.wrapping_add(1);
    }
}

/// Adds this many markers, from the first line to the last.
pub fn add_markers(desk: &mut Desk, view: u32, dice: &mut Dice, count: usize) {
    let lines = desk.lines(view);
    let stride = (lines / count.max(1)).max(1);
    let mut line = 0usize;
    for _ in 0..count {
        let marker = argument(dice.below(8));
        desk.send(view, Kind::MarkerAdd, argument(line), marker, &[]);
        line = line.wrapping_add(stride);
    }
}

/// Fills this many ranges of an indicator, from the start to the end.
pub fn fill_ranges(desk: &mut Desk, view: u32, dice: &mut Dice, indicator: i64, count: usize) {
    let length = desk.length(view);
    let stride = (length / count.max(1)).max(1);
    desk.send(view, Kind::SetIndicatorCurrent, indicator, 0, &[]);
    let mut place = 0usize;
    for _ in 0..count {
        let size = argument(dice.within(1, stride.min(24)));
        desk.send(view, Kind::IndicatorFillRange, argument(place), size, &[]);
        place = place.wrapping_add(stride);
    }
}

/// Hides every second run of lines below the first.
pub fn hide_half(desk: &mut Desk, view: u32, dice: &mut Dice) {
    let lines = desk.lines(view);
    let mut line = 1usize;
    for _ in 0..lines {
        let last = dice.within(line, 9);
        desk.send(view, Kind::HideLines, argument(line), argument(last), &[]);
        line = dice.within(last.wrapping_add(2), 9);
        if line >= lines {
            return;
        }
    }
}

/// How many markers and ranges a document gets.
#[derive(Clone, Copy)]
pub struct Dress {
    /// Markers, along the lines.
    pub markers: usize,
    /// Ranges of an indicator, along the text.
    pub ranges: usize,
}

/// Dresses a document while no view hears it: styles, levels, markers and two indicators. Then its view hears
/// everything.
pub fn dress_up(
    desk: &mut Desk,
    alloc: Global,
    view: u32,
    dice: &mut Dice,
    text: &[u8],
    dressed: Dress,
) -> Result<(), AllocError> {
    desk.send(view, Kind::SetModEventMask, 0, 0, &[]);
    style_at_once(desk, alloc, view, text)?;
    set_levels(desk, view, text);
    add_markers(desk, view, dice, dressed.markers);
    fill_ranges(desk, view, dice, 8, dressed.ranges);
    fill_ranges(desk, view, dice, 9, dressed.ranges / 8);
    desk.send(view, Kind::SetModEventMask, ALL, 0, &[]);
    Ok(())
}

/// Reads `count` lines from `first` on, as drawing a window does.
pub fn draw(desk: &mut Desk, view: u32, first: usize, count: usize) {
    let top = desk.ask(view, Kind::VisibleFromDocLine, argument(first), 0);
    for row in 0..count {
        let shown = top.wrapping_add(argument(row));
        let line = desk.ask(view, Kind::DocLineFromVisible, shown, 0);
        let start = desk.ask(view, Kind::PositionFromLine, line, 0);
        let size = desk.read(view, Kind::GetLine, line, 0);
        desk.ask(view, Kind::MarkerGet, line, 0);
        desk.ask(view, Kind::GetFoldLevel, line, 0);
        desk.ask(view, Kind::GetFoldExpanded, line, 0);
        for column in 0..place_of(size) {
            desk.ask(
                view,
                Kind::GetStyleAt,
                start.wrapping_add(argument(column)),
                0,
            );
        }
        desk.ask(view, Kind::IndicatorEnd, 8, start);
    }
}
