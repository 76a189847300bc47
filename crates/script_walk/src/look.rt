//! Shows each view: its text, its lines, and its history.

use crate::orders::Look;
use crate::say::say_changes;
use crate::walk::Walk;
use ed_types::{Kind, fold_level};
use script_ends::shown::{append_byte, append_bytes, shown_width};
use std::alloc::AllocError;

/// Blanks as wide as the prefix of a line: its number in six columns, and ` | `.
const MARGIN: &str = "         ";

/// The caret and the selection of a view, and its last line.
#[derive(Clone, Copy)]
struct Marks {
    caret: i64,
    from: i64,
    to: i64,
    last_line: i64,
}

impl Marks {
    /// Returns whether the caret or a part of the selection lies from `start` to before `end`.
    fn touch(&self, start: i64, end: i64) -> bool {
        let is_selected = self.from < self.to && self.from < end && start < self.to;
        is_selected || start <= self.caret && self.caret < end
    }

    /// Returns the first position behind a line. The last line includes the end of the text.
    fn behind(&self, line: i64, end: i64) -> i64 {
        if line == self.last_line {
            end.saturating_add(1)
        } else {
            end
        }
    }

    /// Returns the mark below all characters of a byte but the first.
    fn below(&self, position: i64) -> &'static str {
        if self.from <= position && position < self.to {
            "~"
        } else {
            " "
        }
    }

    /// Returns the mark below the first character of a byte.
    fn at(&self, position: i64) -> &'static str {
        if position == self.caret {
            "^"
        } else {
            self.below(position)
        }
    }
}

/// Appends the marks below a byte that is shown by this many characters.
fn say_marks_of(
    out: &mut String,
    marks: &Marks,
    position: i64,
    width: usize,
) -> Result<(), AllocError> {
    out.push_str(marks.at(position))?;
    for _ in 1..width {
        out.push_str(marks.below(position))?;
    }
    Ok(())
}

/// Appends the row of marks below the bytes from `start` on, up to the last mark.
fn say_marks(out: &mut String, marks: &Marks, start: i64, text: &[u8]) -> Result<(), AllocError> {
    out.push_str(MARGIN)?;
    let mut position = start;
    for byte in text {
        if position > marks.caret && position >= marks.to {
            break;
        }
        say_marks_of(out, marks, position, shown_width(*byte))?;
        position = position.saturating_add(1);
    }
    Ok(())
}

/// Appends a line of a view's text, and its marks below it, if there are any.
fn say_line(
    out: &mut String,
    walk: &mut Walk<'_>,
    view: u32,
    line: i64,
    marks: &Marks,
) -> Result<(), AllocError> {
    let start = walk.value(view, Kind::PositionFromLine, line)?;
    let Some(reply) = walk.ask(view, Kind::GetLine, line)? else {
        return Ok(());
    };
    write!(out, "{line:>6} | ")?;
    append_bytes(out, reply.text())?;
    out.push_str("\n")?;
    let end = start.saturating_add(reply.value());
    if !marks.touch(start, marks.behind(line, end)) {
        return Ok(());
    }
    say_marks(out, marks, start, reply.text())?;
    if end == marks.caret && line == marks.last_line {
        out.push_str("^")?;
    }
    out.push_str("\n")
}

/// Appends a view's text, line by line.
fn say_text(out: &mut String, walk: &mut Walk<'_>, view: u32) -> Result<(), AllocError> {
    let len = walk.value(view, Kind::GetLength, 0)?;
    let lines = walk.value(view, Kind::GetLineCount, 0)?;
    let anchor = walk.value(view, Kind::GetAnchor, 0)?;
    let caret = walk.value(view, Kind::GetCurrentPos, 0)?;
    write!(
        out,
        "view {view}: {len} bytes, {lines} lines, anchor {anchor}, caret {caret}\n"
    )?;
    let marks = Marks {
        caret,
        from: anchor.min(caret),
        to: anchor.max(caret),
        last_line: lines.saturating_sub(1),
    };
    for line in 0..lines {
        say_line(out, walk, view, line, &marks)?;
    }
    Ok(())
}

/// Appends the numbers of the markers in a mask.
fn say_markers(out: &mut String, mask: i64) -> Result<(), AllocError> {
    for number in 0..32u32 {
        if (mask >> number) & 1 != 0 {
            write!(out, ", marker {number}")?;
        }
    }
    Ok(())
}

/// Appends a line's level, markers and flags.
fn say_flags(
    out: &mut String,
    walk: &mut Walk<'_>,
    view: u32,
    line: i64,
) -> Result<(), AllocError> {
    let level = walk.value(view, Kind::GetFoldLevel, line)?;
    let number = level & i64::from(fold_level::NUMBER);
    write!(out, "{line:>6} | level {number}")?;
    if level & i64::from(fold_level::HEADER) != 0 {
        out.push_str(", header")?;
    }
    if level & i64::from(fold_level::WHITE) != 0 {
        out.push_str(", white")?;
    }
    let mask = walk.value(view, Kind::MarkerGet, line)?;
    say_markers(out, mask)?;
    if walk.value(view, Kind::GetFoldExpanded, line)? == 0 {
        out.push_str(", contracted")?;
    }
    if walk.value(view, Kind::GetLineVisible, line)? == 0 {
        out.push_str(", hidden")?;
    }
    out.push_str("\n")
}

/// Appends the levels, markers and flags of all lines of a view.
fn say_lines(out: &mut String, walk: &mut Walk<'_>, view: u32) -> Result<(), AllocError> {
    let lines = walk.value(view, Kind::GetLineCount, 0)?;
    write!(out, "view {view}: {lines} lines\n")?;
    for line in 0..lines {
        say_flags(out, walk, view, line)?;
    }
    Ok(())
}

/// Performs undo or redo as often as possible, appends what each does, and restores the place of the walk.
fn say_turns(
    out: &mut String,
    walk: &mut Walk<'_>,
    view: u32,
    can: Kind,
    turn: Kind,
) -> Result<(), AllocError> {
    let done = walk.done();
    for count in 1..u32::MAX {
        if walk.value(view, can, 0)? == 0 {
            break;
        }
        let Some(reply) = walk.ask(view, turn, 0)? else {
            break;
        };
        write!(out, "  {turn:?} {count}:")?;
        say_changes(out, &reply)?;
        out.push_str("\n")?;
    }
    walk.go_to(done)
}

/// Appends what can be undone and redone in a view's document.
fn say_history(out: &mut String, walk: &mut Walk<'_>, view: u32) -> Result<(), AllocError> {
    let is_changed = walk.value(view, Kind::GetModify, 0)? != 0;
    let place = if is_changed { "not at" } else { "at" };
    write!(out, "view {view}: {place} the save point\n")?;
    say_turns(out, walk, view, Kind::CanUndo, Kind::Undo)?;
    say_turns(out, walk, view, Kind::CanRedo, Kind::Redo)
}

/// Appends the look of a view, if the view is open.
fn say_view(
    out: &mut String,
    walk: &mut Walk<'_>,
    view: u32,
    look: Look,
) -> Result<(), AllocError> {
    if walk.ask(view, Kind::GetLength, 0)?.is_none() {
        return Ok(());
    }
    match look {
        Look::Text => say_text(out, walk, view),
        Look::Lines => say_lines(out, walk, view),
        Look::History => say_history(out, walk, view),
    }
}

/// Appends the look of each open view.
pub(crate) fn say_views(
    out: &mut String,
    walk: &mut Walk<'_>,
    look: Look,
) -> Result<(), AllocError> {
    let last = walk.last_view();
    for view in 1..=last {
        say_view(out, walk, view, look)?;
    }
    Ok(())
}
