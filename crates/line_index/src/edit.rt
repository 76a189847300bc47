//! Edits of lines, for what is kept of each: a row of markers, a flag, a start among the visible lines.

/// One edit of the lines, which are counted from 0.
#[derive(Clone, Copy, Debug, PartialEq, Eq)]
pub enum LineEdit {
    /// Inserts `count` fresh lines before line `line`, or behind the last one.
    Come { line: usize, count: usize },
    /// Joins the `count` lines behind line `line` to it.
    Join { line: usize, count: usize },
    /// No text is left: removes all lines, and inserts one fresh line.
    Restart,
}
