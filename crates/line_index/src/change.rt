//! The effect of a step on lines, for everything that is kept of each line.

ghost use Rattle.std.specs.Prelude.{◌≡◌, ◌<◌, ◌^◌, ◌-◌, ◌+◌};
ghost use Rattle.line_index.specs.Change.{line_after};

use std::marker::Model;

/// The lines of a place and of the two places behind it, counted from 0. They are lines of an index, so each is less
/// than 2^63.
#[derive(Clone, Copy)]
pub struct NearLines {
    /// The line of the place.
    pub at: usize,
    /// The line of the place one byte behind it.
    pub one_behind: usize,
    /// The line of the place two bytes behind it.
    pub two_behind: usize,
}

impl Model for NearLines {
    ghost use Rattle.std.specs.Prelude.{◌<◌, ◌^◌};
    ghost use Rattle.line_index.specs.Near.{Near};

    ghost Value = { Near };

    ghost view = { λ n. record { at = n.at; one_behind = n.one_behind; two_behind = n.two_behind } };

    ghost invariant = { λ n. (n.at < 2 ^ 63) × (n.one_behind < 2 ^ 63) × (n.two_behind < 2 ^ 63) };

    ghost inverse = { λ n. record { at = n.at; one_behind = n.one_behind; two_behind = n.two_behind } };
}

/// What is looked up before a step.
#[derive(Clone, Copy)]
pub struct LinesAbout {
    /// How many lines start before the step.
    pub before: usize,
    /// The lines at the end of what the step deletes; of an insertion, at its place.
    pub old_lines: NearLines,
}

/// The effect of a step on lines: the new line to which each old line moves.
///
/// The lines around the step are the old ones from `before - 1` up to `old_lines.two_behind`. The new lines up to
/// `new_lines.two_behind` replace them. All other lines stay as they are.
#[derive(Clone, Copy)]
pub struct LineChange {
    /// How many old lines start before the step. They keep their numbers.
    pub before: usize,
    /// The old lines at the end of what the step deleted; of an insertion, at its place.
    pub old_lines: NearLines,
    /// The new lines at the end of what the step inserted; of a deletion, at its place.
    pub new_lines: NearLines,
    /// The length of the text after the step, in bytes. If it is 0, all rows of lines are dropped, and the one line is
    /// fresh.
    pub length: usize,
}

impl LineChange {
    /// Returns the new line to which the old line `line` moves: the line of its start, moved by the step. Old lines
    /// that move to the same new line are joined there, and a new line to which none moves is fresh. The sum of `line`
    /// and `new_lines.two_behind` must be a `usize`, which it is for lines of an index.
    pub fn line_after(&self, line: usize) -> usize
        requires { line + self.now.new_lines.two_behind < 2 ^ 64 }
        ensures { result ≡ line_after self.now line }
    {
        let old = &self.old_lines;
        let new = &self.new_lines;
        if line < self.before {
            line
        } else if line <= old.at {
            new.at
        } else if line <= old.one_behind {
            new.one_behind
        } else if line <= old.two_behind {
            new.two_behind
        } else {
            line - old.two_behind + new.two_behind
        }
    }
}
