//! The effect of a step on lines, as a short list of edits that needs no allocation.

ghost use Rattle.std.specs.Prelude.{◌≡◌, ◌+◌, ◌-◌, ◌^◌, ◌≤◌, ◌<◌, ◌∷◌, ◌++◌, [], true, length};
ghost use Rattle.line_index.specs.StepEdits.{edits_of, follows, leaves_lines};
ghost use Rattle.line_index.specs.StepEdits.{came, joined, last_at, last_one_behind, settled};

use crate::change::{LineChange, NearLines};
use crate::edit::LineEdit;
use std::marker::Model;

// The most edits of a step: two for each of three places.
const MOST: usize = 6;

// A few edits, in the order in which they are made.
#[derive(Drop)]
struct FewEdits {
    edits: [LineEdit; MOST],
    count: usize,
}

impl Model for FewEdits {
    ghost use Rattle.std.specs.Prelude.{◌≤◌, List, take};
    ghost use Rattle.line_index.specs.declared.edit.LineEdit.{LineEdit};

    ghost Value = { List LineEdit };

    ghost view = { λ e. take e.count e.edits };

    ghost invariant = { λ e. e.count ≤ 6 };
}

impl FewEdits {
    // Returns no edits. Unused places are all zeros, which is fast to write.
    #[inline(always)]
    fn none() -> Self
        ensures { result ≡ [] }
    {
        FewEdits {
            edits: [LineEdit::Come { line: 0, count: 0 }; MOST],
            count: 0,
        }
    }

    // Appends an edit.
    fn push(&mut self, edit: LineEdit)
        requires { length self.old < 6 }
        ensures { self.new ≡ self.old ++ edit ∷ [] }
    {
        self.edits[self.count] = edit;
        self.count += 1;
    }

    // Returns the edits, the first one first.
    fn as_slice(&self) -> &[LineEdit]
        ensures { result.now ≡ self.now }
    {
        &self.edits[..self.count]
    }
}

/// The edits of a step, in the order in which they are made.
#[derive(Drop)]
pub struct LineEdits {
    // `None` if there are no edits, as after a step inside a line. That is fast to write.
    few: Option<FewEdits>,
}

impl Model for LineEdits {
    ghost use Rattle.std.specs.Prelude.{List, [], unwrap_or};
    ghost use Rattle.line_index.specs.declared.edit.LineEdit.{LineEdit};

    ghost Value = { List LineEdit };

    ghost view = { λ e. unwrap_or e.few [] };
}

impl LineEdits {
    /// Returns the edits, the first one first.
    #[inline]
    pub fn as_slice(&self) -> &[LineEdit]
        ensures { result.now ≡ self.now }
    {
        match &self.few {
            Some(few) => few.as_slice(),
            None => &[],
        }
    }
}

// Joins the `count` lines behind the line to it, if there are any.
fn join(edits: &mut FewEdits, line: usize, count: usize)
    requires { length edits.old < 6 }
    ensures edits { edits.new ≡ edits.old ++ joined line count }
    ensures few { length edits.new ≤ length edits.old + 1 }
{
    if count != 0 {
        edits.push(LineEdit::Join { line, count });
    }
}

// Inserts fresh lines before the line, if there are any.
fn come(edits: &mut FewEdits, line: usize, count: usize)
    requires { length edits.old < 6 }
    ensures edits { edits.new ≡ edits.old ++ came line count }
    ensures few { length edits.new ≤ length edits.old + 1 }
{
    if count != 0 {
        edits.push(LineEdit::Come { line, count });
    }
}

// Moves the next `count` old lines to a new line. The new lines before `next` are done.
fn settle(edits: &mut FewEdits, next: usize, line: usize, count: usize)
    requires room { length edits.old ≤ 4 }
    requires small { line < 2 ^ 63 }
    ensures edits { edits.new ≡ edits.old ++ settled next line count }
    ensures few { length edits.new ≤ length edits.old + 2 }
{
    if line < next {
        join(edits, line, count);
    } else if count == 0 {
        come(edits, next, line + 1 - next);
    } else {
        join(edits, next, count - 1);
        come(edits, next, line - next);
    }
}

// Returns the last old line that moves to the new line of the step's end.
fn last_line_at(old: &NearLines, new: &NearLines) -> usize
    ensures { result ≡ last_at old.now new.now }
{
    if new.two_behind == new.at {
        old.two_behind
    } else if new.one_behind == new.at {
        old.one_behind
    } else {
        old.at
    }
}

// Returns the last old line that moves to the new line of the place one byte behind the step's end.
fn last_line_one_behind(old: &NearLines, new: &NearLines) -> usize
    ensures { result ≡ last_one_behind old.now new.now }
{
    if new.two_behind == new.one_behind {
        old.two_behind
    } else {
        old.one_behind
    }
}

// Returns whether `other` is the line, or the one behind it.
#[inline(always)]
fn is_next(line: usize, other: usize) -> bool
    requires { line < 2 ^ 63 }
    ensures next { result ≡ follows line other }
    ensures near { result ≡ true → (line ≤ other) × (other ≤ line + 1) }
{
    other == line || other == line + 1
}

impl LineChange {
    /// Returns whether the step left the lines as they were: those around it keep their numbers, and each of them is
    /// the one before it, or follows it. There is then no edit. This takes a few comparisons, and holds for an ordinary
    /// step inside a line.
    #[inline(always)]
    pub fn is_quiet(&self) -> bool
        ensures quiet { result ≡ leaves_lines self.now }
        ensures none { result ≡ true → edits_of self.now ≡ [] }
    {
        let old = &self.old_lines;
        let new = &self.new_lines;
        if old.at != new.at
            || old.one_behind != new.one_behind
            || old.two_behind != new.two_behind
        {
            return false;
        }
        self.length != 0
            && is_next(old.at, self.before)
            && is_next(old.at, old.one_behind)
            && is_next(old.one_behind, old.two_behind)
    }

    /// Returns the edits that turn what was kept of the old lines into what is to be kept of the new ones. An ordinary
    /// step inside a line has none.
    #[inline]
    pub fn edits(&self) -> LineEdits
        ensures { result ≡ edits_of self.now }
    {
        if self.is_quiet() {
            return LineEdits { few: None };
        }
        LineEdits {
            few: Some((*self).edits_about()),
        }
    }

    // The slow path of `edits`, out of line, so that a quiet step does not pay for the list. It takes a copy of `self`,
    // so that a quiet step keeps its `LineChange` in registers.
    #[inline(never)]
    fn edits_about(self) -> FewEdits
        ensures { result ≡ edits_of self }
    {
        let mut edits = FewEdits::none();
        if self.length == 0 {
            edits.push(LineEdit::Restart);
            return edits;
        }
        let old = &self.old_lines;
        let new = &self.new_lines;
        // one new line holds all three places, as after a line end was typed inside a line
        if new.one_behind == new.at && new.two_behind == new.at {
            let count = (old.two_behind + 1).saturating_sub(self.before);
            settle(&mut edits, self.before, new.at, count);
            return edits;
        }
        let first = last_line_at(old, new);
        let second = last_line_one_behind(old, new);
        settle(
            &mut edits,
            self.before,
            new.at,
            (first + 1).saturating_sub(self.before),
        );
        settle(
            &mut edits,
            new.at + 1,
            new.one_behind,
            second.saturating_sub(first),
        );
        settle(
            &mut edits,
            new.one_behind + 1,
            new.two_behind,
            old.two_behind.saturating_sub(second),
        );
        edits
    }
}
