//! Steps: the effect of an insertion or a deletion on the lines around it.

ghost use Rattle.std.specs.Prelude.{◌≡◌, ◌+◌, ◌^◌, ◌≤◌, ◌<◌, ◌++◌, min, length};
ghost use Rattle.line_index.specs.Index.{Deletes, Follows, Inserts, WasBefore, index_by, last_touched};
ghost use Rattle.line_index.specs.Change.{change_about, change_by_deletion, change_by_insertion, last_line};
ghost use Rattle.line_index.specs.TextSteps.{CanMove, IsCleared, IsStep, StaysWithin, moved_behind, new_end, old_end, step_place, with_moved};

use crate::change::{LineChange, LinesAbout, NearLines};
use crate::halves::Halves;
use crate::index::LineIndex;
use crate::starts::{add_starts, lines_after_step, lines_at_step, lines_before, remove_starts};
use ed_model::LineEndTypes;
use partitioning::{Partitioning, Place};

// Returns the place up to which a step tests for line starts: one behind the last that may depend on the step, or past
// the end of the text. If line ends of Unicode do not count, the starts behind the step's end only move. An example is
// the start behind an LF that gets a CR before it.
#[inline(always)]
fn look_to(types: LineEndTypes, end: usize, length: usize) -> usize
    requires { (end ≤ length) × (length < 2 ^ 63) }
    ensures { result ≡ min (last_touched types end + 1) (length + 1) }
{
    match types {
        LineEndTypes::Default => end + 1,
        LineEndTypes::Unicode => (end + 3).min(length + 1),
    }
}

// Returns the last of the lines whose starts may depend on a step.
#[inline(always)]
fn last_near(types: LineEndTypes, lines: &NearLines) -> usize
    ensures { result ≡ last_line types lines.now }
{
    match types {
        LineEndTypes::Default => lines.at,
        LineEndTypes::Unicode => lines.two_behind,
    }
}

// A step, by its place and its length in bytes.
#[derive(Clone, Copy)]
pub(crate) enum TextStep {
    // Inserts `count` bytes at `place`.
    Insertion { place: usize, count: usize },
    // Deletes `count` bytes from `place` on.
    Deletion { place: usize, count: usize },
}

impl TextStep {
    // Returns the place of the step, the end of what it deletes, and the end of what it inserts.
    #[inline(always)]
    fn ends(self) -> (usize, usize, usize)
        requires { (old_end self < 2 ^ 64) × (new_end self < 2 ^ 64) }
        ensures { (result.0 ≡ step_place self) × (result.1 ≡ old_end self) × (result.2 ≡ new_end self) }
    {
        match self {
            TextStep::Insertion { place, count } => (place, place, place + count),
            TextStep::Deletion { place, count } => (place, place + count, place),
        }
    }
}

// Makes the text of line `line` longer or shorter, which moves the starts behind it.
#[inline(always)]
fn move_starts<P: Place>(starts: &mut Partitioning<P>, line: usize, step: TextStep)
    requires line { line < length starts.old.starts }
    requires can { CanMove P.GREATEST line step starts.old }
    ensures { starts.new ≡ with_moved step line starts.old }
{
    match step {
        TextStep::Insertion { place: _, count } => starts.insert_text(line, count),
        TextStep::Deletion { place: _, count } => starts.delete_text(line, count),
    }
}

// The line starts around a step that were removed, and what was looked up before.
#[derive(Drop)]
pub(crate) struct Cleared {
    about: LinesAbout,
    // The first line whose start was removed, and how many were.
    first: usize,
    removed: usize,
    // How many lines there were.
    lines: usize,
}

// Looks up the lines around a step at `place`, which deletes the bytes up to `end`, and removes the starts that may
// depend on it.
#[inline(always)]
fn clear_starts<P: Place>(
    starts: &mut Partitioning<P>,
    types: LineEndTypes,
    place: usize,
    end: usize,
) -> Cleared
    requires { place ≤ end }
    ensures { IsCleared types place end starts.old starts.new result }
{
    let edited = starts.step_at();
    let lines = starts.count();
    let (line, old_lines) = lines_at_step(starts, place.saturating_sub(1), end, edited);
    let about = LinesAbout {
        before: lines_before(starts, place, line),
        old_lines,
    };
    let first = line + 1;
    let behind = last_near(types, &old_lines) + 1;
    remove_starts(starts, first, behind);
    Cleared {
        about,
        first,
        removed: behind - first,
        lines,
    }
}

// Makes the step, and replaces the line starts around it. The halves are those of the bytes near what it inserted.
// Inlined into its callers, where the kind of the step is known and the `LineChange` is not copied.
#[inline(always)]
fn make_step<P: Place>(
    starts: &mut Partitioning<P>,
    types: LineEndTypes,
    step: TextStep,
    before: &[u8],
    after: &[u8],
) -> LineChange
    requires was { WasBefore (IsStep step) (before.now ++ after.now) (index_by types starts.old) }
    requires fits { StaysWithin P.GREATEST step starts.old.length }
    requires short { (starts.old.length < 2 ^ 63) × (moved_behind step starts.old.length < 2 ^ 63) }
    ensures index { Follows (IsStep step) (before.now ++ after.now) (index_by types starts.old) (index_by types starts.new) }
    ensures capacity { starts.new.capacity ≡ starts.old.capacity }
    ensures change { result ≡ change_about (step_place step) (old_end step) (new_end step) starts.old.starts starts.new.starts starts.new.length }
{
    let (place, old_end, new_end) = step.ends();
    let cleared = clear_starts(starts, types, place, old_end);
    move_starts(starts, cleared.first - 1, step);
    let length = starts.length();
    let to = look_to(types, new_end, length);
    let near = place.saturating_sub(3);
    let text = Halves {
        types,
        before,
        after,
    };
    add_starts(starts, text, near, cleared.first, place.max(1), to);
    let about = cleared.about;
    let new_lines = lines_after_step(starts, new_end, &about, cleared.removed, cleared.lines);
    LineChange {
        before: about.before,
        old_lines: about.old_lines,
        new_lines,
        length,
    }
}

impl<P: Place> LineIndex<P> {
    /// Updates the index after `count` bytes were inserted at `place`, and returns the effect on the lines. `before`
    /// and `after` are the halves of those bytes with up to three on each side (`near_step`), which are all that is
    /// read. The new lines must fit in (`lines_for_insertion`), and the text must be shorter than 2^63 bytes.
    #[inline(always)]
    pub fn inserted(
        &mut self,
        place: usize,
        count: usize,
        before: &[u8],
        after: &[u8],
    ) -> LineChange
        requires was { WasBefore (Inserts place count) (before.now ++ after.now) self.old }
        requires fits { self.old.length + count ≤ P.GREATEST }
        requires short { self.old.length + count < 2 ^ 63 }
        ensures kept { (self.new.types ≡ self.old.types) × (self.new.capacity ≡ self.old.capacity) }
        ensures index { Follows (Inserts place count) (before.now ++ after.now) self.old self.new }
        ensures change { result ≡ change_by_insertion place count self.old self.new }
    {
        make_step(
            &mut self.starts,
            self.types,
            TextStep::Insertion { place, count },
            before,
            after,
        )
    }

    /// Updates the index after `count` bytes were deleted from `place` on, and returns the effect on the lines.
    /// `before` and `after` are the halves of the up to six bytes around the place (`near_step`), which are all that is
    /// read. A deletion may join two parts of a line end of Unicode, so its new lines must fit in (`lines_for_deletion`).
    #[inline(always)]
    pub fn deleted(&mut self, place: usize, count: usize, before: &[u8], after: &[u8]) -> LineChange
        requires was { WasBefore (Deletes place count) (before.now ++ after.now) self.old }
        requires short { self.old.length < 2 ^ 63 }
        ensures kept { (self.new.types ≡ self.old.types) × (self.new.capacity ≡ self.old.capacity) }
        ensures index { Follows (Deletes place count) (before.now ++ after.now) self.old self.new }
        ensures change { result ≡ change_by_deletion place count self.old self.new }
    {
        make_step(
            &mut self.starts,
            self.types,
            TextStep::Deletion { place, count },
            before,
            after,
        )
    }
}
