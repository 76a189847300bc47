//! Insertion of line starts among the partitions: one at a given place, and those among 64 places.

ghost use Rattle.std.specs.Prelude.{◌≡◌, ℕ, ◌+◌, ◌-◌, ◌≤◌, ◌<◌, ◌++◌, false, length, IfSome};
ghost use Rattle.ed_model.specs.Lines.{is_line_start};
ghost use Rattle.line_index.specs.Halves.{bytes_in};
ghost use Rattle.line_index.specs.Index.{CanAdd, MarkStarts, WereAdded};

use crate::halves::{Halves, next_start, starts_at};
use crate::marks::marks;
use crate::starts::starts_are_sound;
use bit_marks::{lowest, without};
use partitioning::{Partitioning, Place};

/// Returns marks of the 64 places from `place` on, if they lie up to `to` and the bytes before them in one half.
#[inline(always)]
pub(crate) fn marks_near(text: Halves, place: usize, to: usize) -> Option<u64>
    requires { (0 < place) × (place ≤ to) × (to ≤ length text.before.now + length text.after.now + 1) }
    ensures { IfSome result (λ m. (place + 64 ≤ to) × MarkStarts text.entry.types (bytes_in text.entry) place m) }
{
    if to - place < 64 {
        return None;
    }
    let front = place - 1;
    let middle = text.before.len();
    if middle <= front {
        return Some(marks(text.types, text.after, front - middle));
    }
    if middle - front < 64 {
        return None;
    }
    Some(marks(text.types, text.before, front))
}

/// Returns the place behind the 64 that were marked from `place` on. If no mark was set, returns the first place behind
/// them up to `to` where a line starts: a line end far away is searched for.
pub(crate) fn place_behind(text: Halves, place: usize, to: usize, marks: u64) -> usize
    requires { (place + 64 ≤ to) × (to ≤ length text.before.now + length text.after.now + 1) }
    ensures within { (place + 64 ≤ result) × (result ≤ to) }
    ensures none { (k : ℕ) → place + 64 ≤ k → k < result → is_line_start text.entry.types (bytes_in text.entry) k ≡ false }
{
    if marks == 0 {
        next_start(text, place + 64, to)
    } else {
        place + 64
    }
}

/// Inserts a line start at `place` before line `first`, if a line starts there, and returns the line behind it. The
/// first byte of the text stands at `base`.
pub(crate) fn add_at<P: Place>(
    starts: &mut Partitioning<P>,
    text: Halves,
    base: usize,
    first: usize,
    place: usize,
) -> usize
    requires { (base ≤ place) × CanAdd text.types (bytes_in text) base place (place + 1) first starts.old }
    ensures { WereAdded text.entry.types (bytes_in text.entry) base place (place + 1) first result starts.old starts.new }
{
    starts_are_sound(starts);
    if starts_at(text, place - base) {
        starts.insert_reserved(first, place);
        return first + 1;
    }
    first
}

/// Inserts the line starts among the 64 places from `place` on before line `first`, and returns the line behind them.
/// The first byte of the text stands at `base`.
pub(crate) fn add_marked<P: Place>(
    starts: &mut Partitioning<P>,
    text: Halves,
    base: usize,
    first: usize,
    place: usize,
    marks: u64,
) -> usize
    requires can { CanAdd text.types (bytes_in text) base place (place + 64) first starts.old }
    requires marked { MarkStarts text.types (bytes_in text) (place - base) marks }
    requires base { base ≤ place }
    ensures { WereAdded text.entry.types (bytes_in text.entry) base place (place + 64) first result starts.old starts.new }
{
    starts_are_sound(starts);
    let mut line = first;
    let mut left = marks;
    'adding: while left != 0 {
        let bit = lowest(left);
        line = add_at(starts, text, base, line, place + bit);
        left = without(left, bit);
    }
    line
}
