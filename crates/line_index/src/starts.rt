//! Line starts among the partitions: finding them, and removing and inserting them around a step.

ghost use Rattle.std.specs.Prelude.{ℕ, ◌≡◌, ◌+◌, ◌-◌, ◌^◌, ◌≤◌, ◌<◌, ◌++◌, IsTrue, IfSome, false, min, length};
ghost use Rattle.std.specs.Prelude.{take, drop, slice_index};
ghost use Rattle.ed_model.specs.Lines.{line_of};
ghost use Rattle.partitioning.specs.Partitions.{ArePartitions, IsLastAtMost};
ghost use Rattle.line_index.specs.Halves.{bytes_in};
ghost use Rattle.line_index.specs.Index.{CanAdd, StartsUpTo, WereAdded, count_near};
ghost use Rattle.line_index.specs.Change.{near_lines};
ghost use Rattle.ed_model.specs.NeighbourLaws.{count_before};

use crate::adding::{add_at, add_marked, marks_near, place_behind};
use crate::change::{LinesAbout, NearLines};
use crate::halves::{Halves, next_place};
use partitioning::{Partitioning, Place, Probes};

// A law: the starts of lines rise from 0 on up to the end of the text, and there are few. `count` and `length` say so.
#[inline(always)]
pub(crate) fn starts_are_sound<P: Place>(starts: &Partitioning<P>)
    ensures few { length starts.now.starts < 2 ^ 63 }
    ensures long { starts.now.length < 2 ^ 64 }
    ensures sound { ArePartitions starts.now.starts starts.now.length }
{
    starts.count();
    starts.length();
}

// Returns whether `line`, which starts at `place` or before it, holds `place`: it is the last, or the next starts
// behind `place`.
#[tactic(auto, using(crate::proofs::Finding::last_of_all))]
fn reaches<P: Place>(starts: &Partitioning<P>, line: usize, place: usize) -> bool
    requires { StartsUpTo starts.now.starts line place }
    ensures yes { IsTrue result → IsLastAtMost starts.now.starts place line }
    ensures no { result ≡ false → StartsUpTo starts.now.starts (line + 1) place }
{
    let count = starts.count();
    line + 1 == count || place < starts.start_of(line + 1)
}

// Before all lines are searched, this many before a likely one are, and as many from the second behind it on: a change
// at many places continues a few lines from the last one. One start decides whether the line is among them, and at most
// five more decide which it is.
const ABOUT: usize = 32;

// Among so few lines, a look-up among all reads hardly more starts, and none in vain.
const FEW: usize = 2 * ABOUT;

// Returns the line that holds `place`, if the likely line starts behind `place` or does not exist. Out of line, since
// the likely line or the next one usually holds `place`.
#[inline(never)]
fn line_in_front<P: Place>(starts: &Partitioning<P>, place: usize, likely: usize) -> usize
    requires { likely < length starts.now.starts → place < slice_index starts.now.starts likely }
    ensures { IsLastAtMost starts.now.starts place result }
{
    let count = starts.count();
    let mut probes = Probes::new();
    if count > FEW && likely < count {
        let first = likely.saturating_sub(ABOUT);
        if starts.start_of(first) <= place {
            return starts.partition_between(place, first, likely, &mut probes);
        }
    }
    starts.partition_of(place, &mut probes)
}

// Returns the line that holds `place`, if `line` starts at `place` or before it. Near the end of the text, the start
// that decides whether the line is near is that of the last line of all. Out of line, since the likely line or the next
// one usually holds `place`.
#[inline(never)]
fn line_behind<P: Place>(starts: &Partitioning<P>, place: usize, line: usize) -> usize
    requires { StartsUpTo starts.now.starts line place }
    ensures { IsLastAtMost starts.now.starts place result }
{
    let count = starts.count();
    let mut probes = Probes::new();
    if count > FEW {
        let behind = (line + ABOUT).min(count - 1);
        if place < starts.start_of(behind) {
            return starts.partition_between(place, line, behind, &mut probes);
        }
        if behind + 1 == count {
            return behind;
        }
    }
    starts.partition_of(place, &mut probes)
}

// Returns the line that holds `place`. Looks it up only if it is neither the likely line nor the next one. No start is
// read twice for this.
fn line_from<P: Place>(starts: &Partitioning<P>, place: usize, likely: usize) -> usize
    ensures { IsLastAtMost starts.now.starts place result }
{
    if likely >= starts.count() || place < starts.start_of(likely) {
        return line_in_front(starts, place, likely);
    }
    if reaches(starts, likely, place) {
        return likely;
    }
    let next = likely + 1;
    if reaches(starts, next, place) {
        return next;
    }
    line_behind(starts, place, next + 1)
}

// Returns the line that holds `place`, which is likely this line or the next.
pub(crate) fn likely_line<P: Place>(starts: &Partitioning<P>, place: usize, likely: usize) -> usize
    ensures line { result ≡ line_of starts.now.starts place }
    ensures within { result < length starts.now.starts }
{
    starts_are_sound(starts);
    line_from(starts, place, likely)
}

// Returns the line that holds `place`, which is this line or the next.
fn line_or_next<P: Place>(starts: &Partitioning<P>, line: usize, place: usize) -> usize
    requires line { line < length starts.now.starts }
    requires low { slice_index starts.now.starts line ≤ place }
    requires high { (k : ℕ) → line + 1 < k → k < length starts.now.starts → place < slice_index starts.now.starts k }
    ensures { IsLastAtMost starts.now.starts place result }
{
    starts_are_sound(starts);
    if reaches(starts, line, place) {
        line
    } else {
        line + 1
    }
}

// Returns how many lines start before `place`, if `line` is that of the byte before it.
pub(crate) fn lines_before<P: Place>(starts: &Partitioning<P>, place: usize, line: usize) -> usize
    requires { line ≡ line_of starts.now.starts (place - 1) }
    ensures { result ≡ count_before place starts.now.starts }
{
    starts_are_sound(starts);
    if place == 0 { 0 } else { line + 1 }
}

// Returns the line that holds `place`, which is this line or the next. The next one starts at `next`.
#[inline(always)]
#[tactic(auto, using(crate::proofs::Finding::next_behind, crate::proofs::Finding::next_holds))]
fn line_up_to<P: Place>(starts: &Partitioning<P>, line: usize, next: usize, place: usize) -> usize
    requires line { line + 1 < length starts.now.starts }
    requires next { next ≡ slice_index starts.now.starts (line + 1) }
    requires low { slice_index starts.now.starts line ≤ place }
    requires high { (k : ℕ) → line + 1 < k → k < length starts.now.starts → place < slice_index starts.now.starts k }
    ensures { IsLastAtMost starts.now.starts place result }
{
    starts_are_sound(starts);
    if place < next { line } else { line + 1 }
}

// Returns the lines of a place and of the two behind it, of which the last is `last`. `line` holds a place before it,
// and `line` and the next one hold all three. Each start is read once.
#[inline(always)]
fn few_lines<P: Place>(
    starts: &Partitioning<P>,
    front: usize,
    place: usize,
    last: usize,
    line: usize,
) -> Option<NearLines>
    requires order { front ≤ place }
    requires last { last ≡ min (place + 2) (2 ^ 64 - 1) }
    ensures front { IfSome result (λ lines. IsLastAtMost starts.now.starts front line) }
    ensures lines { IfSome result (λ lines. lines ≡ near_lines starts.now.starts place) }
    ensures within { IfSome result (λ lines. lines.two_behind < length starts.now.starts) }
{
    starts_are_sound(starts);
    let count = starts.count();
    if line >= count || starts.start_of(line) > front {
        return None;
    }
    if line + 1 == count {
        return Some(NearLines {
            at: line,
            one_behind: line,
            two_behind: line,
        });
    }
    let next = starts.start_of(line + 1);
    if last < next {
        return Some(NearLines {
            at: line,
            one_behind: line,
            two_behind: line,
        });
    }
    if next <= front || !reaches(starts, line + 1, last) {
        return None;
    }
    Some(NearLines {
        at: line_up_to(starts, line, next, place),
        one_behind: line_up_to(starts, line, next, place.saturating_add(1)),
        two_behind: line_up_to(starts, line, next, last),
    })
}

// Returns the lines of a place and of the two behind it, of which the first is likely this line or the next.
pub(crate) fn lines_near<P: Place>(
    starts: &Partitioning<P>,
    place: usize,
    likely: usize,
) -> NearLines
    ensures lines { result ≡ near_lines starts.now.starts place }
    ensures within { result.two_behind < length starts.now.starts }
{
    starts_are_sound(starts);
    let last = place.saturating_add(2);
    let at = line_from(starts, place, likely);
    if reaches(starts, at, last) {
        return NearLines {
            at,
            one_behind: at,
            two_behind: at,
        };
    }
    let one_behind = line_or_next(starts, at, place.saturating_add(1));
    let two_behind = line_or_next(starts, one_behind, last);
    NearLines {
        at,
        one_behind,
        two_behind,
    }
}

// Returns the line of the byte before a step, and the lines near the end of what it deletes, wherever they are. Tries
// the line before the likely one first, since undo goes backwards through a text. Out of line, since they are usually
// the lines of the last step, or behind them.
#[inline(never)]
fn lines_anywhere<P: Place>(
    starts: &Partitioning<P>,
    front: usize,
    end: usize,
    likely: usize,
) -> (usize, NearLines)
    requires { front ≤ end }
    ensures line { result.0 ≡ line_of starts.now.starts front }
    ensures at { result.0 < length starts.now.starts }
    ensures lines { result.1 ≡ near_lines starts.now.starts end }
    ensures within { result.1.two_behind < length starts.now.starts }
{
    starts_are_sound(starts);
    let before = likely.saturating_sub(1);
    if let Some(lines) = few_lines(starts, front, end, end.saturating_add(2), before) {
        return (before, lines);
    }
    let line = likely_line(starts, front, likely);
    (line, lines_near(starts, end, line))
}

// Returns the line of the byte before a step, and the lines near the end of what it deletes. They are usually one line,
// which is likely this one, or the step is at the end of this line or the next.
#[inline(always)]
pub(crate) fn lines_at_step<P: Place>(
    starts: &Partitioning<P>,
    front: usize,
    end: usize,
    likely: usize,
) -> (usize, NearLines)
    requires { front ≤ end }
    ensures line { result.0 ≡ line_of starts.now.starts front }
    ensures at { result.0 < length starts.now.starts }
    ensures lines { result.1 ≡ near_lines starts.now.starts end }
    ensures within { result.1.two_behind < length starts.now.starts }
{
    starts_are_sound(starts);
    let last = end.saturating_add(2);
    if let Some(lines) = few_lines(starts, front, end, last, likely) {
        return (likely, lines);
    }
    let next = likely.saturating_add(1);
    if let Some(lines) = few_lines(starts, front, end, last, next) {
        return (next, lines);
    }
    // Destructured, so that the lines found above stay in registers.
    let (line, lines) = lines_anywhere(starts, front, end, likely);
    (line, lines)
}

// Returns the lines near a step's end, after it. The text had `lines` lines, and `went` of their starts were removed.
// The lines stay if none was removed and there are as many as before. If lines were inserted, the last of them is
// likely the one.
#[inline(always)]
pub(crate) fn lines_after_step<P: Place>(
    starts: &Partitioning<P>,
    end: usize,
    about: &LinesAbout,
    went: usize,
    lines: usize,
) -> NearLines
    requires within { about.now.old_lines.two_behind < lines }
    requires kept { went ≡ 0 → length starts.now.starts ≡ lines → about.now.old_lines ≡ near_lines starts.now.starts end }
    ensures lines { result ≡ near_lines starts.now.starts end }
    ensures within { result.two_behind < length starts.now.starts }
{
    let count = starts.count();
    if went == 0 && count == lines {
        return about.old_lines;
    }
    let came = count.saturating_sub(lines);
    let likely = about.before.saturating_sub(1).saturating_add(came);
    if let Some(lines) = few_lines(starts, end, end, end.saturating_add(2), likely) {
        return lines;
    }
    // Bound to a local, so that the lines found above stay in registers.
    let lines = lines_near(starts, end, likely);
    lines
}

// Removes the starts of the lines from `first` up to `last`.
#[inline(always)]
#[tactic(auto, using(ed_model::specs::proved::Lists::removed_next))]
pub(crate) fn remove_starts<P: Place>(starts: &mut Partitioning<P>, first: usize, last: usize)
    requires range { (0 < first) × (first ≤ last) × (last ≤ length starts.old.starts) }
    ensures starts { starts.new.starts ≡ take first starts.old.starts ++ drop last starts.old.starts }
    ensures kept { (starts.new.length ≡ starts.old.length) × (starts.new.capacity ≡ starts.old.capacity) }
{
    for line in first..last {
        starts.remove(first);
    }
}

// Inserts the line starts from `from` up to `to` before line `first`, and returns the line behind them. Out of line,
// since there is usually none.
#[inline(never)]
fn add_from<P: Place>(
    starts: &mut Partitioning<P>,
    text: Halves,
    base: usize,
    first: usize,
    from: usize,
    to: usize,
) -> usize
    requires can { CanAdd text.types (bytes_in text) base from to first starts.old }
    requires near { (base < from) × (from ≤ to) × (to ≤ base + (length text.before.now + length text.after.now) + 1) }
    ensures { WereAdded text.entry.types (bytes_in text.entry) base from to first result starts.old starts.new }
{
    let mut place = from;
    let mut line = first;
    'adding: while place < to {
        let at = place - base;
        if let Some(marks) = marks_near(text, at, to - base) {
            line = add_marked(starts, text, base, line, place, marks);
            place = base + place_behind(text, at, to - base, marks);
        } else {
            line = add_at(starts, text, base, line, place);
            place = base + next_place(text, at, to - base);
        }
    }
    line
}

// Inserts the line starts from `from` up to `to` before line `first`, by the bytes around those places alone, of which
// the first stands at `base`. There are no such starts yet, and they must fit in. Usually no line starts
// there, which one look at the bytes decides, or one line starts behind the last of them, as after a line end was
// typed.
#[inline(always)]
pub(crate) fn add_starts<P: Place>(
    starts: &mut Partitioning<P>,
    text: Halves,
    base: usize,
    first: usize,
    from: usize,
    to: usize,
)
    requires can { CanAdd text.types (bytes_in text) base from to first starts.old }
    requires near { (base ≤ from) × (from ≤ to) × (to ≤ base + (length text.before.now + length text.after.now) + 1) }
    requires behind { base < from }
    ensures { WereAdded text.entry.types (bytes_in text.entry) base from to first (first + count_near text.entry.types (bytes_in text.entry) base from to) starts.old starts.new }
{
    let place = base + next_place(text, from - base - 1, to - base);
    if place == to {
        return;
    }
    if place + 1 == to {
        let _ = add_at(starts, text, base, first, place);
        return;
    }
    add_from(starts, text, base, first, place, to);
}
