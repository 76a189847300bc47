//! A set of lines: their numbers in rising order, which move with the text.

ghost use Rattle.std.specs.Prelude.{ℕ, ◌≡◌, ◌+◌, ◌-◌, ◌^◌, ◌≤◌, ◌<◌, [], true, false, length, slice_index, slice_get, unwrap_or, OnErr};
ghost use Rattle.rising_numbers.specs.Numbers.{NumbersFit, rising};
ghost use Rattle.vec_room.specs.Reserved.{IsReserved};
ghost use Rattle.contraction.specs.LineSets.{holds, holds_with_fresh, holds_without, holds_after, lines_outside, AreBefore, AreLines, Becomes};
ghost use Rattle.contraction.specs.ViewLines.{GrowsFor};

use rising_numbers::{Place, RisingNumbers};
use std::alloc::{AllocError, Global};
use std::cell::Cell;
use std::marker::Model;

/// Some of the lines of a text. Lines are counted from 0.
#[derive(Drop)]
pub(crate) struct LineSet<P: Place> {
    lines: RisingNumbers<P>,
    // Where the last look-up ended. Lines are mostly asked for in order.
    likely: Cell<usize>,
}

impl<P: Place> Model for LineSet<P> {
    ghost use Rattle.rising_numbers.specs.Numbers.{Numbers};
    ghost use Rattle.contraction.specs.LineSets.{AreLines};

    ghost Value = { Numbers };

    ghost view = { λ s. s.lines };

    ghost invariant = { λ s. AreLines s.lines.numbers s.lines.length };
}

impl<P: Place> LineSet<P> {
    /// Returns an empty set, for a text of `count` lines. Allocates nothing.
    pub(crate) fn new(alloc: Global, count: usize) -> Self
        requires { count ≤ P.GREATEST }
        ensures { result ≡ rising [] count 0 0 0 }
    {
        let mut lines = RisingNumbers::new(alloc);
        lines.raise(0, count);
        LineSet {
            lines,
            likely: Cell::new(0),
        }
    }

    /// A law: the lines of the set are lines of the text, whose number is a `usize`. Its body asks for that number, which
    /// tells both.
    #[inline(always)]
    pub(crate) fn is_sound(&self)
        ensures sound { AreLines self.now.numbers self.now.length }
        ensures fit { self.now.length < 2 ^ 64 }
    {
        self.length();
    }

    /// Returns how many lines are in the set.
    #[inline(always)]
    pub(crate) fn count(&self) -> usize
        ensures count { result ≡ length self.now.numbers }
        ensures small { length self.now.numbers < 2 ^ 63 }
        ensures sound { AreLines self.now.numbers self.now.length }
    {
        self.lines.count()
    }

    /// Returns how many lines the text has.
    #[inline(always)]
    pub(crate) fn length(&self) -> usize
        ensures length { result ≡ self.now.length }
        ensures within { self.now.length ≤ P.GREATEST }
        ensures sound { AreLines self.now.numbers self.now.length }
    {
        self.lines.length()
    }

    /// Returns how many lines of the set lie before `line`.
    pub(crate) fn before(&self, line: usize) -> usize
        ensures before { AreBefore self.now.numbers line result }
        ensures small { length self.now.numbers < 2 ^ 63 }
        ensures sound { AreLines self.now.numbers self.now.length }
    {
        let count = self.lines.count();
        if count == 0 {
            return 0;
        }
        // If few lines are folded, most lines lie behind the whole set.
        if self.lines.number(count - 1) < line {
            return count;
        }
        if line <= self.lines.number(0) {
            return 0;
        }
        self.lines.last_by_quarters(line - 1) + 1
    }

    // Like `before`, and tries the number `likely` and the next one first, so that lines in order need no search. One
    // test decides whether it is one of the two: where lines come in no order, the processor would mispredict more. Out
    // of line, since there are usually no lines in the set.
    #[inline(never)]
    fn before_from(&self, line: usize, likely: usize) -> usize
        ensures { AreBefore self.now.numbers line result }
    {
        let count = self.count();
        if likely < count {
            let is_behind = likely == 0 || self.lines.number(likely - 1) < line;
            let next = self.lines.number((likely + 1).min(count - 1));
            if is_behind && line <= next {
                if self.lines.number(likely) < line {
                    return likely + 1;
                }
                return likely;
            }
        }
        self.before(line)
    }

    /// Like `before`, and quick if the line is near the one of the last such call.
    #[inline(always)]
    pub(crate) fn before_likely(&self, line: usize) -> usize
        ensures before { AreBefore self.now.numbers line result }
        ensures sound { AreLines self.now.numbers self.now.length }
    {
        if self.count() == 0 {
            return 0;
        }
        let before = self.before_from(line, self.likely.get());
        self.likely.set(before);
        before
    }

    /// Returns whether the line is in the set. Quick if it is near the one of the last such call.
    #[inline(always)]
    pub(crate) fn contains(&self, line: usize) -> bool
        ensures { result ≡ holds self.now.numbers line }
    {
        let before = self.before_likely(line);
        before < self.count() && self.lines.number(before) == line
    }

    /// Returns the first line of the set from `line` on, or the number of lines of the text if there is none.
    #[tactic(auto, using(crate::proofs::LineSets::there))]
    pub(crate) fn next(&self, line: usize) -> usize
        requires { line ≤ self.now.length }
        ensures from { line ≤ result }
        ensures outside { (k : ℕ) → line ≤ k → k < result → holds self.now.numbers k ≡ false }
        ensures inside { result < self.now.length → holds self.now.numbers result ≡ true }
    {
        let before = self.before(line);
        if before == self.count() {
            return self.length();
        }
        self.lines.number(before)
    }

    /// Makes room for `lines` lines of the set in all.
    ///
    /// # Errors
    ///
    /// `AllocError` if the allocation fails. Nothing has changed then.
    pub(crate) fn reserve(&mut self, lines: usize) -> Result<(), AllocError>
        ensures reserved { IsReserved (λ s. lines ≤ s.capacity) result self.old self.new }
        ensures grown { (self.new ≡ record self.old { capacity = self.new.capacity }) × GrowsFor lines self.old.capacity self.new.capacity }
        ensures err { OnErr result (self.new ≡ self.old) }
    {
        let inside = self.lines.count();
        self.lines.reserve(lines.saturating_sub(inside))
    }

    /// Adds the line to the set. There must be room for it, unless it is there already.
    #[tactic(auto, using(crate::proofs::LineSets::there, crate::proofs::LineSets::there_already, crate::proofs::LineSets::inserted_line, crate::proofs::LineSets::within_after))]
    pub(crate) fn insert(&mut self, line: usize)
        requires line { line < self.old.length }
        requires room { holds self.old.numbers line ≡ false → NumbersFit 1 self.old }
        ensures { Becomes self.old.length (holds_after true self.old.numbers line (line + 1)) self.old self.new }
    {
        let before = self.before(line);
        if before < self.lines.count() && self.lines.number(before) == line {
            return;
        }
        self.lines.insert_reserved(before, line);
    }

    /// Adds the lines from `first` up to `past` to the set. There must be room for all lines.
    pub(crate) fn insert_range(&mut self, first: usize, past: usize)
        requires range { past ≤ self.old.length }
        requires room { self.old.length ≤ self.old.capacity }
        ensures { Becomes self.old.length (holds_after true self.old.numbers first past) self.old self.new }
    {
        for line in first..past {
            self.is_sound();
            self.insert(line);
        }
    }

    /// Removes the lines from `first` up to `past` from the set.
    #[tactic(auto, using(crate::proofs::LineSets::one_removed))]
    pub(crate) fn remove_range(&mut self, first: usize, past: usize)
        requires { past ≤ self.old.length }
        ensures { Becomes self.old.length (holds_after false self.old.numbers first past) self.old self.new }
    {
        if past <= first {
            return;
        }
        let before = self.before(first);
        let last = self.before(past);
        for index in before..last {
            self.lines.remove(before);
        }
    }

    /// Inserts `count` lines before `line`, which are not in the set, and moves the lines from `line` on by `count`.
    #[tactic(auto, using(crate::proofs::LineSets::came))]
    pub(crate) fn put_lines_in(&mut self, line: usize, count: usize)
        requires line { line ≤ self.old.length }
        requires fits { self.old.length + count ≤ P.GREATEST }
        ensures { Becomes (self.old.length + count) (holds_with_fresh self.old.numbers line count) self.old self.new }
    {
        let before = self.before(line);
        self.lines.raise(before, count);
    }

    /// Deletes `count` lines from `line` on, and moves those behind them back.
    pub(crate) fn take_lines_out(&mut self, line: usize, count: usize)
        requires { line + count ≤ self.old.length }
        ensures { Becomes (self.old.length - count) (holds_without self.old.numbers line count) self.old self.new }
    {
        self.is_sound();
        self.remove_range(line, line + count);
        let before = self.before(line);
        self.lines.lower(before, count);
    }

    // Returns how many lines of the set have at most `n` lines before them that are not in it.
    fn before_nth(&self, n: usize) -> usize
        ensures some { result ≤ length self.now.numbers }
        ensures before { 0 < result → slice_index self.now.numbers (result - 1) < n + result }
        ensures behind { result < length self.now.numbers → n + result < slice_index self.now.numbers result }
        ensures sound { AreLines self.now.numbers self.now.length }
    {
        let mut low = 0;
        let mut width = self.lines.count() + 1;
        'halving: while width > 1 {
            let half = width / 2;
            let middle = low + half;
            width -= half;
            if self.lines.number(middle - 1) - (middle - 1) <= n {
                low = middle;
            }
        }
        low
    }

    // Returns the line outside the set with `n` such lines before it, or the number of lines if there is none. Out of
    // line, since there are usually no lines in the set.
    #[tactic(auto, using(crate::proofs::Outside::nth_outside))]
    #[inline(never)]
    fn searched_outside(&self, n: usize) -> usize
        ensures { result ≡ unwrap_or (slice_get (lines_outside self.now.numbers self.now.length) n) self.now.length }
    {
        let lines = self.lines.length();
        n.saturating_add(self.before_nth(n)).min(lines)
    }

    /// Returns the line outside the set with `n` such lines before it, or the number of lines if there is none.
    #[tactic(auto, using(crate::proofs::Outside::nth_outside))]
    #[inline(always)]
    pub(crate) fn nth_outside(&self, n: usize) -> usize
        ensures { result ≡ unwrap_or (slice_get (lines_outside self.now.numbers self.now.length) n) self.now.length }
    {
        if self.count() == 0 {
            return n.min(self.length());
        }
        self.searched_outside(n)
    }
}
