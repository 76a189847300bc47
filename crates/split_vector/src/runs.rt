//! Safe steps over runs of cells.
ghost use Rattle.std.specs.Prelude.{◌≡◌, ◌+◌, ◌-◌, ◌≤◌, ◌<◌, [], ◌∷◌, length, take, drop, replicate, Some};
ghost use Rattle.split_vector.specs.Cells.{IsRun};
ghost use Rattle.split_vector.specs.Ownership.{cells_of};
ghost use Rattle.split_vector.specs.Split.{EachBetween, IsUpdated};
ghost use Rattle.split_vector.specs.Steps.{right_start, AreOnTheRight, FitInGap, Pushes, PushesRight};

use crate::cells::{Base, Cells};

impl<T> Cells<T> {
    /// Returns the items on the left.
    pub(crate) fn left(&self, base: Base<T>, gap: usize) -> &[T]
        requires { (base.ptr ≡ self.now.at) × (gap ≡ length self.now.left) }
        ensures { result.now ≡ self.now.left }
    {
        self.slice(base, 0, gap)
    }

    /// Returns the items on the right, which begin in the cell `place`.
    pub(crate) fn right(&self, base: Base<T>, place: usize, len: usize) -> &[T]
        requires { (base.ptr ≡ self.now.at) × (place ≡ right_start self.now) × (len ≡ length self.now.right) }
        ensures { result.now ≡ self.now.right }
    {
        self.slice(base, place, len)
    }

    /// Returns the item in the cell `place`.
    #[inline]
    pub(crate) fn item(&self, base: Base<T>, place: usize) -> T
    where
        T: Copy,
        requires { (base.ptr ≡ self.now.at) × IsRun (cells_of self.now.left self.now.spare self.now.right) place 1 }
        ensures { take 1 (drop place (cells_of self.now.left self.now.spare self.now.right)) ≡ Some result ∷ [] }
    {
        self.slice(base, place, 1)[0]
    }

    /// Writes the items of `source` into the first cells of the gap.
    #[inline(always)]
    pub(crate) fn push_slice(&mut self, base: Base<T>, gap: usize, source: &[T])
    where
        T: Copy,
        requires { (base.ptr ≡ self.old.at) × FitInGap self.old gap (length source.now) }
        ensures { Pushes source.now (length source.now) self.old self.new }
    {
        for i in 0..source.len() {
            self.push(base, gap + i, source[i]);
        }
    }

    /// Replaces each item from `low` up to `high` on the left by what `change` returns for it.
    #[inline(always)]
    pub(crate) fn update_left<F: Fn(T) -> T>(
        &mut self,
        base: Base<T>,
        gap: usize,
        low: usize,
        high: usize,
        change: &F,
    )
    where
        T: Copy,
        requires cells { (base.ptr ≡ self.old.at) × (gap ≡ length self.old.left) }
        requires range { (low ≤ high) × (high ≤ gap) }
        requires callable { EachBetween (F.pre change.now) low high self.old.left }
        ensures others { self.new ≡ record self.old { left = self.new.left } }
        ensures items { IsUpdated (F.post change.now) low high self.old.left self.new.left }
    {
        for index in low..high {
            let item = self.left(base, gap)[index];
            self.replace_left(base, index, change(item));
        }
    }

    /// Like `update_left`, for the `len` items on the right, which stand in the cells from `first` on.
    #[inline(always)]
    pub(crate) fn update_right<F: Fn(T) -> T>(
        &mut self,
        base: Base<T>,
        first: usize,
        len: usize,
        low: usize,
        high: usize,
        change: &F,
    )
    where
        T: Copy,
        requires cells { (base.ptr ≡ self.old.at) × AreOnTheRight self.old first len }
        requires range { (low ≤ high) × (high ≤ len) }
        requires callable { EachBetween (F.pre change.now) low high self.old.right }
        ensures others { self.new ≡ record self.old { right = self.new.right } }
        ensures items { IsUpdated (F.post change.now) low high self.old.right self.new.right }
    {
        for index in low..high {
            let item = self.right(base, first, len)[index];
            self.replace_right(base, first + index, change(item));
        }
    }

    /// Writes `item` into the first `count` cells of the gap.
    pub(crate) fn push_fill(&mut self, base: Base<T>, gap: usize, count: usize, item: T)
    where
        T: Copy,
        requires { (base.ptr ≡ self.old.at) × FitInGap self.old gap count }
        ensures { Pushes (replicate count item) count self.old self.new }
    {
        for i in 0..count {
            self.push(base, gap + i, item);
        }
    }

    /// Writes the items of `source` into the last cells of the gap, which end before the cell `end`.
    #[inline(always)]
    pub(crate) fn push_right_slice(&mut self, base: Base<T>, end: usize, source: &[T])
    where
        T: Copy,
        requires { (base.ptr ≡ self.old.at) × (end ≡ right_start self.old) × (length source.now ≤ self.old.spare) }
        ensures { PushesRight source.now (length source.now) self.old self.new }
    {
        let len = source.len();
        for i in 0..len {
            self.push_right(base, end - 1 - i, source[len - 1 - i]);
        }
    }
}
