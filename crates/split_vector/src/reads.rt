//! Reads of the items, on either side of the gap.
ghost use Rattle.std.specs.Prelude.{◌≡◌, ◌≤◌, ◌<◌, ◌+◌, ◌⊎◌, ◌++◌, length, slice_index_or, slice_range};
ghost use Rattle.std.specs.Borrow.{sem};
ghost use Rattle.split_vector.specs.Split.{gap_beside};
ghost use Rattle.split_vector.specs.SplitLends.{lent_and_back};

use crate::vector::SplitVector;
use std::alloc::Allocator;

impl<T: Copy, A: Allocator> SplitVector<T, A> {
    /// Returns the item at `index`, which is below the length.
    pub fn get(&self, index: usize) -> T
        requires { index < length self.now.items }
        ensures { result ≡ slice_index_or self.now.items index result }
    {
        // Both sides of the gap share one read: only the number added to the index differs.
        let place = if index < self.gap {
            index
        } else {
            index + self.spare
        };
        self.cells.item(self.base, place)
    }

    /// Copies the items from `start` on into `target`, which says how many.
    pub fn copy_out(&self, start: usize, target: &mut [T])
        requires { start + length target.old ≤ length self.now.items }
        ensures { target.new ≡ slice_range self.now.items start (start + length target.old) }
    {
        let gap = self.gap;
        let end = start + target.len();
        if end <= gap {
            target.copy_from_slice(&self.left()[start..end]);
        } else if gap <= start {
            target.copy_from_slice(&self.right()[start - gap..end - gap]);
        } else {
            let (before, behind) = target.split_at_mut(gap - start);
            before.copy_from_slice(&self.left()[start..]);
            behind.copy_from_slice(&self.right()[..end - gap]);
        }
    }

    /// Returns the items before the gap and those behind it. The gap stays where it is.
    pub fn halves(&self) -> (&[T], &[T])
        ensures joined { result.0.now ++ result.1.now ≡ self.now.items }
        ensures parted { length result.0.now ≡ self.now.gap }
    {
        (self.left(), self.right())
    }

    /// Lends the `count` items from `start` on as one slice. If the gap lies among them, it moves to the nearer end first.
    pub fn lend(&mut self, start: usize, count: usize) -> &[T]
        requires { start + count ≤ length self.old.items }
        ensures* back { sem 𝓛 (lent_and_back T.row A.row A.Allocator self.entry start count) }
        ensures value { result.now ≡ slice_range self.old.items start (start + count) }
    {
        self.settle(start, count);
        self.run(start, count)
    }

    // Moves the gap out of the `count` items from `start` on, to the nearer end. The gap usually stands elsewhere already.
    #[inline(always)]
    fn settle(&mut self, start: usize, count: usize)
        requires { start + count ≤ length self.old.items }
        ensures gap { self.new ≡ record self.old { gap = gap_beside start (start + count) self.old.gap } }
        ensures beside { (self.new.gap ≤ start) ⊎ (start + count ≤ self.new.gap) }
    {
        let gap = self.gap;
        let end = start + count;
        if start < gap && gap < end {
            self.settle_from_between(start, end);
        }
    }

    // The slow path of `settle`, out of line: the gap stands between `low` and `high`, and moves to the nearer of the two.
    #[inline(never)]
    fn settle_from_between(&mut self, low: usize, high: usize)
        requires { (low < self.old.gap) × (self.old.gap < high) × (high ≤ length self.old.items) }
        ensures gap { self.new ≡ record self.old { gap = gap_beside low high self.old.gap } }
        ensures beside { (self.new.gap ≤ low) ⊎ (high ≤ self.new.gap) }
    {
        if self.gap - low <= high - self.gap {
            self.slide(low);
        } else {
            self.slide(high);
        }
    }

    // Returns the `count` items from `start` on, which all lie on one side of the gap.
    fn run(&self, start: usize, count: usize) -> &[T]
        requires inside { start + count ≤ length self.now.items }
        requires beside { (self.now.gap ≤ start) ⊎ (start + count ≤ self.now.gap) }
        ensures { result.now ≡ slice_range self.now.items start (start + count) }
    {
        let gap = self.gap;
        let end = start + count;
        if end <= gap {
            &self.left()[start..end]
        } else {
            &self.right()[start - gap..end - gap]
        }
    }
}
