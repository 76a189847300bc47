//! `SplitVector` and its calls. A contract sees a vector as its `items`, `capacity`, `gap` and `moved`.
ghost use Rattle.std.specs.Prelude.{◌≡◌, ◌≤◌, ◌<◌, ◌+◌, ◌-◌, ◌*◌, ◌^◌, ◌==◌, ◌⊎◌, [], ◌∷◌, ◌++◌, length, replicate, slice_index_or, slice_set, slice_range, OnOk, OnErr};
ghost use Rattle.vec_room.specs.Reserved.{IsReserved};
ghost use Rattle.split_vector.specs.Split.{part_larger, split, with_deleted, with_inserted, EachBetween, Grows, IsUpdated, ItemsFit};

use crate::block::release;
use crate::cells::{Base, Cells, Deed, no_cells};
use std::alloc::{AllocError, Allocator, Global};
use std::marker::Model;

/// `reserve_narrow` enlarges a block by its size divided by this.
const PARTS: usize = 64;

/// A list of items in one block of memory, with the spare capacity as a gap among them: `gap` items, then `spare` cells
/// with no item, then the other items, `filled` in all.
pub struct SplitVector<T, A: Allocator = Global> {
    pub(crate) base: Base<T>,
    pub(crate) filled: usize,
    pub(crate) spare: usize,
    pub(crate) gap: usize,
    pub(crate) moved: u64,
    pub(crate) cells: Cells<T>,
    pub(crate) deed: Deed<T, A>,
    pub(crate) alloc: A,
}

impl<T, A: Allocator> Model for SplitVector<T, A> {
    ghost use Rattle.split_vector.specs.Split.{Split, split_code};

    ghost Value = { Split T };

    ghost coded = { split_code T.code };

    ghost use Rattle.split_vector.specs.Fields.{IsSound, split_of};

    ghost view = { split_of };

    ghost invariant = { IsSound };
}

impl<T: Copy, A: Allocator> SplitVector<T, A> {
    /// Returns an empty vector with no spare capacity. Allocates nothing.
    pub fn new(alloc: A) -> Self
        ensures { result ≡ split [] 0 0 0 }
    {
        let (base, cells, deed) = no_cells(&alloc);
        SplitVector {
            base,
            filled: 0,
            spare: 0,
            gap: 0,
            moved: 0,
            cells,
            deed,
            alloc,
        }
    }

    /// Returns the number of items.
    pub fn len(&self) -> usize
        ensures len { result ≡ length self.now.items }
        ensures fits { (length self.now.items ≤ self.now.capacity) × (self.now.capacity < 2 ^ 63) }
    {
        self.filled
    }

    /// Returns whether there is no item.
    pub fn is_empty(&self) -> bool
        ensures { result ≡ (length self.now.items == 0) }
    {
        self.len() == 0
    }

    /// Returns how many items fit in without an allocation, those that are there included.
    pub fn capacity(&self) -> usize
        ensures { result ≡ self.now.capacity }
    {
        self.len() + self.spare()
    }

    /// Returns how many more items fit in without an allocation.
    pub fn spare(&self) -> usize
        ensures spare { result ≡ self.now.capacity - length self.now.items }
        ensures fits { (length self.now.items ≤ self.now.capacity) × (self.now.capacity < 2 ^ 63) }
    {
        self.spare
    }

    /// Returns how many items lie before the gap.
    pub fn gap(&self) -> usize
        ensures gap { result ≡ self.now.gap }
        ensures within { self.now.gap ≤ length self.now.items }
    {
        self.gap
    }

    /// Returns how many items insertions and deletions have moved or written so far. The count stays at `u64::MAX` once
    /// it is reached. Growth and lending are not counted.
    pub fn moved(&self) -> u64
        ensures { result ≡ self.now.moved }
    {
        self.moved
    }

    /// Replaces the item at `index`, which is below the length, by `item`.
    pub fn set(&mut self, index: usize, item: T)
        requires { index < length self.old.items }
        ensures { self.new ≡ record self.old { items = slice_set self.old.items index item } }
    {
        if index < self.gap {
            self.cells.replace_left(self.base, index, item);
        } else {
            self.cells
                .replace_right(self.base, index + self.spare, item);
        }
    }

    /// Replaces each item from `low` up to `high` by what `change` returns for it: first those before the gap, then those
    /// behind it. Nothing moves.
    #[inline]
    pub fn update<F: Fn(T) -> T>(&mut self, low: usize, high: usize, change: F)
        requires range { (low ≤ high) × (high ≤ length self.old.items) }
        requires callable { EachBetween (F.pre change) low high self.old.items }
        ensures items { IsUpdated (F.post change) low high self.old.items self.new.items }
        ensures rest { self.new ≡ record self.old { items = self.new.items } }
    {
        let gap = self.gap;
        let first = gap + self.spare;
        let right = self.filled - gap;
        self.cells
            .update_left(self.base, gap, low.min(gap), high.min(gap), &change);
        self.cells.update_right(
            self.base,
            first,
            right,
            low.max(gap) - gap,
            high.max(gap) - gap,
            &change,
        );
    }

    /// Makes room for `count` more items. If the spare capacity is too small, the block at least doubles, so that a run
    /// of insertions takes amortised constant time for each item.
    ///
    /// # Errors
    ///
    /// `AllocError` if the allocation fails, or if no block can be so large. The vector is then unchanged.
    #[inline(always)]
    pub fn reserve(&mut self, count: usize) -> Result<(), AllocError>
        ensures reserved { IsReserved (ItemsFit count) result self.old self.new }
        ensures grown { Grows count self.old self.new }
        ensures doubles { OnOk result ((self.new ≡ self.old) ⊎ (2 * self.old.capacity ≤ self.new.capacity)) }
        ensures err { OnErr result (self.new ≡ self.old) }
    {
        if count <= self.spare() {
            return Ok(());
        }
        self.grow(count)
    }

    // Moves to a larger block. Out of line, since it is rare.
    #[inline(never)]
    fn grow(&mut self, count: usize) -> Result<(), AllocError>
        requires { self.old.capacity < length self.old.items + count }
        ensures ok { OnOk result (ItemsFit count self.new × (2 * self.old.capacity ≤ self.new.capacity)) }
        ensures grown { Grows count self.old self.new }
        ensures err { OnErr result (self.new ≡ self.old) }
    {
        let wanted = self.len().saturating_add(count);
        let doubled = 2 * self.capacity();
        self.grow_to(wanted.max(doubled))
    }

    /// Makes room for `count` more items. If the spare capacity is too small, the block grows by a 64th of its size, or
    /// to the size that is needed if that is larger.
    ///
    /// The gap of such a vector stays narrow, so a move of the gap writes near where it reads, which memory does
    /// several times faster. In return a vector that doubles its size copies all items about 45 times, and not once as
    /// with `reserve`. So it is for owners that grow seldom.
    ///
    /// # Errors
    ///
    /// `AllocError` if the allocation fails, or if no block can be so large. The vector is then unchanged.
    pub fn reserve_narrow(&mut self, count: usize) -> Result<(), AllocError>
        ensures reserved { IsReserved (ItemsFit count) result self.old self.new }
        ensures grown { Grows count self.old self.new }
        ensures part { self.old.capacity < length self.old.items + count → OnOk result (self.new.capacity ≡ part_larger self.old.capacity (length self.old.items + count)) }
        ensures err { OnErr result (self.new ≡ self.old) }
    {
        if self.spare() < count {
            let capacity = self.capacity();
            let needed = self.len().saturating_add(count);
            return self.grow_to(needed.max(capacity + capacity / PARTS));
        }
        Ok(())
    }

    /// Inserts `item` before the item at `place`, or at the end. There must be room for it.
    #[inline]
    pub fn insert_reserved(&mut self, place: usize, item: T)
        requires { (place ≤ length self.old.items) × ItemsFit 1 self.old }
        ensures { self.new ≡ with_inserted place 1 (item ∷ []) self.old }
    {
        self.move_gap(place);
        self.write(item);
    }

    /// Inserts the items of `source`, in their order, before the item at `place`, or at the end. There must be room for them.
    #[inline]
    pub fn insert_slice_reserved(&mut self, place: usize, source: &[T])
        requires { (place ≤ length self.old.items) × ItemsFit (length source.now) self.old }
        ensures { self.new ≡ with_inserted place (length source.now) source.now self.old }
    {
        if !source.is_empty() {
            self.move_gap(place);
            self.write_slice(source);
        }
    }

    /// Inserts `item` `count` times before the item at `place`, or at the end. There must be room for them.
    pub fn insert_fill_reserved(&mut self, place: usize, count: usize, item: T)
        requires { (place ≤ length self.old.items) × ItemsFit count self.old }
        ensures { self.new ≡ with_inserted place count (replicate count item) self.old }
    {
        if count > 0 {
            self.move_gap(place);
            self.write_fill(count, item);
        }
    }

    /// Deletes the `count` items from `place` on. Their cells become spare capacity.
    pub fn delete(&mut self, place: usize, count: usize)
        requires { place + count ≤ length self.old.items }
        ensures { self.new ≡ with_deleted place count self.old }
    {
        if count > 0 {
            self.remove(place, count);
        }
    }
}

impl<T: Drop, A: Allocator> Drop for SplitVector<T, A> {
    fn drop(self) {
        let SplitVector {
            base,
            filled,
            spare,
            gap: _,
            moved: _,
            cells,
            deed,
            alloc,
        } = self;
        release(&alloc, base, filled + spare, cells, deed);
    }
}
