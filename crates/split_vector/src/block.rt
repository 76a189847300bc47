//! The steps that keep the fields of a vector a gap buffer. All arithmetic of the gap is in this module.
ghost use Rattle.std.specs.Prelude.{◌≡◌, ◌≤◌, ◌<◌, ◌+◌, ◌-◌, ◌*◌, ◌^◌, [], ◌∷◌, length, take, drop, replicate, OnOk, OnErr, true};
ghost use Rattle.std.specs.Vec.Ownership.{FitsInBlock};
ghost use Rattle.std.specs.Mem.{type_size};
ghost use Rattle.split_vector.specs.Steps.{cell_count, IsDeed};
ghost use Rattle.split_vector.specs.Split.{apart, counted, deleted, outside, with_gap, with_written, ItemsFit};

use crate::cells::{Base, Cells, Deed, allocate, deallocate, discard, enlarge, no_cells};
use crate::vector::SplitVector;
use std::alloc::{AllocError, Allocator};
use std::mem::{self, size_of_val};
use std_alloc::room::may_hold;

/// The number of items that a long move of the gap copies at once. `raise_part` and `lower_part` copy them to the stack
/// and back, but clang merges the two copies: in `objdump -d` of a proved program a part is one call of `memmove`, of
/// 32,768 bytes for items of 8 bytes. So each item is written once, as it is counted.
const PART: usize = 4096;

/// The most bytes of a part that is copied to the stack.
const PART_BYTES: usize = 32_768;

/// Frees the block of `len` cells, if there is one.
pub(crate) fn release<T, A: Allocator>(
    alloc: &A,
    base: Base<T>,
    len: usize,
    cells: Cells<T>,
    deed: Deed<T, A>,
)
    requires { (cells.at ≡ base.ptr) × (cell_count cells ≡ len) × IsDeed deed base.ptr len alloc.now }
{
    if len == 0 {
        discard(cells, deed);
    } else {
        deallocate(alloc, base, len, cells, deed);
    }
}

// Returns whether a part of these items is small enough to be copied to the stack.
#[inline(always)]
fn is_small_part<T>(items: &[T]) -> bool
    requires { 4096 ≤ length items.now }
    ensures { result ≡ true → 4096 * type_size T.row < 2 ^ 63 }
{
    size_of_val(&items[..PART]) <= PART_BYTES
}

// Adds to a count of moved items, which stays at `u64::MAX` once it is reached.
#[inline(always)]
fn count(moved: u64, items: usize) -> u64
    ensures { result ≡ counted moved items }
{
    moved.saturating_add(items as u64)
}

impl<T: Copy, A: Allocator> SplitVector<T, A> {
    /// Returns the items before the gap.
    pub(crate) fn left(&self) -> &[T]
        ensures { (result.now ≡ take self.now.gap self.now.items) × (length result.now ≡ self.now.gap) }
    {
        self.cells.left(self.base, self.gap)
    }

    /// Returns the items behind the gap.
    pub(crate) fn right(&self) -> &[T]
        ensures { (result.now ≡ drop self.now.gap self.now.items) × (self.now.gap + length result.now ≡ length self.now.items) }
    {
        self.cells
            .right(self.base, self.gap + self.spare, self.filled - self.gap)
    }

    // Moves the last `PART` items before the gap behind it.
    fn raise_part(&mut self)
        requires here { 4096 ≤ self.old.gap }
        requires few { 4096 * type_size T.row < 2 ^ 63 }
        ensures { self.new ≡ record self.old { gap = self.old.gap - 4096 } }
    {
        let from = self.gap - PART;
        let end = self.gap + self.spare;
        let Some(part) = self.left()[from..].first_chunk::<PART>() else {
            unreachable!()
        };
        let part = *part;
        self.cells.widen(from, 0);
        self.cells.push_right_slice(self.base, end, &part);
        self.gap = from;
    }

    // Moves the first `PART` items behind the gap before it.
    fn lower_part(&mut self)
        requires here { self.old.gap + 4096 ≤ length self.old.items }
        requires few { 4096 * type_size T.row < 2 ^ 63 }
        ensures { self.new ≡ record self.old { gap = self.old.gap + 4096 } }
    {
        let gap = self.gap;
        let Some(part) = self.right().first_chunk::<PART>() else {
            unreachable!()
        };
        let part = *part;
        self.cells.widen(gap, PART);
        self.cells.push_slice(self.base, gap, &part);
        self.gap = gap + PART;
    }

    // Moves the gap to `place`, which is near it. Copies the items between the two, and does not count them.
    fn slide_near(&mut self, place: usize)
        requires { place ≤ length self.old.items }
        ensures { self.new ≡ record self.old { gap = place } }
    {
        if place < self.gap {
            let count = self.gap - place;
            self.cells
                .raise(self.base, place, place + self.spare, count);
            self.gap = place;
        } else {
            let count = place - self.gap;
            self.cells
                .lower(self.base, self.gap + self.spare, self.gap, count);
            self.gap = place;
        }
    }

    // Moves the gap back, part by part, to less than a part behind `place`.
    fn slide_back(&mut self, place: usize)
        requires { place ≤ self.old.gap }
        ensures { (self.new ≡ record self.old { gap = self.new.gap }) × (place ≤ self.new.gap) }
    {
        'parts: while self.gap - place >= PART && is_small_part(self.left()) {
            self.raise_part();
        }
    }

    // Moves the gap forward, part by part, to less than a part before `place`.
    fn slide_on(&mut self, place: usize)
        requires { (self.old.gap ≤ place) × (place ≤ length self.old.items) }
        ensures { (self.new ≡ record self.old { gap = self.new.gap }) × (self.new.gap ≤ place) }
    {
        'parts: while place - self.gap >= PART && is_small_part(self.right()) {
            self.lower_part();
        }
    }

    /// Moves the gap to `place`. Copies the items between the two, and does not count them.
    pub(crate) fn slide(&mut self, place: usize)
        requires { place ≤ length self.old.items }
        ensures { self.new ≡ record self.old { gap = place } }
    {
        if place < self.gap {
            self.slide_back(place);
        } else {
            self.slide_on(place);
        }
        self.slide_near(place);
    }

    /// Moves the gap to `place`, and counts the items that this copies. The gap usually stands there already.
    #[inline(always)]
    pub(crate) fn move_gap(&mut self, place: usize)
        requires { place ≤ length self.old.items }
        ensures { self.new ≡ with_gap place (apart place self.old.gap) self.old }
    {
        if place == self.gap {
            return;
        }
        self.carry_gap(place);
    }

    // The slow path of `move_gap`, out of line: the gap stands elsewhere.
    #[inline(never)]
    fn carry_gap(&mut self, place: usize)
        requires { place ≤ length self.old.items }
        ensures { self.new ≡ with_gap place (apart place self.old.gap) self.old }
    {
        let distance = if place < self.gap {
            self.gap - place
        } else {
            place - self.gap
        };
        self.slide(place);
        self.moved = count(self.moved, distance);
    }

    // Moves the gap to the nearer end of the `count` items from `place` on, unless it stands among them.
    fn reach(&mut self, place: usize, count: usize)
        requires { place + count ≤ length self.old.items }
        ensures { (self.new ≡ with_gap self.new.gap (outside place (place + count) self.old.gap) self.old) × (place ≤ self.new.gap) × (self.new.gap ≤ place + count) }
    {
        let gap = self.gap;
        let end = place + count;
        if gap < place {
            self.move_gap(place);
        } else if end < gap {
            self.move_gap(end);
        }
    }

    /// Deletes the `count` items from `place` on.
    pub(crate) fn remove(&mut self, place: usize, count: usize)
        requires { place + count ≤ length self.old.items }
        ensures { self.new ≡ record (with_gap place (outside place (place + count) self.old.gap) self.old) { items = deleted self.old.items place count } }
    {
        self.reach(place, count);
        let gap = self.gap;
        self.cells.widen(place, place + count - gap);
        self.spare += count;
        self.filled -= count;
        self.gap = place;
    }

    /// Writes `item` before the gap.
    #[inline(always)]
    pub(crate) fn write(&mut self, item: T)
        requires { ItemsFit 1 self.old }
        ensures { self.new ≡ with_written 1 (item ∷ []) self.old }
    {
        self.cells.push(self.base, self.gap, item);
        self.gap += 1;
        self.spare -= 1;
        self.filled += 1;
        self.moved = count(self.moved, 1);
    }

    /// Writes the items of `source` before the gap.
    #[inline(always)]
    pub(crate) fn write_slice(&mut self, source: &[T])
        requires { ItemsFit (length source.now) self.old }
        ensures { self.new ≡ with_written (length source.now) source.now self.old }
    {
        let added = source.len();
        self.cells.push_slice(self.base, self.gap, source);
        self.gap += added;
        self.spare -= added;
        self.filled += added;
        self.moved = count(self.moved, added);
    }

    /// Writes `item` before the gap `added` times.
    pub(crate) fn write_fill(&mut self, added: usize, item: T)
        requires { ItemsFit added self.old }
        ensures { self.new ≡ with_written added (replicate added item) self.old }
    {
        self.cells.push_fill(self.base, self.gap, added, item);
        self.gap += added;
        self.spare -= added;
        self.filled += added;
        self.moved = count(self.moved, added);
    }

    // Lets the allocator enlarge the block to `size` cells. No item lies behind the gap.
    fn enlarge(&mut self, size: usize) -> Result<(), AllocError>
        requires { (self.old.gap ≡ length self.old.items) × (0 < self.old.capacity) × (self.old.capacity ≤ size) × FitsInBlock T.row size }
        ensures ok { OnOk result ((self.new ≡ record self.old { capacity = size }) × (size < 2 ^ 63)) }
        ensures err { OnErr result (self.new ≡ self.old) }
    {
        let old = self.filled + self.spare;
        let (_, none, no_deed) = no_cells(&self.alloc);
        let old_cells = mem::replace(&mut self.cells, none);
        let old_deed = mem::replace(&mut self.deed, no_deed);
        let (base, cells, deed) = enlarge(
            &self.alloc,
            self.base,
            self.filled,
            old,
            size,
            old_cells,
            old_deed,
        );
        let none = mem::replace(&mut self.cells, cells);
        let no_deed = mem::replace(&mut self.deed, deed);
        discard(none, no_deed);
        self.base = base?;
        self.spare += size - old;
        Ok(())
    }

    // Moves the items to a new block of `size` cells.
    fn move_to(&mut self, size: usize) -> Result<(), AllocError>
        requires { (self.old.capacity < size) × FitsInBlock T.row size }
        ensures ok { OnOk result ((self.new ≡ record self.old { capacity = size }) × (size < 2 ^ 63)) }
        ensures err { OnErr result (self.new ≡ self.old) }
    {
        let (base, mut cells, deed) = allocate(&self.alloc, size)?;
        cells.push_slice(base, 0, self.left());
        cells.push_right_slice(base, size, self.right());
        let old_len = self.filled + self.spare;
        let old_base = self.base;
        let old_cells = mem::replace(&mut self.cells, cells);
        let old_deed = mem::replace(&mut self.deed, deed);
        self.base = base;
        self.spare = size - self.filled;
        release(&self.alloc, old_base, old_len, old_cells, old_deed);
        Ok(())
    }

    /// Enlarges the block to `size` cells. The gap stays at its place. If no item lies behind it, the allocator
    /// enlarges the block itself: it moves a large block without a copy, and does not touch the memory of empty cells.
    pub(crate) fn grow_to(&mut self, size: usize) -> Result<(), AllocError>
        requires { self.old.capacity < size }
        ensures ok { OnOk result ((self.new ≡ record self.old { capacity = size }) × (size < 2 ^ 63)) }
        ensures err { OnErr result (self.new ≡ self.old) }
    {
        if !may_hold::<T>(size) {
            return Err(AllocError);
        }
        if self.gap < self.filled || self.capacity() == 0 {
            self.move_to(size)
        } else {
            self.enlarge(size)
        }
    }
}
