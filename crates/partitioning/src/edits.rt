//! The calls that change partitions. Text that is inserted or deleted moves the step to its partition.
ghost use Rattle.std.specs.Prelude.{◌≡◌, ◌≤◌, ◌<◌, ◌+◌, ◌-◌, length, insert, remove};
ghost use Rattle.partitioning.specs.Partitions.{ArePartitions, CanStart, CanLose, StartsFit, lowered_behind, raised_behind, step_inserted, step_removed};
ghost use Rattle.partitioning.specs.Stored.{stepped_to};
ghost use Rattle.partitioning.specs.SumLaws.{KeepsTo, steps_of};

use crate::table::Partitioning;
use rising_numbers::Place;
use std::alloc::Allocator;

impl<P: Place, A: Allocator> Partitioning<P, A> {
    /// Inserts a partition that starts at `start` before the one at `index`, or at the end. There must be room for it.
    /// No other stored start changes: the step stays with its partition, or moves to the new one if that comes right
    /// behind it.
    #[inline(always)]
    pub fn insert_reserved(&mut self, index: usize, start: usize)
        requires room { StartsFit 1 self.old }
        requires start { CanStart self.old.starts self.old.length index start }
        ensures inserted { self.new ≡ record self.old { starts = insert self.old.starts index start; step_at = step_inserted index self.old.step_at } }
        ensures few { KeepsTo index (steps_of self.old) (steps_of self.new) }
        ensures sound { ArePartitions self.new.starts self.new.length }
    {
        self.starts.insert_reserved(index, start);
    }

    /// Joins the partition at `index` with the one before it, by removing its start. The first partition stays. No
    /// other stored start changes: the step stays with its partition, or moves to the one before if its own was joined.
    #[inline(always)]
    pub fn remove(&mut self, index: usize)
        requires { (0 < index) × (index < length self.old.starts) }
        ensures removed { self.new ≡ record self.old { starts = remove self.old.starts index; step_at = step_removed index self.old.step_at } }
        ensures few { KeepsTo index (steps_of self.old) (steps_of self.new) }
        ensures sound { ArePartitions self.new.starts self.new.length }
    {
        self.starts.remove(index);
    }

    /// Inserts `count` into the partition at `index`: the starts behind it and the length rise by `count`.
    #[inline(always)]
    pub fn insert_text(&mut self, index: usize, count: usize)
        requires index { index < length self.old.starts }
        requires fits { self.old.length + count ≤ P.GREATEST }
        ensures raised { self.new ≡ record self.old { starts = raised_behind self.old.starts index count; length = self.old.length + count; stepped = stepped_to index self.old; step_at = index } }
        ensures few { KeepsTo index (steps_of self.old) (steps_of self.new) }
        ensures sound { ArePartitions self.new.starts self.new.length }
    {
        self.are_partitions();
        self.starts.raise(index + 1, count);
    }

    /// Deletes `count` from the partition at `index`: the starts behind it and the length fall by `count`. The
    /// partition must not become empty, unless it is the last.
    #[inline(always)]
    pub fn delete_text(&mut self, index: usize, count: usize)
        requires index { index < length self.old.starts }
        requires count { CanLose self.old.starts self.old.length index count }
        ensures lowered { self.new ≡ record self.old { starts = lowered_behind self.old.starts index count; length = self.old.length - count; stepped = stepped_to index self.old; step_at = index } }
        ensures few { KeepsTo index (steps_of self.old) (steps_of self.new) }
        ensures sound { ArePartitions self.new.starts self.new.length }
    {
        self.are_partitions();
        self.starts.lower(index + 1, count);
    }
}
