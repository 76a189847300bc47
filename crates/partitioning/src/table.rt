//! `Partitioning`: how it is made and read, and its capacity.
ghost use Rattle.std.specs.Prelude.{◌≡◌, ◌≤◌, ◌<◌, ◌+◌, ◌-◌, ◌^◌, [], ◌∷◌, length, slice_index, IfOk, OnErr};
ghost use Rattle.partitioning.specs.Partitions.{ArePartitions, CountsReads, Grows, IsLastAtMost, StartsFit, partitions};
ghost use Rattle.vec_room.specs.Reserved.{IsReserved};

use rising_numbers::{Place, Probes, RisingNumbers};
use std::alloc::{AllocError, Allocator, Global};
use std::marker::Model;

/// A text cut into partitions, of which only the last may be empty: where each starts, and the length of the whole.
///
/// The starts up to the step are stored as they are, and those behind it as their distances to the end. So text that is
/// inserted into the partition at the step, or deleted from it, changes the end alone, and each start behind the step
/// moves with it. An edit in another partition moves the step there first, and changes the starts between the two. A
/// start that is inserted or removed changes no other: it is stored as its side of the step demands.
#[derive(Drop)]
pub struct Partitioning<P: Place, A: Allocator = Global> {
    // The step stands behind the start of a partition, so it is counted one further on than `step_at`.
    pub(crate) starts: RisingNumbers<P, A>,
}

impl<P: Place, A: Allocator> Model for Partitioning<P, A> {
    ghost use Rattle.partitioning.specs.Partitions.{Partitions, partitions_code};
    ghost use Rattle.partitioning.specs.Stored.{partitions_of, AreStarts};

    ghost Value = { Partitions };

    ghost coded = { partitions_code };

    ghost view = { λ t. partitions_of t.starts };

    ghost invariant = { λ t. AreStarts t.starts };
}

impl<P: Place, A: Allocator> Partitioning<P, A> {
    /// Returns one partition, which starts at 0 and is empty. Allocates memory for its start, and no more.
    ///
    /// # Errors
    ///
    /// `AllocError` if the allocation fails.
    pub fn new(alloc: A) -> Result<Self, AllocError>
        ensures { IfOk result (λ t. t ≡ partitions (0 ∷ []) 0 1 0 0) }
    {
        let mut starts = RisingNumbers::new(alloc);
        starts.reserve(1)?;
        starts.insert_reserved(0, 0);
        Ok(Partitioning { starts })
    }

    /// Returns the number of partitions, which is at least 1.
    #[inline(always)]
    pub fn count(&self) -> usize
        ensures count { result ≡ length self.now.starts }
        ensures fits { (length self.now.starts ≤ self.now.capacity) × (self.now.capacity < 2 ^ 63) }
        ensures sound { ArePartitions self.now.starts self.now.length }
    {
        self.starts.count()
    }

    // The starts rise from 0, and none is past the end. The step stands at one of them.
    #[inline(always)]
    pub(crate) fn are_partitions(&self)
        ensures fits { (length self.now.starts ≤ self.now.capacity) × (self.now.capacity < 2 ^ 63) }
        ensures sound { ArePartitions self.now.starts self.now.length }
        ensures step { self.now.step_at < length self.now.starts }
    {
        self.starts.count();
    }

    /// Returns the length of the whole.
    #[inline(always)]
    pub fn length(&self) -> usize
        ensures length { result ≡ self.now.length }
        ensures within { self.now.length ≤ P.GREATEST }
        ensures sound { ArePartitions self.now.starts self.now.length }
    {
        self.are_partitions();
        self.starts.length()
    }

    /// Returns where the partition starts.
    #[inline(always)]
    pub fn start_of(&self, index: usize) -> usize
        requires { index < length self.now.starts }
        ensures start { result ≡ slice_index self.now.starts index }
        ensures within { result ≤ self.now.length }
    {
        self.starts.number(index)
    }

    /// Returns how many stored starts the moves of the step have changed so far. The count stays at `u64::MAX` once it
    /// is reached.
    pub fn stepped(&self) -> u64
        ensures { result ≡ self.now.stepped }
    {
        self.starts.stepped()
    }

    /// Returns the partition at which the step stands: the one that was last edited, the last of those that were
    /// inserted right behind it, or the one that it was joined with.
    pub fn step_at(&self) -> usize
        ensures { result ≡ self.now.step_at }
    {
        self.starts.step_at() - 1
    }

    /// Makes room for `count` more starts.
    ///
    /// # Errors
    ///
    /// `AllocError` if the allocation fails. Nothing has changed then.
    #[inline(always)]
    pub fn reserve(&mut self, count: usize) -> Result<(), AllocError>
        ensures reserved { IsReserved (StartsFit count) result self.old self.new }
        ensures grown { Grows count self.old self.new }
        ensures err { OnErr result (self.new ≡ self.old) }
    {
        self.starts.reserve(count)
    }

    /// Returns the last partition that starts at `place` or before it; from the length on, this is the last of all.
    /// Counts each start that it reads in `probes`.
    #[inline(always)]
    pub fn partition_of(&self, place: usize, probes: &mut Probes) -> usize
        ensures last { IsLastAtMost self.now.starts place result }
        ensures reads { CountsReads 2 (length self.now.starts) probes.old probes.new }
    {
        self.are_partitions();
        self.starts.last_at_most(place, probes)
    }

    /// Like `partition_of`, if the partition is known to be one of those from `first` to before `behind`. Counts each
    /// start that it reads in `probes`.
    #[inline(always)]
    pub fn partition_between(
        &self,
        place: usize,
        first: usize,
        behind: usize,
        probes: &mut Probes,
    ) -> usize
        requires range { (first < behind) × (behind < length self.now.starts) }
        requires low { slice_index self.now.starts first ≤ place }
        requires high { place < slice_index self.now.starts behind }
        ensures last { IsLastAtMost self.now.starts place result }
        ensures reads { CountsReads 1 (behind - first) probes.old probes.new }
    {
        self.starts.last_between(place, first, behind, probes)
    }
}
