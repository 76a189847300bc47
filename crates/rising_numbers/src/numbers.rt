//! `RisingNumbers`: how they are made and read, and their capacity.
ghost use Rattle.std.specs.Prelude.{◌≡◌, ◌≤◌, ◌<◌, ◌+◌, ◌-◌, ◌^◌, ◌↔◌, [], length, slice_index, OnErr, IsTrue};
ghost use Rattle.rising_numbers.specs.Numbers.{AreRising, CountsReads, Grows, IsLastAtMost, NumbersFit, rising};
ghost use Rattle.vec_room.specs.Reserved.{IsReserved};

use crate::counted::{CountedNumbers, Probes};
use crate::lookups::{last_at_most, last_between};
use crate::places::Place;
use crate::quarters::last_by_quarters;
use split_vector::SplitVector;
use std::alloc::{AllocError, Allocator, Global};
use std::marker::Model;

/// Numbers, each below the next, and the length of the whole, which none of them is past.
///
/// The numbers before the step are stored as they are, and those behind it as their distances to the end. So a change
/// of the end alone moves each number behind the step with it. A change from another number on moves the step there
/// first, and changes the numbers between the two. A number that is inserted or removed changes no other: it is stored
/// as its side of the step demands.
#[derive(Drop)]
pub struct RisingNumbers<P: Place, A: Allocator = Global> {
    pub(crate) body: SplitVector<P, A>,
    pub(crate) end: P,
    // How many numbers are stored as they are.
    pub(crate) step_at: usize,
    pub(crate) stepped: u64,
}

impl<P: Place, A: Allocator> Model for RisingNumbers<P, A> {
    ghost use Rattle.std.specs.Prelude.{map};
    ghost use Rattle.rising_numbers.specs.Numbers.{Numbers, rising};
    ghost use Rattle.rising_numbers.specs.Stored.{numbers_of, IsSound};

    ghost Value = { Numbers };

    ghost view = { λ n. rising (numbers_of (P.number n.end) n.step_at (map P.number n.body.items)) (P.number n.end) n.body.capacity n.stepped n.step_at };

    ghost invariant = { λ n. IsSound P.GREATEST (P.number n.end) n.step_at (map P.number n.body.items) };
}

impl<P: Place, A: Allocator> RisingNumbers<P, A> {
    /// Returns no numbers, and the length 0. Allocates nothing.
    pub fn new(alloc: A) -> Self
        ensures { result ≡ rising [] 0 0 0 0 }
    {
        RisingNumbers {
            body: SplitVector::new(alloc),
            end: P::zero(),
            step_at: 0,
            stepped: 0,
        }
    }

    /// Returns how many numbers there are.
    pub fn count(&self) -> usize
        ensures count { result ≡ length self.now.numbers }
        ensures fits { (length self.now.numbers ≤ self.now.capacity) × (self.now.capacity < 2 ^ 63) }
        ensures sound { AreRising self.now.numbers self.now.length }
        ensures step { self.now.step_at ≤ length self.now.numbers }
    {
        self.body.len()
    }

    // The numbers rise, and none is past the end. Fewer than 2^63 fit in.
    #[inline(always)]
    pub(crate) fn are_rising(&self)
        ensures fits { (length self.now.numbers ≤ self.now.capacity) × (self.now.capacity < 2 ^ 63) }
        ensures sound { AreRising self.now.numbers self.now.length }
        ensures step { self.now.step_at ≤ length self.now.numbers }
    {
        self.count();
    }

    /// Returns the length of the whole.
    pub fn length(&self) -> usize
        ensures length { result ≡ self.now.length }
        ensures within { self.now.length ≤ P.GREATEST }
        ensures sound { AreRising self.now.numbers self.now.length }
    {
        self.end.to_usize()
    }

    // Returns the number at `index`, as a place.
    #[tactic(auto, using(crate::proofs::Lists::read_number, crate::proofs::Steps::read_far, crate::proofs::Steps::length_numbers_of))]
    pub(crate) fn place_of(&self, index: usize) -> P
        requires { index < length self.now.numbers }
        ensures { P.number result ≡ slice_index self.now.numbers index }
    {
        let stored = self.body.get(index);
        if index < self.step_at {
            return stored;
        }
        self.end.minus(stored)
    }

    // Returns whether the number at `index` is at most `wanted`. It is compared in its stored form for both sides of the
    // step, and one of the two answers is selected: the processor needs no branch for that.
    #[inline]
    pub(crate) fn is_at_most(&self, index: usize, wanted: P) -> bool
        requires index { index < length self.now.numbers }
        requires wanted { P.number wanted ≤ self.now.length }
        ensures { IsTrue result ↔ (slice_index self.now.numbers index ≤ P.number wanted) }
    {
        let stored = self.body.get(index);
        let near = stored.is_at_most(wanted);
        let far = self.end.minus(wanted).is_at_most(stored);
        if index < self.step_at { near } else { far }
    }

    /// Returns the number at `index`.
    pub fn number(&self, index: usize) -> usize
        requires { index < length self.now.numbers }
        ensures number { result ≡ slice_index self.now.numbers index }
        ensures within { result ≤ self.now.length }
    {
        self.are_rising();
        self.place_of(index).to_usize()
    }

    /// Returns how many stored numbers the moves of the step have changed so far. The count stays at `u64::MAX` once it
    /// is reached.
    pub fn stepped(&self) -> u64
        ensures { result ≡ self.now.stepped }
    {
        self.stepped
    }

    /// Returns how many numbers lie before the step. It stands where numbers were last raised or lowered, or behind
    /// those that were inserted there since.
    pub fn step_at(&self) -> usize
        ensures { result ≡ self.now.step_at }
    {
        self.step_at
    }

    /// Makes room for `count` more numbers.
    ///
    /// # Errors
    ///
    /// `AllocError` if the allocation fails. Nothing has changed then.
    #[inline(always)]
    pub fn reserve(&mut self, count: usize) -> Result<(), AllocError>
        ensures reserved { IsReserved (NumbersFit count) result self.old self.new }
        ensures grown { Grows count self.old self.new }
        ensures err { OnErr result (self.new ≡ self.old) }
    {
        self.body.reserve(count)
    }

    /// Returns the last number that is at most `place`, as its index. The first one must be at most `place`. Counts each
    /// number that it reads in `probes`.
    pub fn last_at_most(&self, place: usize, probes: &mut Probes) -> usize
        requires { (0 < length self.now.numbers) × (slice_index self.now.numbers 0 ≤ place) }
        ensures last { IsLastAtMost self.now.numbers place result }
        ensures reads { CountsReads 2 (length self.now.numbers) probes.old probes.new }
    {
        last_at_most(&CountedNumbers::of(self), place, probes)
    }

    /// Like `last_at_most`, but counts nothing, and is faster for all but few numbers: it reads half as many more, three at
    /// a time.
    pub fn last_by_quarters(&self, place: usize) -> usize
        requires { (0 < length self.now.numbers) × (slice_index self.now.numbers 0 ≤ place) }
        ensures { IsLastAtMost self.now.numbers place result }
    {
        last_by_quarters(self, P::from_usize(place.min(self.length())))
    }

    /// Like `last_at_most`, if the number is known to be one of those from `first` to before `behind`. Counts each number
    /// that it reads in `probes`.
    pub fn last_between(
        &self,
        place: usize,
        first: usize,
        behind: usize,
        probes: &mut Probes,
    ) -> usize
        requires range { (first < behind) × (behind < length self.now.numbers) }
        requires low { slice_index self.now.numbers first ≤ place }
        requires high { place < slice_index self.now.numbers behind }
        ensures last { IsLastAtMost self.now.numbers place result }
        ensures reads { CountsReads 1 (behind - first) probes.old probes.new }
    {
        last_between(&CountedNumbers::of(self), place, first, behind, probes)
    }
}
