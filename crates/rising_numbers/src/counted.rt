//! Numbers that look-ups read, and a count of these reads.
ghost use Rattle.std.specs.Prelude.{◌≡◌, ◌≤◌, ◌<◌, ◌+◌, ◌^◌, ◌↔◌, length, slice_index, IsTrue};
ghost use Rattle.rising_numbers.specs.Numbers.{AreRising};
ghost use Rattle.split_vector.specs.Split.{counted};

use crate::numbers::RisingNumbers;
use crate::places::Place;
use std::alloc::Allocator;
use std::marker::Model;

/// How many numbers look-ups have read so far. The count stays at `u64::MAX` once it is reached.
#[derive(Drop)]
pub struct Probes {
    reads: u64,
}

impl Model for Probes {
    ghost use Rattle.std.specs.Prelude.{ℕ};

    ghost Value = { ℕ };

    ghost view = { λ p. p.reads };
}

impl Probes {
    /// Returns a count of 0.
    pub fn new() -> Self
        ensures { result ≡ 0 }
    {
        Probes { reads: 0 }
    }

    /// Returns how many numbers were read.
    pub fn count(&self) -> u64
        ensures { result ≡ self.now }
    {
        self.reads
    }
}

// Counts one more read.
#[inline]
fn count_read(probes: &mut Probes)
    ensures counted { probes.new ≡ counted probes.old 1 }
    ensures rises { probes.old ≤ probes.new }
{
    probes.reads = probes.reads.saturating_add(1);
}

/// Rising numbers, as a look-up takes them. Outside this module only `probe` and `is_at_most` read a number, and both
/// count it.
#[derive(Drop)]
pub(crate) struct CountedNumbers<'a, P: Place, A: Allocator> {
    kept: &'a RisingNumbers<P, A>,
}

impl<'a, P: Place, A: Allocator> Model for CountedNumbers<'a, P, A> {
    ghost use Rattle.rising_numbers.specs.Numbers.{Numbers};

    ghost Value = { Numbers };

    ghost view = { λ c. c.kept.now };
}

impl<'a, P: Place, A: Allocator> CountedNumbers<'a, P, A> {
    /// Returns these numbers.
    pub(crate) fn of(kept: &'a RisingNumbers<P, A>) -> Self
        ensures { result ≡ kept.now }
    {
        CountedNumbers { kept }
    }

    /// Returns how many there are.
    pub(crate) fn count(&self) -> usize
        ensures count { result ≡ length self.now.numbers }
        ensures fits { (length self.now.numbers ≤ self.now.capacity) × (self.now.capacity < 2 ^ 63) }
        ensures sound { AreRising self.now.numbers self.now.length }
    {
        self.kept.count()
    }

    // The numbers rise, and none is past the end.
    #[inline(always)]
    pub(crate) fn are_rising(&self)
        ensures { AreRising self.now.numbers self.now.length }
    {
        self.kept.are_rising();
    }

    /// Returns the length of the whole.
    pub(crate) fn length(&self) -> usize
        ensures length { result ≡ self.now.length }
        ensures within { self.now.length ≤ P.GREATEST }
        ensures sound { AreRising self.now.numbers self.now.length }
    {
        self.kept.length()
    }

    /// Returns the number at `index`, and counts one read.
    pub(crate) fn probe(&self, index: usize, probes: &mut Probes) -> P
        requires { index < length self.now.numbers }
        ensures number { P.number result ≡ slice_index self.now.numbers index }
        ensures probes { probes.new ≡ counted probes.old 1 }
        ensures rises { probes.old ≤ probes.new }
    {
        count_read(probes);
        self.kept.place_of(index)
    }

    /// Returns whether the number at `index` is at most `wanted`, and counts one read.
    #[inline]
    pub(crate) fn is_at_most(&self, index: usize, wanted: P, probes: &mut Probes) -> bool
        requires index { index < length self.now.numbers }
        requires wanted { P.number wanted ≤ self.now.length }
        ensures at_most { IsTrue result ↔ (slice_index self.now.numbers index ≤ P.number wanted) }
        ensures probes { probes.new ≡ counted probes.old 1 }
        ensures rises { probes.old ≤ probes.new }
    {
        count_read(probes);
        self.kept.is_at_most(index, wanted)
    }
}
