//! Look-up of the last number that is at most a place.
ghost use Rattle.std.specs.Prelude.{◌≤◌, ◌<◌, ◌-◌, length, slice_index};
ghost use Rattle.rising_numbers.specs.Numbers.{CountsReads, IsLastAtMost};

use crate::counted::{CountedNumbers, Probes};
use crate::places::Place;
use std::alloc::Allocator;

// This many numbers usually fit in the processor's caches.
const FEW: usize = 1 << 17;

/// Returns the last number that is at most `place`; the first one must be. Counts each number that it reads in
/// `probes`, since `CountedNumbers` offers no other way to read one.
pub(crate) fn last_at_most<P: Place, A: Allocator>(
    numbers: &CountedNumbers<'_, P, A>,
    place: usize,
    probes: &mut Probes,
) -> usize
    requires { (0 < length numbers.now.numbers) × (slice_index numbers.now.numbers 0 ≤ place) }
    ensures last { IsLastAtMost numbers.now.numbers place result }
    ensures reads { CountsReads 2 (length numbers.now.numbers) probes.old probes.new }
{
    let wanted = P::from_usize(place.min(numbers.length()));
    if numbers.count() <= FEW {
        return last_of_few(numbers, wanted, probes);
    }
    last_among(numbers, wanted, 0, numbers.count(), probes)
}

// The look-up among few numbers. No branch depends on the value of a number, since the processor would mispredict half
// of them. The first turn leaves a power of two of numbers, so each further turn adds the next lower power or nothing.
// It adds by a shift: the compiler would turn a product with the power into a branch again.
fn last_of_few<P: Place, A: Allocator>(
    numbers: &CountedNumbers<'_, P, A>,
    wanted: P,
    probes: &mut Probes,
) -> usize
    requires wanted { P.number wanted ≤ numbers.now.length }
    requires low { (0 < length numbers.now.numbers) × (slice_index numbers.now.numbers 0 ≤ P.number wanted) }
    ensures last { IsLastAtMost numbers.now.numbers (P.number wanted) result }
    ensures reads { CountsReads 2 (length numbers.now.numbers) probes.old probes.new }
{
    let count = numbers.count();
    let mut level = count.ilog2();
    let first = count - (1 << level);
    let mut low = numbers.is_at_most(first, wanted, probes) as usize * first;
    'halving: while level > 0 {
        level -= 1;
        let middle = low + (1 << level);
        low += (numbers.is_at_most(middle, wanted, probes) as usize) << level;
    }
    low
}

// Returns the last number from `first` to before `behind` that is at most `wanted`. The branch is predicted, so that
// the processor fetches the next number before it has this one. That wins where numbers come from memory, although half
// of the predictions are wrong.
fn last_among<P: Place, A: Allocator>(
    numbers: &CountedNumbers<'_, P, A>,
    wanted: P,
    first: usize,
    behind: usize,
    probes: &mut Probes,
) -> usize
    requires range { (first < behind) × (behind ≤ length numbers.now.numbers) }
    requires low { slice_index numbers.now.numbers first ≤ P.number wanted }
    requires high { behind < length numbers.now.numbers → P.number wanted < slice_index numbers.now.numbers behind }
    ensures last { IsLastAtMost numbers.now.numbers (P.number wanted) result }
    ensures reads { CountsReads 1 (behind - first) probes.old probes.new }
{
    numbers.are_rising();
    let mut low = first;
    let mut width = behind - first;
    'halving: while width > 1 {
        let half = width / 2;
        let middle = low + half;
        width -= half;
        if numbers.probe(middle, probes).is_at_most(wanted) {
            low = middle;
        }
    }
    low
}

/// Returns the last number that is at most `place`, which is one of those from `first` to before `behind`. Counts each
/// number that it reads in `probes`.
pub(crate) fn last_between<P: Place, A: Allocator>(
    numbers: &CountedNumbers<'_, P, A>,
    place: usize,
    first: usize,
    behind: usize,
    probes: &mut Probes,
) -> usize
    requires range { (first < behind) × (behind < length numbers.now.numbers) }
    requires low { slice_index numbers.now.numbers first ≤ place }
    requires high { place < slice_index numbers.now.numbers behind }
    ensures last { IsLastAtMost numbers.now.numbers place result }
    ensures reads { CountsReads 1 (behind - first) probes.old probes.new }
{
    let wanted = P::from_usize(place.min(numbers.length()));
    last_among(numbers, wanted, first, behind, probes)
}
