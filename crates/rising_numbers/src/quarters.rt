//! A look-up by quarters.

ghost use Rattle.std.specs.Prelude.{◌≤◌, ◌<◌, length, slice_index};
ghost use Rattle.rising_numbers.specs.Numbers.{IsLastAtMost};

use crate::numbers::RisingNumbers;
use crate::places::Place;
use std::alloc::Allocator;

/// Returns the last number that is at most `wanted`. Each turn leaves a quarter of the range. It reads the three numbers between the quarters, of
/// which none waits for another, where halving would read two, one after the other. No branch depends on the value of a number.
pub(crate) fn last_by_quarters<P: Place, A: Allocator>(
    numbers: &RisingNumbers<P, A>,
    wanted: P,
) -> usize
    requires wanted { P.number wanted ≤ numbers.now.length }
    requires low { (0 < length numbers.now.numbers) × (slice_index numbers.now.numbers 0 ≤ P.number wanted) }
    ensures { IsLastAtMost numbers.now.numbers (P.number wanted) result }
{
    let count = numbers.count();
    let mut level = count.ilog2();
    let first = count - (1 << level);
    let mut low = numbers.is_at_most(first, wanted) as usize * first;
    'quartering: while level > 1 {
        level -= 2;
        let one = numbers.is_at_most(low + (1 << level), wanted);
        let two = numbers.is_at_most(low + (2 << level), wanted);
        let three = numbers.is_at_most(low + (3 << level), wanted);
        low += (one as usize + two as usize + three as usize) << level;
    }
    if level == 0 {
        return low;
    }
    low + numbers.is_at_most(low + 1, wanted) as usize
}
