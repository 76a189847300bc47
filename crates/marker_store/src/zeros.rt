//! Searches of a slice for a number that is not 0. They pass blocks of zeros: most numbers are 0.
ghost use Rattle.std.specs.Prelude.{◌≡◌, ℕ, ◌≤◌, ◌<◌, true, length, slice_index_or};

// This many numbers are tested together, without a branch for each.
const BLOCK: usize = 16;

// Returns whether all numbers are 0. It tests all of them, so that the compiler can vectorize it.
#[inline(always)]
fn are_zero(numbers: &[u32]) -> bool
    ensures { result ≡ true → (k : ℕ) → k < length numbers.now → slice_index_or numbers.now k 0 ≡ 0 }
{
    let mut bits = 0;
    for number in numbers {
        bits |= *number;
    }
    bits == 0
}

/// Returns the index of the first number from `from` on that is not 0, or how many numbers there are.
pub(crate) fn first_set(numbers: &[u32], from: usize) -> usize
    requires { from ≤ length numbers.now }
    ensures within { (from ≤ result) × (result ≤ length numbers.now) }
    ensures zero { (k : ℕ) → from ≤ k → k < result → slice_index_or numbers.now k 0 ≡ 0 }
{
    let mut index = from;
    'blocks: while numbers.len() - index >= BLOCK && are_zero(&numbers[index..index + BLOCK]) {
        index += BLOCK;
    }
    'seeking: while index < numbers.len() && numbers[index] == 0 {
        index += 1;
    }
    index
}

/// Returns the index behind the last number before `end` that is not 0, or 0 if there is none.
pub(crate) fn last_set(numbers: &[u32], end: usize) -> usize
    requires { end ≤ length numbers.now }
    ensures within { result ≤ end }
    ensures zero { (k : ℕ) → result ≤ k → k < end → slice_index_or numbers.now k 0 ≡ 0 }
{
    let mut behind = end;
    'blocks: while behind >= BLOCK && are_zero(&numbers[behind - BLOCK..behind]) {
        behind -= BLOCK;
    }
    'seeking: while behind > 0 && numbers[behind - 1] == 0 {
        behind -= 1;
    }
    behind
}
