//! Marks of 64 places at once: where two bytes stand at their distance, in either case.

ghost use Rattle.std.specs.Prelude.{◌+◌, ◌≤◌, length};
ghost use Rattle.target_search.specs.Cases.{MarkPairs};

use std::simd::prelude::*;

/// Returns marks: bit k is clear if byte k of the 64 from `first_at` on is not `first`, in either case, or byte k of
/// the 64 from `second_at` on is not `second`.
#[inline(always)]
pub(crate) fn marks_of_two(
    bytes: &[u8],
    first: (u8, u8),
    first_at: usize,
    second: (u8, u8),
    second_at: usize,
) -> u64
    requires first { first_at + 64 ≤ length bytes.now }
    requires second { second_at + 64 ≤ length bytes.now }
    ensures { MarkPairs bytes.now first first_at second second_at result }
{
    let firsts = u8x64::from_slice(&bytes[first_at..]);
    let seconds = u8x64::from_slice(&bytes[second_at..]);
    let are_first = firsts.simd_eq(u8x64::splat(first.0)) | firsts.simd_eq(u8x64::splat(first.1));
    let are_second = seconds.simd_eq(u8x64::splat(second.0))
        | seconds.simd_eq(u8x64::splat(second.1));
    (are_first & are_second).to_bitmask()
}
