//! Marks of 64 bytes at once: which of them may be the last one of a line end.

ghost use Rattle.std.specs.Prelude.{◌≡◌, ℕ, ◌+◌, ◌≤◌, ◌<◌, ◌==◌, false, length, slice_index};
ghost use Rattle.std.specs.Int.{bit_at};
ghost use Rattle.line_index.specs.Ends.{may_end};

use ed_model::LineEndTypes;
use std::simd::prelude::*;

// Returns marks: bit k is clear unless byte k of the 64 from `at` on is `byte`.
#[inline(always)]
fn marks_of(byte: u8, bytes: &[u8], at: usize) -> u64
    requires { at + 64 ≤ length bytes.now }
    ensures { (k : ℕ) → k < 64 → bit_at result k ≡ 0 → (slice_index bytes.now (at + k) == byte) ≡ false }
{
    u8x64::from_slice(&bytes[at..])
        .simd_eq(u8x64::splat(byte))
        .to_bitmask()
}

/// Returns marks: bit k is clear if byte k of the 64 from `at` on cannot be the last one of a line end.
pub(crate) fn marks(types: LineEndTypes, bytes: &[u8], at: usize) -> u64
    requires { at + 64 ≤ length bytes.now }
    ensures { (k : ℕ) → k < 64 → bit_at result k ≡ 0 → may_end types (slice_index bytes.now (at + k)) ≡ false }
{
    let two = marks_of(b'\n', bytes, at) | marks_of(b'\r', bytes, at);
    match types {
        LineEndTypes::Default => two,
        LineEndTypes::Unicode => {
            two | marks_of(0x85, bytes, at)
                | (marks_of(0xA8, bytes, at) | marks_of(0xA9, bytes, at))
        }
    }
}
