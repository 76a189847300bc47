//! The bytes that a step reads.

ghost use Rattle.std.specs.Prelude.{◌≡◌, ◌+◌, ◌≤◌, ◌++◌, length};
ghost use Rattle.line_index.specs.Index.{bytes_near};

/// Lends the bytes that a step reads, in two halves: the `count` bytes that it inserted at `place`, and up to three on
/// each side. After a deletion `count` is 0. `before` and `after` are the halves of the text, which the step has
/// changed.
#[inline(always)]
pub fn near_step<'a>(
    before: &'a [u8],
    after: &'a [u8],
    place: usize,
    count: usize,
) -> (&'a [u8], &'a [u8])
    requires { place + count ≤ length before.now + length after.now }
    ensures { result.0.now ++ result.1.now ≡ bytes_near place count (before.now ++ after.now) }
{
    let middle = before.len();
    let end = middle + after.len();
    let from = place.saturating_sub(3);
    let to = (place + count).saturating_add(3).min(end);
    let first = &before[from.min(middle)..to.min(middle)];
    let second = &after[from.max(middle) - middle..to.max(middle) - middle];
    (first, second)
}
