//! Overwriting of styles, and which of them changed.
ghost use Rattle.std.specs.Prelude.{◌≡◌, ◌≢◌, ◌<◌, ◌≤◌, ◌+◌, ◌-◌, ℕ, length, replicate, slice_index, slice_set};
ghost use Rattle.ed_model.specs.Indicators.{changed_range};
ghost use Rattle.cell_buffer.specs.Buffer.{range_of, range_with, Overwrites};

use crate::growth::size_is_small;
use split_vector::SplitVector;

/// A range as its start and its length, or `None`.
pub type Range = Option<(usize, usize)>;

// The first place that changed, and the end of the last. If none has changed yet, the end is 0. Two numbers stay in
// registers between two places, where a `Range` would be written and read.
type Ends = (usize, usize);

// Returns the range between the ends.
fn between(ends: Ends) -> Range
    ensures { result ≡ range_of ends }
{
    let (first, end) = ends;
    if end == 0 {
        return None;
    }
    Some((first, end.saturating_sub(first)))
}

// Sets the style at `place`, which lies behind all places that changed so far. Returns the ends with that place, if its
// style changed.
#[inline(always)]
fn put(styles: &mut SplitVector<u8>, place: usize, style: u8, ends: Ends) -> Ends
    requires { place < length styles.old.items }
    ensures styles { styles.new ≡ record styles.old { items = slice_set styles.old.items place style } }
    ensures changed { range_of result ≡ range_with styles.old.items place style (range_of ends) }
{
    size_is_small(styles);
    let was = styles.get(place);
    styles.set(place, style);
    if was == style {
        return ends;
    }
    let (first, end) = ends;
    if end == 0 {
        return (place, place + 1);
    }
    (first, place + 1)
}

/// Replaces the styles from `start` on by `new`, and returns the smallest range with all that changed.
pub(crate) fn overwrite(styles: &mut SplitVector<u8>, start: usize, new: &[u8]) -> Range
    requires { start + length new.now ≤ length styles.old.items }
    ensures styles { Overwrites start new.now styles.old styles.new }
    ensures changed { result ≡ changed_range styles.old.items styles.new.items }
{
    size_is_small(styles);
    let mut ends = (0, 0);
    for i in 0..new.len() {
        ends = put(styles, start + i, new[i], ends);
    }
    between(ends)
}

// Returns the first place from `start` up to `end` whose style is another one, or `end` if there is none.
fn first_other(styles: &SplitVector<u8>, start: usize, end: usize, style: u8) -> usize
    requires { (start ≤ end) × (end ≤ length styles.now.items) }
    ensures range { (start ≤ result) × (result ≤ end) }
    ensures alike { (k : ℕ) → start ≤ k → k < result → slice_index styles.now.items k ≡ style }
    ensures other { result < end → slice_index styles.now.items result ≢ style }
{
    for place in start..end {
        if styles.get(place) != style {
            return place;
        }
    }
    end
}

// Returns the place behind the last one from `start` up to `end` whose style is another one, or `start` if there is none.
fn past_others(styles: &SplitVector<u8>, start: usize, end: usize, style: u8) -> usize
    requires { (start ≤ end) × (end ≤ length styles.now.items) }
    ensures range { (start ≤ result) × (result ≤ end) }
    ensures alike { (k : ℕ) → result ≤ k → k < end → slice_index styles.now.items k ≡ style }
    ensures other { start < result → slice_index styles.now.items (result - 1) ≢ style }
{
    let mut past = end;
    'seeking: while past > start {
        if styles.get(past - 1) != style {
            return past;
        }
        past -= 1;
    }
    past
}

/// Replaces `count` styles from `start` on by `style`, and returns the smallest range with all that changed. It looks for
/// the ends of that range, and fills what lies between them.
pub(crate) fn fill(styles: &mut SplitVector<u8>, start: usize, count: usize, style: u8) -> Range
    requires { start + count ≤ length styles.old.items }
    ensures styles { Overwrites start (replicate count style) styles.old styles.new }
    ensures changed { result ≡ changed_range styles.old.items styles.new.items }
{
    size_is_small(styles);
    let end = start + count;
    let first = first_other(styles, start, end, style);
    if first == end {
        return None;
    }
    let past = past_others(styles, first, end, style);
    styles.update(first, past, |_| style);
    Some((first, past - first))
}
