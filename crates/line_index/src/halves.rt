//! Reads of a text in two halves: single bytes, line ends, and the next line start.

ghost use Rattle.std.specs.Prelude.{◌≡◌, ℕ, ◌+◌, ◌≤◌, ◌<◌, ◌++◌, true, false, length, slice_index};
ghost use Rattle.ed_model.specs.Text.{stands};
ghost use Rattle.ed_model.specs.Lines.{is_line_start, knows_unicode};
ghost use Rattle.ed_model.specs.Lines.{line_end_before, line_end_length, unicode_end_before};
ghost use Rattle.line_index.specs.Ends.{may_end};
ghost use Rattle.line_index.specs.Halves.{bytes_in};

use ed_model::LineEndTypes;
use memchr::memchr2;

/// A text in two halves, as the two sides of a gap, and which line ends count in it.
#[derive(Clone, Copy)]
pub(crate) struct Halves<'a> {
    /// Which line ends count.
    pub types: LineEndTypes,
    /// The bytes of the first half.
    pub before: &'a [u8],
    /// The bytes of the second half.
    pub after: &'a [u8],
}

// Returns whether `byte` stands at `place`.
#[tactic(auto, using(ed_model::specs::proved::Bytes::stands_in_front, ed_model::specs::proved::Bytes::stands_behind, ed_model::specs::proved::Bytes::stands_nowhere))]
fn is_at(byte: u8, text: Halves, place: usize) -> bool
    ensures { result ≡ stands byte (bytes_in text.entry) place }
{
    if place < text.before.len() {
        return text.before[place] == byte;
    }
    let behind = place - text.before.len();
    behind < text.after.len() && text.after[behind] == byte
}

// Returns whether line ends of Unicode count.
fn counts_unicode(types: LineEndTypes) -> bool
    ensures { result ≡ knows_unicode types }
{
    match types {
        LineEndTypes::Default => false,
        LineEndTypes::Unicode => true,
    }
}

// Returns whether U+0085, U+2028 or U+2029 ends right before `place`.
fn unicode_ends(text: Halves, place: usize) -> bool
    ensures { result ≡ unicode_end_before (bytes_in text.entry) place }
{
    let one = place.saturating_sub(1);
    let two = place.saturating_sub(2);
    let three = place.saturating_sub(3);
    if is_at(0x85, text, one) && is_at(0xC2, text, two) {
        return true;
    }
    (is_at(0xA8, text, one) || is_at(0xA9, text, one))
        && is_at(0x80, text, two)
        && is_at(0xE2, text, three)
}

// Returns whether a line end stands right before `place`.
fn line_ends(text: Halves, place: usize) -> bool
    ensures { result ≡ line_end_before text.entry.types (bytes_in text.entry) place }
{
    let one = place.saturating_sub(1);
    if is_at(b'\n', text, one) {
        return true;
    }
    if is_at(b'\r', text, one) && !is_at(b'\n', text, place) {
        return true;
    }
    counts_unicode(text.types) && unicode_ends(text, place)
}

/// Returns whether a line starts at `place`.
pub(crate) fn starts_at(text: Halves, place: usize) -> bool
    ensures { result ≡ is_line_start text.entry.types (bytes_in text.entry) place }
{
    place == 0 || line_ends(text, place)
}

/// Returns the length in bytes of the line end before a line's start.
pub(crate) fn end_length(text: Halves, start: usize) -> usize
    ensures { result ≡ line_end_length (bytes_in text.entry) start }
{
    let one = start.saturating_sub(1);
    if is_at(b'\n', text, one) {
        let two = start.saturating_sub(2);
        return if is_at(b'\r', text, two) { 2 } else { 1 };
    }
    if is_at(b'\r', text, one) {
        return 1;
    }
    if is_at(0x85, text, one) { 2 } else { 3 }
}

// Up to this many bytes are tested one by one: a vectorized search takes longer to begin.
const FEW: usize = 16;

// Returns whether the byte may be the last one of a line end. Most bytes are greater than CR and LF, which one
// comparison decides.
fn may_be_last(types: LineEndTypes, byte: u8) -> bool
    ensures { result ≡ may_end types byte }
{
    match types {
        LineEndTypes::Default => byte <= b'\r' && matches!(byte, b'\n' | b'\r'),
        LineEndTypes::Unicode => matches!(byte, b'\n' | b'\r' | 0x85 | 0xA8 | 0xA9),
    }
}

// Returns how many bytes from the first on cannot be the last one of a line end.
fn quiet_bytes(types: LineEndTypes, bytes: &[u8]) -> usize
    ensures within { result ≤ length bytes.now }
    ensures quiet { (k : ℕ) → k < result → may_end types (slice_index bytes.now k) ≡ false }
{
    match types {
        LineEndTypes::Default if bytes.len() > FEW => quiet_by_default(bytes),
        _ => quiet_one_by_one(types, bytes),
    }
}

// Like `quiet_bytes`, if line ends of Unicode do not count.
fn quiet_by_default(bytes: &[u8]) -> usize
    ensures within { result ≤ length bytes.now }
    ensures quiet { (k : ℕ) → k < result → may_end LineEndTypes.Default (slice_index bytes.now k) ≡ false }
{
    match memchr2(b'\n', b'\r', bytes) {
        Some(end) => end,
        None => bytes.len(),
    }
}

// Like `quiet_bytes`, by a test of each byte.
fn quiet_one_by_one(types: LineEndTypes, bytes: &[u8]) -> usize
    ensures within { result ≤ length bytes.now }
    ensures quiet { (k : ℕ) → k < result → may_end types (slice_index bytes.now k) ≡ false }
{
    for (count, byte) in bytes.iter().enumerate() {
        if may_be_last(types, *byte) {
            return count;
        }
    }
    bytes.len()
}

// Returns the byte at `place`.
#[inline(always)]
fn byte_at(text: Halves, place: usize) -> u8
    requires { place < length text.before.now + length text.after.now }
    ensures { result ≡ slice_index (bytes_in text.entry) place }
{
    let middle = text.before.len();
    if place < middle {
        text.before[place]
    } else {
        text.after[place - middle]
    }
}

// Returns whether a line may start behind the byte at `place`: it may be the last one of a line end, and is not the CR
// of a CR LF.
#[inline(always)]
fn may_start_behind(text: Halves, place: usize) -> bool
    requires { place < length text.before.now + length text.after.now }
    ensures { result ≡ false → is_line_start text.entry.types (bytes_in text.entry) (place + 1) ≡ false }
{
    let byte = byte_at(text, place);
    may_be_last(text.types, byte) && (byte != b'\r' || !is_at(b'\n', text, place + 1))
}

// Returns the first place behind `place`, up to `to`, where a line may start, by a test of each byte.
fn next_of_few(text: Halves, place: usize, to: usize) -> usize
    requires { (place < to) × (to ≤ length text.before.now + length text.after.now + 1) }
    ensures within { (place < result) × (result ≤ to) }
    ensures none { (k : ℕ) → place < k → k < result → is_line_start text.entry.types (bytes_in text.entry) k ≡ false }
{
    let mut at = place;
    'looking: while at + 1 < to {
        if may_start_behind(text, at) {
            return at + 1;
        }
        at += 1;
    }
    to
}

// Like `next_of_few`, for many bytes. Out of line, so that the search among few bytes saves no registers.
#[inline(never)]
fn next_of_many(text: Halves, place: usize, to: usize) -> usize
    requires { (place < to) × (to ≤ length text.before.now + length text.after.now + 1) }
    ensures within { (place < result) × (result ≤ to) }
    ensures none { (k : ℕ) → place < k → k < result → is_line_start text.entry.types (bytes_in text.entry) k ≡ false }
{
    let middle = text.before.len();
    let last = to - 1;
    if last <= middle {
        return place + quiet_bytes(text.types, &text.before[place..last]) + 1;
    }
    if place < middle {
        let quiet = quiet_bytes(text.types, &text.before[place..]);
        if place + quiet < middle {
            return place + quiet + 1;
        }
        return middle + quiet_bytes(text.types, &text.after[..last - middle]) + 1;
    }
    place + quiet_bytes(text.types, &text.after[place - middle..last - middle]) + 1
}

/// Returns the first place behind `place`, up to `to`, where a line may start. No line starts between the two.
pub(crate) fn next_place(text: Halves, place: usize, to: usize) -> usize
    requires { (place < to) × (to ≤ length text.before.now + length text.after.now + 1) }
    ensures within { (place < result) × (result ≤ to) }
    ensures none { (k : ℕ) → place < k → k < result → is_line_start text.entry.types (bytes_in text.entry) k ≡ false }
{
    if to - place <= FEW {
        return next_of_few(text, place, to);
    }
    next_of_many(text, place, to)
}

/// Returns the first place from `from` up to `to` where a line may start. No line starts between the two.
pub(crate) fn first_place(text: Halves, from: usize, to: usize) -> usize
    requires { (from ≤ to) × (to ≤ length text.before.now + length text.after.now + 1) }
    ensures within { (from ≤ result) × (result ≤ to) }
    ensures none { (k : ℕ) → from ≤ k → k < result → is_line_start text.entry.types (bytes_in text.entry) k ≡ false }
{
    if from == 0 {
        return 0;
    }
    next_place(text, from - 1, to)
}

/// Returns the first place from `from` up to `to` where a line starts, or `to`.
pub(crate) fn next_start(text: Halves, from: usize, to: usize) -> usize
    requires { (from ≤ to) × (to ≤ length text.before.now + length text.after.now + 1) }
    ensures within { (from ≤ result) × (result ≤ to) }
    ensures none { (k : ℕ) → from ≤ k → k < result → is_line_start text.entry.types (bytes_in text.entry) k ≡ false }
    ensures start { result < to → is_line_start text.entry.types (bytes_in text.entry) result ≡ true }
{
    let mut place = first_place(text, from, to);
    'looking: while place < to {
        if starts_at(text, place) {
            return place;
        }
        place = next_place(text, place, to);
    }
    to
}
