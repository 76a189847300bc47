//! Reads of a text in two slices: single bytes, and the next CR or LF.

ghost use Rattle.std.specs.Prelude.{◌≡◌, ℕ, ◌+◌, ◌<◌, ◌≤◌, ◌++◌, true, false, length, slice_index};
ghost use Rattle.ed_model.specs.Text.{stands};
ghost use Rattle.line_ends.specs.Conversion.{is_end};

use memchr::memchr2;

// Returns whether `byte` stands at `place`.
#[tactic(auto, using(ed_model::specs::proved::Bytes::stands_in_front, ed_model::specs::proved::Bytes::stands_behind, ed_model::specs::proved::Bytes::stands_nowhere))]
pub(crate) fn is_at(byte: u8, first: &[u8], second: &[u8], place: usize) -> bool
    ensures { result ≡ stands byte (first.now ++ second.now) place }
{
    if place < first.len() {
        return first[place] == byte;
    }
    let behind = place - first.len();
    behind < second.len() && second[behind] == byte
}

// Returns how many bytes come before the first CR or LF: all, if there is none.
pub(crate) fn quiet_bytes(bytes: &[u8]) -> usize
    ensures within { result ≤ length bytes.now }
    ensures quiet { (k : ℕ) → k < result → is_end (slice_index bytes.now k) ≡ false }
    ensures end { result < length bytes.now → is_end (slice_index bytes.now result) ≡ true }
{
    match memchr2(b'\n', b'\r', bytes) {
        Some(end) => end,
        None => bytes.len(),
    }
}

// Returns the first place from `from` on of a CR or LF, or the length of the text.
pub(crate) fn next_end(first: &[u8], second: &[u8], from: usize) -> usize
    requires { from ≤ length first.now + length second.now }
    ensures within { (from ≤ result) × (result ≤ length first.now + length second.now) }
    ensures quiet { (k : ℕ) → from ≤ k → k < result → is_end (slice_index (first.now ++ second.now) k) ≡ false }
{
    let middle = first.len();
    if from >= middle {
        return from + quiet_bytes(&second[from - middle..]);
    }
    let quiet = quiet_bytes(&first[from..]);
    if from + quiet < middle {
        return from + quiet;
    }
    middle + quiet_bytes(second)
}
