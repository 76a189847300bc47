//! The number of steps of a conversion.

ghost use Rattle.std.specs.Prelude.{◌≡◌, ◌==◌, ◌+◌, ◌<◌, ◌≤◌, ◌++◌, false, min, nat_le, nat_lt, length, count_by};
ghost use Rattle.ed_model.specs.Edits.{has_steps};
ghost use Rattle.ed_model.specs.LineEnds.{conversion_steps, missing_from, unwanted_from};
ghost use Rattle.line_ends.specs.Conversion.{completed, conversion_stays_within};

use crate::finding::next_lone;
use ed_model::LineEnd;

// Returns how many bytes a conversion to `to` inserts, but at most `most`: it stops reading once that many are found.
fn missing_up_to(first: &[u8], second: &[u8], to: LineEnd, most: usize) -> usize
    ensures count { result ≡ min (length (missing_from 0 false to (first.now ++ second.now))) most }
    ensures few { result ≤ length first.now + length second.now }
{
    let mut count = 0;
    let mut place = 0;
    'counting: while count < most {
        let Some(found) = next_lone(first, second, place, to) else {
            return count;
        };
        count += 1;
        place = found + 1;
    }
    count
}

/// Returns how many bytes a conversion to the line end `to` inserts. `first` and `second` are the halves of the text.
pub fn count_missing(first: &[u8], second: &[u8], to: LineEnd) -> usize
    ensures count { result ≡ length (missing_from 0 false to (first.now ++ second.now)) }
    ensures few { result ≤ length first.now + length second.now }
{
    missing_up_to(first, second, to, usize::MAX)
}

// Returns how often the byte occurs in the slice.
fn count_byte(byte: u8, bytes: &[u8]) -> usize
    ensures { result ≡ count_by (λ x. x == byte) bytes.now }
{
    bytes.iter().filter(|x| **x == byte).count()
}

/// Returns how many bytes a conversion to the line end `to` deletes, after its insertions: for CR each LF, for LF each
/// CR, and for CRLF none.
pub fn count_unwanted(first: &[u8], second: &[u8], to: LineEnd) -> usize
    ensures count { result ≡ length (unwanted_from 0 false to (completed to (first.now ++ second.now))) }
    ensures few { result ≤ length first.now + length second.now }
{
    match to {
        LineEnd::CrLf => 0,
        LineEnd::Cr => count_byte(b'\n', first) + count_byte(b'\n', second),
        LineEnd::Lf => count_byte(b'\r', first) + count_byte(b'\r', second),
    }
}

/// Returns whether a conversion to the line end `to` changes the text.
pub fn has_conversion(first: &[u8], second: &[u8], to: LineEnd) -> bool
    ensures { result ≡ has_steps (conversion_steps to (first.now ++ second.now)) }
{
    missing_up_to(first, second, to, 1) > 0 || count_unwanted(first, second, to) > 0
}

/// Returns whether a conversion to the line end `to` has more than one step. In a text with many line ends it reads
/// only the first ones.
pub fn has_several(first: &[u8], second: &[u8], to: LineEnd) -> bool
    ensures { result ≡ nat_lt 1 (length (conversion_steps to (first.now ++ second.now))) }
{
    let missing = missing_up_to(first, second, to, 2);
    missing > 1 || missing + count_unwanted(first, second, to) > 1
}

// Returns whether a text of `size` bytes stays within the limit with `added` more.
#[tactic(auto, using(crate::proofs::Within::beside, crate::proofs::Within::not_beside))]
fn keeps_limit(size: u64, added: u64, limit: u64) -> bool
    ensures { result ≡ nat_le (size + added) limit }
{
    added <= limit && size <= limit - added
}

/// Returns whether the text has at most `limit` bytes after each step of a conversion. All insertions come first, so
/// the text is longest after the last of them.
pub fn conversion_stays_within(first: &[u8], second: &[u8], to: LineEnd, limit: u64) -> bool
    ensures { result ≡ conversion_stays_within limit to (first.now ++ second.now) }
{
    let size = (first.len() + second.len()) as u64;
    let missing = count_missing(first, second, to);
    if missing > 0 {
        return keeps_limit(size, missing as u64, limit);
    }
    if count_unwanted(first, second, to) == 0 {
        return true;
    }
    size.saturating_sub(1) <= limit
}
