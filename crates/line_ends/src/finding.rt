//! The search for the next step of a conversion.

ghost use Rattle.std.specs.Prelude.{MatchOption, [], ◌≡◌, ◌+◌, ◌<◌, ◌≤◌, ◌++◌, length};
ghost use Rattle.ed_model.specs.LineEnds.{is_feed_foreign as feed_foreign, is_feed_unwanted as feed_unwanted, is_return_foreign as return_foreign, is_return_unwanted as return_unwanted};
ghost use Rattle.line_ends.specs.Conversion.{IsNextUnwanted, unwanted_in, IsNextMissing, missing_in, IsNextLone, follows_return, lone_byte, lone_feed, lone_return, spare_byte, spare_feed, spare_return};

use crate::reading::{is_at, next_end};
use ed_model::LineEnd;

// Four tests by the wanted line end: whether a lone LF, or a lone CR, is of another kind; and whether the LF, or the
// CR, of a CRLF is unwanted.

fn is_feed_foreign(to: LineEnd) -> bool
    ensures { result ≡ feed_foreign to }
{
    match to {
        LineEnd::CrLf | LineEnd::Cr => true,
        LineEnd::Lf => false,
    }
}

fn is_return_foreign(to: LineEnd) -> bool
    ensures { result ≡ return_foreign to }
{
    match to {
        LineEnd::CrLf | LineEnd::Lf => true,
        LineEnd::Cr => false,
    }
}

fn is_feed_unwanted(to: LineEnd) -> bool
    ensures { result ≡ feed_unwanted to }
{
    match to {
        LineEnd::Cr => true,
        LineEnd::CrLf | LineEnd::Lf => false,
    }
}

fn is_return_unwanted(to: LineEnd) -> bool
    ensures { result ≡ return_unwanted to }
{
    match to {
        LineEnd::Lf => true,
        LineEnd::CrLf | LineEnd::Cr => false,
    }
}

// Returns whether a CR stands before `place`, in the text from `start` on.
fn is_behind_return(first: &[u8], second: &[u8], start: usize, place: usize) -> bool
    ensures { result ≡ follows_return start (first.now ++ second.now) place }
{
    start < place && is_at(b'\r', first, second, place - 1)
}

// Returns whether a lone LF of an unwanted kind stands at `place`.
fn is_lone_feed(first: &[u8], second: &[u8], place: usize, to: LineEnd) -> bool
    ensures { result ≡ lone_feed to (first.now ++ second.now) place }
{
    is_at(b'\n', first, second, place)
        && !is_behind_return(first, second, 0, place)
        && is_feed_foreign(to)
}

// Returns whether a lone CR of an unwanted kind stands at `place`.
fn is_lone_return(first: &[u8], second: &[u8], place: usize, to: LineEnd) -> bool
    requires { place < length first.now + length second.now }
    ensures { result ≡ lone_return to (first.now ++ second.now) place }
{
    is_at(b'\r', first, second, place)
        && !is_at(b'\n', first, second, place + 1)
        && is_return_foreign(to)
}

// Returns whether a lone LF or CR of an unwanted kind stands at `place`.
fn is_lone(first: &[u8], second: &[u8], place: usize, to: LineEnd) -> bool
    requires { place < length first.now + length second.now }
    ensures { result ≡ lone_byte to (first.now ++ second.now) place }
{
    is_lone_feed(first, second, place, to) || is_lone_return(first, second, place, to)
}

// Returns whether the CR of a CRLF stands at `place`, and is unwanted.
fn is_spare_return(first: &[u8], second: &[u8], place: usize, to: LineEnd) -> bool
    requires { place < length first.now + length second.now }
    ensures { result ≡ spare_return to (first.now ++ second.now) place }
{
    is_at(b'\r', first, second, place)
        && is_at(b'\n', first, second, place + 1)
        && is_return_unwanted(to)
}

// Returns whether the LF of a CRLF stands at `place`, in the text from `start` on, and is unwanted.
fn is_spare_feed(first: &[u8], second: &[u8], start: usize, place: usize, to: LineEnd) -> bool
    ensures { result ≡ spare_feed start to (first.now ++ second.now) place }
{
    is_at(b'\n', first, second, place)
        && is_behind_return(first, second, start, place)
        && is_feed_unwanted(to)
}

// Returns whether an unwanted byte of a CRLF stands at `place`, in the text from `start` on.
fn is_spare(first: &[u8], second: &[u8], start: usize, place: usize, to: LineEnd) -> bool
    requires { place < length first.now + length second.now }
    ensures { result ≡ spare_byte start to (first.now ++ second.now) place }
{
    is_spare_return(first, second, place, to) || is_spare_feed(first, second, start, place, to)
}

/// Returns the first place from `from` on of an LF or CR that lacks its other byte.
pub(crate) fn next_lone(first: &[u8], second: &[u8], from: usize, to: LineEnd) -> Option<usize>
    requires { from ≤ length first.now + length second.now }
    ensures { MatchOption result (missing_in to (first.now ++ second.now) from ≡ []) (λ place. IsNextLone to (first.now ++ second.now) from place) }
{
    let mut place = next_end(first, second, from);
    'looking: while place < first.len() + second.len() {
        if is_lone(first, second, place, to) {
            return Some(place);
        }
        place = next_end(first, second, place + 1);
    }
    None
}

/// Returns the place of the next insertion of a conversion to `to`, from `from` on in bytes, and the byte to insert: a
/// CR before a lone LF, or an LF behind a lone CR. After the insertion the search continues right behind the inserted
/// byte.
pub fn next_missing(first: &[u8], second: &[u8], from: usize, to: LineEnd) -> Option<(usize, u8)>
    requires { from ≤ length first.now + length second.now }
    ensures { MatchOption result (missing_in to (first.now ++ second.now) from ≡ []) (λ next. IsNextMissing to (first.now ++ second.now) from next.0 next.1) }
{
    let place = next_lone(first, second, from, to)?;
    if is_at(b'\n', first, second, place) {
        Some((place, b'\r'))
    } else {
        Some((place + 1, b'\n'))
    }
}

/// Returns the place of the next deletion of a conversion to `to`, from `from` on in bytes: the LF of a CRLF if `to` is
/// CR, or its CR if `to` is LF. Bytes before `from` are not read. After the deletion the search continues at the same
/// place.
pub fn next_unwanted(first: &[u8], second: &[u8], from: usize, to: LineEnd) -> Option<usize>
    requires { from ≤ length first.now + length second.now }
    ensures { MatchOption result (unwanted_in to (first.now ++ second.now) from ≡ []) (λ place. IsNextUnwanted to (first.now ++ second.now) from place) }
{
    // If CRLF is wanted, neither of its bytes is unwanted.
    if let LineEnd::CrLf = to {
        return None;
    }
    let mut place = next_end(first, second, from);
    'looking: while place < first.len() + second.len() {
        if is_spare(first, second, from, place, to) {
            return Some(place);
        }
        place = next_end(first, second, place + 1);
    }
    None
}
