//! The length of the first character behind a place.

ghost use Rattle.std.specs.Prelude.{◌≡◌, ◌++◌, ◌+◌, ◌<◌, ◌≤◌, IsTrue, length, drop, slice_get};
ghost use Rattle.ed_model.specs.Characters.{begins_with, character_length};
ghost use Rattle.char_cut.specs.Following.{ranges, following_of, follows_at};

/// What must follow the first byte of a character: so many bytes, the first of them in a range of its own, the others
/// from 0x80 to 0xBF.
#[derive(Clone, Copy)]
struct Following {
    count: usize,
    least: u8,
    greatest: u8,
}

// Returns what must follow the byte, by Unicode's table of well-formed UTF-8 byte sequences.
fn following_of(first: u8) -> Following
    ensures ranges { ranges result ≡ following_of first }
    ensures few { result.count ≤ 3 }
{
    let (count, least, greatest) = match first {
        b'\r' => (1, b'\n', b'\n'),
        0x00..=0x7F => (0, 0, 0),
        0xC2..=0xDF => (1, 0x80, 0xBF),
        0xE0 => (2, 0xA0, 0xBF),
        0xE1..=0xEC => (2, 0x80, 0xBF),
        0xED => (2, 0x80, 0x9F),
        0xEE..=0xEF => (2, 0x80, 0xBF),
        0xF0 => (3, 0x90, 0xBF),
        0xF1..=0xF3 => (3, 0x80, 0xBF),
        0xF4 => (3, 0x80, 0x8F),
        _ => (0, 0, 0),
    };
    Following {
        count,
        least,
        greatest,
    }
}

// Returns the byte at `place`, if there is one.
fn byte_at(first: &[u8], second: &[u8], place: usize) -> Option<u8>
    ensures { result ≡ slice_get (first.now ++ second.now) place }
{
    if place < first.len() {
        return Some(first[place]);
    }
    second.get(place - first.len()).copied()
}

// Returns whether the byte that must stand `behind` bytes behind `place` stands there. If none must, returns true.
fn follows(first: &[u8], second: &[u8], place: usize, rest: Following, behind: usize) -> bool
    ensures { result ≡ follows_at rest.count rest.least rest.greatest (first.now ++ second.now) place behind }
{
    if rest.count < behind {
        return true;
    }
    let Some(there) = place.checked_add(behind) else {
        return false;
    };
    let Some(byte) = byte_at(first, second, there) else {
        return false;
    };
    if behind == 1 {
        rest.least <= byte && byte <= rest.greatest
    } else {
        0x80 <= byte && byte <= 0xBF
    }
}

// Returns whether everything follows that must follow the byte at `place`.
#[tactic(auto, using(crate::proofs::Reading::all_tests))]
fn all_follow(first: &[u8], second: &[u8], place: usize, rest: Following) -> bool
    requires { rest.count ≤ 3 }
    ensures { result ≡ begins_with (drop (place + 1) (first.now ++ second.now)) (ranges rest) }
{
    follows(first, second, place, rest, 1)
        && follows(first, second, place, rest, 2)
        && follows(first, second, place, rest, 3)
}

/// Returns the length in bytes of the first character from `place` on, or 1 at the end of the text.
#[tactic(auto, using(crate::proofs::Reading::length_nowhere, crate::proofs::Reading::length_alone, crate::proofs::Reading::length_followed))]
pub(crate) fn character_length(first: &[u8], second: &[u8], place: usize) -> usize
    ensures { result ≡ character_length (drop place (first.now ++ second.now)) }
{
    let Some(byte) = byte_at(first, second, place) else {
        return 1;
    };
    let rest = following_of(byte);
    if all_follow(first, second, place, rest) {
        1 + rest.count
    } else {
        1
    }
}
