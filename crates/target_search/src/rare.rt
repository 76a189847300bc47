//! Bytes of a pattern that are rare in texts. They show where the pattern cannot stand.

ghost use Rattle.std.specs.Prelude.{◌≡◌, ℕ, ◌+◌, ◌≤◌, ◌<◌, true, length};
ghost use Rattle.ed_model.specs.Matches.{folded};
ghost use Rattle.target_search.specs.Cases.{MarkPairs, is_either};

use crate::marks::marks_of_two;
use memchr::arch::all::packedpair::{DefaultFrequencyRank, HeuristicFrequencyRank};

/// A byte of a pattern in both cases.
#[derive(Clone, Copy)]
pub(crate) struct RareByte {
    // Its place in the pattern.
    place: usize,
    // In lower and in upper case.
    cases: (u8, u8),
}

// Returns the byte in lower and in upper case. No other byte equals it without case.
fn in_both_cases(byte: u8) -> (u8, u8)
    ensures { (flags other : ℕ) → folded flags other ≡ folded flags byte → is_either result other ≡ true }
{
    match byte {
        b'A'..=b'Z' => (byte + 32, byte),
        b'a'..=b'z' => (byte, byte - 32),
        _ => (byte, byte),
    }
}

// Returns how common a byte is in texts. A letter counts as its lower case, which is the commoner one except for `j`.
fn rank(byte: u8) -> u8 {
    let (lower, _) = in_both_cases(byte);
    DefaultFrequencyRank.rank(lower)
}

// Returns the places of the two different bytes of the pattern that are the rarest in texts. A pattern that repeats one
// byte has the same place twice.
fn rarest_two(pattern: &[u8]) -> (usize, usize)
    requires { 0 < length pattern.now }
    ensures first { result.0 < length pattern.now }
    ensures second { result.1 < length pattern.now }
{
    let mut best = 0;
    let mut next = 0;
    // How common the bytes at these places are; looked up once for each.
    let mut best_rank = rank(pattern[0]);
    let mut next_rank = best_rank;
    for (place, byte) in pattern.iter().enumerate() {
        let common = rank(*byte);
        if common < best_rank {
            next = best;
            next_rank = best_rank;
            best = place;
            best_rank = common;
        } else if *byte != pattern[best] && (next == best || common < next_rank) {
            next = place;
            next_rank = common;
        }
    }
    (best, next)
}

impl RareByte {
    ghost use Rattle.target_search.specs.Rare.{IsRareOf};

    // Returns the byte of a pattern at a place.
    fn at(pattern: &[u8], place: usize) -> Self
        requires { place < length pattern.now }
        ensures { IsRareOf result pattern.now }
    {
        RareByte {
            place,
            cases: in_both_cases(pattern[place]),
        }
    }

    /// Returns two rare bytes of a pattern, which are the same one if it has no other.
    pub(crate) fn two_of(pattern: &[u8]) -> (Self, Self)
        requires { 0 < length pattern.now }
        ensures first { IsRareOf result.0 pattern.now }
        ensures second { IsRareOf result.1 pattern.now }
    {
        let (first, second) = rarest_two(pattern);
        (RareByte::at(pattern, first), RareByte::at(pattern, second))
    }

    /// Returns marks: bit k is clear if one of these two bytes differs from the text, with the pattern at the k-th
    /// place from `start` on.
    #[inline(always)]
    pub(crate) fn marks_with(&self, other: &Self, bytes: &[u8], start: usize) -> u64
        requires first { start + self.now.place + 64 ≤ length bytes.now }
        requires second { start + other.now.place + 64 ≤ length bytes.now }
        ensures { MarkPairs bytes.now self.now.cases (start + self.now.place) other.now.cases (start + other.now.place) result }
    {
        marks_of_two(
            bytes,
            self.cases,
            start + self.place,
            other.cases,
            start + other.place,
        )
    }
}
