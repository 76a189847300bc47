//! A search for one pattern: forwards and backwards, over both halves of the text and the seam between them.

ghost use Rattle.std.specs.Prelude.{◌≡◌, ◌+◌, ◌-◌, ◌≤◌, ◌<◌, ◌^◌, length};
ghost use Rattle.target_search.specs.Found.{stands_at, words_pass, IsPart, FindsFirst, FindsLast};

use crate::bytes::are_same;
use crate::flags::SearchFlags;
use crate::words::words_allow;

/// A text in two halves, a pattern that is not empty, and the flags of the search.
#[derive(Drop)]
pub(crate) struct Search<'a> {
    pub(crate) flags: SearchFlags,
    pub(crate) before: &'a [u8],
    pub(crate) after: &'a [u8],
    pub(crate) pattern: &'a [u8],
}

impl<'a> Search<'a> {
    ghost use Rattle.target_search.specs.Searches.{end_in, text_of, size_of, is_match_of};

    /// Returns whether the flags allow the bytes around a match at `place`.
    #[inline]
    pub(crate) fn words_allow(&self, place: usize) -> bool
        requires { place + size_of self.now < 2 ^ 64 }
        ensures { result ≡ words_pass self.now.flags (text_of self.now) place (place + size_of self.now) }
    {
        words_allow(
            self.flags,
            self.before,
            self.after,
            place,
            place + self.pattern.len(),
        )
    }

    /// Returns whether a match begins at byte `at` of a part of the text, which begins at `offset`.
    pub(crate) fn is_match_in(&self, part: &[u8], offset: usize, at: usize) -> bool
        requires part { IsPart (text_of self.now) part.now offset }
        requires small { offset + length part.now < 2 ^ 64 }
        requires within { at + size_of self.now ≤ length part.now }
        ensures { result ≡ is_match_of self.now (offset + at) }
    {
        let bytes = &part[at..at + self.pattern.len()];
        self.words_allow(offset + at) && are_same(self.flags, bytes, self.pattern)
    }

    // Returns the first match in a part of the text, which begins at `offset`.
    fn first_in(&self, part: &[u8], offset: usize) -> Option<usize>
        requires part { IsPart (text_of self.now) part.now offset }
        requires small { offset + length part.now < 2 ^ 64 }
        requires some { 0 < size_of self.now }
        requires room { size_of self.now ≤ length part.now }
        ensures { FindsFirst (is_match_of self.now) offset (end_in self.now part.now offset) result }
    {
        if self.flags.counts_case() && !self.flags.starts_words() {
            self.first_exact(part, offset)
        } else {
            self.first_by_rare_bytes(part, offset)
        }
    }

    // Returns the last match in a part of the text, which begins at `offset`.
    fn last_in(&self, part: &[u8], offset: usize) -> Option<usize>
        requires part { IsPart (text_of self.now) part.now offset }
        requires small { offset + length part.now < 2 ^ 64 }
        requires some { 0 < size_of self.now }
        requires room { size_of self.now ≤ length part.now }
        ensures { FindsLast (is_match_of self.now) offset (end_in self.now part.now offset) result }
    {
        if self.flags.counts_case() && !self.flags.starts_words() {
            self.last_exact(part, offset)
        } else {
            self.last_by_rare_bytes(part, offset)
        }
    }

    // Returns the bytes of the first half with all matches that begin from `from` up to `end`.
    fn part_before(&self, from: usize, end: usize) -> &'a [u8]
        requires some { 0 < size_of self.now }
        requires order { from < end }
        requires within { end + size_of self.now ≤ length self.now.before.now + 1 }
        ensures part { IsPart (text_of self.now) result.now from }
        ensures long { from + length result.now + 1 ≡ end + size_of self.now }
    {
        &self.before[from..end + (self.pattern.len() - 1)]
    }

    // Returns the bytes of the second half with all matches that begin from `from` up to `end`.
    fn part_behind(&self, from: usize, end: usize) -> &'a [u8]
        requires some { 0 < size_of self.now }
        requires order { from < end }
        requires low { length self.now.before.now ≤ from }
        requires within { end + size_of self.now ≤ length (text_of self.now) + 1 }
        requires small { end + size_of self.now ≤ 2 ^ 64 }
        ensures part { IsPart (text_of self.now) result.now from }
        ensures long { from + length result.now + 1 ≡ end + size_of self.now }
    {
        let middle = self.before.len();
        &self.after[from - middle..end + (self.pattern.len() - 1) - middle]
    }

    // Returns the first match that begins from `from` up to `end`. All of these lie in the first half.
    fn first_before(&self, from: usize, end: usize) -> Option<usize>
        requires some { 0 < size_of self.now }
        requires within { from < end → end + size_of self.now ≤ length self.now.before.now + 1 }
        ensures { FindsFirst (is_match_of self.now) from end result }
    {
        if end <= from {
            return None;
        }
        self.first_in(self.part_before(from, end), from)
    }

    // Returns the first match that begins from `from` up to `end`. All of these lie in the second half.
    fn first_behind(&self, from: usize, end: usize) -> Option<usize>
        requires some { 0 < size_of self.now }
        requires low { from < end → length self.now.before.now ≤ from }
        requires within { end + size_of self.now ≤ length (text_of self.now) + 1 }
        requires small { end + size_of self.now ≤ 2 ^ 64 }
        ensures { FindsFirst (is_match_of self.now) from end result }
    {
        if end <= from {
            return None;
        }
        self.first_in(self.part_behind(from, end), from)
    }

    // Returns the last match that begins from `from` up to `end`. All of these lie in the first half.
    fn last_before(&self, from: usize, end: usize) -> Option<usize>
        requires some { 0 < size_of self.now }
        requires within { from < end → end + size_of self.now ≤ length self.now.before.now + 1 }
        ensures { FindsLast (is_match_of self.now) from end result }
    {
        if end <= from {
            return None;
        }
        self.last_in(self.part_before(from, end), from)
    }

    // Returns the last match that begins from `from` up to `end`. All of these lie in the second half.
    fn last_behind(&self, from: usize, end: usize) -> Option<usize>
        requires some { 0 < size_of self.now }
        requires low { from < end → length self.now.before.now ≤ from }
        requires within { end + size_of self.now ≤ length (text_of self.now) + 1 }
        requires small { end + size_of self.now ≤ 2 ^ 64 }
        ensures { FindsLast (is_match_of self.now) from end result }
    {
        if end <= from {
            return None;
        }
        self.last_in(self.part_behind(from, end), from)
    }

    // Returns whether a match begins at `place`, with bytes in both halves.
    fn is_match_over_seam(&self, place: usize) -> bool
        requires low { place ≤ length self.now.before.now }
        requires high { length self.now.before.now ≤ place + size_of self.now }
        requires within { place + size_of self.now ≤ length (text_of self.now) }
        requires small { place + size_of self.now < 2 ^ 64 }
        ensures { result ≡ is_match_of self.now place }
    {
        if !self.words_allow(place) {
            return false;
        }
        let (front, behind) = self.pattern.split_at(self.before.len() - place);
        are_same(self.flags, &self.before[place..], front)
            && are_same(self.flags, &self.after[..behind.len()], behind)
    }

    // Returns the first match that begins from `from` up to `end`. All of these have bytes in both halves.
    fn first_over_seam(&self, from: usize, end: usize) -> Option<usize>
        requires low { from < end → length self.now.before.now < from + size_of self.now }
        requires high { from < end → end ≤ length self.now.before.now }
        requires within { end + size_of self.now ≤ length (text_of self.now) + 1 }
        requires small { end + size_of self.now ≤ 2 ^ 64 }
        ensures { FindsFirst (is_match_of self.now) from end result }
    {
        for place in from..end {
            if self.is_match_over_seam(place) {
                return Some(place);
            }
        }
        None
    }

    // Returns the last match that begins from `from` up to `end`. All of these have bytes in both halves.
    fn last_over_seam(&self, from: usize, end: usize) -> Option<usize>
        requires low { from < end → length self.now.before.now < from + size_of self.now }
        requires high { from < end → end ≤ length self.now.before.now }
        requires within { end + size_of self.now ≤ length (text_of self.now) + 1 }
        requires small { end + size_of self.now ≤ 2 ^ 64 }
        ensures { FindsLast (is_match_of self.now) from end result }
    {
        let mut place = end;
        'looking: while from < place {
            place -= 1;
            if self.is_match_over_seam(place) {
                return Some(place);
            }
        }
        None
    }

    // Returns where the matches that begin from `from` up to `end` begin to reach over the seam, and where they begin
    // to lie behind it.
    fn borders(&self, from: usize, end: usize) -> (usize, usize)
        requires some { 0 < size_of self.now }
        requires order { from ≤ end }
        ensures order { (from ≤ result.0) × (result.0 ≤ result.1) × (result.1 ≤ end) }
        ensures front { from < result.0 → result.0 + size_of self.now ≤ length self.now.before.now + 1 }
        ensures seam { result.0 < result.1 → ((length self.now.before.now < result.0 + size_of self.now) × (result.1 ≤ length self.now.before.now)) }
        ensures behind { result.1 < end → length self.now.before.now ≤ result.1 }
    {
        let middle = self.before.len();
        let reaching = middle.saturating_sub(self.pattern.len() - 1);
        (reaching.max(from).min(end), middle.max(from).min(end))
    }

    /// Returns the first match that lies from `from` to `to`.
    pub(crate) fn first(&self, from: usize, to: usize) -> Option<usize>
        requires some { 0 < size_of self.now }
        requires order { from ≤ to }
        requires within { to ≤ length (text_of self.now) }
        ensures { FindsFirst (is_match_of self.now) from (to + 1 - size_of self.now) result }
    {
        let others = self.pattern.len() - 1;
        if to - from <= others {
            return None;
        }
        let end = to - others;
        let (seam, behind) = self.borders(from, end);
        if let Some(place) = self.first_before(from, seam) {
            return Some(place);
        }
        if let Some(place) = self.first_over_seam(seam, behind) {
            return Some(place);
        }
        self.first_behind(behind, end)
    }

    /// Returns the last match that lies from `from` to `to`.
    pub(crate) fn last(&self, from: usize, to: usize) -> Option<usize>
        requires some { 0 < size_of self.now }
        requires order { from ≤ to }
        requires within { to ≤ length (text_of self.now) }
        ensures { FindsLast (is_match_of self.now) from (to + 1 - size_of self.now) result }
    {
        let others = self.pattern.len() - 1;
        if to - from <= others {
            return None;
        }
        let end = to - others;
        let (seam, behind) = self.borders(from, end);
        if let Some(place) = self.last_behind(behind, end) {
            return Some(place);
        }
        if let Some(place) = self.last_over_seam(seam, behind) {
            return Some(place);
        }
        self.last_before(from, seam)
    }
}
