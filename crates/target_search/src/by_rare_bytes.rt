//! The search in a part of the text if case does not count or words do. Two rare bytes of the pattern, in both cases,
//! show for 64 places at once where the pattern may stand. Only these places are compared.

ghost use Rattle.std.specs.Prelude.{◌≡◌, ℕ, ◌+◌, ◌≤◌, ◌<◌, ◌^◌, false, length};
ghost use Rattle.std.specs.Int.{bit_at};
ghost use Rattle.target_search.specs.Found.{IsPart, FindsFirst, FindsLast};
ghost use Rattle.target_search.specs.Searches.{end_in, text_of, size_of, is_match_of, MarksMatches};
ghost use Rattle.target_search.specs.Rare.{IsRareOf};

use crate::rare::RareByte;
use crate::search::Search;
use bit_marks::{highest, lowest, without};

impl<'a> Search<'a> {
    // Returns marks of the 64 places from `start` on in a part of the text, which begins at `offset`: where a match may
    // begin.
    #[inline(always)]
    fn marks(
        &self,
        rare: &RareByte,
        other: &RareByte,
        part: &[u8],
        offset: usize,
        start: usize,
    ) -> u64
        requires rare { IsRareOf rare.now self.now.pattern.now }
        requires other { IsRareOf other.now self.now.pattern.now }
        requires part { IsPart (text_of self.now) part.now offset }
        requires small { offset + length part.now < 2 ^ 64 }
        requires room { start + 64 + size_of self.now ≤ length part.now + 1 }
        ensures { MarksMatches self.now (offset + start) result }
    {
        rare.marks_with(other, part, start)
    }

    // Returns the first match that begins where a mark is set.
    #[inline(always)]
    fn first_marked(&self, part: &[u8], offset: usize, start: usize, marks: u64) -> Option<usize>
        requires part { IsPart (text_of self.now) part.now offset }
        requires small { offset + length part.now < 2 ^ 64 }
        requires room { start + 64 + size_of self.now ≤ length part.now + 1 }
        requires marks { MarksMatches self.now (offset + start) marks }
        ensures { FindsFirst (is_match_of self.now) (offset + start) (offset + start + 64) result }
    {
        let mut left = marks;
        'looking: while left != 0 {
            let bit = lowest(left);
            if self.is_match_in(part, offset, start + bit) {
                return Some(offset + start + bit);
            }
            left = without(left, bit);
        }
        None
    }

    // Returns the last match that begins where a mark is set.
    #[inline(always)]
    fn last_marked(&self, part: &[u8], offset: usize, start: usize, marks: u64) -> Option<usize>
        requires part { IsPart (text_of self.now) part.now offset }
        requires small { offset + length part.now < 2 ^ 64 }
        requires room { start + 64 + size_of self.now ≤ length part.now + 1 }
        requires marks { MarksMatches self.now (offset + start) marks }
        ensures { FindsLast (is_match_of self.now) (offset + start) (offset + start + 64) result }
    {
        let mut left = marks;
        'looking: while left != 0 {
            let bit = highest(left);
            if self.is_match_in(part, offset, start + bit) {
                return Some(offset + start + bit);
            }
            left = without(left, bit);
        }
        None
    }

    // Returns the first match in a part of the text that begins from `start` up to `end` there. Compares at each place.
    fn first_of_few(&self, part: &[u8], offset: usize, start: usize, end: usize) -> Option<usize>
        requires part { IsPart (text_of self.now) part.now offset }
        requires small { offset + length part.now < 2 ^ 64 }
        requires room { end + size_of self.now ≤ length part.now + 1 }
        ensures { FindsFirst (is_match_of self.now) (offset + start) (offset + end) result }
    {
        for at in start..end {
            if self.is_match_in(part, offset, at) {
                return Some(offset + at);
            }
        }
        None
    }

    // Returns the last match in a part of the text that begins before `end` there. Compares at each place.
    fn last_of_few(&self, part: &[u8], offset: usize, end: usize) -> Option<usize>
        requires part { IsPart (text_of self.now) part.now offset }
        requires small { offset + length part.now < 2 ^ 64 }
        requires room { end + size_of self.now ≤ length part.now + 1 }
        ensures { FindsLast (is_match_of self.now) offset (offset + end) result }
    {
        let mut at = end;
        'looking: while 0 < at {
            at -= 1;
            if self.is_match_in(part, offset, at) {
                return Some(offset + at);
            }
        }
        None
    }

    /// Returns the first match in a part of the text, which begins at `offset`.
    pub(crate) fn first_by_rare_bytes(&self, part: &[u8], offset: usize) -> Option<usize>
        requires part { IsPart (text_of self.now) part.now offset }
        requires small { offset + length part.now < 2 ^ 64 }
        requires some { 0 < size_of self.now }
        requires room { size_of self.now ≤ length part.now }
        ensures { FindsFirst (is_match_of self.now) offset (end_in self.now part.now offset) result }
    {
        let (rare, other) = RareByte::two_of(self.pattern);
        let end = part.len() - (self.pattern.len() - 1);
        let mut start = 0;
        'searching: while 64 <= end - start {
            let marks = self.marks(&rare, &other, part, offset, start);
            if let Some(place) = self.first_marked(part, offset, start, marks) {
                return Some(place);
            }
            start += 64;
        }
        self.first_of_few(part, offset, start, end)
    }

    /// Returns the last match in a part of the text, which begins at `offset`.
    pub(crate) fn last_by_rare_bytes(&self, part: &[u8], offset: usize) -> Option<usize>
        requires part { IsPart (text_of self.now) part.now offset }
        requires small { offset + length part.now < 2 ^ 64 }
        requires some { 0 < size_of self.now }
        requires room { size_of self.now ≤ length part.now }
        ensures { FindsLast (is_match_of self.now) offset (end_in self.now part.now offset) result }
    {
        let (rare, other) = RareByte::two_of(self.pattern);
        let mut end = part.len() - (self.pattern.len() - 1);
        'searching: while 64 <= end {
            let start = end - 64;
            let marks = self.marks(&rare, &other, part, offset, start);
            if let Some(place) = self.last_marked(part, offset, start, marks) {
                return Some(place);
            }
            end = start;
        }
        self.last_of_few(part, offset, end)
    }
}
