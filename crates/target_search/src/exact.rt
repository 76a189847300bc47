//! The search in a part of the text if case counts and words do not, by `memchr`. Forwards it searches for the rarest
//! byte of the pattern, and after too many of them without a match for the whole pattern. Backwards it searches for the
//! whole pattern at once.

ghost use Rattle.std.specs.Prelude.{◌≡◌, ◌+◌, ◌≤◌, ◌<◌, ◌^◌, ◌||◌, true, false, length};
ghost use Rattle.ed_model.specs.Numbers.{meets};
ghost use Rattle.ed_model.specs.Matches.{match_case, whole_word, word_start};
ghost use Rattle.target_search.specs.Found.{IsPart, FindsFirst, FindsLast};
ghost use Rattle.target_search.specs.Searches.{end_in, text_of, size_of, is_match_of};

use crate::search::Search;
use memchr::arch::all::packedpair::Pair;
use memchr::{memchr, memmem};

/// How many places with the rarest byte may turn out to be no match before the whole pattern is searched for. The
/// search for one byte reads 128 bytes at once, but restarts behind each of these places.
const MOST_PASSED: usize = 16;

// Returns the place of the byte of the pattern that is the rarest in texts.
fn rarest(pattern: &[u8]) -> usize
    requires { 0 < length pattern.now }
    ensures { result < length pattern.now }
{
    match Pair::new(pattern) {
        Some(pair) => pair.index1() as usize,
        None => 0,
    }
}

impl<'a> Search<'a> {
    // Returns the first match that begins from byte `start` on in a part of the text, which begins at `offset`.
    fn first_from(&self, part: &[u8], offset: usize, start: usize) -> Option<usize>
        requires case { meets self.now.flags match_case ≡ true }
        requires words { (meets self.now.flags whole_word || meets self.now.flags word_start) ≡ false }
        requires part { IsPart (text_of self.now) part.now offset }
        requires small { offset + length part.now < 2 ^ 64 }
        requires some { 0 < size_of self.now }
        requires within { start ≤ length part.now }
        ensures { FindsFirst (is_match_of self.now) (offset + start) (end_in self.now part.now offset) result }
    {
        let found = memmem::find(&part[start..], self.pattern)?;
        Some(offset + start + found)
    }

    /// Returns the first match in a part of the text, which begins at `offset`.
    pub(crate) fn first_exact(&self, part: &[u8], offset: usize) -> Option<usize>
        requires case { meets self.now.flags match_case ≡ true }
        requires words { (meets self.now.flags whole_word || meets self.now.flags word_start) ≡ false }
        requires part { IsPart (text_of self.now) part.now offset }
        requires small { offset + length part.now < 2 ^ 64 }
        requires some { 0 < size_of self.now }
        ensures { FindsFirst (is_match_of self.now) offset (end_in self.now part.now offset) result }
    {
        let rare = rarest(self.pattern);
        let others = self.pattern.len() - 1;
        let mut start = 0;
        let mut passed = 0;
        'passing: while passed < MOST_PASSED && others < part.len() - start {
            let bytes = &part[start + rare..part.len() - (others - rare)];
            start += memchr(self.pattern[rare], bytes)?;
            if self.is_match_in(part, offset, start) {
                return Some(offset + start);
            }
            start += 1;
            passed += 1;
        }
        self.first_from(part, offset, start)
    }

    /// Returns the last match in a part of the text, which begins at `offset`. A search for the rarest byte first, as
    /// forwards, wins only if that byte seldom stands outside of a match, and costs more otherwise.
    pub(crate) fn last_exact(&self, part: &[u8], offset: usize) -> Option<usize>
        requires case { meets self.now.flags match_case ≡ true }
        requires words { (meets self.now.flags whole_word || meets self.now.flags word_start) ≡ false }
        requires part { IsPart (text_of self.now) part.now offset }
        requires small { offset + length part.now < 2 ^ 64 }
        requires some { 0 < size_of self.now }
        ensures { FindsLast (is_match_of self.now) offset (end_in self.now part.now offset) result }
    {
        let found = memmem::rfind(part, self.pattern)?;
        Some(offset + found)
    }
}
