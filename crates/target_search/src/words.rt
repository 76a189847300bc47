//! The words around a match.

ghost use Rattle.std.specs.Prelude.{◌≡◌, ◌++◌};
ghost use Rattle.ed_model.specs.Matches.{word_after};
ghost use Rattle.target_search.specs.Found.{words_pass};

use crate::flags::SearchFlags;
use char_cut::is_word;

// Returns whether a byte of a word stands at `place`.
fn is_word_at(before: &[u8], after: &[u8], place: usize) -> bool
    ensures { result ≡ word_after (before.now ++ after.now) place }
{
    if place < before.len() {
        return is_word(before[place]);
    }
    let behind = place - before.len();
    behind < after.len() && is_word(after[behind])
}

/// Returns whether the flags allow the bytes around a match from `place` to `end`.
#[inline]
pub(crate) fn words_allow(
    flags: SearchFlags,
    before: &[u8],
    after: &[u8],
    place: usize,
    end: usize,
) -> bool
    ensures { result ≡ words_pass flags (before.now ++ after.now) place end }
{
    if flags.starts_words() && 0 < place && is_word_at(before, after, place - 1) {
        return false;
    }
    !(flags.ends_words() && is_word_at(before, after, end))
}
