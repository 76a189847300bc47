//! Searches for a pattern in a range of a text, which is given as two slices, as a gap buffer has it.
//!
//! ```text
//! text      a b _ a b   a b        the pattern `ab` as a whole word: at 6
//! range     0             8        first place to last place forwards, last to first backwards
//! ```
//!
//! If case counts and words do not, matches are found by `memchr`. Forwards this is its search for a byte, the rarest
//! of the pattern, and after a few of these without a match its search for a substring. Backwards it is the latter
//! alone. Otherwise two rare bytes of the pattern, in both cases, show for 64 places at once where the pattern may
//! stand. Each of these places is tested for the words around it and compared. Matches over the seam of the two slices
//! are compared byte by byte. `ed_model` defines what a match is, and which one is returned: `match_in`.
#![tactic(auto)]

ghost use Rattle.std.specs.Prelude.{◌≡◌, ◌+◌, ◌≤◌, ◌++◌, length};
ghost use Rattle.ed_model.specs.Matches.{match_in};

mod by_rare_bytes;
mod bytes;
mod exact;
mod flags;
mod marks;
mod rare;
mod search;
mod words;

use crate::search::Search;
pub use flags::SearchFlags;

/// Returns the place of the first match of `pattern` that lies in the range from `from` to `to`, or of the last one if
/// `from` is the greater (`SCI_SEARCHINTARGET`). `before` and `after` are the halves of the text, and places are in
/// bytes from 0. An empty pattern matches at the lesser of `from` and `to`.
pub fn find(
    flags: SearchFlags,
    before: &[u8],
    after: &[u8],
    pattern: &[u8],
    from: usize,
    to: usize,
) -> Option<usize>
    requires start { from ≤ length before.now + length after.now }
    requires end { to ≤ length before.now + length after.now }
    ensures { result ≡ match_in flags (before.now ++ after.now) pattern.now from to }
{
    if pattern.is_empty() {
        return Some(from.min(to));
    }
    let search = Search {
        flags,
        before,
        after,
        pattern,
    };
    if from <= to {
        search.first(from, to)
    } else {
        search.last(to, from)
    }
}
