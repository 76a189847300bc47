//! Bytes as a search compares them.

ghost use Rattle.std.specs.Prelude.{◌≡◌, ◌==◌, length, map};
ghost use Rattle.std.specs.List.{starts_with};
ghost use Rattle.ed_model.specs.Matches.{folded};

use crate::flags::SearchFlags;

/// Returns the byte, in lower case unless case counts.
#[inline(always)]
pub(crate) fn fold(flags: SearchFlags, byte: u8) -> u8
    ensures { result ≡ folded flags byte }
{
    if flags.counts_case() || byte < b'A' || byte > b'Z' {
        byte
    } else {
        byte + 32
    }
}

/// Returns whether `bytes` are those of the pattern, which has the same length.
pub(crate) fn are_same(flags: SearchFlags, bytes: &[u8], pattern: &[u8]) -> bool
    requires { length bytes.now ≡ length pattern.now }
    ensures { result ≡ starts_with ◌==◌ (map (folded flags) bytes.now) (map (folded flags) pattern.now) }
{
    for i in 0..pattern.len() {
        if fold(flags, bytes[i]) != fold(flags, pattern[i]) {
            return false;
        }
    }
    true
}
