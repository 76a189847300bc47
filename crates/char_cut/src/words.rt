//! The bytes that belong to words.

ghost use Rattle.std.specs.Prelude.{◌≡◌};
ghost use Rattle.ed_model.specs.Matches.{is_word_byte};

/// Returns whether the byte belongs to a word: ASCII letters and digits, `_`, and each byte from 0x80 on.
#[inline]
pub fn is_word(byte: u8) -> bool
    ensures { result ≡ is_word_byte byte }
{
    byte.is_ascii_alphanumeric() || byte == b'_' || !byte.is_ascii()
}
