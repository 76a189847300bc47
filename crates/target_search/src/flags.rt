//! The flags of a search, which decide what a match is.

ghost use Rattle.std.specs.Prelude.{◌≡◌, ◌||◌, not};
ghost use Rattle.ed_model.specs.Numbers.{meets};
ghost use Rattle.ed_model.specs.Matches.{whole_word, match_case, word_start};

use std::marker::Model;

/// The flags of a search, as a number: the sum of those that are set (`SCI_SETSEARCHFLAGS`). Without a flag, a match is
/// any run of bytes that equals the pattern except for the case of ASCII letters.
#[derive(Clone, Copy)]
pub struct SearchFlags {
    bits: u32,
}

impl Model for SearchFlags {
    ghost use Rattle.std.specs.Prelude.{ℕ};

    ghost Value = { ℕ };

    ghost view = { λ flags. flags.bits };

    ghost inverse = { λ bits. record { bits = bits } };
}

impl SearchFlags {
    /// No byte of a word stands before a match or behind it: `SCFIND_WHOLEWORD` of Scintilla.
    pub const WHOLE_WORD: u32 = 0x2;
    /// Upper and lower case differ: `SCFIND_MATCHCASE` of Scintilla.
    pub const MATCH_CASE: u32 = 0x4;
    /// No byte of a word stands before a match: `SCFIND_WORDSTART` of Scintilla.
    pub const WORD_START: u32 = 0x10_0000;

    /// Returns the flags of a number.
    pub fn new(bits: u32) -> Self
        ensures { result ≡ bits }
    {
        SearchFlags { bits }
    }

    /// Returns the number of these flags.
    pub fn bits(self) -> u32
        ensures { result ≡ self }
    {
        self.bits
    }

    /// Returns whether case counts.
    pub(crate) fn counts_case(self) -> bool
        ensures { result ≡ meets self match_case }
    {
        self.bits & Self::MATCH_CASE != 0
    }

    /// Returns whether a match must begin where a word does.
    pub(crate) fn starts_words(self) -> bool
        ensures { result ≡ (meets self whole_word || meets self word_start) }
    {
        self.bits & Self::WHOLE_WORD != 0 || self.bits & Self::WORD_START != 0
    }

    /// Returns whether a match must end where a word does.
    pub(crate) fn ends_words(self) -> bool
        ensures { result ≡ meets self whole_word }
    {
        self.bits & Self::WHOLE_WORD != 0
    }
}
