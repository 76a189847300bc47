//! The spelling of bytes in texts.

ghost use Rattle.std.specs.Prelude.{◌≡◌, ℕ, ◌<◌, ◌≤◌, ◌∷◌, [], length, take, slice_index, IsTrue};
ghost use Rattle.ed_model.specs.Spelling.{hex_digit as hex_digit_of, spelled_byte};

/// Returns the digit of a number below 16.
fn hex_digit(value: u8) -> u8
    requires { value < 16 }
    ensures { result ≡ hex_digit_of value }
{
    if value < 10 {
        b'0' + value
    } else {
        b'a' - 10 + value
    }
}

/// Returns the spelling of a byte, and its length, from 1 to 4 bytes.
pub(crate) fn spell_byte(byte: u8) -> ([u8; 4], usize)
    ensures spelling { take result.1 result.0 ≡ spelled_byte byte }
    ensures len { result.1 ≡ length (spelled_byte byte) }
    ensures some { 0 < result.1 }
    ensures within { result.1 ≤ 4 }
{
    match byte {
        b'"' | b'\\' => ([b'\\', byte, 0, 0], 2),
        0x20..=0x7E => ([byte, 0, 0, 0], 1),
        _ => ([b'\\', b'x', hex_digit(byte / 16), hex_digit(byte % 16)], 4),
    }
}

/// Returns whether an escape of these two digits spells the byte.
pub(crate) fn is_escape(byte: u8, high: u8, low: u8) -> bool
    ensures { IsTrue result → spelled_byte byte ≡ 92 ∷ 120 ∷ high ∷ low ∷ [] }
{
    (byte < 0x20 || byte > 0x7E) && hex_digit(byte / 16) == high && hex_digit(byte % 16) == low
}

/// Returns how many bytes at the front are spelled by themselves.
pub(crate) fn plain_len(text: &[u8]) -> usize
    ensures within { result ≤ length text.now }
    ensures plain { (k : ℕ) → k < result → spelled_byte (slice_index text.now k) ≡ slice_index text.now k ∷ [] }
{
    for (i, byte) in text.iter().enumerate() {
        if *byte < 0x20 || *byte > 0x7E || *byte == b'"' || *byte == b'\\' {
            return i;
        }
    }
    text.len()
}
