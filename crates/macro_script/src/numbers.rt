//! Reading of numbers from words.

ghost use Rattle.std.specs.Prelude.{◌≡◌, ℕ, ◌<◌, ◌≤◌, ◌^◌, IfSome, Some, SomeIff, MatchBool, length, slice_index, ◌∷◌};
ghost use Rattle.std.specs.Str.Parse.{AllDigits, digits_value};
ghost use Rattle.ed_model.specs.Spelling.{spelled};
ghost use Rattle.ed_model.specs.Reading.{natural as natural_of, integer as integer_of};

/// The most digits of a number that scripts have.
const MOST_DIGITS: usize = 19;

/// The magnitude of the least number of 64 bits.
const LEAST_MAGNITUDE: u64 = 1 << 63;

/// Returns the value of decimal digits, or `None` if a byte is no digit.
fn value_of_digits(digits: &[u8]) -> Option<u64>
    requires { length digits.now ≤ 19 }
    ensures { SomeIff result (AllDigits 10 digits.now) (digits_value 10 digits.now) }
{
    let mut value = 0u64;
    for digit in digits {
        if !digit.is_ascii_digit() {
            return None;
        }
        value = value * 10 + u64::from(*digit - b'0');
    }
    Some(value)
}

/// Returns whether a zero comes before other bytes.
fn has_leading_zero(word: &[u8]) -> bool
    ensures { MatchBool result
        ((1 < length word.now) × (slice_index word.now 0 ≡ 48))
        (slice_index word.now 0 ≡ 48 → length word.now ≤ 1) }
{
    word.len() > 1 && word[0] == b'0'
}

/// Returns the number that the word spells, if it has at most 19 digits.
fn magnitude(word: &[u8]) -> Option<u64>
    ensures only { IfSome result (λ n. word.now ≡ spelled n) }
    ensures each { (n : ℕ) → n < 10 ^ 19 → word.now ≡ spelled n → result ≡ Some n }
{
    if word.is_empty() {
        return None;
    }
    if word.len() > MOST_DIGITS {
        return None;
    }
    if has_leading_zero(word) {
        return None;
    }
    value_of_digits(word)
}

/// Returns the number from 0 to 4,294,967,295 that the word spells, or `None`.
pub(crate) fn natural(word: &[u8]) -> Option<u32>
    ensures { result ≡ natural_of word.now }
{
    let value = magnitude(word)?;
    if value > u64::from(u32::MAX) {
        return None;
    }
    Some(value as u32)
}

/// Returns the number of 64 bits that the word spells, or `None`.
pub(crate) fn integer(word: &[u8]) -> Option<i64>
    ensures { result ≡ integer_of word.now }
{
    if word.first() == Some(&b'-') {
        return negative(&word[1..]);
    }
    let value = magnitude(word)?;
    if value > i64::MAX as u64 {
        return None;
    }
    Some(value as i64)
}

/// Returns the negative number of 64 bits whose digits after the sign are these, or `None`.
fn negative(digits: &[u8]) -> Option<i64>
    ensures { result ≡ integer_of (45 ∷ digits.now) }
{
    let value = magnitude(digits)?;
    if value == 0 || value > LEAST_MAGNITUDE {
        return None;
    }
    Some(-((value - 1) as i64) - 1)
}
