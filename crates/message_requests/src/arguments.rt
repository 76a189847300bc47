//! Arguments of messages: numbers and flags.

ghost use Rattle.std.specs.Prelude.{◌≡◌, ◌≤◌, ◌<◌, IfSome};
ghost use Rattle.ed_model.specs.Numbers.{at_least_zero, clamped, is_minus_one, is_on, line_among, low_bits, some_or_all, within};

/// Returns the argument as a number, or `None` if it is not in the range from `low` to `high`, both included.
pub fn within(low: usize, high: usize, argument: i64) -> Option<usize>
    ensures within { result ≡ within low high argument }
    ensures high { IfSome result (λ number. number ≤ high) }
{
    if argument < 0 {
        return None;
    }
    let number = argument as usize;
    if low <= number && number <= high {
        Some(number)
    } else {
        None
    }
}

/// Returns the argument as one of `lines` lines, counted from 0, or `None` if there is no such line.
pub fn line_among(lines: usize, argument: i64) -> Option<usize>
    ensures line { result ≡ line_among lines argument }
    ensures among { IfSome result (λ line. line < lines) }
{
    if argument < 0 {
        return None;
    }
    let line = argument as usize;
    if line < lines { Some(line) } else { None }
}

/// Returns whether the argument is -1.
pub fn is_minus_one(argument: i64) -> bool
    ensures { result ≡ is_minus_one argument }
{
    argument == -1
}

/// Returns the argument clamped to the range from 0 to `high`.
pub fn clamped(high: usize, argument: i64) -> usize
    ensures { result ≡ clamped high argument }
{
    if argument < 0 {
        0
    } else {
        high.min(argument as usize)
    }
}

/// Returns whether the argument, a flag, is on. Only 0 is off.
pub fn is_on(argument: i64) -> bool
    ensures { result ≡ is_on argument }
{
    argument != 0
}

/// Returns `Some(Some(number))` if the argument is a number from 0 to `high`, and `Some(None)` if it is -1, which
/// stands for all numbers. Returns `None` for all other arguments.
pub fn some_or_all(high: u32, argument: i64) -> Option<Option<u32>>
    ensures { result ≡ some_or_all high argument }
{
    if is_minus_one(argument) {
        return Some(None);
    }
    match within(0, high as usize, argument) {
        Some(number) => Some(Some(number as u32)),
        None => None,
    }
}

/// Returns the argument, or 0 if it is negative.
pub fn at_least_zero(argument: i64) -> usize
    ensures { result ≡ at_least_zero argument }
{
    if argument < 0 { 0 } else { argument as usize }
}

/// Returns the low 32 bits of the argument in two's complement.
pub fn low_bits(argument: i64) -> u32
    ensures { result ≡ low_bits argument }
{
    (argument.cast_unsigned() % (1 << 32)) as u32
}
