//! The orders of a user who steps through a script, one per line.

use script_ends::{RunFault, Source};

/// How many bytes of a line are kept. Every order is shorter.
const LONGEST: usize = 64;

/// What to show of each view.
#[derive(Clone, Copy)]
pub enum Look {
    /// The text, with caret and selection.
    Text,
    /// The lines' levels, markers and flags.
    Lines,
    /// What can be undone and redone.
    History,
}

/// What to do next.
#[derive(Clone, Copy)]
pub enum Order {
    /// Perform the next command.
    Next,
    /// Go back by one command.
    Back,
    /// Go to where this many commands are done.
    GoTo(usize),
    /// Show the views.
    Show(Look),
    /// End.
    Quit,
    /// The line is no order.
    Unknown,
}

/// Reads a line without its LF, and keeps its first 64 bytes. Returns whether there was one.
pub(crate) fn read_line<S: Source>(source: &mut S, line: &mut Vec<u8>) -> Result<bool, RunFault> {
    line.clear();
    let mut byte = [0u8];
    let mut is_line = false;
    for _ in 0..u64::MAX {
        if source.read(&mut byte)? == 0 {
            return Ok(is_line);
        }
        if byte[0] == b'\n' {
            return Ok(true);
        }
        is_line = true;
        if line.len() < LONGEST {
            line.extend_from_slice(&byte)?;
        }
    }
    Ok(is_line)
}

/// Returns the value of decimal digits, or `None` if they are no number or one that is too great.
fn number_of(digits: &[u8]) -> Option<usize> {
    if digits.is_empty() {
        return None;
    }
    let mut number: usize = 0;
    for digit in digits {
        let value = match digit {
            b'0'..=b'9' => usize::from(*digit - b'0'),
            _ => return None,
        };
        number = number.checked_mul(10)?.checked_add(value)?;
    }
    Some(number)
}

/// Returns the order on a line.
pub(crate) fn order_of(line: &[u8]) -> Order {
    match line {
        [b'n'] => Order::Next,
        [b'b'] => Order::Back,
        [b't'] => Order::Show(Look::Text),
        [b'l'] => Order::Show(Look::Lines),
        [b'h'] => Order::Show(Look::History),
        [b'q'] => Order::Quit,
        [b'g', b' ', digits @ ..] => match number_of(digits) {
            Some(number) => Order::GoTo(number),
            None => Order::Unknown,
        },
        _ => Order::Unknown,
    }
}
