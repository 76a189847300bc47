//! Messages, as a view gets them.

use crate::bytes::Bytes;

/// A message to a view. The table of messages (`docs/MESSAGES.md`) says what `w`, `l` and `text` mean for each number.
#[derive(Debug, Drop)]
pub struct Message {
    /// The number of the message, by Scintilla's documentation.
    pub number: u32,
    /// The first argument, `wParam` in Scintilla.
    pub w: i64,
    /// The second argument, `lParam` in Scintilla.
    pub l: i64,
    /// The text that goes with the message; a NUL is an ordinary byte.
    pub text: Bytes,
}
