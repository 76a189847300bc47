//! What the tests of large sizes share: the sizes, and a text. All of it is safe, and has no contracts.
#![tactic(auto)]

use std::alloc::{AllocError, Global};

/// The length of a large text, in bytes: 1 MiB.
pub const LARGE: usize = 1_048_576;

/// The length of each of its lines in bytes, with the LF.
pub const LINE: usize = 16;

/// The number of its lines.
pub const LINES: usize = 65_536;

/// How many lines have rows and indicators of their own.
pub const MARKED_LINES: usize = 100_000;

/// Returns a text of `LARGE` bytes in lines of `LINE` bytes. Errors: a failed allocation.
pub fn large_text(alloc: Global) -> Result<Vec<u8>, AllocError> {
    let mut text = Vec::with_capacity(alloc, LARGE)?;
    for _ in 0..LINES {
        text.extend_from_slice(b"a line of bytes\n")?;
    }
    Ok(text)
}
