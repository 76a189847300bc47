//! Counting of lines if line ends of Unicode count: many bytes are tested at once.

ghost use Rattle.std.specs.Prelude.{◌≡◌, ◌≤◌, ◌<◌, ◌+◌, length};
ghost use Rattle.ed_model.specs.declared.plan.LineEndTypes.TheVariants.{Unicode};
ghost use Rattle.line_index.specs.Ends.{ends_with};
ghost use Rattle.line_index.specs.Index.{AreStarts, CountsUpTo};

use crate::room::{BLOCK, count_starts};
use ed_model::LineEndTypes;

// Returns how many lines end with the byte, 1 or 0, by the two bytes before it and the one behind. It has no branch, so
// that many bytes are tested at once.
fn ends_with(third: u8, second: u8, byte: u8, next: u8) -> u8
    ensures { result ≡ ends_with third second byte next }
{
    let known = (byte == b'\n') | ((byte == b'\r') & (next != b'\n'));
    let next_line = (byte == 0x85) & (second == 0xC2);
    let separator = ((byte == 0xA8) | (byte == 0xA9)) & (second == 0x80) & (third == 0xE2);
    if known | next_line | separator { 1 } else { 0 }
}

// Returns how many lines start behind the bytes of the block from `from` on. Two bytes stand before it and one behind.
fn lines_behind_block(bytes: &[u8], from: usize) -> usize
    requires { (2 ≤ from) × (from + 192 < length bytes.now) }
    ensures { AreStarts Unicode bytes.now (from + 1) (from + 192 + 1) result }
{
    let mut lines = 0u8;
    for place in from..from + BLOCK {
        lines += ends_with(
            bytes[place - 2],
            bytes[place - 1],
            bytes[place],
            bytes[place + 1],
        );
    }
    lines as usize
}

/// Returns how many lines start at the first byte and behind the bytes of whole blocks, and how many bytes these blocks
/// have, with the two before the first block.
pub(crate) fn lines_behind_blocks(bytes: &[u8]) -> (usize, usize)
    ensures { CountsUpTo Unicode bytes.now result }
{
    let mut place = bytes.len().min(2);
    let mut lines = count_starts(LineEndTypes::Unicode, bytes, 0, place + 1);
    'adding: while bytes.len() - place > BLOCK {
        lines += lines_behind_block(bytes, place);
        place += BLOCK;
    }
    (lines, place)
}
