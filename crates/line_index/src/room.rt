//! The room that steps need.

ghost use Rattle.std.specs.Prelude.{◌≡◌, ◌≤◌, ◌<◌, ◌+◌, ◌-◌, ◌==◌, ◌||◌, ◌&&◌, not, if◌then◌else◌, length};
ghost use Rattle.ed_model.specs.Lines.{line_count};
ghost use Rattle.ed_model.specs.Text.{carriage_return, line_feed};
ghost use Rattle.line_index.specs.Index.{AreStarts, CountsUpTo};
ghost use Rattle.line_index.specs.RoomLaws.{DeletionAddsFewLines, FirstBytesHaveFewLines, InsertionAddsFewLines};
ghost use Rattle.line_index.specs.RoomLaws.{lines_for_deletion, lines_for_insertion};

use crate::halves::{Halves, first_place, next_place, starts_at};
use crate::unicode_blocks;
use ed_model::LineEndTypes;

// How many bytes are tested at once: few enough that a counter of one byte holds the number of line starts behind them,
// since a vector register has many such counters.
pub(crate) const BLOCK: usize = 192;

// How many blocks a row has. Its bytes are three pages; shorter rows were slower.
const BLOCKS: usize = 64;

// How many bytes a row has.
const ROW: usize = BLOCKS * BLOCK;

// How many line ends can form of bytes that a step brings together at a place: one, of Unicode.
const FORMED: usize = 1;

// Returns how many lines end with the byte, 1 or 0, if line ends of Unicode do not count. It has no branch, so that
// many bytes are tested at once.
fn ends_with(byte: u8, next: u8) -> u8
    ensures { result ≡ (if byte == line_feed || (byte == carriage_return && not (next == line_feed)) then 1 else 0) }
{
    if (byte == b'\n') | ((byte == b'\r') & (next != b'\n')) {
        1
    } else {
        0
    }
}

// Returns how many lines start behind the bytes of the block from `from` on. Another byte follows the block.
fn lines_behind_block(bytes: &[u8], from: usize) -> usize
    requires { from + 192 < length bytes.now }
    ensures { AreStarts LineEndTypes.Default bytes.now (from + 1) (from + 192 + 1) result }
{
    let mut lines = 0u8;
    for place in from..from + BLOCK {
        lines += ends_with(bytes[place], bytes[place + 1]);
    }
    lines as usize
}

// Returns how many lines start behind the bytes of four rows from `from` on. Another byte follows them. The rows are
// read side by side, since memory is faster from four places than from one.
fn lines_behind_rows(bytes: &[u8], from: usize) -> usize
    requires { from + 49152 < length bytes.now }
    ensures { AreStarts LineEndTypes.Default bytes.now (from + 1) (from + 49152 + 1) result }
{
    let (mut first, mut second, mut third, mut fourth) = (0, 0, 0, 0);
    for block in 0..BLOCKS {
        let place = from + block * BLOCK;
        first += lines_behind_block(bytes, place);
        second += lines_behind_block(bytes, place + ROW);
        third += lines_behind_block(bytes, place + 2 * ROW);
        fourth += lines_behind_block(bytes, place + 3 * ROW);
    }
    first + second + third + fourth
}

// Returns how many lines start at the first byte and behind the bytes of whole groups of four rows, and how many bytes
// these groups have.
fn lines_behind_groups(bytes: &[u8]) -> (usize, usize)
    ensures { CountsUpTo LineEndTypes.Default bytes.now result }
{
    let mut lines = 1;
    let mut place = 0;
    'adding: while bytes.len() - place > 4 * ROW {
        lines += lines_behind_rows(bytes, place);
        place += 4 * ROW;
    }
    (lines, place)
}

// Like `lines_behind_groups`, for whole blocks: first in groups, then one by one.
fn lines_behind_blocks(bytes: &[u8]) -> (usize, usize)
    ensures { CountsUpTo LineEndTypes.Default bytes.now result }
{
    let (mut lines, mut place) = lines_behind_groups(bytes);
    'adding: while bytes.len() - place > BLOCK {
        lines += lines_behind_block(bytes, place);
        place += BLOCK;
    }
    (lines, place)
}

// Returns how many lines start at `place`: 1 or 0.
fn lines_at(types: LineEndTypes, bytes: &[u8], place: usize) -> usize
    ensures { AreStarts types bytes.now place (place + 1) result }
{
    let text = Halves {
        types,
        before: bytes,
        after: &[],
    };
    if starts_at(text, place) { 1 } else { 0 }
}

// Returns how many lines start from `from` up to `to`, one after the other. Out of line, since there is usually none.
#[inline(never)]
fn count_from(types: LineEndTypes, bytes: &[u8], from: usize, to: usize) -> usize
    requires { (from ≤ to) × (to ≤ length bytes.now + 1) }
    ensures { AreStarts types bytes.now from to result }
{
    let text = Halves {
        types,
        before: bytes,
        after: &[],
    };
    let mut lines = 0;
    let mut place = from;
    'counting: while place < to {
        lines += lines_at(types, bytes, place);
        place = next_place(text, place, to);
    }
    lines
}

/// Returns how many lines start from `from` up to `to`.
#[inline(always)]
pub(crate) fn count_starts(types: LineEndTypes, bytes: &[u8], from: usize, to: usize) -> usize
    requires { (from ≤ to) × (to ≤ length bytes.now + 1) }
    ensures { AreStarts types bytes.now from to result }
{
    let text = Halves {
        types,
        before: bytes,
        after: &[],
    };
    let place = first_place(text, from, to);
    if place == to {
        return 0;
    }
    if place + 1 == to {
        return lines_at(types, bytes, place);
    }
    count_from(types, bytes, place, to)
}

// Returns how many lines start at the first byte and behind the bytes of whole blocks, and how many bytes these blocks
// have. There is usually no whole block, and no call is made.
#[inline(always)]
fn lines_seen(types: LineEndTypes, bytes: &[u8]) -> (usize, usize)
    ensures { CountsUpTo types bytes.now result }
{
    if bytes.len() <= BLOCK {
        return (1, 0);
    }
    match types {
        LineEndTypes::Default => lines_behind_blocks(bytes),
        LineEndTypes::Unicode => unicode_blocks::lines_behind_blocks(bytes),
    }
}

/// Returns how many lines the bytes have on their own.
pub fn lines_in(types: LineEndTypes, bytes: &[u8]) -> usize
    ensures lines { result ≡ line_count types bytes.now }
    ensures within { result ≤ length bytes.now + 1 }
{
    let (lines, behind) = lines_seen(types, bytes);
    lines + count_starts(types, bytes, behind + 1, bytes.len() + 1)
}

/// Returns for how many lines an insertion of the bytes requires room: as many as they have on their own and one. A line
/// end of Unicode may form at the front of the bytes and behind them, and their first line is the rest of one that is
/// there.
pub fn lines_for_insertion(types: LineEndTypes, bytes: &[u8]) -> usize
    ensures lines { result ≡ lines_for_insertion types bytes.now }
    ensures within { result ≤ length bytes.now + 2 }
{
    lines_in(types, bytes) + 2 * FORMED - 1
}

/// Returns for how many lines a deletion requires room: one, since a line end of Unicode may form of the bytes that it
/// brings together.
pub const fn lines_for_deletion() -> usize
    ensures { result ≡ lines_for_deletion }
{
    FORMED
}

/// No step adds more lines than that, and the first bytes of a text have no more lines than all of it.
#[tactic(auto, using(crate::proofs::RoomLemmas::few_inserted, crate::proofs::RoomLemmas::few_deleted, crate::proofs::RoomLemmas::fewer_at_first))]
pub fn room_for_steps()
    ensures insertion { InsertionAddsFewLines }
    ensures deletion { DeletionAddsFewLines }
    ensures first { FirstBytesHaveFewLines }
{}
