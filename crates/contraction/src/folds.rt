//! Folds, by the levels of all lines.

ghost use Rattle.std.specs.Prelude.{◌≡◌, ◌+◌, ◌-◌, ◌≤◌, ◌<◌, ℕ, false, length, slice_index, Some, IfSome, IfNone};
ghost use Rattle.ed_model.specs.Folding.{number_at as number_of, is_header as is_header_at, last_child_at as last_line_at, last_child as last_line, fold_parent as nearest_parent, fold_header as nearest_header};
ghost use Rattle.contraction.specs.Headings.{heads as heads_by, last_heading};

use crate::levels::Levels;
use ed_types::fold_level;

// This many levels are tested together, without a branch for each.
const BLOCK: usize = 32;

/// Returns the number of a line's level, from 0 to 0xFFF.
pub fn number_at(levels: &Levels, line: usize) -> u32
    requires { line < length levels.now }
    ensures { result ≡ number_of levels.now line }
{
    levels.level(line) & fold_level::NUMBER
}

/// Returns whether a line is a fold header.
pub(crate) fn is_header(levels: &Levels, line: usize) -> bool
    requires { line < length levels.now }
    ensures { result ≡ is_header_at levels.now line }
{
    levels.level(line) & fold_level::HEADER != 0
}

/// Returns the line before the next line whose number is at most `number`, or the last line if there is none.
pub fn last_child_at(levels: &Levels, line: usize, number: u32) -> usize
    requires { line < length levels.now }
    ensures last { result ≡ last_line_at levels.now line number }
    ensures within { (line ≤ result) × (result < length levels.now) }
{
    let count = levels.count();
    for next in line + 1..count {
        if number_at(levels, next) <= number {
            return next - 1;
        }
    }
    count - 1
}

/// Returns the last line of the fold that a line heads, or the line itself if it has no children (`SCI_GETLASTCHILD`).
pub fn last_child(levels: &Levels, line: usize) -> usize
    requires { line < length levels.now }
    ensures last { result ≡ last_line levels.now line }
    ensures within { (line ≤ result) × (result < length levels.now) }
{
    last_child_at(levels, line, number_at(levels, line))
}

// Returns whether a level belongs to a header with a smaller number than this one.
#[inline(always)]
fn heads(level: u32, number: u32) -> bool
    ensures { result ≡ heads_by number level }
{
    level & fold_level::HEADER != 0 && level & fold_level::NUMBER < number
}

// Returns whether one of the levels belongs to such a header. It tests all of them, so that the compiler can vectorize
// it.
#[inline(always)]
fn any_heads(levels: &[u32], number: u32) -> bool
    ensures { result ≡ false → (k : ℕ) → k < length levels.now → heads_by number (slice_index levels.now k) ≡ false }
{
    let mut found = false;
    for level in levels {
        found = heads(*level, number) || found;
    }
    found
}

// Skips whole blocks without such a header, from `from` back, and returns the place where these blocks begin.
fn before_empty_blocks(levels: &[u32], from: usize, number: u32) -> usize
    requires { from ≤ length levels.now }
    ensures within { result ≤ from }
    ensures none { (k : ℕ) → result ≤ k → k < from → heads_by number (slice_index levels.now k) ≡ false }
{
    let mut end = from;
    'blocks: while end >= BLOCK && !any_heads(&levels[end - BLOCK..end], number) {
        end -= BLOCK;
    }
    end
}

// Returns the place of the last such header among the levels from `low` up to `high`. Tests them one by one.
fn last_among(levels: &[u32], low: usize, high: usize, number: u32) -> Option<usize>
    requires { (low ≤ high) × (high ≤ length levels.now) }
    ensures found { IfSome result (λ place. (place < high) × (last_heading number levels.now high ≡ Some place)) }
    ensures missing { IfNone result (last_heading number levels.now high ≡ last_heading number levels.now low) }
{
    let mut end = high;
    'seeking: while end > low {
        end -= 1;
        if heads(levels[end], number) {
            return Some(end);
        }
    }
    None
}

// Returns the place of the last such header among all levels. It is usually near, so the last levels are tested one by
// one first.
fn last_heading(levels: &[u32], number: u32) -> Option<usize>
    ensures last { result ≡ last_heading number levels.now (length levels.now) }
    ensures within { IfSome result (λ place. place < length levels.now) }
{
    let near = levels.len().saturating_sub(BLOCK);
    if let Some(place) = last_among(levels, near, levels.len(), number) {
        return Some(place);
    }
    let far = before_empty_blocks(levels, near, number);
    last_among(levels, 0, far, number)
}

/// Returns the nearest header before a line that has a smaller number (`SCI_GETFOLDPARENT`). The line need not be its
/// child.
pub fn fold_parent(levels: &Levels, line: usize) -> Option<usize>
    requires { line < length levels.now }
    ensures parent { result ≡ nearest_parent levels.now line }
    ensures before { IfSome result (λ earlier. earlier < line) }
{
    let number = number_at(levels, line);
    // This holds for most lines without a parent. The search would go back to the first line.
    if number <= levels.least() {
        return None;
    }
    let (before, after) = levels.kept_before(line);
    if let Some(place) = last_heading(after, number) {
        return Some(before.len() + place);
    }
    last_heading(before, number)
}

/// Returns the line itself if it is a header, and otherwise its fold parent.
pub fn fold_header(levels: &Levels, line: usize) -> Option<usize>
    requires { line < length levels.now }
    ensures { result ≡ nearest_header levels.now line }
{
    if is_header(levels, line) {
        return Some(line);
    }
    fold_parent(levels, line)
}
