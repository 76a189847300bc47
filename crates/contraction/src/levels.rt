//! The fold levels of all lines, as they are lent.

ghost use Rattle.ed_model.specs.Rows.{base_level};
ghost use Rattle.std.specs.Prelude.{◌≡◌, ◌+◌, ◌^◌, ◌≤◌, ◌<◌, ℕ, length, slice_index};
ghost use Rattle.contraction.specs.Headings.{HeadFrom};
ghost use Rattle.contraction.specs.Levels.{all_levels};

use ed_types::fold_level;
use std::marker::Model;

/// The fold levels of all lines of a document: two slices for the first lines, and the base level for all lines behind
/// them.
#[derive(Drop)]
pub struct Levels<'a> {
    before: &'a [u32],
    after: &'a [u32],
    count: usize,
    // A bound: no header has a smaller number.
    least: u32,
}

impl<'a> Model for Levels<'a> {
    ghost use Rattle.std.specs.Prelude.{List, ℕ, ◌+◌, ◌≤◌, length};

    ghost Value = { List ℕ };

    ghost use Rattle.contraction.specs.Headings.{HeadFrom};
    ghost use Rattle.contraction.specs.Levels.{all_levels};

    ghost view = { λ levels. all_levels levels.before.now levels.after.now levels.count };

    ghost invariant = { λ levels. record {
      within : length levels.before.now + length levels.after.now ≤ levels.count;
      least : HeadFrom levels.least (all_levels levels.before.now levels.after.now levels.count);
    } };
}

impl<'a> Levels<'a> {
    /// Returns the levels of `count` lines. The first lines have those of the two slices, and the others the base
    /// level.
    pub fn new(before: &'a [u32], after: &'a [u32], count: usize) -> Self
        requires { length before.now + length after.now ≤ count }
        ensures levels { result ≡ all_levels before.now after.now count }
        ensures lines { length result ≡ count }
    {
        Levels::from_least(before, after, count, 0)
    }

    /// Like `new`, for levels among which no header has a smaller number than `least`. A line whose number is at most
    /// `least` has no parent then, and none is searched for.
    pub fn from_least(before: &'a [u32], after: &'a [u32], count: usize, least: u32) -> Self
        requires within { length before.now + length after.now ≤ count }
        requires least { HeadFrom least (all_levels before.now after.now count) }
        ensures levels { result ≡ all_levels before.now after.now count }
        ensures lines { length result ≡ count }
    {
        Levels {
            before,
            after,
            count,
            least,
        }
    }

    /// Returns a number that is at most the number of each header.
    pub(crate) fn least(&self) -> u32
        ensures { HeadFrom result self.now }
    {
        self.least
    }

    /// Returns the number of lines.
    pub fn count(&self) -> usize
        ensures { result ≡ length self.now }
    {
        self.count
    }

    /// A law: the number of lines is a `usize`. Its body asks for that number, whose type says so.
    #[inline(always)]
    pub(crate) fn lines_fit(&self)
        ensures { length self.now < 2 ^ 64 }
    {
        let _ = self.count();
    }

    /// Returns the level of a line.
    pub fn level(&self, line: usize) -> u32
        requires { line < length self.now }
        ensures { result ≡ slice_index self.now line }
    {
        let first = self.before.len();
        if line < first {
            return self.before[line];
        }
        if line - first < self.after.len() {
            return self.after[line - first];
        }
        fold_level::BASE
    }

    /// Returns the levels of the lines before `line`, as far as they are stored: those of the first lines, and those of
    /// the lines behind these. All lines behind both have the base level.
    pub(crate) fn kept_before(&self, line: usize) -> (&[u32], &[u32])
        requires { line < length self.now }
        ensures within { length result.0.now + length result.1.now ≤ line }
        ensures first { (k : ℕ) → k < length result.0.now → slice_index self.now k ≡ slice_index result.0.now k }
        ensures others { (k : ℕ) → k < length result.1.now → slice_index self.now (length result.0.now + k) ≡ slice_index result.1.now k }
        ensures base { (k : ℕ) → length result.0.now + length result.1.now ≤ k → k < line → slice_index self.now k ≡ base_level }
    {
        let first = line.min(self.before.len());
        let others = (line - first).min(self.after.len());
        (&self.before[..first], &self.after[..others])
    }
}
