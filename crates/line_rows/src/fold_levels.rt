//! `FoldLevels`: the fold level of each line, and a bound for the numbers of all headers.
ghost use Rattle.std.specs.Prelude.{◌≡◌, ℕ, ◌≤◌, ◌<◌, ◌+◌, ◌^◌, ◌∷◌, [], length, slice_index_or, OnOk, OnErr};
ghost use Rattle.ed_model.specs.Rows.{base_level};
ghost use Rattle.line_index.specs.Edits.{FitLines, fresh_lines};
ghost use Rattle.line_rows.specs.Values.{valued, HasRoomForLines, HasRoomForValue, GrowsForLines, GrowsForValue, with_value, values_after};
ghost use Rattle.vec_room.specs.Reserved.{IsReserved};

use crate::values::LineValues;
use contraction::Levels;
use ed_types::fold_level;
use line_index::LineEdit;
use std::alloc::{AllocError, Global};
use std::marker::Model;

/// The fold level of each line, counted from 0. No header has a smaller number than `least`: it is the least number
/// that a header was given so far, or greater than any number. So a line with at most that number has no parent, and
/// none is searched for.
#[derive(Drop)]
pub(crate) struct FoldLevels {
    values: LineValues<u32>,
    least: u32,
}

impl Model for FoldLevels {
    ghost use Rattle.std.specs.Prelude.{ℕ};
    ghost use Rattle.line_rows.specs.Values.{Valued};
    ghost use Rattle.line_rows.specs.Rows.{AreLevels};

    ghost Value = { Valued ℕ };

    ghost view = { λ l. l.values };

    ghost invariant = { λ l. AreLevels l.values l.least };
}

impl FoldLevels {
    /// Returns the level of one fresh line. Allocates nothing.
    pub(crate) fn new(alloc: Global) -> Self
        ensures { result ≡ valued base_level (base_level ∷ []) 0 0 }
    {
        FoldLevels {
            values: LineValues::new(alloc, fold_level::BASE),
            least: fold_level::NUMBER + 1,
        }
    }

    /// Returns the levels of all lines as values.
    pub(crate) fn values(&self) -> &LineValues<u32>
        ensures { result.now ≡ self.now }
    {
        &self.values
    }

    /// Lends the levels of all lines.
    pub(crate) fn lent(&self) -> Levels<'_>
        ensures levels { result ≡ self.now.values }
        ensures lines { length result ≡ length self.now.values }
    {
        let (first, second) = self.values.stored();
        Levels::from_least(first, second, self.values.count(), self.least)
    }

    /// What is stored fits in.
    pub(crate) fn fits_in(&self)
        ensures { self.now.stored ≤ self.now.capacity }
    {
        self.values.fits_in();
    }

    /// Returns the level of a line.
    pub(crate) fn get(&self, line: usize) -> u32
        requires { line < length self.now.values }
        ensures { result ≡ slice_index_or self.now.values line result }
    {
        self.values.get(line)
    }

    /// Makes room for more lines, like `LineValues::reserve_lines`.
    ///
    /// # Errors
    ///
    /// `AllocError` if the allocation fails. Nothing has changed then.
    #[inline(always)]
    pub(crate) fn reserve_lines(&mut self, count: usize) -> Result<(), AllocError>
        ensures reserved { IsReserved (HasRoomForLines count) result self.old self.new }
        ensures grown { GrowsForLines count self.old self.new }
        ensures err { OnErr result (self.new ≡ self.old) }
    {
        self.values.reserve_lines(count)
    }

    /// Makes room for the level of a line, like `LineValues::reserve_value`.
    ///
    /// # Errors
    ///
    /// `AllocError` if the allocation fails. Nothing has changed then.
    pub(crate) fn reserve_value(&mut self, line: usize) -> Result<(), AllocError>
        ensures reserved { IsReserved (HasRoomForValue line) result self.old self.new }
        ensures grown { GrowsForValue line self.old self.new × OnOk result (self.old.capacity ≤ line → length self.old.values ≤ self.new.capacity) }
        ensures err { OnErr result (self.new ≡ self.old) }
    {
        self.values.reserve_value(line)
    }

    /// Sets the level of a line. There must be room for it.
    pub(crate) fn set(&mut self, line: usize, level: u32)
        requires line { line < length self.old.values }
        requires room { HasRoomForValue line self.old }
        ensures { self.new ≡ with_value self.old line level }
    {
        if level & fold_level::HEADER != 0 {
            self.least = self.least.min(level & fold_level::NUMBER);
        }
        self.values.set(line, level);
    }

    /// Carries the levels of lines through edits, like `LineValues::carry`. The edits add no header.
    pub(crate) fn carry(&mut self, edits: &[LineEdit])
        requires lines { FitLines (length self.old.values) edits.now }
        requires fits { length self.old.values + fresh_lines edits.now < 2 ^ 63 }
        requires room { HasRoomForLines (fresh_lines edits.now) self.old }
        ensures { self.new ≡ values_after edits.now self.old }
    {
        self.values.carry(edits);
    }
}
