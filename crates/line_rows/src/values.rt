//! `LineValues`: a value for each line, such as a fold level or a line state.
ghost use Rattle.std.specs.Prelude.{◌≡◌, ℕ, ◌≤◌, ◌<◌, ◌+◌, ◌-◌, ◌^◌, ◌∷◌, [], length, slice_set, slice_index_or, OnOk, OnErr};
ghost use Rattle.line_index.specs.Edits.{FitsLines, FitLines, fresh_by, fresh_lines};
ghost use Rattle.line_index.specs.declared.edit.LineEdit.TheVariants.{Come, Join};
ghost use Rattle.split_vector.specs.Split.{ItemsFit};
ghost use Rattle.vec_room.specs.Reserved.{IsReserved};
ghost use Rattle.line_rows.specs.Values.{valued, padded, AreInHalves, HasItems, HaveFresh, AreJoined, HasRoomForLines, HasRoomForValue, GrowsForLines, GrowsForValue, with_value, stored_after_edit, values_after};

use line_index::LineEdit;
use split_vector::SplitVector;
use std::alloc::{AllocError, Global};
use std::marker::Model;

/// A value for each line of a text, counted from 0. Values are stored for the first lines only, up to the last one that
/// was ever set.
#[derive(Drop)]
pub struct LineValues<T: Copy> {
    stored: SplitVector<T>,
    // The value of all lines behind the stored ones.
    default: T,
    lines: usize,
}

impl<T: Copy> Model for LineValues<T> {
    ghost use Rattle.std.specs.Prelude.{◌≤◌, length};
    ghost use Rattle.line_rows.specs.Values.{Valued, valued_code, values_in};

    ghost Value = { Valued T };

    ghost coded = { valued_code T.code };

    ghost view = { λ v. values_in v.stored v.default v.lines };

    ghost invariant = { λ v. length v.stored.items ≤ v.lines };
}

// Appends defaults up to `len` values, if there are fewer. Out of line, since values are usually set line after line.
#[inline(never)]
fn pad<T: Copy>(stored: &mut SplitVector<T>, default: T, len: usize)
    requires { len ≤ stored.old.capacity }
    ensures { HasItems (padded default len stored.old.items) stored.old stored.new }
{
    let before = stored.len();
    stored.insert_fill_reserved(before, len.saturating_sub(before), default);
}

// Appends the value of a line to the stored ones, with defaults between.
fn put_behind<T: Copy>(stored: &mut SplitVector<T>, default: T, line: usize, value: T)
    requires behind { length stored.old.items ≤ line }
    requires room { line < stored.old.capacity }
    ensures { HasItems (slice_set (padded default (line + 1) stored.old.items) line value) stored.old stored.new }
{
    if line > stored.len() {
        pad(stored, default, line);
    }
    stored.insert_reserved(line, value);
}

// Inserts `count` fresh lines before a line.
fn put_in<T: Copy>(stored: &mut SplitVector<T>, default: T, line: usize, count: usize)
    requires { 0 < length stored.old.items → ItemsFit count stored.old }
    ensures values { HaveFresh default stored.old.items stored.new.items line count }
    ensures few { length stored.new.items ≤ length stored.old.items + count }
    ensures stored { length stored.new.items ≡ stored_after_edit (length stored.old.items) (Come line count) }
    ensures capacity { stored.new.capacity ≡ stored.old.capacity }
{
    if stored.len() <= line {
        return;
    }
    stored.insert_fill_reserved(line, count, default);
}

// Deletes the `count` lines behind a line.
fn take_behind<T: Copy>(stored: &mut SplitVector<T>, line: usize, count: usize)
    ensures values { AreJoined stored.old.items stored.new.items line count }
    ensures few { (lines : ℕ) → length stored.old.items ≤ lines → line + count < lines → length stored.new.items ≤ lines - count }
    ensures stored { length stored.new.items ≡ stored_after_edit (length stored.old.items) (Join line count) }
    ensures capacity { stored.new.capacity ≡ stored.old.capacity }
{
    let before = stored.len();
    if before <= line || before - line <= 1 {
        return;
    }
    let behind = before - line - 1;
    stored.delete(line + 1, count.min(behind));
}

impl<T: Copy> LineValues<T> {
    /// Returns the value of one line, which is the default. Allocates nothing.
    pub fn new(alloc: Global, default: T) -> Self
        ensures { result ≡ valued default (default ∷ []) 0 0 }
    {
        LineValues {
            stored: SplitVector::new(alloc),
            default,
            lines: 1,
        }
    }

    /// Returns the number of lines.
    pub fn count(&self) -> usize
        ensures { result ≡ length self.now.values }
    {
        self.lines
    }

    /// What is stored fits in.
    pub(crate) fn fits_in(&self)
        ensures { self.now.stored ≤ self.now.capacity }
    {
        // A use of the field brings what always holds of it.
        let _ = self.stored.len();
    }

    /// Returns the value of a line.
    pub fn get(&self, line: usize) -> T
        requires { line < length self.now.values }
        ensures { result ≡ slice_index_or self.now.values line result }
    {
        if line < self.stored.len() {
            self.stored.get(line)
        } else {
            self.default
        }
    }

    /// Lends the stored values, those of the first lines, in two halves. All lines behind them have the default.
    pub fn stored(&self) -> (&[T], &[T])
        ensures few { length result.0.now + length result.1.now ≤ length self.now.values }
        ensures stored { length result.0.now + length result.1.now ≡ self.now.stored }
        ensures values { AreInHalves self.now result.0.now result.1.now }
    {
        self.stored.halves()
    }

    /// Makes room for the values of `count` more lines. Allocates nothing if they fit in, or as long as no value is
    /// stored. Otherwise there is memory for the stored values and `count` more then, or for twice as many values as
    /// before if that is more.
    ///
    /// # Errors
    ///
    /// `AllocError` if the allocation fails. Nothing has changed then.
    #[inline(always)]
    pub fn reserve_lines(&mut self, count: usize) -> Result<(), AllocError>
        ensures reserved { IsReserved (HasRoomForLines count) result self.old self.new }
        ensures grown { GrowsForLines count self.old self.new }
        ensures err { OnErr result (self.new ≡ self.old) }
    {
        if self.stored.is_empty() {
            return Ok(());
        }
        self.stored.reserve(count)
    }

    /// Makes room for the value of a line, and for those of the lines before it. Allocates nothing if they fit in.
    /// Otherwise there is memory for the values of all lines then, or for twice as many as before if that is more. So
    /// values that are set line after line take one allocation.
    ///
    /// # Errors
    ///
    /// `AllocError` if the allocation fails. Nothing has changed then.
    pub fn reserve_value(&mut self, line: usize) -> Result<(), AllocError>
        ensures reserved { IsReserved (HasRoomForValue line) result self.old self.new }
        ensures grown { GrowsForValue line self.old self.new × OnOk result (self.old.capacity ≤ line → length self.old.values ≤ self.new.capacity) }
        ensures err { OnErr result (self.new ≡ self.old) }
    {
        if line < self.stored.capacity() {
            return Ok(());
        }
        let stored = self.stored.len();
        self.stored
            .reserve(line.saturating_add(1).max(self.lines) - stored)
    }

    /// Sets the value of a line. There must be room for it.
    pub fn set(&mut self, line: usize, value: T)
        requires line { line < length self.old.values }
        requires room { HasRoomForValue line self.old }
        ensures { self.new ≡ with_value self.old line value }
    {
        if line < self.stored.len() {
            self.stored.set(line, value);
        } else {
            put_behind(&mut self.stored, self.default, line, value);
        }
    }

    fn carry_one(&mut self, edit: LineEdit)
        requires lines { FitsLines (length self.old.values) edit }
        requires fits { length self.old.values + fresh_by edit < 2 ^ 63 }
        requires room { HasRoomForLines (fresh_by edit) self.old }
        ensures { self.new ≡ values_after (edit ∷ []) self.old }
    {
        match edit {
            LineEdit::Come { line, count } => {
                put_in(&mut self.stored, self.default, line, count);
                self.lines += count;
            }
            LineEdit::Join { line, count } => {
                take_behind(&mut self.stored, line, count);
                self.lines -= count;
            }
            LineEdit::Restart => {
                let stored = self.stored.len();
                self.stored.delete(0, stored);
                self.lines = 1;
            }
        }
    }

    /// Carries the values of lines through edits: fresh lines get the default, and joined lines keep the value of the
    /// first. There must be room for the fresh lines.
    pub fn carry(&mut self, edits: &[LineEdit])
        requires lines { FitLines (length self.old.values) edits.now }
        requires fits { length self.old.values + fresh_lines edits.now < 2 ^ 63 }
        requires room { HasRoomForLines (fresh_lines edits.now) self.old }
        ensures { self.new ≡ values_after edits.now self.old }
    {
        for edit in edits {
            self.carry_one(*edit);
        }
    }
}
