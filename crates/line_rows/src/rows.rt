//! `LineRows` and its calls.
ghost use Rattle.std.specs.Prelude.{◌≡◌, ◌≢◌, ◌↔◌, IsTrue, ℕ, ◌≤◌, ◌<◌, ◌+◌, ◌-◌, ◌^◌, ◌==◌, ◌∷◌, [], length, OnOk, OnErr};
ghost use Rattle.vec_room.specs.Reserved.{IsReserved};
ghost use Rattle.ed_model.specs.Changes.{without_markers, is_of_number, marker_count};
ghost use Rattle.ed_model.specs.LinePlans.{mask_of};
ghost use Rattle.ed_model.specs.Rows.{base_level, fresh_row};
ghost use Rattle.line_index.specs.Edits.{after_edit, after_edits, FitsLines, FitLines, fresh_by, fresh_lines};
ghost use Rattle.line_rows.specs.Kept.{kept_rows, row_capacity, HasRoomForLines, HasRoomForLevel, HasRoomForState, HasRoomForMarkers, GrowsTo, most_for_lines, most_for_level, most_for_state, most_for_markers, rows_after, row_at, with_level, with_state, with_marker, without_marker_on, levels_of, is_marked, has_handle, first_from, last_up_to};
ghost use Rattle.marker_store.specs.Lines.{HasLineRoom};
ghost use Rattle.line_rows.specs.Rows.{markers_together};

use crate::fold_levels::FoldLevels;
use crate::values::LineValues;
use contraction::Levels;
use line_index::LineEdit;
use marker_store::MarkerStore;
use std::alloc::{AllocError, Global};
use std::marker::Model;

/// The markers, the fold level and the state of each line, counted from 0.
#[derive(Drop)]
pub struct LineRows {
    markers: MarkerStore,
    levels: FoldLevels,
    states: LineValues<i32>,
}

impl Model for LineRows {
    ghost use Rattle.line_rows.specs.Kept.{KeptRows, kept_in, AreParts};

    ghost Value = { KeptRows };

    ghost view = { λ r. kept_in r.markers r.levels r.states };

    ghost invariant = { λ r. AreParts r.markers r.levels r.states };
}

// Carries the markers of lines through one edit.
fn carry_one(markers: &mut MarkerStore, edit: LineEdit)
    requires lines { FitsLines (length markers.old.lines) edit }
    requires fits { length markers.old.lines + fresh_by edit ≤ 2 ^ 62 }
    requires room { HasLineRoom (fresh_by edit) markers.old }
    ensures { markers.new ≡ record markers.old { lines = after_edit markers_together markers.old.lines edit } }
{
    match edit {
        LineEdit::Come { line, count } => markers.shift(line, count),
        LineEdit::Join { line, count } => markers.merge(line, count),
        LineEdit::Restart => markers.restart(),
    }
}

// Carries the markers of lines through edits.
fn carry_markers(markers: &mut MarkerStore, edits: &[LineEdit])
    requires lines { FitLines (length markers.old.lines) edits.now }
    requires fits { length markers.old.lines + fresh_lines edits.now ≤ 2 ^ 62 }
    requires room { HasLineRoom (fresh_lines edits.now) markers.old }
    ensures { markers.new ≡ record markers.old { lines = after_edits markers_together edits.now markers.old.lines } }
{
    for edit in edits {
        carry_one(markers, *edit);
    }
}

impl LineRows {
    /// Returns the row of one fresh line. The next handle is 1. Allocates nothing.
    pub fn new(alloc: Global) -> Self
        ensures { result ≡ kept_rows (fresh_row ∷ []) 1 0 0 (row_capacity 0 0 0 0) }
    {
        LineRows {
            markers: MarkerStore::new(alloc),
            levels: FoldLevels::new(alloc),
            states: LineValues::new(alloc, 0),
        }
    }

    /// Returns the number of lines, which is at least 1.
    #[tactic(auto, using(crate::proofs::RowReads::parts_length))]
    pub fn count(&self) -> usize
        ensures count { result ≡ length self.now.rows }
        ensures within { (0 < length self.now.rows) × (length self.now.rows ≤ 2 ^ 62) }
    {
        self.markers.lines()
    }

    /// What the rows hold fits in.
    #[tactic(auto, using(crate::proofs::RowReads::parts_length, crate::proofs::RowReads::parts_count, crate::proofs::RowReads::rows_length, crate::proofs::RowReads::rows_count))]
    pub fn fits_in(&self)
        ensures { HasRoomForLines 0 self.now × HasRoomForMarkers 0 self.now }
    {
        // A use of each part brings what always holds of it.
        let _ = self.markers.lines();
        let _ = self.markers.markers();
        self.levels.fits_in();
        self.states.fits_in();
    }

    /// Makes room for `count` more lines. Allocates nothing if they fit in, nothing for levels or states as long as
    /// none is stored, and nothing for markers as long as there is no memory for one. What grows has memory for the lines
    /// then, or twice as much as before if that is more.
    ///
    /// # Errors
    ///
    /// `AllocError` if an allocation fails. The rows are then as they were, and there may be memory for more states and
    /// for the markers of more lines.
    #[inline]
    #[tactic(auto, using(crate::proofs::RowReads::parts_length, crate::proofs::RowReads::rows_length))]
    pub fn reserve_lines(&mut self, count: usize) -> Result<(), AllocError>
        ensures reserved { IsReserved (HasRoomForLines count) result self.old self.new }
        ensures grown { GrowsTo (most_for_lines count self.old) self.old self.new }
        ensures err { OnErr result (self.new.capacity.levels ≡ self.old.capacity.levels) }
    {
        self.states.reserve_lines(count)?;
        self.markers.reserve(0, count)?;
        self.levels.reserve_lines(count)
    }

    /// Makes room for the level of a line. Allocates nothing if it fits in, with those of the lines before it. Otherwise
    /// there is memory for the levels of all lines then, or for twice as many as before if that is more. So levels that are
    /// set line after line take one allocation.
    ///
    /// # Errors
    ///
    /// `AllocError` if the allocation fails. Nothing has changed then.
    #[tactic(auto, using(crate::proofs::RowReads::parts_length))]
    pub fn reserve_level(&mut self, line: usize) -> Result<(), AllocError>
        ensures reserved { IsReserved (HasRoomForLevel line) result self.old self.new }
        ensures grown { GrowsTo (most_for_level line self.old) self.old self.new × OnOk result (self.old.capacity.levels ≤ line → length self.old.rows ≤ self.new.capacity.levels) }
        ensures err { OnErr result (self.new ≡ self.old) }
    {
        self.levels.reserve_value(line)
    }

    /// Makes room for the state of a line. Allocates nothing if it fits in, with those of the lines before it. Otherwise
    /// there is memory for the states of all lines then, or for twice as many as before if that is more. So states that are
    /// set line after line take one allocation.
    ///
    /// # Errors
    ///
    /// `AllocError` if the allocation fails. Nothing has changed then.
    #[tactic(auto, using(crate::proofs::RowReads::parts_length))]
    pub fn reserve_state(&mut self, line: usize) -> Result<(), AllocError>
        ensures reserved { IsReserved (HasRoomForState line) result self.old self.new }
        ensures grown { GrowsTo (most_for_state line self.old) self.old self.new × OnOk result (self.old.capacity.states ≤ line → length self.old.rows ≤ self.new.capacity.states) }
        ensures err { OnErr result (self.new ≡ self.old) }
    {
        self.states.reserve_value(line)
    }

    /// Makes room for `count` more markers, on any lines. Allocates nothing if they fit in. What grows has memory for
    /// them then, or twice as much as before if that is more.
    ///
    /// # Errors
    ///
    /// `AllocError` if an allocation fails. Nothing has changed then, except that there may be memory for the markers of
    /// more lines.
    #[tactic(auto, using(crate::proofs::RowReads::parts_length, crate::proofs::RowReads::rows_count))]
    pub fn reserve_markers(&mut self, count: usize) -> Result<(), AllocError>
        ensures reserved { IsReserved (HasRoomForMarkers count) result self.old self.new }
        ensures grown { GrowsTo (most_for_markers count self.old) self.old self.new }
        ensures err { OnErr result (self.new.capacity.markers ≡ self.old.capacity.markers) }
    {
        self.markers.reserve(count, 0)
    }

    /// Carries the rows through edits of lines. There must be room for the fresh lines.
    #[inline(always)]
    #[tactic(auto, using(crate::proofs::RowReads::parts_length, crate::proofs::Carried::fit_markers, crate::proofs::Carried::room_for_markers, crate::proofs::Carried::carried_view))]
    pub fn carry(&mut self, edits: &[LineEdit])
        requires lines { FitLines (length self.old.rows) edits.now }
        requires fits { length self.old.rows + fresh_lines edits.now ≤ 2 ^ 62 }
        requires room { HasRoomForLines (fresh_lines edits.now) self.old }
        ensures rows { self.new ≡ rows_after edits.now self.old }
        ensures room { (count : ℕ) → HasRoomForLines (fresh_lines edits.now + count) self.old → HasRoomForLines count self.new }
    {
        if edits.is_empty() {
            return;
        }
        carry_markers(&mut self.markers, edits);
        self.levels.carry(edits);
        self.states.carry(edits);
    }

    /// Lends the levels of all lines as values.
    #[tactic(auto, using(crate::proofs::RowReads::parts_levels))]
    pub fn levels(&self) -> &LineValues<u32>
        ensures values { result.now.values ≡ levels_of self.now.rows }
        ensures default { result.now.default ≡ base_level }
    {
        self.levels.values()
    }

    /// Lends the levels of all lines for look-ups of folds. For most lines without a fold parent, such a look-up needs
    /// no search.
    #[tactic(auto, using(crate::proofs::RowReads::parts_levels, crate::proofs::RowReads::parts_length))]
    pub fn fold_levels(&self) -> Levels<'_>
        ensures levels { result ≡ levels_of self.now.rows }
        ensures lines { length result ≡ length self.now.rows }
    {
        self.levels.lent()
    }

    /// Returns the fold level of a line (`SCI_GETFOLDLEVEL`).
    #[tactic(auto, using(crate::proofs::RowReads::parts_length, crate::proofs::RowReads::parts_level))]
    pub fn level(&self, line: usize) -> u32
        requires { line < length self.now.rows }
        ensures { result ≡ (row_at self.now.rows line).level }
    {
        self.levels.get(line)
    }

    /// Returns the state of a line (`SCI_GETLINESTATE`).
    #[tactic(auto, using(crate::proofs::RowReads::parts_length, crate::proofs::RowReads::parts_state))]
    pub fn state(&self, line: usize) -> i32
        requires { line < length self.now.rows }
        ensures { result ≡ (row_at self.now.rows line).state }
    {
        self.states.get(line)
    }

    /// Sets the fold level of a line, and returns the old one (`SCI_SETFOLDLEVEL`). There must be room for it.
    #[tactic(auto, using(crate::proofs::RowReads::parts_length, crate::proofs::RowReads::parts_level, crate::proofs::RowReads::level_changed))]
    pub fn set_level(&mut self, line: usize, level: u32) -> u32
        requires line { line < length self.old.rows }
        requires room { HasRoomForLevel line self.old }
        ensures before { result ≡ (row_at self.old.rows line).level }
        ensures rows { self.new ≡ with_level self.old line level }
    {
        let before = self.levels.get(line);
        self.levels.set(line, level);
        before
    }

    /// Sets the state of a line, and returns the old one (`SCI_SETLINESTATE`). There must be room for it.
    #[tactic(auto, using(crate::proofs::RowReads::parts_length, crate::proofs::RowReads::parts_state, crate::proofs::RowReads::state_changed))]
    pub fn set_state(&mut self, line: usize, state: i32) -> i32
        requires line { line < length self.old.rows }
        requires room { HasRoomForState line self.old }
        ensures before { result ≡ (row_at self.old.rows line).state }
        ensures rows { self.new ≡ with_state self.old line state }
    {
        let before = self.states.get(line);
        self.states.set(line, state);
        before
    }

    /// Returns the handle that the next marker gets.
    pub fn next_handle(&self) -> u32
        ensures { result ≡ self.now.next_handle }
    {
        self.markers.next_handle()
    }

    /// Adds a marker with `number` behind those of `line`, and returns its handle (`SCI_MARKERADD`). There must be room
    /// for it.
    #[tactic(auto, using(crate::proofs::RowReads::parts_length, crate::proofs::RowReads::parts_count, crate::proofs::RowReads::marker_added))]
    pub fn add_reserved(&mut self, line: usize, number: u32) -> u32
        requires line { line < length self.old.rows }
        requires number { number < 32 }
        requires room { HasRoomForMarkers 1 self.old }
        requires handles { self.old.next_handle < 2 ^ 32 - 1 }
        ensures handle { result ≡ self.old.next_handle }
        ensures rows { self.new ≡ with_marker self.old line number }
        ensures room { (count : ℕ) → HasRoomForMarkers (1 + count) self.old → HasRoomForMarkers count self.new }
    {
        self.markers.add_reserved(line, number)
    }

    /// Deletes the first marker of `line` with `number`, or all of its markers if `number` is `None`
    /// (`SCI_MARKERDELETE`). Returns whether there was one.
    #[tactic(auto, using(crate::proofs::RowReads::parts_length, crate::proofs::RowReads::marker_deleted, crate::proofs::RowReads::same_parts))]
    pub fn delete(&mut self, line: usize, number: Option<u32>) -> bool
        requires { line < length self.old.rows }
        ensures went { IsTrue result ↔ (marker_count self.new.rows ≢ marker_count self.old.rows) }
        ensures rows { self.new ≡ record self.old { rows = without_marker_on line number self.old.rows } }
    {
        self.markers.delete(line, number)
    }

    /// Deletes all markers with `number`, or all markers if it is `None` (`SCI_MARKERDELETEALL`). Returns whether there
    /// was one.
    #[tactic(auto, using(crate::proofs::RowReads::markers_dropped, crate::proofs::RowReads::same_parts))]
    pub fn delete_all(&mut self, number: Option<u32>) -> bool
        ensures went { IsTrue result ↔ (marker_count self.new.rows ≢ marker_count self.old.rows) }
        ensures rows { self.new ≡ record self.old { rows = without_markers (is_of_number number) self.old.rows } }
    {
        self.markers.delete_all(number)
    }

    /// Deletes the marker with `handle`, and returns its line, or `None` if no marker has it
    /// (`SCI_MARKERDELETEHANDLE`).
    #[tactic(auto, using(crate::proofs::RowReads::markers_dropped, crate::proofs::RowReads::same_parts))]
    pub fn delete_handle(&mut self, handle: u32) -> Option<usize>
        ensures line { result ≡ first_from (has_handle handle self.old.rows) self.old.rows 0 }
        ensures rows { self.new ≡ record self.old { rows = without_markers (λ m. m.handle == handle) self.old.rows } }
    {
        self.markers.delete_handle(handle)
    }

    /// Returns the line of the marker with `handle`, or `None` if no marker has it (`SCI_MARKERLINEFROMHANDLE`).
    pub fn line_of_handle(&self, handle: u32) -> Option<usize>
        ensures { result ≡ first_from (has_handle handle self.now.rows) self.now.rows 0 }
    {
        self.markers.line_of_handle(handle)
    }

    /// Returns the mask of a line: the bit of each number that a marker of the line has (`SCI_MARKERGET`).
    #[tactic(auto, using(crate::proofs::RowReads::parts_length, crate::proofs::RowReads::parts_markers))]
    pub fn mask(&self, line: usize) -> u32
        requires { line < length self.now.rows }
        ensures { result ≡ mask_of (row_at self.now.rows line).markers }
    {
        self.markers.mask(line)
    }

    /// Returns the first line, from `from` on, whose mask has a bit in common with `mask` (`SCI_MARKERNEXT`).
    pub fn next(&self, from: usize, mask: u32) -> Option<usize>
        ensures { result ≡ first_from (is_marked mask self.now.rows) self.now.rows from }
    {
        self.markers.next(from, mask)
    }

    /// Returns the last line, up to and including `from`, whose mask has a bit in common with `mask`
    /// (`SCI_MARKERPREVIOUS`).
    pub fn previous(&self, from: usize, mask: u32) -> Option<usize>
        ensures { result ≡ last_up_to (is_marked mask self.now.rows) self.now.rows from }
    {
        self.markers.previous(from, mask)
    }
}
