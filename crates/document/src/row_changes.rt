//! Changes of the rows of a document's lines: markers, fold levels and line states. Lines are counted from 0.

ghost use Rattle.std.specs.Prelude.{◌≡◌, ◌≤◌, ◌<◌, ◌+◌, ◌-◌, ◌^◌, [], length, OnErr};
ghost use Rattle.ed_model.specs.declared.plan.DocumentChange.TheVariants.{AddMarker, AddMarkers, DeleteMarker, DeleteMarkers, DeleteHandle};
ghost use Rattle.ed_model.specs.Changes.{document_row};
ghost use Rattle.ed_model.specs.LinePlans.{numbers_in};
ghost use Rattle.ed_model.specs.Session.{lines_in};
ghost use Rattle.vec_room.specs.Reserved.{IsReserved};
ghost use Rattle.line_rows.specs.Kept.{HasRoomForMarkers, most_for_level, most_for_markers, most_for_state};
ghost use Rattle.document.specs.Kept.{HasLevelRoom, HasMarkerRoom, HasStateRoom, rows_in};
ghost use Rattle.document.specs.Memory.{ReservesRows};
ghost use Rattle.document.specs.Changes.{after_change, line_it_left, markers_changed, numbers_of, with_level, with_more_markers, with_state};

use crate::kept::Document;
use line_rows::LineRows;
use std::alloc::AllocError;

/// Returns how many bits of the mask are set, which is the number of markers that it adds.
#[tactic(auto, using(crate::proofs::Masks::ones_are_numbers))]
pub fn count_numbers(mask: u32) -> usize
    ensures count { result ≡ length (numbers_in mask) }
    ensures few { result ≤ 32 }
{
    mask.count_ones() as usize
}

// Adds a marker for each bit of a mask behind those of a line.
fn add_markers(rows: &mut LineRows, line: usize, mask: u32)
    requires line { line < length rows.old.rows }
    requires room { HasRoomForMarkers (length (numbers_of mask)) rows.old }
    requires handles { rows.old.next_handle + length (numbers_of mask) < 2 ^ 32 }
    ensures { rows.new ≡ with_more_markers line (numbers_of mask) rows.old }
{
    'adding: for number in 0..32u32 {
        if (mask >> number) % 2 == 1 {
            rows.add_reserved(line, number);
        }
    }
}

impl Document {
    /// Makes room for `count` more markers.
    ///
    /// # Errors
    ///
    /// `AllocError` if an allocation fails. Nothing has changed then, except that the markers of more lines may fit in.
    pub fn reserve_markers(&mut self, count: usize) -> Result<(), AllocError>
        ensures reserved { IsReserved (HasMarkerRoom count) result self.old self.new }
        ensures grown { ReservesRows (most_for_markers count (rows_in self.old)) self.old self.new }
    {
        self.parts.rows.reserve_markers(count)
    }

    /// Adds a marker with `number` behind those of `line`, and returns its handle (`SCI_MARKERADD`). There must be room
    /// for it.
    pub fn add_marker_reserved(&mut self, line: usize, number: u32) -> u32
        requires line { line < lines_in self.old.document }
        requires number { number < 32 }
        requires room { HasMarkerRoom 1 self.old }
        requires handles { self.old.document.next_handle < 2 ^ 32 - 1 }
        ensures handle { result ≡ self.old.document.next_handle }
        ensures document { self.new ≡ after_change [] (AddMarker line number) self.old }
    {
        self.parts.rows.add_reserved(line, number)
    }

    /// Adds a marker for each bit of `mask` behind those of `line`, the lowest bit first (`SCI_MARKERADDSET`). There
    /// must be room for them.
    pub fn add_markers_reserved(&mut self, line: usize, mask: u32)
        requires line { line < lines_in self.old.document }
        requires room { HasMarkerRoom (length (numbers_in mask)) self.old }
        requires handles { self.old.document.next_handle + length (numbers_in mask) < 2 ^ 32 }
        ensures { self.new ≡ after_change [] (AddMarkers line mask) self.old }
    {
        add_markers(&mut self.parts.rows, line, mask);
    }

    /// Deletes the first marker of `line` with `number`, or all of its markers if `number` is `None`
    /// (`SCI_MARKERDELETE`). Returns whether there was one.
    pub fn delete_marker(&mut self, line: usize, number: Option<u32>) -> bool
        requires { line < lines_in self.old.document }
        ensures went { result ≡ markers_changed self.old.document.rows self.new.document.rows }
        ensures document { self.new ≡ after_change [] (DeleteMarker line number) self.old }
    {
        self.parts.rows.delete(line, number)
    }

    /// Deletes all markers with `number`, or all markers if it is `None` (`SCI_MARKERDELETEALL`). Returns whether there
    /// was one.
    pub fn delete_markers(&mut self, number: Option<u32>) -> bool
        ensures went { result ≡ markers_changed self.old.document.rows self.new.document.rows }
        ensures document { self.new ≡ after_change [] (DeleteMarkers number) self.old }
    {
        self.parts.rows.delete_all(number)
    }

    /// Deletes the marker with `handle`, and returns its line, or `None` if no marker has it
    /// (`SCI_MARKERDELETEHANDLE`).
    pub fn delete_handle(&mut self, handle: u32) -> Option<usize>
        ensures line { result ≡ line_it_left handle self.old.document.rows self.new.document.rows }
        ensures document { self.new ≡ after_change [] (DeleteHandle handle) self.old }
    {
        self.parts.rows.delete_handle(handle)
    }

    /// Makes room for the fold level of a line, and of those before it.
    ///
    /// # Errors
    ///
    /// `AllocError` if the allocation fails. The document is then unchanged.
    pub fn reserve_level(&mut self, line: usize) -> Result<(), AllocError>
        ensures reserved { IsReserved (HasLevelRoom line) result self.old self.new }
        ensures grown { ReservesRows (most_for_level line (rows_in self.old)) self.old self.new }
        ensures err { OnErr result (self.new ≡ self.old) }
    {
        self.parts.rows.reserve_level(line)
    }

    /// Sets the fold level of a line, and returns the old one (`SCI_SETFOLDLEVEL`). There must be room for it.
    pub fn set_level(&mut self, line: usize, level: u32) -> u32
        requires line { line < lines_in self.old.document }
        requires room { HasLevelRoom line self.old }
        ensures before { result ≡ (document_row self.old.document line).level }
        ensures document { self.new ≡ with_level line level self.old }
    {
        self.parts.rows.set_level(line, level)
    }

    /// Makes room for the state of a line, and of those before it.
    ///
    /// # Errors
    ///
    /// `AllocError` if the allocation fails. The document is then unchanged.
    pub fn reserve_state(&mut self, line: usize) -> Result<(), AllocError>
        ensures reserved { IsReserved (HasStateRoom line) result self.old self.new }
        ensures grown { ReservesRows (most_for_state line (rows_in self.old)) self.old self.new }
        ensures err { OnErr result (self.new ≡ self.old) }
    {
        self.parts.rows.reserve_state(line)
    }

    /// Sets the state of a line, and returns the old one (`SCI_SETLINESTATE`). There must be room for it.
    pub fn set_state(&mut self, line: usize, state: i32) -> i32
        requires line { line < lines_in self.old.document }
        requires room { HasStateRoom line self.old }
        ensures before { result ≡ (document_row self.old.document line).state }
        ensures document { self.new ≡ with_state line state self.old }
    {
        self.parts.rows.set_state(line, state)
    }
}
