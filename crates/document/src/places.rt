//! Line starts and indicators of a text whose places are stored in 32 bits, or in 64 if the text may be large.

ghost use Rattle.std.specs.Prelude.{◌≡◌, ℕ, pos, ◌<◌, ◌≤◌, ◌+◌, ◌*◌, ◌^◌, ◌++◌, [], length, replicate, slice_index};
ghost use Rattle.std.specs.Prelude.{IfOk, IsOk, vec_len, vec_capacity};
ghost use Rattle.ed_model.specs.Lines.{line_count, line_of, end_of_line};
ghost use Rattle.std.specs.List.{AllByRecursion};
ghost use Rattle.ed_model.specs.Steps.{Insert};
ghost use Rattle.ed_model.specs.Text.{bytes_of};
ghost use Rattle.ed_model.specs.TextPlans.{at_place};
ghost use Rattle.line_index.specs.Index.{IsIndexOf, MoreLinesFit};
ghost use Rattle.line_index.specs.Settings.{edits_of_setting};
ghost use Rattle.vec_room.specs.Reserved.{IsReserved};
ghost use Rattle.decorations.specs.Decorated.{HasRoomForFill, HasRoomForInsertions, IsCapacityForFill, IsCapacityForRuns, WereFilledFrom, decorated, filled_range, mask_of, no_capacity, run_about, values_of};
ghost use Rattle.document.specs.Kept.{bound_of};
ghost use Rattle.document.specs.Parts.{CanPutIn, CanTakeOut, WereEditedBy, WereMarked};
ghost use Rattle.document.specs.Places.{AreFilled, ChangeCapacity, GrowsLines, PlacesOf};
ghost use Rattle.document.specs.TextSteps.{deletion_of};

use crate::pieces::{put_in, take_out};
use cell_buffer::Cells;
use decorations::Decorations;
use ed_model::LineEndTypes;
use line_index::{LineChange, LineEdit, LineIndex};
use partitioning::{Place, Probes};
use std::alloc::{AllocError, Global};
use std::marker::Model;

/// The line starts and the indicators of a text, in places of one width.
#[derive(Drop)]
pub(crate) struct PlacesIn<P: Place> {
    pub(crate) lines: LineIndex<P>,
    pub(crate) indicators: Decorations<P>,
}

/// The same by the width of places.
#[derive(Drop)]
pub(crate) enum PlacesByWidth {
    Small(PlacesIn<u32>),
    Large(PlacesIn<u64>),
}

// The same call for places of either width.
macro_rules! of_either_width {
    ($kept:expr, $places:ident => $answer:expr) => {
        match $kept {
            PlacesByWidth::Small($places) => $answer,
            PlacesByWidth::Large($places) => $answer,
        }
    };
}

/// All places that a document keeps: where its lines start, and its indicators.
#[derive(Drop)]
pub struct Places {
    pub(crate) kept: PlacesByWidth,
}

impl Model for Places {
    ghost use Rattle.document.specs.Places.{PlacesOf, places_by_width};

    ghost Value = { PlacesOf };

    ghost view = { λ p. places_by_width p.kept };
}

impl<P: Place> PlacesIn<P> {
    // Returns those of the empty text. CR LF, CR and LF end lines.
    fn new(alloc: Global) -> Result<Self, AllocError>
        ensures lines { IfOk result (λ p. (p.lines.types ≡ LineEndTypes.Default) × IsIndexOf [] p.lines × (p.lines.capacity ≡ 1)) }
        ensures indicators { IfOk result (λ p. p.indicators ≡ decorated 0 (replicate 32 []) no_capacity) }
    {
        Ok(PlacesIn {
            lines: LineIndex::new(alloc, LineEndTypes::Default)?,
            indicators: Decorations::new(alloc),
        })
    }
}

impl Places {
    /// Returns the places of the empty text, which has one line. CR LF, CR and LF end lines. `is_large` selects places
    /// of 64 bits. Allocates memory for the start of the line.
    ///
    /// # Errors
    ///
    /// `AllocError` if the allocation fails.
    pub(crate) fn new(alloc: Global, is_large: bool) -> Result<Self, AllocError>
        ensures lines { IfOk result (λ p. (p.index.types ≡ LineEndTypes.Default) × IsIndexOf [] p.index × (p.index.capacity ≡ 1)) }
        ensures indicators { IfOk result (λ p. p.decorated ≡ decorated 0 (replicate 32 []) no_capacity) }
        ensures width { IfOk result (λ p. p.is_large ≡ is_large) }
    {
        let kept = if is_large {
            PlacesByWidth::Large(PlacesIn::new(alloc)?)
        } else {
            PlacesByWidth::Small(PlacesIn::new(alloc)?)
        };
        Ok(Places { kept })
    }

    /// Returns which line ends count.
    pub(crate) fn types(&self) -> LineEndTypes
        ensures { result ≡ self.now.index.types }
    {
        of_either_width!(&self.kept, places => places.lines.types())
    }

    /// Returns the number of lines, which is at least 1.
    pub(crate) fn line_count(&self) -> usize
        ensures count { result ≡ length self.now.index.starts }
        ensures some { 0 < length self.now.index.starts }
        ensures fits { (length self.now.index.starts ≤ self.now.index.capacity) × (self.now.index.capacity < 2 ^ 63) }
    {
        of_either_width!(&self.kept, places => places.lines.count())
    }

    /// Returns where the line starts, in bytes from 0. Lines are counted from 0.
    pub(crate) fn line_start(&self, line: usize) -> usize
        requires { line < length self.now.index.starts }
        ensures start { result ≡ slice_index self.now.index.starts line }
        ensures within { result ≤ self.now.index.length }
    {
        of_either_width!(&self.kept, places => places.lines.start(line))
    }

    /// Returns where the line end of `line` begins, in bytes from 0, or for the last line the end of the text. `before`
    /// and `after` are the halves of the text. At most two of their bytes are read.
    pub(crate) fn line_end(&self, line: usize, before: &[u8], after: &[u8]) -> usize
        requires line { line < length self.now.index.starts }
        requires text { IsIndexOf (before.now ++ after.now) self.now.index }
        ensures { result ≡ end_of_line self.now.index.types (before.now ++ after.now) line }
    {
        of_either_width!(&self.kept, places => places.lines.end(line, before, after))
    }

    /// Returns the line that holds `place`: the last one that starts at `place` or before it. For a place past the end
    /// this is the last of all. Counts each start that it reads in `probes`.
    pub(crate) fn line_of(&self, place: usize, probes: &mut Probes) -> usize
        ensures line { result ≡ line_of self.now.index.starts place }
        ensures within { result < length self.now.index.starts }
    {
        of_either_width!(&self.kept, places => places.lines.line_of(place, probes))
    }

    /// Makes room for `count` more lines.
    ///
    /// # Errors
    ///
    /// `AllocError` if the allocation fails. Nothing has changed then.
    #[inline(always)]
    pub(crate) fn reserve_lines(&mut self, count: usize) -> Result<(), AllocError>
        ensures reserved { IsReserved (λ (p : PlacesOf). MoreLinesFit count p.index) result self.old self.new }
        ensures grown { GrowsLines count self.old self.new }
    {
        of_either_width!(&mut self.kept, places => places.lines.reserve(count))
    }

    /// Like `line_index::LineIndex::edits_for_types`.
    pub(crate) fn edits_for_types(
        &self,
        alloc: Global,
        types: LineEndTypes,
        before: &[u8],
        after: &[u8],
    ) -> Result<Vec<LineEdit>, AllocError>
        requires text { IsIndexOf (before.now ++ after.now) self.now.index }
        requires short { self.now.index.length < 2 ^ 63 }
        ensures edits { IfOk result (λ edits. edits.items ≡ edits_of_setting self.now.index.types types (before.now ++ after.now)) }
        ensures free { edits_of_setting self.now.index.types types (before.now ++ after.now) ≡ [] → IsOk result }
        ensures at_most { IfOk result (λ edits. vec_capacity edits ≤ 2 * vec_len edits) }
    {
        of_either_width!(&self.kept, places => places.lines.edits_for_types(alloc, types, before, after))
    }

    /// Like `line_index::LineIndex::set_types`.
    pub(crate) fn set_types(&mut self, types: LineEndTypes, before: &[u8], after: &[u8])
        requires text { IsIndexOf (before.now ++ after.now) self.old.index }
        requires fits { line_count types (before.now ++ after.now) ≤ self.old.index.capacity }
        requires short { self.old.index.length < 2 ^ 63 }
        ensures others { self.new ≡ record self.old { index = self.new.index } }
        ensures set { (self.new.index.types ≡ types) × (self.new.index.capacity ≡ self.old.index.capacity) }
        ensures index { IsIndexOf (before.now ++ after.now) self.new.index }
    {
        of_either_width!(&mut self.kept, places => places.lines.set_types(types, before, after))
    }

    /// Inserts bytes into the text, its line starts and its indicators, and returns the effect on the lines. There must
    /// be room for them and for the lines that they may add.
    #[inline(always)]
    pub(crate) fn insert(&mut self, cells: &mut Cells, place: usize, bytes: &[u8]) -> LineChange
        requires can { CanPutIn place bytes.now cells.old self.old.index self.old.decorated }
        requires fits { length cells.old.cells + length bytes.now < bound_of self.old.is_large }
        ensures width { self.new.is_large ≡ self.old.is_large }
        ensures text { WereEditedBy (Insert place bytes.now) result cells.old cells.new self.old.index self.new.index }
        ensures indicators { WereMarked (Insert place bytes.now) cells.new self.old.decorated self.new.decorated }
    {
        of_either_width!(&mut self.kept, places => put_in(cells, places, place, bytes))
    }

    /// Deletes `count` bytes from `place` on, likewise. There must be room for the lines that a deletion may add.
    #[inline(always)]
    pub(crate) fn delete(&mut self, cells: &mut Cells, place: usize, count: usize) -> LineChange
        requires { CanTakeOut place count cells.old self.old.index self.old.decorated }
        ensures width { self.new.is_large ≡ self.old.is_large }
        ensures text { WereEditedBy (deletion_of place count (bytes_of cells.old.cells)) result cells.old cells.new self.old.index self.new.index }
        ensures indicators { WereMarked (deletion_of place count (bytes_of cells.old.cells)) cells.new self.old.decorated self.new.decorated }
    {
        of_either_width!(&mut self.kept, places => take_out(cells, places, place, count))
    }

    /// Returns the length of the text in bytes, which is the number of values of each indicator.
    pub fn length(&self) -> usize
        ensures length { result ≡ self.now.decorated.length }
        ensures count { length self.now.decorated.values ≡ 32 }
        ensures each { AllByRecursion (λ values. length values ≡ self.now.decorated.length) self.now.decorated.values }
    {
        of_either_width!(&self.kept, places => places.indicators.length())
    }

    /// Returns the value of an indicator at a place, or 0 past the end of the text (`SCI_INDICATORVALUEAT`).
    pub fn value(&self, indicator: usize, place: usize) -> u32
        requires { indicator < 32 }
        ensures { result ≡ at_place (values_of self.now.decorated.values indicator) (pos place) }
    {
        of_either_width!(&self.kept, places => places.indicators.value(indicator, place))
    }

    /// Returns the longest range of equal values of an indicator around a place, as its first place and the place
    /// behind it (`SCI_INDICATORSTART`, `SCI_INDICATOREND`).
    pub fn run(&self, indicator: usize, place: usize) -> (usize, usize)
        requires indicator { indicator < 32 }
        requires place { place < self.now.decorated.length }
        ensures { result ≡ run_about (values_of self.now.decorated.values indicator) place }
    {
        of_either_width!(&self.kept, places => places.indicators.run(indicator, place))
    }

    /// Returns the indicators that are not 0 at a place, bit `k` for indicator `k`, and 0 past the end of the text
    /// (`SCI_INDICATORALLONFOR`).
    pub fn mask_at(&self, place: usize) -> u32
        ensures { result ≡ mask_of self.now.decorated.values place }
    {
        of_either_width!(&self.kept, places => places.indicators.mask_at(place))
    }

    /// Makes room for `insertions` insertions into the indicators.
    ///
    /// # Errors
    ///
    /// `AllocError` if an allocation fails. Nothing has changed then, except that more runs may fit in.
    #[inline(always)]
    pub(crate) fn reserve_insertions(&mut self, insertions: usize) -> Result<(), AllocError>
        ensures reserved { IsReserved (λ (p : PlacesOf). HasRoomForInsertions insertions p.decorated) result self.old self.new }
        ensures grown { ChangeCapacity self.old self.new × IsCapacityForRuns (insertions + 2) self.old.decorated self.new.decorated.capacity }
    {
        of_either_width!(&mut self.kept, places => places.indicators.reserve(insertions))
    }

    /// Like `decorations::Decorations::reserve_fill`.
    ///
    /// # Errors
    ///
    /// `AllocError` if an allocation fails. Nothing has changed then, except that more slots and runs may fit in.
    pub(crate) fn reserve_fill(&mut self, indicator: usize) -> Result<(), AllocError>
        requires { indicator < 32 }
        ensures reserved { IsReserved (λ (p : PlacesOf). HasRoomForFill indicator p.decorated) result self.old self.new }
        ensures grown { ChangeCapacity self.old self.new × IsCapacityForFill indicator self.old.decorated self.new.decorated.capacity }
    {
        of_either_width!(&mut self.kept, places => places.indicators.reserve_fill(indicator))
    }

    /// Like `decorations::Decorations::fill`.
    pub(crate) fn fill(
        &mut self,
        indicator: usize,
        start: usize,
        count: usize,
        value: u32,
    ) -> Option<(usize, usize)>
        requires indicator { indicator < 32 }
        requires within { start + count ≤ self.old.decorated.length }
        requires room { HasRoomForFill indicator self.old.decorated }
        ensures values { AreFilled indicator start count value self.old self.new }
        ensures capacity { WereFilledFrom indicator self.old.decorated self.new.decorated }
        ensures changed { result ≡ filled_range self.old.decorated indicator start count value }
    {
        of_either_width!(&mut self.kept, places => places.indicators.fill(indicator, start, count, value))
    }
}
