//! `MarkerStore` and its calls. A contract sees it as the list of markers of each line, the next handle, and for how many
//! markers and lines there is memory.
ghost use Rattle.std.specs.Prelude.{◌≡◌, ◌≢◌, ◌≤◌, ◌<◌, ◌+◌, ◌-◌, ◌^◌, ◌==◌, ◌↔◌, [], ◌∷◌, length, IsTrue, OnErr};
ghost use Rattle.vec_room.specs.Reserved.{IsReserved};
ghost use Rattle.ed_model.specs.Changes.{is_of_number};
ghost use Rattle.ed_model.specs.LinePlans.{mask_of};
ghost use Rattle.marker_store.specs.Lines.{marked_lines, markers_of, marker_total, HasLineRoom, HasRoom, GrowsFor, with_marker_on, without_marker_on, with_fresh, with_joined, without, is_met, has_handle, first_from, last_up_to};

use crate::chains::Chains;
use crate::drops::Drops;
use crate::markers::Marker;
use std::alloc::{AllocError, Allocator, Global};
use std::marker::Model;

/// The greatest number of lines.
pub const GREATEST_LINES: usize = 1 << 62;

/// The markers of each line, as a list to which `SCI_MARKERADD` appends.
///
/// Lines are counted from 0, and there is always at least one. A marker has a number from 0 to 31, and a handle.
/// Handles rise from 1, and none is used again.
#[derive(Drop)]
pub struct MarkerStore<A: Allocator = Global> {
    // Each line has a chain, or none has.
    chains: Chains<A>,
    lines: usize,
    next_handle: u32,
}

impl<A: Allocator> Model for MarkerStore<A> {
    ghost use Rattle.marker_store.specs.Lines.{MarkedLines, marked_lines, marked_lines_code};
    ghost use Rattle.marker_store.specs.Store.{all_lines, IsStore};

    ghost Value = { MarkedLines };

    ghost coded = { marked_lines_code };

    ghost view = { λ s. marked_lines (all_lines s.lines s.chains.rows) s.next_handle s.chains.capacity s.chains.line_capacity };

    ghost invariant = { λ s. IsStore s.chains s.lines s.next_handle };
}

impl<A: Allocator + Copy> MarkerStore<A> {
    /// Returns one line without markers. The next handle is 1. Allocates nothing.
    pub fn new(alloc: A) -> Self
        ensures { result ≡ marked_lines ([] ∷ []) 1 0 0 }
    {
        MarkerStore {
            chains: Chains::new(alloc),
            lines: 1,
            next_handle: 1,
        }
    }
}

impl<A: Allocator> MarkerStore<A> {
    /// Returns the number of lines.
    #[tactic(auto, using(crate::proofs::Stores::lines_are))]
    pub fn lines(&self) -> usize
        ensures lines { result ≡ length self.now.lines }
        ensures within { (0 < length self.now.lines) × (length self.now.lines ≤ GREATEST_LINES) }
        ensures fits { HasLineRoom 0 self.now }
    {
        self.lines
    }

    /// Returns the number of markers on all lines.
    #[tactic(auto, using(crate::proofs::Stores::total_is))]
    pub fn markers(&self) -> usize
        ensures markers { result ≡ marker_total self.now.lines }
        ensures fewer { marker_total self.now.lines < self.now.next_handle }
        ensures fits { (marker_total self.now.lines ≤ self.now.capacity) × (self.now.capacity < 2 ^ 63) }
    {
        self.chains.len()
    }

    /// Returns the handle that the next marker gets.
    pub fn next_handle(&self) -> u32
        ensures { result ≡ self.now.next_handle }
    {
        self.next_handle
    }

    /// Makes room for `count` more markers, on any lines, and for `lines` more lines. What has memory already allocates
    /// nothing, and no line needs any as long as there is no memory for a marker. Otherwise memory for that many is
    /// allocated, or for twice as many as before if that is more.
    ///
    /// # Errors
    ///
    /// `AllocError` if an allocation fails. Nothing has changed then, except that there may be memory for more lines.
    #[tactic(auto, using(crate::proofs::Stores::lines_are, crate::proofs::Stores::total_is))]
    pub fn reserve(&mut self, count: usize, lines: usize) -> Result<(), AllocError>
        ensures reserved { IsReserved (HasRoom count lines) result self.old self.new }
        ensures rest { self.new ≡ record self.old { capacity = self.new.capacity; line_capacity = self.new.line_capacity } }
        ensures grown { GrowsFor (marker_total self.old.lines + count) self.old.capacity self.new.capacity × (marker_total self.old.lines ≤ self.old.capacity) }
        ensures grown_lines { GrowsFor (length self.old.lines + lines) self.old.line_capacity self.new.line_capacity × HasLineRoom 0 self.old }
        ensures err { OnErr result (self.new ≡ record self.old { line_capacity = self.new.line_capacity }) }
    {
        // A use of the chains brings what always holds of them: their markers fit in.
        let _ = self.chains.len();
        if count == 0 && self.chains.capacity() == 0 {
            return Ok(());
        }
        let Some(wanted) = (self.lines - self.chains.lines()).checked_add(lines) else {
            return Err(AllocError);
        };
        self.chains.reserve_lines(wanted)?;
        self.chains.reserve(count)
    }

    /// Adds a marker with `number` behind those of `line`, and returns its handle. There must be room for it.
    #[tactic(auto, using(crate::proofs::Stores::lines_are, crate::proofs::Stores::total_is))]
    pub fn add_reserved(&mut self, line: usize, number: u32) -> u32
        requires line { line < length self.old.lines }
        requires number { number < 32 }
        requires room { marker_total self.old.lines + 1 ≤ self.old.capacity }
        requires handles { self.old.next_handle < 2 ^ 32 - 1 }
        ensures handle { result ≡ self.old.next_handle }
        ensures lines { self.new ≡ record self.old { lines = with_marker_on line number self.old; next_handle = self.old.next_handle + 1 } }
    {
        let handle = self.next_handle;
        self.chains.open(self.lines);
        self.chains.push(line, Marker::new(handle, number));
        self.next_handle += 1;
        handle
    }

    /// Deletes the first marker of `line` with `number`, or all of its markers if `number` is `None`. Returns whether
    /// there was one.
    pub fn delete(&mut self, line: usize, number: Option<u32>) -> bool
        requires { line < length self.old.lines }
        ensures went { IsTrue result ↔ (marker_total self.new.lines ≢ marker_total self.old.lines) }
        ensures lines { self.new ≡ record self.old { lines = without_marker_on line number self.old.lines } }
        ensures fewer { marker_total self.new.lines ≤ marker_total self.old.lines }
    {
        let markers = self.chains.len();
        self.chains.delete_on(line, number);
        self.chains.len() != markers
    }

    /// Deletes all markers with `number`, or all markers if it is `None`. Returns whether there was one.
    pub fn delete_all(&mut self, number: Option<u32>) -> bool
        ensures went { IsTrue result ↔ (marker_total self.new.lines ≢ marker_total self.old.lines) }
        ensures lines { self.new ≡ record self.old { lines = without (is_of_number number) self.old.lines } }
        ensures fewer { marker_total self.new.lines ≤ marker_total self.old.lines }
    {
        let markers = self.chains.len();
        self.chains.delete_all(Drops::of_number(number));
        self.chains.len() != markers
    }

    /// Deletes the marker with `handle`, and returns its line, or `None` if no marker has the handle.
    pub fn delete_handle(&mut self, handle: u32) -> Option<usize>
        ensures line { result ≡ first_from (has_handle handle self.old.lines) self.old.lines 0 }
        ensures lines { self.new ≡ record self.old { lines = without (λ m. m.handle == handle) self.old.lines } }
        ensures fewer { marker_total self.new.lines ≤ marker_total self.old.lines }
    {
        let line = self.chains.line_of_handle(handle);
        self.chains.delete_all(Drops::Handle(handle));
        line
    }

    /// Returns the line of the marker with `handle`, or `None` if no marker has it.
    pub fn line_of_handle(&self, handle: u32) -> Option<usize>
        ensures { result ≡ first_from (has_handle handle self.now.lines) self.now.lines 0 }
    {
        self.chains.line_of_handle(handle)
    }

    /// Returns the mask of `line`: the bit of each number that a marker of the line has.
    pub fn mask(&self, line: usize) -> u32
        requires { line < length self.now.lines }
        ensures { result ≡ mask_of (markers_of line self.now.lines) }
    {
        if line < self.chains.lines() {
            return self.chains.mask(line);
        }
        0
    }

    /// Returns the first line, from `from` on, whose mask has a bit in common with `mask`.
    pub fn next(&self, from: usize, mask: u32) -> Option<usize>
        ensures { result ≡ first_from (is_met mask self.now.lines) self.now.lines from }
    {
        self.chains.next(from, mask)
    }

    /// Returns the last line, up to and including `from`, whose mask has a bit in common with `mask`.
    pub fn previous(&self, from: usize, mask: u32) -> Option<usize>
        ensures { result ≡ last_up_to (is_met mask self.now.lines) self.now.lines from }
    {
        self.chains.previous(from, mask)
    }

    /// Inserts `count` lines without markers before `line`, or at the end. There must be room for them.
    #[tactic(auto, using(crate::proofs::Stores::room_is))]
    pub fn shift(&mut self, line: usize, count: usize)
        requires line { line ≤ length self.old.lines }
        requires fits { length self.old.lines + count ≤ GREATEST_LINES }
        requires room { HasLineRoom count self.old }
        ensures { self.new ≡ record self.old { lines = with_fresh line count self.old.lines } }
    {
        self.lines += count;
        if self.chains.lines() > 0 {
            self.chains.insert(line, count);
        }
    }

    /// Joins the `count` lines behind `line` to it: their markers follow its own, in their order. Allocates nothing.
    pub fn merge(&mut self, line: usize, count: usize)
        requires { line + count < length self.old.lines }
        ensures { self.new ≡ record self.old { lines = with_joined line count self.old.lines } }
    {
        self.lines -= count;
        if self.chains.lines() == 0 {
            return;
        }
        for _joined in 0..count {
            self.chains.join(line);
        }
    }

    /// Leaves one line, without markers. Handles continue from where they were.
    pub fn restart(&mut self)
        ensures { self.new ≡ record self.old { lines = [] ∷ [] } }
    {
        self.chains.clear();
        self.lines = 1;
    }
}
