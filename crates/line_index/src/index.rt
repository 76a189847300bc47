//! `LineIndex`: how it is made and read, and its capacity.

ghost use Rattle.std.specs.Prelude.{◌≡◌, ℕ, ◌+◌, ◌^◌, ◌≤◌, ◌<◌, ◌++◌, [], length, slice_index, IfOk, OnOk, OnErr, IsOk};
ghost use Rattle.ed_model.specs.Lines.{line_starts, line_of, end_of_line};
ghost use Rattle.partitioning.specs.Partitions.{CountsReads};
ghost use Rattle.vec_room.specs.Reserved.{IsReserved};
ghost use Rattle.line_index.specs.Index.{Grows, IsIndexOf, MoreLinesFit};

use crate::halves::{Halves, end_length};
use crate::starts::starts_are_sound;
use ed_model::LineEndTypes;
use partitioning::{Partitioning, Place, Probes};
use std::alloc::{AllocError, Global};
use std::marker::Model;

/// The places where the lines of a text start.
///
/// The starts are the partitions of the text: those behind a step move with it at no further cost.
#[derive(Drop)]
pub struct LineIndex<P: Place> {
    pub(crate) starts: Partitioning<P>,
    pub(crate) types: LineEndTypes,
}

impl<P: Place> Model for LineIndex<P> {
    ghost use Rattle.line_index.specs.Index.{Index, index};

    ghost Value = { Index };

    ghost view = { λ t. index t.types t.starts.starts t.starts.length t.starts.capacity };
}

impl<P: Place> LineIndex<P> {
    /// Returns the index of the empty text, which has one line. Allocates memory for its start, and no more.
    ///
    /// # Errors
    ///
    /// `AllocError` if the allocation fails.
    pub fn new(alloc: Global, types: LineEndTypes) -> Result<Self, AllocError>
        ensures index { IfOk result (λ t. (t.types ≡ types) × IsIndexOf [] t) }
        ensures capacity { IfOk result (λ t. t.capacity ≡ 1) }
    {
        let starts = Partitioning::new(alloc)?;
        Ok(LineIndex { starts, types })
    }

    /// Returns which line ends count.
    pub fn types(&self) -> LineEndTypes
        ensures { result ≡ self.now.types }
    {
        self.types
    }

    /// Returns the number of lines, which is at least 1.
    pub fn count(&self) -> usize
        ensures count { result ≡ length self.now.starts }
        ensures some { 0 < length self.now.starts }
        ensures fits { (length self.now.starts ≤ self.now.capacity) × (self.now.capacity < 2 ^ 63) }
    {
        self.starts.count()
    }

    /// Returns the length of the text, in bytes.
    pub fn length(&self) -> usize
        ensures length { result ≡ self.now.length }
        ensures within { self.now.length ≤ P.GREATEST }
    {
        self.starts.length()
    }

    /// Returns where the line starts, in bytes from 0. Lines are counted from 0.
    pub fn start(&self, line: usize) -> usize
        requires { line < length self.now.starts }
        ensures start { result ≡ slice_index self.now.starts line }
        ensures within { result ≤ self.now.length }
    {
        self.starts.start_of(line)
    }

    /// Returns where the line end of `line` begins, in bytes from 0, or for the last line the end of the text. `before`
    /// and `after` are the halves of the text. At most two of their bytes are read.
    pub fn end(&self, line: usize, before: &[u8], after: &[u8]) -> usize
        requires line { line < length self.now.starts }
        requires text { IsIndexOf (before.now ++ after.now) self.now }
        ensures { result ≡ end_of_line self.now.types (before.now ++ after.now) line }
    {
        let count = self.count();
        if line + 1 < count {
            let next = self.start(line + 1);
            let text = Halves {
                types: self.types,
                before,
                after,
            };
            return next.saturating_sub(end_length(text, next));
        }
        self.length()
    }

    /// Returns the line that holds `place`: the last one that starts at `place` or before it. For a place past the end
    /// this is the last of all. Counts each start that it reads in `probes`.
    pub fn line_of(&self, place: usize, probes: &mut Probes) -> usize
        ensures line { result ≡ line_of self.now.starts place }
        ensures within { result < length self.now.starts }
        ensures reads { CountsReads 2 (length self.now.starts) probes.old probes.new }
    {
        starts_are_sound(&self.starts);
        self.starts.partition_of(place, probes)
    }

    /// Allocates memory for `count` more lines, unless they fit in.
    ///
    /// # Errors
    ///
    /// `AllocError` if the allocation fails. Nothing has changed then.
    #[inline(always)]
    pub fn reserve(&mut self, count: usize) -> Result<(), AllocError>
        ensures reserved { IsReserved (MoreLinesFit count) result self.old self.new }
        ensures grown { Grows count self.old self.new }
        ensures err { OnErr result (self.new ≡ self.old) }
    {
        self.starts.reserve(count)
    }
}
