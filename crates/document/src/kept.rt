//! `Document`: how it is made and read.

ghost use Rattle.std.specs.Prelude.{◌≡◌, ◌≤◌, ◌<◌, ◌+◌, ◌-◌, ◌++◌, ◌^◌, length, min, slice_get, vec_len, vec_capacity, OnOk, OnErr, IsOk, IfOk, Some, nat_lt};
ghost use Rattle.ed_model.specs.Text.{styles_of};
ghost use Rattle.ed_model.specs.Session.{text_of, lines_in, references, is_large};
ghost use Rattle.line_index.specs.Index.{IsIndexOf};
ghost use Rattle.document.specs.Kept.{FitsWidth, new_kept, text_from};

use crate::making::TextParts;
use crate::places::Places;
use cell_buffer::Cells;
use ed_model::{LineEnd, LineEndTypes};
use ed_types::document_option;
use line_rows::LineRows;
use std::alloc::{AllocError, Global};
use std::marker::Model;
use undo_history::UndoHistory;

/// A document: its text with styles, its lines with their rows, its indicators, its undo history, and the views
/// attached to it. The text changes in single steps, for which room is reserved before.
#[derive(Drop)]
pub struct Document {
    pub(crate) id: u32,
    pub(crate) options: u32,
    pub(crate) parts: TextParts,
    pub(crate) end_styled: usize,
    pub(crate) history: UndoHistory,
    pub(crate) is_read_only: bool,
    pub(crate) line_end: LineEnd,
    pub(crate) views: Vec<u32>,
    pub(crate) held_by_callers: u32,
}

impl Model for Document {
    ghost use Rattle.document.specs.Kept.{Kept};

    ghost Value = { Kept };

    ghost use Rattle.document.specs.Parts.{kept_in, AreParts};

    ghost view = { kept_in };

    ghost invariant = { AreParts };
}

impl Document {
    ghost use Rattle.std.specs.Borrow.{sem};
    ghost use Rattle.document.specs.Lends.{lent_and_back};

    /// Returns a document without text, to which no view is attached, and which no caller holds. With the option
    /// `SC_DOCUMENTOPTION_TEXT_LARGE` it stores places in 64 bits, and otherwise in 32.
    ///
    /// # Errors
    ///
    /// `AllocError` if an allocation fails: the document stores the start of its one line.
    pub fn new(alloc: Global, id: u32, options: u32) -> Result<Self, AllocError>
        ensures { IfOk result (λ k. k ≡ new_kept id options) }
    {
        let is_large = options & document_option::TEXT_LARGE != 0;
        let places = Places::new(alloc, is_large)?;
        let rows = LineRows::new(alloc);
        Ok(Document {
            id,
            options,
            parts: TextParts {
                cells: Cells::new(alloc),
                places,
                rows,
            },
            end_styled: 0,
            history: UndoHistory::new(alloc),
            is_read_only: false,
            line_end: LineEnd::Lf,
            views: Vec::new(alloc),
            held_by_callers: 0,
        })
    }

    /// Returns the document's id in the session.
    pub fn id(&self) -> u32
        ensures { result ≡ self.now.document.id }
    {
        self.id
    }

    /// Returns the options with which the document was made, as bits (`SCI_GETDOCUMENTOPTIONS`).
    pub fn options(&self) -> u32
        ensures { result ≡ self.now.document.options }
    {
        self.options
    }

    /// Returns whether the document stores places for large texts, in 64 bits.
    pub fn is_large(&self) -> bool
        ensures { result ≡ is_large self.now.document }
    {
        self.options & document_option::TEXT_LARGE != 0
    }

    /// Returns the length of the text in bytes.
    pub fn len(&self) -> usize
        ensures len { result ≡ length self.now.document.cells }
        ensures within { FitsWidth self.now.document (length self.now.document.cells) }
        ensures small { length self.now.document.cells < 2 ^ 61 }
    {
        self.parts.cells.len()
    }

    /// Returns the byte at `place`.
    pub fn byte(&self, place: usize) -> u8
        requires { place < length self.now.document.cells }
        ensures { slice_get (text_of self.now.document) place ≡ Some result }
    {
        self.parts.cells.byte(place)
    }

    /// Returns the style of the byte at `place`.
    pub fn style(&self, place: usize) -> u8
        requires { place < length self.now.document.cells }
        ensures { slice_get (styles_of self.now.document.cells) place ≡ Some result }
    {
        self.parts.cells.style(place)
    }

    /// Returns the text in two parts, the second behind the first.
    pub fn halves(&self) -> (&[u8], &[u8])
        ensures { result.0.now ++ result.1.now ≡ text_of self.now.document }
    {
        self.parts.cells.halves()
    }

    /// Appends the `count` bytes from `start` on to `target`. Its capacity never falls.
    ///
    /// # Errors
    ///
    /// `AllocError` if the allocation fails. `target` has the same bytes then.
    pub fn append_text_to(
        &self,
        start: usize,
        count: usize,
        target: &mut Vec<u8>,
    ) -> Result<(), AllocError>
        requires { start + count ≤ length self.now.document.cells }
        ensures ok { OnOk result (target.new.items ≡ target.old.items ++ text_from start count self.now.document) }
        ensures room_is_there { vec_len target.old + count ≤ vec_capacity target.old → IsOk result }
        ensures kept { vec_capacity target.old ≤ vec_capacity target.new }
        ensures err { OnErr result (target.new.items ≡ target.old.items) }
    {
        self.parts.cells.append_text_to(start, count, target)
    }

    /// Returns the `count` bytes from `start` on in a new `Vec` with room for `spare` more bytes. Allocates nothing if
    /// `count` is 0.
    ///
    /// # Errors
    ///
    /// `AllocError` if the allocation fails, which it does if `count + spare` exceeds a `usize`.
    pub fn text_to_vec(
        &self,
        alloc: Global,
        start: usize,
        count: usize,
        spare: usize,
    ) -> Result<Vec<u8>, AllocError>
        requires { start + count ≤ length self.now.document.cells }
        ensures bytes { IfOk result (λ text. text.items ≡ text_from start count self.now.document) }
        ensures room { 0 < count → IfOk result (λ text. min (count + spare) (2 ^ 64 - 1) ≤ vec_capacity text) }
        ensures free { count ≡ 0 → IsOk result }
    {
        self.parts.cells.text_to_vec(alloc, start, count, spare)
    }

    /// Lends the `count` bytes from `start` on as one slice, without a copy. The document does not change.
    pub fn lend(&mut self, start: usize, count: usize) -> &[u8]
        requires { start + count ≤ length self.old.document.cells }
        ensures* back { sem 𝓛 (lent_and_back self.entry) }
        ensures value { result.now ≡ text_from start count self.old.document }
    {
        self.parts.cells.lend(start, count)
    }

    /// Returns the place up to which the document is styled, in bytes from 0 (`SCI_GETENDSTYLED`).
    pub fn end_styled(&self) -> usize
        ensures { result ≡ self.now.document.end_styled }
    {
        self.end_styled
    }

    /// Returns whether callers may not change the text (`SCI_GETREADONLY`).
    pub fn is_read_only(&self) -> bool
        ensures { result ≡ self.now.document.read_only }
    {
        self.is_read_only
    }

    /// Returns the line end that typing inserts (`SCI_GETEOLMODE`).
    pub fn typed_line_end(&self) -> LineEnd
        ensures { result ≡ self.now.document.line_end }
    {
        self.line_end
    }

    /// Returns which line ends count (`SCI_GETLINEENDTYPESACTIVE`).
    pub fn line_end_types(&self) -> LineEndTypes
        ensures { result ≡ self.now.document.line_end_types }
    {
        self.parts.places.types()
    }

    /// Lends the rows of the lines: markers, fold levels and line states.
    pub fn rows(&self) -> &LineRows
        ensures rows { result.now.rows ≡ self.now.document.rows }
        ensures next_handle { result.now.next_handle ≡ self.now.document.next_handle }
        ensures count { length self.now.document.rows ≡ lines_in self.now.document }
    {
        &self.parts.rows
    }

    /// Lends the indicators.
    pub fn indicators(&self) -> &Places
        ensures values { result.now.decorated.values ≡ self.now.document.indicators }
        ensures length { result.now.decorated.length ≡ length self.now.document.cells }
    {
        &self.parts.places
    }

    /// Lends the undo history.
    pub fn history(&self) -> &UndoHistory
        ensures { result.now.history ≡ self.now.document.history }
    {
        &self.history
    }

    /// Returns the ids of the attached views, in the order of attaching.
    pub fn views(&self) -> &[u32]
        ensures { result.now ≡ self.now.document.views }
    {
        &self.views
    }

    /// Returns how many references callers hold.
    pub fn held_by_callers(&self) -> u32
        ensures { result ≡ self.now.document.held_by_callers }
    {
        self.held_by_callers
    }

    /// Returns whether a view is attached or a caller holds a reference.
    pub fn has_references(&self) -> bool
        ensures { result ≡ nat_lt 0 (references self.now.document) }
    {
        !self.views.is_empty() || self.held_by_callers != 0
    }
}
