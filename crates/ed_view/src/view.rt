//! `View`: how it is made and read.

ghost use Rattle.std.specs.Prelude.{◌≡◌, ◌<◌, length};
ghost use Rattle.contraction.specs.ViewLines.{fold_capacity};
ghost use Rattle.ed_view.specs.Flags.{AreFewLines};
ghost use Rattle.ed_view.specs.Kept.{IsNewView};

use crate::line_flags::LineFlags;
use ed_types::modification;
use selection::Selection;
use std::alloc::Global;
use std::marker::Model;

/// The range in which searches and replacements work, in bytes from 0. It may end before it starts.
#[derive(Clone, Copy)]
pub struct Target {
    /// The place where it starts.
    pub start: usize,
    /// The place where it ends.
    pub end: usize,
}

/// The state of a view: its positions in its document, its settings, and the flags of each line.
#[derive(Drop)]
pub struct View {
    id: u32,
    pub(crate) document: u32,
    pub(crate) selection: Selection,
    pub(crate) target: Target,
    pub(crate) search_flags: u32,
    pub(crate) mask: u32,
    pub(crate) indicator: u32,
    pub(crate) indicator_value: u32,
    pub(crate) converts_pastes: bool,
    pub(crate) records: bool,
    pub(crate) lines: LineFlags,
}

impl Model for View {
    ghost use Rattle.ed_view.specs.Kept.{KeptView};

    ghost Value = { KeptView };

    ghost view = { λ v. record {
      view = record {
        id = v.id;
        document = v.document;
        anchor = v.selection.anchor;
        caret = v.selection.caret;
        target_start = v.target.start;
        target_end = v.target.end;
        search_flags = v.search_flags;
        mask = v.mask;
        indicator = v.indicator;
        indicator_value = v.indicator_value;
        converts_pastes = v.converts_pastes;
        records = v.records;
        flags = v.lines.flags;
      };
      large = v.lines.large;
      capacity = v.lines.capacity;
    } };
}

impl View {
    /// Returns a new view, attached to a document of `lines` lines, which is for large texts if `is_large` is set. Its
    /// positions are 0, it listens for all kinds of change, and all lines are visible and expanded.
    /// Allocates nothing, however many lines there are.
    pub fn new(alloc: Global, id: u32, document: u32, lines: usize, is_large: bool) -> Self
        requires some { 0 < lines }
        requires few { AreFewLines is_large lines }
        ensures view { IsNewView id document lines result.view }
        ensures lines { length result.view.flags ≡ lines }
        ensures width { result.large ≡ is_large }
        ensures capacity { result.capacity ≡ fold_capacity 0 0 }
    {
        View {
            id,
            document,
            selection: Selection::at(0),
            target: Target { start: 0, end: 0 },
            search_flags: 0,
            mask: modification::ALL,
            indicator: 0,
            indicator_value: 1,
            converts_pastes: true,
            records: false,
            lines: LineFlags::new(alloc, lines, is_large),
        }
    }

    /// Returns the view's id.
    pub fn id(&self) -> u32
        ensures { result ≡ self.now.view.id }
    {
        self.id
    }

    /// Returns the id of the document to which the view is attached.
    pub fn document(&self) -> u32
        ensures { result ≡ self.now.view.document }
    {
        self.document
    }

    /// Returns anchor and caret, in bytes from 0.
    pub fn selection(&self) -> Selection
        ensures { result ≡ record { anchor = self.now.view.anchor; caret = self.now.view.caret } }
    {
        self.selection
    }

    /// Returns the target, in bytes from 0.
    pub fn target(&self) -> Target
        ensures { result ≡ record { start = self.now.view.target_start; end = self.now.view.target_end } }
    {
        self.target
    }

    /// Returns the search flags (`SCI_GETSEARCHFLAGS`).
    pub fn search_flags(&self) -> u32
        ensures { result ≡ self.now.view.search_flags }
    {
        self.search_flags
    }

    /// Returns the mask: the kinds of change for which the view listens, as bits (`SCI_GETMODEVENTMASK`).
    pub fn mask(&self) -> u32
        ensures { result ≡ self.now.view.mask }
    {
        self.mask
    }

    /// Returns the current indicator (`SCI_GETINDICATORCURRENT`).
    pub fn indicator(&self) -> u32
        ensures { result ≡ self.now.view.indicator }
    {
        self.indicator
    }

    /// Returns the value with which the view fills indicators (`SCI_GETINDICATORVALUE`).
    pub fn indicator_value(&self) -> u32
        ensures { result ≡ self.now.view.indicator_value }
    {
        self.indicator_value
    }

    /// Returns whether the view converts the line ends of pasted text to those of the document
    /// (`SCI_GETPASTECONVERTENDINGS`).
    pub fn converts_pastes(&self) -> bool
        ensures { result ≡ self.now.view.converts_pastes }
    {
        self.converts_pastes
    }

    /// Returns whether the view records the messages that it is sent.
    pub fn records(&self) -> bool
        ensures { result ≡ self.now.view.records }
    {
        self.records
    }

    /// Lends the flags of the lines: which are visible, and which are expanded.
    pub fn lines(&self) -> &LineFlags
        ensures flags { result.now.flags ≡ self.now.view.flags }
        ensures large { result.now.large ≡ self.now.large }
        ensures capacity { result.now.capacity ≡ self.now.capacity }
    {
        &self.lines
    }
}
