//! The flags of a view's lines, in the width of its document.

ghost use Rattle.std.specs.Prelude.{◌≡◌, ◌<◌, ◌≤◌, ◌+◌, ◌^◌, false, length, replicate};
ghost use Rattle.ed_model.specs.DisplayLines.{all_visible, display_line, line_shown};
ghost use Rattle.ed_model.specs.Folding.{is_expanded, is_visible, lines_hidden, lines_shown, with_expanded};
ghost use Rattle.ed_model.specs.Folding.{contracted as contracted_at, expanded as expanded_at, revealed};
ghost use Rattle.ed_model.specs.Rows.{flags_together, fresh_flags};
ghost use Rattle.line_index.specs.Edits.{after_edits, FitLines, fresh_lines};
ghost use Rattle.vec_room.specs.Reserved.{IsReserved};
ghost use Rattle.contraction.specs.ViewLines.{contracted_lines, fold_capacity, CanFold, FoldsFit, HaveGrown};
ghost use Rattle.ed_view.specs.Flags.{flags_by_width, kept_capacity, AreFewLines};

use contraction::{Contraction, Levels};
use line_index::LineEdit;
use std::alloc::{AllocError, Global};
use std::marker::Model;

/// The flags by the width of line numbers.
#[derive(Drop)]
pub(crate) enum FlagsByWidth {
    Small(Contraction<u32>),
    Large(Contraction<u64>),
}

// The same call for numbers of either width.
macro_rules! of_either_width {
    ($flags:expr, $lines:ident => $answer:expr) => {
        match $flags {
            FlagsByWidth::Small($lines) => $answer,
            FlagsByWidth::Large($lines) => $answer,
        }
    };
}

impl FlagsByWidth {
    // Returns the flags of `lines` lines, all visible and expanded. Allocates nothing.
    fn new(alloc: Global, lines: usize, is_large: bool) -> Self
        requires { AreFewLines is_large lines }
        ensures { flags_by_width result ≡ record { flags = replicate lines fresh_flags; large = is_large; capacity = fold_capacity 0 0 } }
    {
        if is_large {
            FlagsByWidth::Large(Contraction::new(alloc, lines))
        } else {
            FlagsByWidth::Small(Contraction::new(alloc, lines))
        }
    }
}

/// The flags of the lines of a view: which are visible, and which are expanded. Lines are counted from 0.
///
/// Line numbers are stored in 32 bits, or in 64 if the view's document is for large texts.
#[derive(Drop)]
pub struct LineFlags {
    pub(crate) kept: FlagsByWidth,
    alloc: Global,
}

impl Model for LineFlags {
    ghost use Rattle.ed_view.specs.Flags.{KeptFlags, flags_by_width};

    ghost Value = { KeptFlags };

    ghost view = { λ l. flags_by_width l.kept };
}

impl LineFlags {
    /// Returns the flags of `lines` lines, all visible and expanded. Allocates nothing.
    pub(crate) fn new(alloc: Global, lines: usize, is_large: bool) -> Self
        requires { AreFewLines is_large lines }
        ensures { result ≡ record { flags = replicate lines fresh_flags; large = is_large; capacity = fold_capacity 0 0 } }
    {
        LineFlags {
            kept: FlagsByWidth::new(alloc, lines, is_large),
            alloc,
        }
    }

    // Returns whether line numbers have 64 bits.
    fn is_large(&self) -> bool
        ensures { result ≡ self.now.large }
    {
        matches!(self.kept, FlagsByWidth::Large(_))
    }

    /// Returns the number of lines.
    pub fn count(&self) -> usize
        ensures count { result ≡ length self.now.flags }
        ensures within { AreFewLines self.now.large (length self.now.flags) }
    {
        of_either_width!(&self.kept, lines => lines.count())
    }

    /// Returns how many lines are contracted, in constant time.
    pub(crate) fn contracted_count(&self) -> usize
        ensures count { result ≡ contracted_lines self.now.flags }
        ensures within { contracted_lines self.now.flags < 2 ^ 63 }
    {
        of_either_width!(&self.kept, lines => lines.contracted_count())
    }

    /// Returns whether the line is visible (`SCI_GETLINEVISIBLE`).
    #[inline]
    pub fn visible(&self, line: usize) -> bool
        requires { line < length self.now.flags }
        ensures { result ≡ is_visible self.now.flags line }
    {
        of_either_width!(&self.kept, lines => lines.visible(line))
    }

    /// Returns whether the line is expanded (`SCI_GETFOLDEXPANDED`).
    #[inline]
    pub fn expanded(&self, line: usize) -> bool
        requires { line < length self.now.flags }
        ensures { result ≡ is_expanded self.now.flags line }
    {
        of_either_width!(&self.kept, lines => lines.expanded(line))
    }

    /// Returns whether all lines are visible, in constant time (`SCI_GETALLLINESVISIBLE`).
    pub fn is_all_visible(&self) -> bool
        ensures { result ≡ all_visible self.now.flags }
    {
        of_either_width!(&self.kept, lines => lines.is_all_visible())
    }

    /// Returns the display line of a line, counted from 0 (`SCI_VISIBLEFROMDOCLINE`). A hidden line has that of the
    /// visible line before it.
    #[inline]
    pub fn display_of(&self, line: usize) -> usize
        requires { line < length self.now.flags }
        ensures { result ≡ display_line self.now.flags line }
    {
        of_either_width!(&self.kept, lines => lines.display_of(line))
    }

    /// Returns the line at a display line, or the number of lines past the last one (`SCI_DOCLINEFROMVISIBLE`).
    #[inline]
    pub fn doc_of(&self, display: usize) -> usize
        ensures { result ≡ line_shown self.now.flags display }
    {
        of_either_width!(&self.kept, lines => lines.doc_of(display))
    }

    /// Makes room for `hidden` hidden lines in all, and for `contracted` contracted ones. Allocates nothing for those
    /// that fit.
    ///
    /// # Errors
    ///
    /// `AllocError` if an allocation fails. The flags are then unchanged, and more may fit than before.
    pub(crate) fn reserve(&mut self, hidden: usize, contracted: usize) -> Result<(), AllocError>
        ensures reserved { IsReserved (λ l. FoldsFit hidden contracted l.capacity) result self.old self.new }
        ensures grown { (self.new ≡ record self.old { capacity = self.new.capacity }) × HaveGrown hidden contracted self.old.capacity self.new.capacity }
    {
        of_either_width!(&mut self.kept, lines => lines.reserve(hidden, contracted))
    }

    /// Shows the lines from `first` up to `past` (`SCI_SHOWLINES`). Needs no room.
    pub(crate) fn show(&mut self, first: usize, past: usize)
        requires { past ≤ length self.old.flags }
        ensures { self.new ≡ record self.old { flags = lines_shown first past self.old.flags } }
    {
        of_either_width!(&mut self.kept, lines => lines.show(first, past))
    }

    /// Hides the lines from `first` up to `past`, but never line 0 (`SCI_HIDELINES`). There must be room for all lines
    /// to be hidden.
    pub(crate) fn hide(&mut self, first: usize, past: usize)
        requires within { past ≤ length self.old.flags }
        requires room { length self.old.flags ≤ self.old.capacity.hidden }
        ensures { self.new ≡ record self.old { flags = lines_hidden first past self.old.flags } }
    {
        of_either_width!(&mut self.kept, lines => lines.hide(first, past))
    }

    /// Expands or contracts a line, and leaves its children as they are (`SCI_SETFOLDEXPANDED`). Contracting needs room
    /// for one more contracted line.
    pub(crate) fn set_expanded(&mut self, line: usize, on: bool)
        requires line { line < length self.old.flags }
        requires room { on ≡ false → contracted_lines self.old.flags < self.old.capacity.contracted }
        ensures { self.new ≡ record self.old { flags = with_expanded line on self.old.flags } }
    {
        of_either_width!(&mut self.kept, lines => lines.set_expanded(line, on))
    }

    /// Contracts a header, and hides its children. There must be room for all lines to be hidden, and for one more
    /// contracted line.
    pub(crate) fn contract(&mut self, levels: &Levels, header: usize)
        requires can { CanFold levels.now header self.old.flags self.old.capacity }
        requires room { contracted_lines self.old.flags < self.old.capacity.contracted }
        ensures { self.new ≡ record self.old { flags = contracted_at levels.now header self.old.flags } }
    {
        of_either_width!(&mut self.kept, lines => lines.contract(levels, header))
    }

    /// Expands a header, and shows each of its children that no contracted header between them hides. There must be
    /// room for all lines to be hidden.
    pub(crate) fn expand(&mut self, levels: &Levels, header: usize)
        requires { CanFold levels.now header self.old.flags self.old.capacity }
        ensures { self.new ≡ record self.old { flags = expanded_at levels.now header self.old.flags } }
    {
        of_either_width!(&mut self.kept, lines => lines.expand(levels, header))
    }

    /// Makes a hidden line visible (`SCI_ENSUREVISIBLE`): its fold parents are made visible and expanded first, the
    /// outermost before the others. There must be room for all lines to be hidden.
    pub(crate) fn ensure(&mut self, levels: &Levels, line: usize)
        requires { CanFold levels.now line self.old.flags self.old.capacity }
        ensures { self.new ≡ record self.old { flags = revealed levels.now line self.old.flags } }
    {
        of_either_width!(&mut self.kept, lines => lines.ensure(levels, line))
    }

    /// Carries the flags through edits of the lines, in order. Allocates nothing.
    pub(crate) fn carry(&mut self, edits: &[LineEdit])
        requires fit { FitLines (length self.old.flags) edits.now }
        requires few { AreFewLines self.old.large (length self.old.flags + fresh_lines edits.now) }
        ensures { self.new ≡ record self.old { flags = after_edits flags_together edits.now self.old.flags } }
    {
        of_either_width!(&mut self.kept, lines => lines.carry(edits))
    }

    /// Makes all lines fresh, of which there are `lines` then, with numbers of the width that is wanted. Allocates
    /// nothing: the memory is kept if the width is the same, and is otherwise freed.
    pub(crate) fn start_again(&mut self, lines: usize, is_large: bool)
        requires some { 0 < lines }
        requires fits { AreFewLines is_large lines }
        requires few { AreFewLines self.old.large (length self.old.flags + 1) }
        ensures { self.new ≡ record { flags = replicate lines fresh_flags; large = is_large; capacity = kept_capacity self.old.large is_large self.old.capacity } }
    {
        if is_large != self.is_large() {
            self.kept = FlagsByWidth::new(self.alloc, lines, is_large);
            return;
        }
        self.carry(&[LineEdit::Restart]);
        self.carry(&[LineEdit::Come {
            line: 1,
            count: lines - 1,
        }]);
    }
}
