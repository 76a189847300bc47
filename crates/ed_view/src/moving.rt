//! A view follows its document: a step of the text, another setting of line ends, and another document.

ghost use Rattle.std.specs.Prelude.{◌≡◌, ◌<◌, ◌+◌, ◌^◌, length};
ghost use Rattle.line_index.specs.Edits.{FitLines, fresh_lines};
ghost use Rattle.selection.specs.Positions.{count_of};
ghost use Rattle.ed_view.specs.Flags.{kept_capacity, AreFewLines};
ghost use Rattle.ed_view.specs.Kept.{HasFewLines};
ghost use Rattle.ed_view.specs.Moving.{IsAttached, view_moved, with_edited_lines};

use crate::view::{Target, View};
use line_index::LineEdit;
use selection::{Movement, Selection};

impl View {
    /// Carries the flags through edits of the document's lines, for example when it counts other line ends. Nothing
    /// else changes. Allocates nothing.
    pub(crate) fn carry_lines(&mut self, edits: &[LineEdit])
        requires lines { FitLines (length self.old.view.flags) edits.now }
        requires few { AreFewLines self.old.large (length self.old.view.flags + fresh_lines edits.now) }
        ensures { self.new ≡ record self.old { view = with_edited_lines edits.now self.old.view } }
    {
        // A step mostly leaves the lines as they are.
        if edits.is_empty() {
            return;
        }
        self.lines.carry(edits);
    }

    /// Follows a step of the text (`moves_are_those_of_steps`): moves anchor, caret and target, and carries the flags
    /// through the edits of the lines. Allocates nothing.
    pub fn moved(&mut self, movement: Movement, edits: &[LineEdit])
        requires anchor { self.old.view.anchor + count_of movement < 2 ^ 64 }
        requires caret { self.old.view.caret + count_of movement < 2 ^ 64 }
        requires target_start { self.old.view.target_start + count_of movement < 2 ^ 64 }
        requires target_end { self.old.view.target_end + count_of movement < 2 ^ 64 }
        requires lines { FitLines (length self.old.view.flags) edits.now }
        requires few { AreFewLines self.old.large (length self.old.view.flags + fresh_lines edits.now) }
        ensures { self.new ≡ record self.old { view = view_moved movement edits.now self.old.view } }
    {
        self.selection.moved(movement);
        self.target = Target {
            start: movement.moved(self.target.start),
            end: movement.moved(self.target.end),
        };
        self.carry_lines(edits);
    }

    /// Attaches the view to a document of `lines` lines, which may be its own (`SCI_SETDOCPOINTER`), and which is for
    /// large texts if `is_large` is set. Anchor, caret and target move to the start, and all lines are visible and
    /// expanded. The settings stay. Allocates nothing: the capacity stays if the width of line numbers does, and is
    /// otherwise that of a new view.
    pub fn attach_to(&mut self, document: u32, lines: usize, is_large: bool)
        requires some { 0 < lines }
        requires fits { AreFewLines is_large lines }
        requires few { HasFewLines self.old }
        ensures view { IsAttached document lines self.old.view self.new.view }
        ensures lines { length self.new.view.flags ≡ lines }
        ensures width { self.new.large ≡ is_large }
        ensures capacity { self.new.capacity ≡ kept_capacity self.old.large is_large self.old.capacity }
    {
        self.document = document;
        self.selection = Selection::at(0);
        self.target = Target { start: 0, end: 0 };
        self.lines.start_again(lines, is_large);
    }
}
