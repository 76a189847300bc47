//! `Selection`: anchor and caret.

ghost use Rattle.std.specs.Prelude.{◌≡◌, ◌==◌, ◌+◌, ◌^◌, ◌<◌, min, max};
ghost use Rattle.selection.specs.Positions.{count_of, selection_moved_by};

use crate::movements::Movement;

/// The two ends of the selection. They are equal if nothing is selected.
#[derive(Clone, Copy, Debug, PartialEq, Eq)]
pub struct Selection {
    /// The end that stays when the selection is extended, in bytes from 0.
    pub anchor: usize,
    /// The end that keys move, in bytes from 0.
    pub caret: usize,
}

impl Selection {
    /// Returns the empty selection at `place`.
    pub fn at(place: usize) -> Self
        ensures { result ≡ record { anchor = place; caret = place } }
    {
        Selection {
            anchor: place,
            caret: place,
        }
    }

    /// Returns the lesser end (`SCI_GETSELECTIONSTART`).
    pub fn start(self) -> usize
        ensures { result ≡ min self.anchor self.caret }
    {
        self.anchor.min(self.caret)
    }

    /// Returns the greater end (`SCI_GETSELECTIONEND`).
    pub fn end(self) -> usize
        ensures { result ≡ max self.anchor self.caret }
    {
        self.anchor.max(self.caret)
    }

    /// Returns whether nothing is selected (`SCI_GETSELECTIONEMPTY`).
    pub fn is_empty(self) -> bool
        ensures { result ≡ (self.anchor == self.caret) }
    {
        self.anchor == self.caret
    }

    /// Moves both ends as a step of the text does. Allocates nothing.
    pub fn moved(&mut self, movement: Movement)
        requires anchor { self.old.anchor + count_of movement < 2 ^ 64 }
        requires caret { self.old.caret + count_of movement < 2 ^ 64 }
        ensures { self.new ≡ selection_moved_by movement self.old }
    {
        self.anchor = movement.moved(self.anchor);
        self.caret = movement.moved(self.caret);
    }
}
