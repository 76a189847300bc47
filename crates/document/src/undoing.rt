//! Undo and redo of a document: their changes one by one, and the move of the history.

ghost use Rattle.std.specs.Prelude.{◌≡◌, ◌<◌, ℕ, List, length, Some, IsSomeAnd};
ghost use Rattle.ed_model.specs.History.{at_save_point, inverse_change};
ghost use Rattle.ed_model.specs.Performing.{document_after};
ghost use Rattle.line_index.specs.StepEdits.{edits_of};
ghost use Rattle.undo_history.specs.Records.{change_of, HasItsBytes};
ghost use Rattle.document.specs.Changes.{stored_by, with_history};
ghost use Rattle.document.specs.Memory.{KeepsMemory};
ghost use Rattle.document.specs.TextSteps.{LeavesTextRoom, line_change_of};
ghost use Rattle.document.specs.Undoing.{changes_of, history_behind, save_point_told, outline_of, bytes_in};
ghost use Rattle.document.specs.Undoing.{CanMake, IfStep, IsLentOf, OfChange, need_of_change, performed_at};

use crate::kept::Document;
use crate::making::make_step;
use crate::need::DocumentNeed;
use crate::text_step::TextStep;
use line_index::{LineChange, lines_for_deletion, lines_for_insertion};
use undo_history::{ChangeKind, LentChange, StepKind, UndoHistory};

/// Whether undo or redo is performed.
#[derive(Clone, Copy)]
pub enum Direction {
    /// Reverts the last transaction, its latest change first.
    Undo,
    /// Makes the next transaction again, its changes in the original order.
    Redo,
}

/// A change that undo or redo performs, without its bytes.
#[derive(Clone, Copy)]
pub enum ChangeOutline {
    /// Inserts `count` bytes at `place`, in bytes from 0.
    Insert { place: usize, count: usize },
    /// Deletes `count` bytes from `place` on.
    Delete { place: usize, count: usize },
    /// A container's own step with its token.
    Container { token: i64 },
}

// Returns the change that reverts one of this kind. A container's step is its own inverse: the container gets the same
// note again.
fn inverse(kind: ChangeKind) -> ChangeKind
    ensures { (bytes : List ℕ) → change_of result bytes ≡ inverse_change (change_of kind bytes) }
{
    match kind {
        ChangeKind::Text {
            kind: StepKind::Insert,
            place,
        } => ChangeKind::Text {
            kind: StepKind::Delete,
            place,
        },
        ChangeKind::Text {
            kind: StepKind::Delete,
            place,
        } => ChangeKind::Text {
            kind: StepKind::Insert,
            place,
        },
        ChangeKind::Container { .. } => kind,
    }
}

// Returns the change that is performed at `index`. The history lends its bytes.
#[inline(always)]
fn change_at(history: &UndoHistory, direction: Direction, index: usize) -> LentChange
    requires there { index < length (changes_of direction history.now.history) }
    ensures change { performed_at direction index history.now.history ≡ Some (change_of result.kind result.bytes.now) }
    ensures bytes { HasItsBytes result.kind result.bytes.now }
{
    match direction {
        Direction::Undo => {
            let change = history.change_to_undo(index);
            LentChange {
                kind: inverse(change.kind),
                ..change
            }
        }
        Direction::Redo => history.change_to_redo(index),
    }
}

// Returns the change that is performed at `index` as a step of the text, or `None` if it is a container's.
fn step_at(history: &UndoHistory, direction: Direction, index: usize) -> Option<TextStep>
    requires there { index < length (changes_of direction history.now.history) }
    ensures step { IsSomeAnd (performed_at direction index history.now.history) (IsLentOf result) }
{
    let change = change_at(history, direction, index);
    match change.kind {
        ChangeKind::Text {
            kind: StepKind::Insert,
            place,
        } => Some(TextStep::Insert {
            place,
            bytes: change.bytes,
        }),
        ChangeKind::Text {
            kind: StepKind::Delete,
            place,
        } => Some(TextStep::Delete {
            place,
            count: change.bytes.len(),
        }),
        ChangeKind::Container { .. } => None,
    }
}

impl Document {
    /// Returns how many changes undo or redo performs: 0 if there is nothing to undo or redo.
    pub fn change_count(&self, direction: Direction) -> usize
        ensures { result ≡ length (changes_of direction self.now.document.history) }
    {
        match direction {
            Direction::Undo => self.history.undo_len(),
            Direction::Redo => self.history.redo_len(),
        }
    }

    /// Returns whether the document counts as unmodified after undo or redo. If there is nothing to undo or redo,
    /// returns whether it does now.
    pub(crate) fn is_at_save_point_behind(&self, direction: Direction) -> bool
        ensures { result ≡ at_save_point (history_behind direction self.now.document.history) }
    {
        match direction {
            Direction::Undo => self.history.undo_gets_to_save_point(),
            Direction::Redo => self.history.redo_gets_to_save_point(),
        }
    }

    /// Returns whether undo or redo reaches or leaves the save point, so that the views that watch are notified.
    pub fn is_save_point_told(&self, direction: Direction) -> bool
        ensures { result ≡ save_point_told direction self.now.document.history }
    {
        let is_there = self.is_at_save_point_behind(direction);
        if self.history.is_at_save_point() {
            !is_there
        } else {
            is_there
        }
    }

    /// Returns the change that undo or redo performs at `index`, counted from 0 in the order of performing, without its
    /// bytes.
    pub fn change_outline(&self, direction: Direction, index: usize) -> ChangeOutline
        requires there { index < length (changes_of direction self.now.document.history) }
        ensures outline { OfChange direction index self.now (λ change. result ≡ outline_of change) }
    {
        let change = change_at(&self.history, direction, index);
        let count = change.bytes.len();
        match change.kind {
            ChangeKind::Text {
                kind: StepKind::Insert,
                place,
            } => ChangeOutline::Insert { place, count },
            ChangeKind::Text {
                kind: StepKind::Delete,
                place,
            } => ChangeOutline::Delete { place, count },
            ChangeKind::Container { token, .. } => ChangeOutline::Container { token },
        }
    }

    /// Returns the bytes that this change inserts or deletes. A container's step has none.
    pub fn change_bytes(&self, direction: Direction, index: usize) -> &[u8]
        requires there { index < length (changes_of direction self.now.document.history) }
        ensures bytes { OfChange direction index self.now (λ change. result.now ≡ bytes_in change) }
    {
        change_at(&self.history, direction, index).bytes
    }

    /// Returns the change at `index` like `change_outline`, and what it needs, none of it in the history.
    /// Looks the change up once for both.
    pub fn change_with_need(
        &self,
        direction: Direction,
        index: usize,
    ) -> (ChangeOutline, DocumentNeed)
        requires there { index < length (changes_of direction self.now.document.history) }
        ensures outline { OfChange direction index self.now (λ change. result.0 ≡ outline_of change) }
        ensures need { OfChange direction index self.now (λ change. result.1 ≡ need_of_change self.now.document.line_end_types change) }
    {
        let change = change_at(&self.history, direction, index);
        let count = change.bytes.len();
        match change.kind {
            ChangeKind::Text {
                kind: StepKind::Insert,
                place,
            } => {
                let need = DocumentNeed {
                    text: count,
                    lines: lines_for_insertion(self.parts.places.types(), change.bytes),
                    insertions: 1,
                    ..DocumentNeed::none()
                };
                (ChangeOutline::Insert { place, count }, need)
            }
            ChangeKind::Text {
                kind: StepKind::Delete,
                place,
            } => {
                let need = DocumentNeed {
                    lines: lines_for_deletion(),
                    ..DocumentNeed::none()
                };
                (ChangeOutline::Delete { place, count }, need)
            }
            ChangeKind::Container { token, .. } => {
                (ChangeOutline::Container { token }, DocumentNeed::none())
            }
        }
    }

    /// Makes this change, a step of the text, with the bytes of the history, and returns its effect on the lines.
    /// Everything but the history changes, as by `step`. There must be room for it.
    pub fn make_change(&mut self, direction: Direction, index: usize) -> LineChange
        requires can { OfChange direction index self.old (CanMake self.old) }
        ensures document { IfStep direction index self.old (λ step. self.new.document ≡ document_after step self.old.document) }
        ensures room { IfStep direction index self.old (λ step. LeavesTextRoom step self.old self.new) }
        ensures stored { self.new.stored ≡ stored_by (edits_of result) self.old.stored }
        ensures memory { KeepsMemory self.old self.new }
        ensures lines { IfStep direction index self.old (λ step. result ≡ line_change_of self.old step) }
    {
        let Some(step) = step_at(&self.history, direction, index) else {
            unreachable!();
        };
        self.end_styled = self.end_styled.min(step.place());
        make_step(&mut self.parts, step)
    }

    /// Moves the transaction that was undone or redone to the other side of the history. Its changes were made before.
    pub fn finish_history(&mut self, direction: Direction)
        ensures { self.new ≡ with_history (history_behind direction self.old.document.history) self.old }
    {
        match direction {
            Direction::Undo => self.history.undo(),
            Direction::Redo => self.history.redo(),
        }
    }
}
