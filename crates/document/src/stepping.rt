//! Steps of a document's text, and their room.

ghost use Rattle.std.specs.Prelude.{◌≡◌, ◌+◌, length};
ghost use Rattle.ed_model.specs.History.{begins_transaction};
ghost use Rattle.ed_model.specs.Performing.{document_after};
ghost use Rattle.line_index.specs.StepEdits.{edits_of};
ghost use Rattle.vec_room.specs.Reserved.{IsReserved};
ghost use Rattle.document.specs.Kept.{FitsWidth, HasHistoryRoom, HasRoom, HasTextRoom};
ghost use Rattle.document.specs.Changes.{stored_by};
ghost use Rattle.document.specs.Memory.{KeepsMemory, ReservesSteps};
ghost use Rattle.document.specs.TextSteps.{IsStepOn, LeavesHistoryRoom, LeavesTextRoom, change_on, line_change_of, need_on, step_on, with_appended};

use crate::kept::Document;
use crate::making::make_step;
use crate::need::DocumentNeed;
use crate::text_step::TextStep;
use line_index::{LineChange, lines_for_deletion, lines_for_insertion};
use std::alloc::AllocError;
use undo_history::StepKind;

impl Document {
    /// Returns what a step needs, for the text and for the history.
    pub fn step_need(&self, step: TextStep) -> DocumentNeed
        ensures need { result ≡ need_on self.now step.entry }
    {
        match step {
            TextStep::Insert { bytes, .. } => DocumentNeed {
                text: bytes.len(),
                lines: lines_for_insertion(self.parts.places.types(), bytes),
                insertions: 1,
                steps: 1,
                bytes: bytes.len(),
            },
            TextStep::Delete { count, .. } => DocumentNeed {
                text: 0,
                lines: lines_for_deletion(),
                insertions: 0,
                steps: 1,
                bytes: count,
            },
        }
    }

    /// Makes room for `need`. Gives no memory back. Each capacity stays if enough fits in, and otherwise grows to what
    /// is needed or to twice as much as before.
    ///
    /// # Errors
    ///
    /// `AllocError` if an allocation fails. Nothing has changed then, except that more may fit in.
    #[inline(always)]
    pub fn reserve(&mut self, need: DocumentNeed) -> Result<(), AllocError>
        requires wide { FitsWidth self.old.document (length self.old.document.cells + need.text) }
        ensures reserved { IsReserved (HasRoom need) result self.old self.new }
        ensures grown { ReservesSteps need self.old self.new }
    {
        self.parts.cells.reserve(need.text)?;
        self.parts.places.reserve_lines(need.lines)?;
        self.parts.rows.reserve_lines(need.lines)?;
        self.parts.places.reserve_insertions(need.insertions)?;
        self.history.reserve(need.steps, need.bytes)
    }

    /// Makes a step of the text, and returns its effect on the lines. The cells, the line starts, the rows, the
    /// indicators and the place up to which the document is styled change with it; the history does not. There must be
    /// room for everything but the history. Allocates nothing.
    #[inline(always)]
    pub fn step(&mut self, step: TextStep) -> LineChange
        requires fits { IsStepOn step (length self.old.document.cells) }
        requires room { HasTextRoom (need_on self.old step) self.old }
        ensures document { self.new.document ≡ document_after (step_on self.old step.entry) self.old.document }
        ensures room { LeavesTextRoom (step_on self.old step.entry) self.old self.new }
        ensures stored { self.new.stored ≡ stored_by (edits_of result) self.old.stored }
        ensures memory { KeepsMemory self.old self.new }
        ensures lines { result ≡ line_change_of self.old (step_on self.old step.entry) }
    {
        self.end_styled = self.end_styled.min(step.place());
        make_step(&mut self.parts, step)
    }

    /// Appends a step to the history, before it is made, and returns whether it begins a transaction. `later` says that
    /// it is not the first step of its message. There must be room for it in the history. The text does not change.
    pub fn append(&mut self, later: bool, step: TextStep) -> bool
        requires fits { IsStepOn step (length self.old.document.cells) }
        requires room { HasHistoryRoom (need_on self.old step) self.old }
        ensures document { self.new ≡ with_appended later step.entry self.old }
        ensures begins { result ≡ begins_transaction later (change_on self.old step.entry) self.old.document.history }
        ensures room { LeavesHistoryRoom (step_on self.old step.entry) self.old self.new }
    {
        match step {
            TextStep::Insert { place, bytes } => {
                self.history
                    .append_reserved(later, StepKind::Insert, place, bytes)
            }
            TextStep::Delete { place, count } => {
                let bytes = self.parts.cells.lend(place, count);
                self.history
                    .append_reserved(later, StepKind::Delete, place, bytes)
            }
        }
    }
}
