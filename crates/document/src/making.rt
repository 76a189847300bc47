//! A step on those parts of a document that it changes: the text, its lines, their rows and the indicators.

ghost use Rattle.std.specs.Prelude.{◌≤◌, ◌+◌, length};
ghost use Rattle.ed_model.specs.Text.{bytes_of};
ghost use Rattle.ed_model.specs.Steps.{Insert};
ghost use Rattle.line_index.specs.RoomLaws.{lines_for_deletion, lines_for_insertion};
ghost use Rattle.document.specs.Parts.{AreStepped, AreSteppedBy, HaveRoom, HaveRoomFor};
ghost use Rattle.document.specs.TextSteps.{IsStepOn, deletion_of};

use crate::pieces::carry_rows;
use crate::places::Places;
use crate::text_step::TextStep;
use cell_buffer::Cells;
use ed_model::{rows_match_lines, rows_that_meet};
use line_index::{LineChange, edits_of_steps, room_for_steps};
use line_rows::LineRows;

/// The parts of a document that a step of its text changes.
#[derive(Drop)]
pub(crate) struct TextParts {
    pub(crate) cells: Cells,
    pub(crate) places: Places,
    pub(crate) rows: LineRows,
}

// Inserts bytes. Inlined into its caller, like `delete`, so that the `LineChange` is written once.
#[inline(always)]
fn insert(parts: &mut TextParts, place: usize, bytes: &[u8]) -> LineChange
    requires fits { place ≤ length parts.old.cells.cells }
    requires room { HaveRoom (length bytes.now) (lines_for_insertion parts.old.places.index.types bytes.now) 1 parts.old }
    ensures { AreStepped (Insert place bytes.now) result parts.old parts.new }
{
    room_for_steps();
    edits_of_steps();
    rows_that_meet();
    rows_match_lines();
    let change = parts.places.insert(&mut parts.cells, place, bytes);
    carry_rows(&mut parts.rows, &change);
    change
}

// Deletes bytes.
#[inline(always)]
fn delete(parts: &mut TextParts, place: usize, count: usize) -> LineChange
    requires fits { place + count ≤ length parts.old.cells.cells }
    requires room { HaveRoom 0 lines_for_deletion 0 parts.old }
    ensures { AreStepped (deletion_of place count (bytes_of parts.old.cells.cells)) result parts.old parts.new }
{
    room_for_steps();
    edits_of_steps();
    rows_that_meet();
    rows_match_lines();
    let change = parts.places.delete(&mut parts.cells, place, count);
    carry_rows(&mut parts.rows, &change);
    change
}

/// Makes a step, and returns its effect on the lines. There must be room for it. Inlined into its callers, so that
/// neither the step nor the `LineChange` is copied.
#[inline(always)]
pub(crate) fn make_step(parts: &mut TextParts, step: TextStep) -> LineChange
    requires fits { IsStepOn step (length parts.old.cells.cells) }
    requires room { HaveRoomFor step parts.old }
    ensures { AreSteppedBy step.entry result parts.old parts.new }
{
    match step {
        TextStep::Insert { place, bytes } => insert(parts, place, bytes),
        TextStep::Delete { place, count } => delete(parts, place, count),
    }
}
