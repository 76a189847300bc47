//! The bytes of a step, put into a text, its line starts and its indicators, or taken out of them.

ghost use Rattle.std.specs.Prelude.{◌≡◌, ◌+◌, ◌≤◌, length};
ghost use Rattle.ed_model.specs.Lines.{line_count};
ghost use Rattle.ed_model.specs.Text.{bytes_of};
ghost use Rattle.ed_model.specs.Steps.{Insert, edited};
ghost use Rattle.line_index.specs.RoomLaws.{lines_for_insertion};
ghost use Rattle.line_index.specs.StepEdits.{edits_of};
ghost use Rattle.document.specs.Parts.{CanCarry, CanPut, CanPutIn, CanTakeOut, WereCarried, WereEditedBy, WereMarked};
ghost use Rattle.document.specs.TextSteps.{deletion_of};

use crate::places::PlacesIn;
use cell_buffer::Cells;
use line_index::{LineChange, LineIndex, near_step, room_for_steps};
use line_rows::LineRows;
use partitioning::Place;

// How many bytes are inserted at once: few enough to be in the processor's cache still when they are searched for line
// ends.
const PIECE: usize = 1 << 16;

// Inserts a piece, and returns its effect on the lines. There must be room for its bytes, and for as many lines as it
// may add.
#[inline(always)]
fn put_piece<P: Place>(
    cells: &mut Cells,
    lines: &mut LineIndex<P>,
    place: usize,
    bytes: &[u8],
) -> LineChange
    requires can { CanPut place bytes.now (line_count lines.old.types (edited (Insert place bytes.now) (bytes_of cells.old.cells))) cells.old lines.old }
    requires fits { length cells.old.cells + length bytes.now ≤ P.GREATEST }
    ensures { WereEditedBy (Insert place bytes.now) result cells.old cells.new lines.old lines.new }
{
    cells.insert_reserved(place, bytes);
    let (before, after) = cells.halves();
    let (near_before, near_after) = near_step(before, after, place, bytes.len());
    lines.inserted(place, bytes.len(), near_before, near_after)
}

// Inserts more than one piece. Out of line, since most insertions are short.
#[inline(never)]
fn put_pieces<P: Place>(
    cells: &mut Cells,
    lines: &mut LineIndex<P>,
    place: usize,
    bytes: &[u8],
) -> LineChange
    requires can { CanPut place bytes.now (length lines.old.starts + lines_for_insertion lines.old.types bytes.now) cells.old lines.old }
    requires fits { length cells.old.cells + length bytes.now ≤ P.GREATEST }
    ensures { WereEditedBy (Insert place bytes.now) result cells.old cells.new lines.old lines.new }
{
    room_for_steps();
    let about = lines.lines_about(place, place);
    let mut done = 0;
    'putting: while done < bytes.len() {
        let end = bytes.len().min(done + PIECE);
        put_piece(cells, lines, place + done, &bytes[done..end]);
        done = end;
    }
    lines.change_since(about, place + bytes.len())
}

/// Inserts bytes at `place` into the text, its line starts and its indicators, and returns the effect of all of them on
/// the lines. There must be room for them and for the lines that they may add.
#[inline(always)]
pub(crate) fn put_in<P: Place>(
    cells: &mut Cells,
    places: &mut PlacesIn<P>,
    place: usize,
    bytes: &[u8],
) -> LineChange
    requires can { CanPutIn place bytes.now cells.old places.old.lines places.old.indicators }
    requires fits { length cells.old.cells + length bytes.now ≤ P.GREATEST }
    ensures text { WereEditedBy (Insert place bytes.now) result cells.old cells.new places.old.lines places.new.lines }
    ensures indicators { WereMarked (Insert place bytes.now) cells.new places.old.indicators places.new.indicators }
{
    room_for_steps();
    places.indicators.insert(place, bytes.len());
    if bytes.len() <= PIECE {
        return put_piece(cells, &mut places.lines, place, bytes);
    }
    // Bound to a local, so that the usual `LineChange` stays in registers.
    let change = put_pieces(cells, &mut places.lines, place, bytes);
    change
}

/// Deletes `count` bytes from `place` on, likewise. There must be room for the lines that a deletion may add.
#[inline(always)]
pub(crate) fn take_out<P: Place>(
    cells: &mut Cells,
    places: &mut PlacesIn<P>,
    place: usize,
    count: usize,
) -> LineChange
    requires { CanTakeOut place count cells.old places.old.lines places.old.indicators }
    ensures text { WereEditedBy (deletion_of place count (bytes_of cells.old.cells)) result cells.old cells.new places.old.lines places.new.lines }
    ensures indicators { WereMarked (deletion_of place count (bytes_of cells.old.cells)) cells.new places.old.indicators places.new.indicators }
{
    room_for_steps();
    places.indicators.delete(place, count);
    cells.delete(place, count);
    let (before, after) = cells.halves();
    let (near_before, near_after) = near_step(before, after, place, 0);
    places.lines.deleted(place, count, near_before, near_after)
}

// Carries rows through a step that changed the lines. Out of line, since most steps do not. It takes a copy of the
// `LineChange`, so that other steps keep theirs in registers.
#[inline(never)]
fn carry_by_edits(rows: &mut LineRows, change: LineChange)
    requires { CanCarry (edits_of change) rows.old }
    ensures { WereCarried (edits_of change) rows.old rows.new }
{
    rows.carry(change.edits().as_slice());
}

/// Carries rows through a step, by its effect on the lines. There must be room for the new lines.
#[inline(always)]
pub(crate) fn carry_rows(rows: &mut LineRows, change: &LineChange)
    requires { CanCarry (edits_of change.now) rows.old }
    ensures { WereCarried (edits_of change.now) rows.old rows.new }
{
    if change.is_quiet() {
        return;
    }
    carry_by_edits(rows, *change);
}
