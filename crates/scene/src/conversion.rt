//! Converts the line ends of a document's text to one kind, by a step for each byte inserted or deleted.

ghost use Rattle.std.specs.Prelude.{◌≡◌, ◌≤◌, ◌*◌, [], false, if◌then◌else◌, nat_lt, length, MatchOption};
ghost use Rattle.ed_model.specs.LineEnds.{missing_from, unwanted_from};
ghost use Rattle.ed_model.specs.Session.{text_of};
ghost use Rattle.ed_model.specs.Performing.{edit_made, steps_made};
ghost use Rattle.document.specs.Kept.{HasRoom};
ghost use Rattle.document.specs.TextSteps.{IsStepOn, need_on};
ghost use Rattle.line_ends.specs.Conversion.{IsNextMissing, IsNextUnwanted, completed, missing_in, unwanted_in};
ghost use Rattle.scene.specs.Scenes.{AreNamed, IsWatched, RoomsStay, kept_scene, scene_in};
ghost use Rattle.scene.specs.Needs.{CanHoldEdit, bytes_for_step, bytes_needed, leaving_notes, notes_for, notes_for_step};
ghost use Rattle.scene.specs.Conversion.{AreLeft, CanMakeSteps, capped_notes, capped_room, conversion_of, deletions_of, notes_for_all, room_of_many, room_of_steps, rooms_added};

use crate::laws::document_is_small;
use crate::need::{NoteRoom, SceneNeed, leaving_need, note_need};
use crate::steps::make_step;
use document::{Document, DocumentNeed, TextStep};
use ed_model::LineEnd;
use ed_view::View;
use id_table::IdTable;
use line_ends::{
    count_missing, count_unwanted, has_conversion, has_several, next_missing, next_unwanted,
};
use notify::NoteList;

// Returns the place and the value of the first missing byte at `from` or behind it.
fn missing_behind(document: &Document, from: usize, to: LineEnd) -> Option<(usize, u8)>
    requires { from ≤ length document.now.document.cells }
    ensures { MatchOption result (missing_in to (text_of document.now.document) from ≡ []) (λ found. IsNextMissing to (text_of document.now.document) from found.0 found.1) }
{
    let (first, second) = document.halves();
    next_missing(first, second, from, to)
}

// Returns the place of the first unwanted byte at `from` or behind it.
fn unwanted_behind(document: &Document, from: usize, to: LineEnd) -> Option<usize>
    requires { from ≤ length document.now.document.cells }
    ensures { MatchOption result (unwanted_in to (text_of document.now.document) from ≡ []) (λ place. IsNextUnwanted to (text_of document.now.document) from place) }
{
    let (first, second) = document.halves();
    next_unwanted(first, second, from, to)
}

// Inserts each missing byte, and returns whether there was one.
fn put_missing(
    document: &mut Document,
    views: &mut IdTable<View>,
    notes: &mut NoteList,
    to: LineEnd,
) -> bool
    requires { CanMakeSteps false (conversion_of to document.old) document.old views.old notes.old }
    ensures left { AreLeft (deletions_of to (text_of document.old.document)) result (conversion_of to document.old) false document.old document.new views.old views.new notes.old notes.new }
    ensures text { text_of document.new.document ≡ completed to (text_of document.old.document) }
{
    let mut later = false;
    let mut place = 0;
    'putting: while let Some((found, byte)) = missing_behind(document, place, to) {
        document_is_small(document);
        let step = TextStep::Insert {
            place: found,
            bytes: &[byte],
        };
        make_step(document, views, notes, later, step);
        later = true;
        place = found + 1;
    }
    later
}

// Deletes each unwanted byte. `later` says whether the message made steps before.
fn take_unwanted(
    document: &mut Document,
    views: &mut IdTable<View>,
    notes: &mut NoteList,
    to: LineEnd,
    mut later: bool,
)
    requires { CanMakeSteps later (unwanted_from 0 false to (text_of document.old.document)) document.old views.old notes.old }
    ensures scene { kept_scene document.new views.new notes.new ≡ steps_made later (unwanted_from 0 false to (text_of document.old.document)) (kept_scene document.old views.old notes.old) }
    ensures watched { IsWatched document.new.document views.new }
    ensures rooms { RoomsStay document.old document.new views.old views.new notes.old notes.new }
{
    let mut place = 0;
    'taking: while let Some(found) = unwanted_behind(document, place, to) {
        let step = TextStep::Delete {
            place: found,
            count: 1,
        };
        make_step(document, views, notes, later, step);
        later = true;
        place = found;
    }
}

// Makes all steps, one after the other.
fn make_all(document: &mut Document, views: &mut IdTable<View>, notes: &mut NoteList, to: LineEnd)
    requires { CanMakeSteps false (conversion_of to document.old) document.old views.old notes.old }
    ensures scene { kept_scene document.new views.new notes.new ≡ steps_made false (conversion_of to document.old) (kept_scene document.old views.old notes.old) }
    ensures watched { IsWatched document.new.document views.new }
    ensures rooms { RoomsStay document.old document.new views.old views.new notes.old notes.new }
{
    let later = put_missing(document, views, notes, to);
    take_unwanted(document, views, notes, to, later);
}

// Returns how many notes say that the save point is left by the first of the steps: none if there is no step.
fn notes_of_leaving(document: &Document, views: &IdTable<View>, to: LineEnd) -> usize
    requires named { AreNamed views.now.entries }
    ensures { result ≡ (if nat_lt 0 (length (conversion_of to document.now)) then leaving_notes document.now views.now else 0) }
{
    let (first, second) = document.halves();
    if has_conversion(first, second, to) {
        leaving_need(document, views)
    } else {
        0
    }
}

// Returns whether there is more than one step.
fn is_several(document: &Document, to: LineEnd) -> bool
    ensures { result ≡ nat_lt 1 (length (conversion_of to document.now)) }
{
    let (first, second) = document.halves();
    has_several(first, second, to)
}

/// Converts each line end of the document's text to the kind `to`, as `SCI_CONVERTEOLS` does. It inserts what is
/// missing, and then deletes what is unwanted, each from left to right, one byte a step.
///
/// The views that watch the document and hear a step are notified of it, and all that watch follow it. More than one
/// step makes a transaction of their own. There must be room for all steps.
pub fn convert(
    document: &mut Document,
    views: &mut IdTable<View>,
    notes: &mut NoteList,
    to: LineEnd,
)
    requires watched { IsWatched document.old.document views.old }
    requires room { HasRoom (room_of_steps document.old.document.line_end_types (conversion_of to document.old)) document.old }
    requires holds { CanHoldEdit (conversion_of to document.old) (kept_scene document.old views.old notes.old) notes.old }
    ensures scene { kept_scene document.new views.new notes.new ≡ edit_made (conversion_of to document.old) (kept_scene document.old views.old notes.old) }
    ensures watched { IsWatched document.new.document views.new }
    ensures rooms { RoomsStay document.old document.new views.old views.new notes.old notes.new }
{
    if !is_several(document, to) {
        return make_all(document, views, notes, to);
    }
    document.seal_outside_groups();
    make_all(document, views, notes, to);
    document.seal_outside_groups();
}

// Returns what this many steps like this one need, without the notes that the save point is left.
fn need_of_many(
    document: &Document,
    views: &IdTable<View>,
    step: TextStep,
    count: usize,
) -> SceneNeed
    requires fits { IsStepOn step (length document.now.document.cells) }
    requires named { AreNamed views.now.entries }
    ensures notes { result.notes ≡ capped_notes (notes_for_step step.entry document.now views.now * count) (bytes_for_step step.entry document.now views.now * count) }
    ensures document { result.document ≡ capped_room (room_of_many count (need_on document.now step.entry)) }
{
    let notes = note_need(document, views, step);
    let room = document.step_need(step);
    SceneNeed {
        notes: NoteRoom {
            notes: notes.notes.saturating_mul(count),
            bytes: notes.bytes.saturating_mul(count),
        },
        document: DocumentNeed {
            text: room.text.saturating_mul(count),
            lines: room.lines.saturating_mul(count),
            insertions: room.insertions.saturating_mul(count),
            steps: room.steps.saturating_mul(count),
            bytes: room.bytes.saturating_mul(count),
        },
    }
}

// Returns what the insertions need.
fn need_of_insertions(document: &Document, views: &IdTable<View>, to: LineEnd) -> SceneNeed
    requires named { AreNamed views.now.entries }
    ensures notes { result.notes ≡ notes_for_all (missing_from 0 false to (text_of document.now.document)) document.now views.now }
    ensures document { result.document ≡ capped_room (rooms_added document.now.document.line_end_types (missing_from 0 false to (text_of document.now.document))) }
{
    let (first, second) = document.halves();
    let insertion = TextStep::Insert {
        place: 0,
        bytes: b"\n",
    };
    need_of_many(document, views, insertion, count_missing(first, second, to))
}

// Returns what the deletions need.
fn need_of_deletions(document: &Document, views: &IdTable<View>, to: LineEnd) -> SceneNeed
    requires named { AreNamed views.now.entries }
    ensures notes { result.notes ≡ notes_for_all (deletions_of to (text_of document.now.document)) document.now views.now }
    ensures document { result.document ≡ capped_room (rooms_added document.now.document.line_end_types (deletions_of to (text_of document.now.document))) }
{
    let (first, second) = document.halves();
    let count = count_unwanted(first, second, to);
    if count == 0 {
        return SceneNeed {
            notes: NoteRoom::none(),
            document: DocumentNeed::none(),
        };
    }
    let deletion = TextStep::Delete { place: 0, count: 1 };
    need_of_many(document, views, deletion, count)
}

/// Returns what a conversion to this kind of line end needs: nothing if it has no step.
pub fn conversion_need(document: &Document, views: &IdTable<View>, to: LineEnd) -> SceneNeed
    requires named { AreNamed views.now.entries }
    ensures notes { let s = scene_in document.now.document views.now.entries [] in
        result.notes ≡ capped_notes (notes_for (conversion_of to document.now) s) (bytes_needed s (conversion_of to document.now)) }
    ensures document { result.document ≡ capped_room (room_of_steps document.now.document.line_end_types (conversion_of to document.now)) }
{
    let insertions = need_of_insertions(document, views, to);
    let deletions = need_of_deletions(document, views, to);
    let leaving = NoteRoom {
        notes: notes_of_leaving(document, views, to),
        bytes: 0,
    };
    SceneNeed {
        notes: insertions.notes.plus(deletions.notes).plus(leaving),
        document: insertions.document.plus(deletions.document),
    }
}
