//! Undo and redo: performs a transaction, and computes what that needs.

ghost use Rattle.std.specs.Prelude.{◌≡◌, ◌+◌, ◌<◌, ◌-◌, ◌==◌, ◌&&◌, ◌||◌, bit_and, nat_lt, length, not};
ghost use Rattle.ed_model.specs.History.{Change};
ghost use Rattle.ed_model.specs.Performing.{save_point_change};
ghost use Rattle.ed_model.specs.Session.{text_of};
ghost use Rattle.notify.specs.Gathered.{CanPut, CanShare, is_full};
ghost use Rattle.document.specs.Kept.{HasTextRoom};
ghost use Rattle.document.specs.Undoing.{changes_of, is_other, need_of_change, outline_of, save_point_told};
ghost use Rattle.scene.specs.Scenes.{watchers, AreNamed, IsWatched, RoomsStay, kept_scene};
ghost use Rattle.scene.specs.Hearing.{masks_of};
ghost use Rattle.scene.specs.Telling.{with_notes};
ghost use Rattle.scene.specs.Undoing.{bits_of, every_kind, free_behind, save_point_notes, capped_room, place_by, IsNoteNeed, history_bytes, history_caret, history_note_need, history_notes, history_room};
ghost use Rattle.scene.specs.Turns.{turn_of, ChangeFits};
ghost use Rattle.scene.specs.Performed.{CanPerformAll, AreAllPerformed, HistoryFits, scene_gone};

use crate::need::{NoteRoom, SceneNeed, told_need};
use crate::performing::{Turn, kinds_of, kinds_of_all, perform_change};
use crate::telling::{Audience, NoteText, count_hearers, survey, tell};
use document::{ChangeOutline, Direction, Document, DocumentNeed};
use ed_model::positions_after_a_step;
use ed_types::notification::{SAVE_POINT_LEFT, SAVE_POINT_REACHED};
use ed_view::View;
use id_table::IdTable;
use notify::{NoteList, blank};

// Returns the turn of the change at `index`, of `count` changes.
fn turn_at(direction: Direction, index: usize, count: usize) -> Turn
    requires { index < count }
    ensures { result ≡ turn_of direction index count }
{
    Turn {
        direction,
        index,
        several: count > 1,
        last: index + 1 == count,
    }
}

// Returns whether no view that watches is known to hear any of the changes, so that none has to be asked at each
// change. It is so if no more notes fit in, or if there are several changes and no mask has a bit of their kinds. For one change the masks are not read.
fn is_quiet(
    document: &Document,
    views: &IdTable<View>,
    notes: &NoteList,
    direction: Direction,
    count: usize,
) -> bool
    requires named { AreNamed views.now.entries }
    ensures { result ≡ (is_full notes.now || (nat_lt 1 count && (bit_and (masks_of (watchers document.now.document views.now)) (every_kind (bits_of direction)) == 0))) }
{
    notes.is_full() || (count > 1 && survey(document, views).masks & kinds_of_all(direction) == 0)
}

// Returns where the caret goes by a change of this outline, for which there is room: behind an insertion, or where a
// deletion was made. A container's step leaves it where the earlier changes put it.
fn caret_by(document: &Document, outline: ChangeOutline, before: Option<usize>) -> Option<usize>
    requires can { (change : Change) × (outline ≡ outline_of change) × ChangeFits change (text_of document.now.document)
        × HasTextRoom (need_of_change document.now.document.line_end_types change) document.now }
    ensures { result ≡ place_by outline before }
{
    match outline {
        ChangeOutline::Insert { place, count } => Some(place + count),
        ChangeOutline::Delete { place, .. } => Some(place),
        ChangeOutline::Container { .. } => before,
    }
}

// Performs the changes one after the other, and returns where the caret goes, if one of them is a step of the text.
// Does not change the history.
fn perform_changes(
    document: &mut Document,
    views: &mut IdTable<View>,
    notes: &mut NoteList,
    direction: Direction,
) -> Option<usize>
    requires can { CanPerformAll direction document.old views.old notes.old }
    ensures all { AreAllPerformed direction document.old views.old notes.old document.new views.new notes.new }
    ensures caret { result ≡ history_caret direction document.old }
{
    positions_after_a_step();
    let count = document.change_count(direction);
    let quiet = is_quiet(document, views, notes, direction, count);
    let mut lines_changed = false;
    let mut caret = None;
    for index in 0..count {
        let turn = turn_at(direction, index, count);
        let outline = document.change_outline(direction, index);
        caret = caret_by(document, outline, caret);
        lines_changed = perform_change(document, views, notes, turn, outline, quiet, lines_changed);
    }
    caret
}

// Tells each view that watches that the save point is reached, if the document `is_there`, or that it is left. Out of
// line, so that the hot path does not prepare a note.
#[inline(never)]
fn put_save_point(document: &Document, views: &IdTable<View>, notes: &mut NoteList, is_there: bool)
    requires named { AreNamed views.now.entries }
    requires room { CanPut (length (watchers document.now.document views.now)) notes.old }
    ensures { notes.new ≡ with_notes (save_point_change (watchers document.now.document views.now) (not is_there) is_there) notes.old }
{
    let code = if is_there {
        SAVE_POINT_REACHED
    } else {
        SAVE_POINT_LEFT
    };
    let note = blank(code);
    tell(
        document,
        views,
        notes,
        &note,
        Audience::Everyone,
        NoteText::Empty,
    );
}

// Tells each view that watches if the save point is reached or left.
fn tell_save_point(
    document: &Document,
    views: &IdTable<View>,
    notes: &mut NoteList,
    was_there: bool,
    is_there: bool,
)
    requires named { AreNamed views.now.entries }
    requires room { CanPut (save_point_notes (is_other was_there is_there) (length (watchers document.now.document views.now))) notes.old }
    ensures { notes.new ≡ with_notes (save_point_change (watchers document.now.document views.now) was_there is_there) notes.old }
{
    if was_there == is_there {
        return;
    }
    put_save_point(document, views, notes, is_there);
}

/// Performs undo or redo (`SCI_UNDO`, `SCI_REDO`).
///
/// The changes of the transaction are performed one after the other. The views that watch and hear a change are
/// notified of it, and all that watch follow it. Then all that watch are told if the save point is reached or left.
/// There must be room for all of it.
///
/// Returns where the caret of the sending view goes, and does not move it: behind what the latest step of the text
/// inserts, or where that step deletes; `None` if no change is a step of the text.
pub fn perform_history(
    document: &mut Document,
    views: &mut IdTable<View>,
    notes: &mut NoteList,
    direction: Direction,
) -> Option<usize>
    requires steps { HistoryFits direction document.old }
    requires room { HasTextRoom (history_room direction document.old) document.old }
    requires watched { IsWatched document.old.document views.old }
    requires notes { CanPut (history_notes direction document.old views.old) notes.old }
    requires texts { CanShare (history_bytes direction document.old views.old) notes.old }
    ensures scene { kept_scene document.new views.new notes.new ≡ scene_gone direction views.old notes.old document.old }
    ensures caret { result ≡ history_caret direction document.old }
    ensures watched { IsWatched document.new.document views.new }
    ensures rooms { RoomsStay document.old document.new views.old views.new notes.old notes.new }
    ensures held { notes.new.held ≡ notes.old.held + history_bytes direction document.old views.old }
{
    let was_there = document.history().is_at_save_point();
    let caret = perform_changes(document, views, notes, direction);
    document.finish_history(direction);
    let is_there = document.history().is_at_save_point();
    tell_save_point(document, views, notes, was_there, is_there);
    caret
}

// Returns the notes that a change of this outline needs, if some view that watches hears one of its kinds.
#[inline(never)]
fn heard_change_need(
    document: &Document,
    views: &IdTable<View>,
    direction: Direction,
    outline: ChangeOutline,
) -> NoteRoom
    requires named { AreNamed views.now.entries }
    ensures { IsNoteNeed direction outline document.now views.now result }
{
    let kinds = kinds_of(direction, outline);
    match outline {
        ChangeOutline::Insert { count, .. } => told_need(document, views, kinds, count),
        ChangeOutline::Delete { count, .. } => told_need(document, views, kinds, count),
        ChangeOutline::Container { .. } => NoteRoom {
            notes: count_hearers(document, views, kinds),
            bytes: 0,
        },
    }
}

// Returns the notes that a change of this outline needs. `masks` has the joined masks of the views that watch, so that
// usually none of them is asked.
fn change_note_need(
    document: &Document,
    views: &IdTable<View>,
    direction: Direction,
    outline: ChangeOutline,
    masks: u32,
) -> NoteRoom
    requires named { AreNamed views.now.entries }
    requires masks { masks ≡ masks_of (watchers document.now.document views.now) }
    ensures { IsNoteNeed direction outline document.now views.now result }
{
    if masks & kinds_of(direction, outline) == 0 {
        return NoteRoom::none();
    }
    heard_change_need(document, views, direction, outline)
}

// Returns how many bytes are free after a change, with `free` before it: insertions use them, and deletions add theirs.
fn free_behind(free: usize, change: ChangeOutline) -> usize
    ensures { (c : Change) → change ≡ outline_of c → result ≡ free_behind free c }
{
    match change {
        ChangeOutline::Insert { count, .. } => free.saturating_sub(count),
        ChangeOutline::Delete { count, .. } => free.saturating_add(count),
        ChangeOutline::Container { .. } => free,
    }
}

// Returns what is needed if `free` bytes are free.
fn beside(free: usize, need: DocumentNeed) -> DocumentNeed
    ensures { result ≡ record need { text = need.text - free } }
{
    DocumentNeed {
        text: need.text.saturating_sub(free),
        ..need
    }
}

// Returns how many notes say that the save point is reached or left, for `count` views: none if it is neither.
fn save_point_need(document: &Document, direction: Direction, count: usize) -> usize
    ensures { result ≡ save_point_notes (save_point_told direction document.now.document.history) count }
{
    if document.is_save_point_told(direction) {
        count
    } else {
        0
    }
}

// Returns what undo or redo of a single change needs, without a loop.
fn need_of_one(document: &Document, views: &IdTable<View>, direction: Direction) -> SceneNeed
    requires named { AreNamed views.now.entries }
    requires one { length (changes_of direction document.now.document.history) ≡ 1 }
    ensures notes { result.notes ≡ history_note_need direction document.now views.now }
    ensures document { result.document ≡ capped_room (history_room direction document.now) }
{
    let watched = survey(document, views);
    let (outline, room) = document.change_with_need(direction, 0);
    let notes = change_note_need(document, views, direction, outline, watched.masks);
    let told = NoteRoom {
        notes: save_point_need(document, direction, watched.count),
        bytes: 0,
    };
    SceneNeed {
        notes: notes.plus(told),
        document: DocumentNeed::none().plus(room),
    }
}

/// Returns what undo or redo needs at most. Deleted bytes are there for later insertions.
#[inline(always)]
pub fn history_need(document: &Document, views: &IdTable<View>, direction: Direction) -> SceneNeed
    requires named { AreNamed views.now.entries }
    ensures notes { result.notes ≡ history_note_need direction document.now views.now }
    ensures document { result.document ≡ capped_room (history_room direction document.now) }
{
    let count = document.change_count(direction);
    if count == 1 {
        return need_of_one(document, views, direction);
    }
    let watched = survey(document, views);
    let mut need = SceneNeed {
        notes: NoteRoom {
            notes: save_point_need(document, direction, watched.count),
            bytes: 0,
        },
        document: DocumentNeed::none(),
    };
    let mut free = 0;
    for index in 0..count {
        let (outline, room) = document.change_with_need(direction, index);
        let notes = change_note_need(document, views, direction, outline, watched.masks);
        need = SceneNeed {
            notes: need.notes.plus(notes),
            document: need.document.plus(beside(free, room)),
        };
        free = free_behind(free, outline);
    }
    need
}
