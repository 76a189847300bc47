//! Notifies views of a change.

ghost use Rattle.std.specs.Prelude.{◌≡◌, ◌<◌, ◌^◌, [], length};
ghost use Rattle.ed_types.specs.Heard.{with_text};
ghost use Rattle.ed_model.specs.Session.{View as ModelView};
ghost use Rattle.ed_model.specs.Notes.{change_note as note_of_change};
ghost use Rattle.ed_model.specs.Changes.{line_note as note_of_line};
ghost use Rattle.notify.specs.Gathered.{CanPut};
ghost use Rattle.scene.specs.Scenes.{watchers, AreNamed};
ghost use Rattle.scene.specs.Telling.{with_notes};
ghost use Rattle.performing.specs.Notes.{IsFitNote, audience_for, notes_of, notice_of};

use crate::note::ChangeNote;
use document::Document;
use ed_types::Note;
use ed_types::modification::{
    CHANGE_FOLD, CHANGE_INDICATOR, CHANGE_LINE_STATE, CHANGE_MARKER, CHANGE_STYLE, PERFORMED_USER,
};
use ed_types::notification::{MODIFIED, SAVE_POINT_LEFT, SAVE_POINT_REACHED, STYLE_NEEDED};
use ed_view::View;
use id_table::IdTable;
use notify::{NoteList, blank};
use scene::{Audience, NoteText, document_is_small};

/// The kind of the note that a message changed styles.
pub(crate) const STYLE_KIND: u32 = CHANGE_STYLE | PERFORMED_USER;

/// The kind of the note that a message changed an indicator.
pub(crate) const INDICATOR_KIND: u32 = CHANGE_INDICATOR | PERFORMED_USER;

// Returns a note of a change of this kind.
fn change_note(kind: u32) -> Note
    ensures { with_text result [] ≡ note_of_change kind }
{
    let mut note = blank(MODIFIED);
    note.kind = kind;
    note
}

// Returns a note of a change of a line.
fn line_note(kind: u32, line: usize) -> Note
    requires { line < 2 ^ 63 }
    ensures { with_text result [] ≡ note_of_line kind line }
{
    let mut note = change_note(kind);
    note.line = line as i64;
    note
}

// Returns the note that is sent for a change of the document.
fn prepare(document: &Document, note: ChangeNote) -> Note
    requires { IsFitNote document.now.document note }
    ensures { with_text result [] ≡ notice_of document.now.document note }
{
    document_is_small(document);
    match note {
        ChangeNote::Nothing => blank(MODIFIED),
        ChangeNote::SavePointReached => blank(SAVE_POINT_REACHED),
        ChangeNote::SavePointLeft => blank(SAVE_POINT_LEFT),
        ChangeNote::Markers { line } => {
            let mut markers = line_note(CHANGE_MARKER, line);
            markers.position = document.line_start(line) as i64;
            markers
        }
        ChangeNote::AllMarkers => {
            let mut all = change_note(CHANGE_MARKER);
            all.line = -1;
            all
        }
        ChangeNote::Level {
            line,
            level,
            before,
        } => {
            let mut levels = line_note(CHANGE_FOLD, line);
            levels.now = level as i64;
            levels.prev = before as i64;
            levels
        }
        ChangeNote::State { line } => line_note(CHANGE_LINE_STATE, line),
        ChangeNote::Range { kind, start, count } => {
            let mut range = change_note(kind);
            range.position = start as i64;
            range.length = count as i64;
            range
        }
        ChangeNote::StyleNeeded { end } => {
            let mut request = blank(STYLE_NEEDED);
            request.position = end as i64;
            request
        }
    }
}

/// Returns which of the views that watch the document are told.
fn audience_for(note: ChangeNote) -> Audience
    ensures { result ≡ audience_for note }
{
    match note {
        ChangeNote::SavePointReached | ChangeNote::SavePointLeft => Audience::Everyone,
        _ => Audience::Hearers,
    }
}

/// Notifies the views that watch the document and hear of this change, and asks the view `sender` for styles. There
/// must be room for the notes.
pub(crate) fn tell(
    document: &Document,
    views: &IdTable<View>,
    notes: &mut NoteList,
    sender: u32,
    note: ChangeNote,
)
    requires fits { IsFitNote document.now.document note }
    requires named { AreNamed views.now.entries }
    requires room { (v : ModelView) → CanPut (length (notes_of v (watchers document.now.document views.now) document.now.document note)) notes.old }
    ensures { (v : ModelView) → v.id ≡ sender → notes.new ≡ with_notes (notes_of v (watchers document.now.document views.now) document.now.document note) notes.old }
{
    let mut prepared = prepare(document, note);
    match note {
        ChangeNote::Nothing => {}
        ChangeNote::StyleNeeded { .. } => {
            prepared.view = sender;
            notes.put_bare(prepared);
        }
        _ => {
            let audience = audience_for(note);
            scene::tell(document, views, notes, &prepared, audience, NoteText::Empty);
        }
    }
}
