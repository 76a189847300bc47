//! The number of notes that a change needs.

ghost use Rattle.std.specs.Prelude.{◌≡◌, None, nat_lt};
ghost use Rattle.scene.specs.Scenes.{AreNamed};
ghost use Rattle.performing.specs.ChangeNeeds.{change_note_need, heard_kind};

use crate::telling::{INDICATOR_KIND, STYLE_KIND};
use document::Document;
use ed_model::DocumentChange;
use ed_types::modification::{CHANGE_FOLD, CHANGE_LINE_STATE, CHANGE_MARKER};
use ed_view::View;
use id_table::IdTable;
use scene::{count_hearers, count_watchers, is_heard, leaving_need};

/// Returns the kind of the notes of a change, if the views that hear of that kind get one each; `None` for all other changes.
fn heard_kind(change: &DocumentChange) -> Option<u32>
    ensures { result ≡ heard_kind change.now }
{
    match *change {
        DocumentChange::AddMarker { .. }
        | DocumentChange::AddMarkers { .. }
        | DocumentChange::DeleteMarker { .. }
        | DocumentChange::DeleteMarkers { .. }
        | DocumentChange::DeleteHandle { .. } => Some(CHANGE_MARKER),
        DocumentChange::SetLevel { .. } => Some(CHANGE_FOLD),
        DocumentChange::SetState { .. } => Some(CHANGE_LINE_STATE),
        DocumentChange::StyleRun { .. } | DocumentChange::StyleBytes { .. } => Some(STYLE_KIND),
        DocumentChange::FillIndicator { .. } => Some(INDICATOR_KIND),
        _ => None,
    }
}

// The same as `change_note_need` for changes that have no such kind.
fn other_note_need(document: &Document, views: &IdTable<View>, change: &DocumentChange) -> usize
    requires named { AreNamed views.now.entries }
    requires other { heard_kind change.now ≡ None }
    ensures { result ≡ change_note_need change.now document.now views.now }
{
    match *change {
        DocumentChange::SetSavePoint => count_watchers(document, views),
        DocumentChange::AppendContainer { .. } => leaving_need(document, views),
        DocumentChange::NeedStyle { .. } => 1,
        _ => 0,
    }
}

/// Returns how many notes a change of the document has at most. They have no text.
pub(crate) fn change_note_need(
    document: &Document,
    views: &IdTable<View>,
    change: &DocumentChange,
) -> usize
    requires named { AreNamed views.now.entries }
    ensures { result ≡ change_note_need change.now document.now views.now }
{
    match heard_kind(change) {
        Some(kind) => count_hearers(document, views, kind),
        None => other_note_need(document, views, change),
    }
}

/// Returns whether a change of the document may have notes.
pub(crate) fn is_told(document: &Document, views: &IdTable<View>, change: &DocumentChange) -> bool
    requires named { AreNamed views.now.entries }
    ensures { result ≡ nat_lt 0 (change_note_need change.now document.now views.now) }
{
    match heard_kind(change) {
        Some(kind) => is_heard(document, views, kind),
        None => other_note_need(document, views, change) > 0,
    }
}
