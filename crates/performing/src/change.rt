//! Makes a change of a document, by its kind.

ghost use Rattle.std.specs.Prelude.{◌≡◌, ◌≤◌, ◌⊎◌, List, ℕ, true, false, length, IsOk, OnOk, OnErr};
ghost use Rattle.notify.specs.Gathered.{CanPut};
ghost use Rattle.scene.specs.Scenes.{IsWatched};
ghost use Rattle.performing.specs.Changed.{Changes, IsMade, IsMadeUnheard, IsUnchanged, Makes, ReservesFor, ReservesNotes, TakesMemory};
ghost use Rattle.performing.specs.Fit.{IsFitChange, bytes_read};
ghost use Rattle.performing.specs.ChangeNeeds.{IsReady, change_note_need, is_of_types, needs_room};

use crate::history_changes::append_container;
use crate::marker_changes::{add_marker, add_markers, delete_handle};
use crate::note::{ChangeNote, note_if};
use crate::note_need::{change_note_need, is_told};
use crate::row_changes::{set_level, set_state};
use crate::style_changes::{fill_indicator, need_style, style_bytes, style_run};
use crate::telling::tell;
use crate::type_changes::set_line_end_types;
use document::Document;
use ed_model::DocumentChange;
use ed_view::View;
use id_table::IdTable;
use notify::NoteList;
use std::alloc::{AllocError, Global};

// Makes a change that needs no room. It cannot fail.
fn make_free(document: &mut Document, change: &DocumentChange) -> ChangeNote
    requires fits { IsFitChange document.old.document change.now }
    requires free { needs_room change.now ≡ false }
    ensures { (text : List ℕ) → IsMade text change.now document.old document.new result }
{
    match *change {
        DocumentChange::SetReadOnly { on } => document.set_read_only(on),
        DocumentChange::SetLineEnd { to } => document.set_line_end(to),
        DocumentChange::SetSavePoint => {
            document.set_save_point();
            return ChangeNote::SavePointReached;
        }
        DocumentChange::BeginGroup => document.begin_group(),
        DocumentChange::EndGroup => document.end_group(),
        DocumentChange::ForgetHistory => document.forget_history(),
        DocumentChange::CollectUndo { on } => document.set_collecting(on),
        DocumentChange::SetEndStyled { place } => document.set_end_styled(place),
        DocumentChange::DeleteMarker { line, number } => {
            let changed = document.delete_marker(line, number);
            return note_if(changed, ChangeNote::Markers { line });
        }
        DocumentChange::DeleteMarkers { number } => {
            let changed = document.delete_markers(number);
            return note_if(changed, ChangeNote::AllMarkers);
        }
        DocumentChange::DeleteHandle { handle } => return delete_handle(document, handle),
        DocumentChange::NeedStyle { start, end } => return need_style(document, start, end),
        _ => {}
    }
    ChangeNote::Nothing
}

// Makes a change of the document alone, and returns what there is to tell of it.
fn make(
    document: &mut Document,
    text: &[u8],
    change: &DocumentChange,
) -> Result<ChangeNote, AllocError>
    requires fits { IsFitChange document.old.document change.now }
    requires text { bytes_read change.now ≤ length text.now }
    requires alone { is_of_types change.now ≡ false }
    ensures { Makes text.now change.now document.old document.new result }
{
    match *change {
        DocumentChange::AppendContainer { token, coalesce } => {
            append_container(document, token, coalesce)
        }
        DocumentChange::AddMarker { line, number } => add_marker(document, line, number),
        DocumentChange::AddMarkers { line, mask } => add_markers(document, line, mask),
        DocumentChange::SetLevel { line, level } => set_level(document, line, level),
        DocumentChange::SetState { line, state } => set_state(document, line, state),
        DocumentChange::StyleRun { count, style } => style_run(document, count, style),
        DocumentChange::StyleBytes { count } => style_bytes(document, text, count),
        DocumentChange::FillIndicator {
            indicator,
            start,
            count,
            value,
        } => fill_indicator(document, indicator, start, count, value),
        _ => Ok(make_free(document, change)),
    }
}

/// Makes a change of the document, and notifies the views that watch and hear it. A request for styles notifies only
/// the view whose id is `sender`. If other line ends count, the flags of the views follow the lines.
///
/// Allocates only what the change and its notes need, and nothing if there is room for them. A history that is
/// forgotten holds no memory afterwards, and a fill may drop runs of its indicator.
///
/// # Errors
///
/// `AllocError` if an allocation fails. The document, the views and the notes are then as they were, except that more
/// may fit in.
pub fn change_document(
    alloc: Global,
    document: &mut Document,
    views: &mut IdTable<View>,
    notes: &mut NoteList,
    sender: u32,
    text: &[u8],
    change: &DocumentChange,
) -> Result<(), AllocError>
    requires fits { IsFitChange document.old.document change.now }
    requires text { bytes_read change.now ≤ length text.now }
    requires watched { IsWatched document.old.document views.old }
    ensures changed { OnOk result (Changes text.now change.now sender document.old document.new views.old views.new notes.old notes.new) }
    ensures memory { OnOk result (TakesMemory change.now document.old document.new) }
    ensures same { OnErr result (IsUnchanged change.now document.old document.new views.old views.new notes.old notes.new) }
    ensures notes { ReservesNotes (change_note_need change.now document.old views.old) notes.old notes.new }
    ensures free { needs_room change.now ≡ false → change_note_need change.now document.old views.old ≡ 0 → IsOk result }
    ensures room_is_there { IsReady change.now document.old → CanPut (change_note_need change.now document.old views.old) notes.old → IsOk result }
{
    if let DocumentChange::SetLineEndTypes { to } = *change {
        return set_line_end_types(alloc, document, views, to);
    }
    // States that what the list holds fits in.
    notes.fits_in();
    notes.reserve(change_note_need(document, views, change), 0)?;
    let note = make(document, text, change)?;
    // No view listens, so no note is prepared.
    if notes.is_full() {
        return Ok(());
    }
    tell(document, views, notes, sender, note);
    Ok(())
}

/// Makes a change of the document if no view hears it and it is not which line ends count, and returns whether it did.
/// No list of notifications is set up. Allocates as `change_document` does. If it does not make the change, also since
/// an allocation fails, nothing changes, except that more may fit in.
pub fn change_unheard(
    document: &mut Document,
    views: &IdTable<View>,
    text: &[u8],
    change: &DocumentChange,
) -> bool
    requires fits { IsFitChange document.old.document change.now }
    requires text { bytes_read change.now ≤ length text.now }
    requires watched { IsWatched document.old.document views.now }
    ensures made { result ≡ true → IsMadeUnheard text.now change.now document.old document.new views.now }
    ensures memory { result ≡ true → TakesMemory change.now document.old document.new }
    ensures room_is_there { is_of_types change.now ≡ false → change_note_need change.now document.old views.now ≡ 0 → IsReady change.now document.old → result ≡ true }
    ensures same { result ≡ false → document.new.document ≡ document.old.document }
    ensures reserved { result ≡ false → (document.new ≡ document.old) ⊎ ReservesFor change.now document.old document.new }
{
    if let DocumentChange::SetLineEndTypes { .. } = *change {
        return false;
    }
    if is_told(document, views, change) {
        return false;
    }
    make(document, text, change).is_ok()
}
