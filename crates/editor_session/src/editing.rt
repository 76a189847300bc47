//! Edits of the text: room is made for all of an edit, and then it is made, with what follows it.

ghost use Rattle.ed_model.specs.Session.{text_of};
ghost use Rattle.std.specs.Prelude.{◌≡◌, [], pos, true, false, length, OnOk, OnErr, IfOk, IsOk, IsSome};
ghost use Rattle.ed_model.specs.declared.plan.Plan.TheVariants as plan;
ghost use Rattle.ed_model.specs.LineEnds.{converted};
ghost use Rattle.id_table.specs.Entries.{value_at};
ghost use Rattle.scene.specs.Scenes.{IsWatched, KeepWidths};
ghost use Rattle.performing.specs.Edits.{MakesEdit};
ghost use Rattle.performing.specs.Widths.{StepsFitWidth};
ghost use Rattle.editor_session.specs.Edits.{taken_along, IsPastedFor, IsEditWithin, TakesWithin, is_turned, clipboard_need, edit_steps};
ghost use Rattle.editor_session.specs.Documents.{OfDocument, HasDocument};
ghost use Rattle.editor_session.specs.Performing.{CanPerform, IsPerformed, request_of};
ghost use Rattle.editor_session.specs.Plans.{needs_no_memory};

use crate::edits::{follow_edit, source_bytes};
use crate::perform::Task;
use crate::session::Session;
use document::Document;
use ed_model::{Edit, Follow, LineEnd, Source, plans_are_fit};
use ed_view::View;
use id_table::IdTable;
use line_ends::{convert_into, converted_len};
use message_requests::SessionState;
use notify::NoteList;
use performing::{convert_with_room, replace_with_room};
use std::alloc::{AllocError, Global};

/// Makes room for an edit, and makes its steps. `pasted` is the clipboard with the document's line ends, if the edit
/// inserts that.
///
/// # Errors
///
/// Those of `replace_with_room`.
fn edit_with_room(
    document: &mut Document,
    views: &mut IdTable<View>,
    notes: &mut NoteList,
    text: &[u8],
    clipboard: &[u8],
    pasted: &[u8],
    edit: Edit,
) -> Result<(), AllocError>
    requires within { IsEditWithin edit (length document.old.document.cells) (length text.now) }
    requires wide { StepsFitWidth document.old.document (edit_steps edit text.now clipboard.now pasted.now document.old.document) }
    requires watched { IsWatched document.old.document views.old }
    ensures scene { let steps = edit_steps edit text.now clipboard.now pasted.now document.old.document in
        OnOk result (MakesEdit steps document.old views.old notes.old document.new views.new notes.new) }
    ensures same { OnErr result (document.new.document ≡ document.old.document) }
    ensures same_views { OnErr result (views.new ≡ views.old) }
    ensures id { document.new.document.id ≡ document.old.document.id }
    ensures watched { IsWatched document.new.document views.new }
    ensures next { views.new.next ≡ views.old.next }
    ensures widths { KeepWidths views.old views.new }
    ensures free { edit_steps edit text.now clipboard.now pasted.now document.old.document ≡ [] → IsOk result }
{
    match edit {
        Edit::Replace {
            start,
            count,
            source,
        } => {
            let line_end = document.typed_line_end();
            let bytes = source_bytes(source, text, clipboard, pasted, line_end);
            replace_with_room(document, views, notes, start, count, bytes)
        }
        Edit::ConvertLineEnds { to } => convert_with_room(document, views, notes, to),
    }
}

/// Returns whether an edit inserts the clipboard with the document's line ends.
fn is_turned(edit: Edit) -> bool
    ensures { result ≡ is_turned edit }
{
    matches!(
        edit,
        Edit::Replace {
            source: Source::Clipboard { convert: true },
            ..
        }
    )
}

/// Returns the clipboard with line ends of this kind.
///
/// # Errors
///
/// `AllocError` if an allocation fails.
fn converted_clipboard(
    alloc: Global,
    clipboard: &[u8],
    line_end: LineEnd,
) -> Result<Vec<u8>, AllocError>
    ensures converted { IfOk result (λ bytes. bytes.items ≡ converted line_end clipboard.now) }
    ensures free { converted line_end clipboard.now ≡ [] → IsOk result }
{
    let mut bytes = Vec::with_capacity(alloc, converted_len(clipboard, line_end))?;
    convert_into(clipboard, line_end, &mut bytes);
    Ok(bytes)
}

/// Returns the clipboard with the line ends of the document with this id, if the edit inserts that; otherwise nothing.
///
/// # Errors
///
/// `AllocError` if an allocation fails.
fn pasted_bytes(
    alloc: Global,
    state: &SessionState,
    document: u32,
    edit: Edit,
) -> Result<Vec<u8>, AllocError>
    requires there { IsSome (value_at state.now.documents.entries document) }
    ensures pasted { IfOk result (λ bytes. OfDocument state.now.documents document (λ k. IsPastedFor edit state.now.clipboard.items k.document.line_end bytes.items)) }
    ensures free { is_turned edit ≡ false → IsOk result }
    ensures empty { OfDocument state.now.documents document (λ k. converted k.document.line_end state.now.clipboard.items ≡ [] → IsOk result) }
{
    if !is_turned(edit) {
        return Ok(Vec::new(alloc));
    }
    let document = state.documents.at(document);
    converted_clipboard(alloc, &state.clipboard, document.typed_line_end())
}

/// Returns the bytes of the document with this id that an edit takes to the clipboard, or nothing.
///
/// # Errors
///
/// `AllocError` if an allocation fails.
fn taken_bytes(
    alloc: Global,
    state: &SessionState,
    document: u32,
    follow: Follow,
) -> Result<Vec<u8>, AllocError>
    requires can { HasDocument state.now.documents document (λ k. TakesWithin follow (length k.document.cells)) }
    ensures taken { IfOk result (λ bytes. OfDocument state.now.documents document (λ k. bytes.items ≡ taken_along follow (text_of k.document))) }
    ensures free { clipboard_need follow ≡ 0 → IsOk result }
{
    let Follow::Clipboard { start, count } = follow else {
        return Ok(Vec::new(alloc));
    };
    let document = state.documents.at(document);
    document.text_to_vec(alloc, start, count, 0)
}

/// Makes an edit of the document, and then does what follows it.
///
/// # Errors
///
/// `AllocError` if an allocation fails. The session is then as it was.
pub(crate) fn perform_edit(
    session: &mut Session,
    task: &Task,
    edit: Edit,
    follow: Follow,
    notes: &mut NoteList,
) -> Result<(), AllocError>
    requires can { CanPerform session.old task.now.document task.now.view task.now.message.now (plan.Edit edit (pos 0) follow) }
    ensures done { OnOk result (IsPerformed session.old task.now.view task.now.message.now.text (plan.Edit edit (pos 0) follow) session.new notes.old.notes notes.new.notes (pos 0) []) }
    ensures same { OnErr result (session.new ≡ session.old) }
    ensures free { needs_no_memory (request_of session.old task.now.view task.now.message.now) (plan.Edit edit (pos 0) follow) ≡ true → IsOk result }
{
    // States that the steps of an edit fit the text and its limit, and that performing a plan keeps the session sound.
    plans_are_fit();
    let pasted = pasted_bytes(session.alloc, &session.state, task.document, edit)?;
    let taken = taken_bytes(session.alloc, &session.state, task.document, follow)?;
    let SessionState {
        documents,
        views,
        clipboard,
        ..
    } = &mut session.state;
    let document = documents.at_mut(task.document);
    let message = task.message;
    edit_with_room(
        document,
        views,
        notes,
        message.text,
        clipboard,
        &pasted,
        edit,
    )?;
    follow_edit(views, clipboard, task.view, follow, taken);
    Ok(())
}
