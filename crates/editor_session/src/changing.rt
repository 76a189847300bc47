//! Changes of the document and the view other than edits of the text; and attempts to edit a read-only document. If an allocation fails, nothing has changed.

ghost use Rattle.editor_session.specs.Documents.{OfDocument};
ghost use Rattle.ed_model.specs.Notes.{blank as blank_note, modify_attempt, told as notes_told};
ghost use Rattle.std.specs.Prelude.{[], pos, ◌++◌, ◌≡◌, true, false, OnOk, OnErr, IsOk, IsSome};
ghost use Rattle.ed_model.specs.declared.plan.Plan.TheVariants.{ChangeDocument, ChangeView};
ghost use Rattle.ed_model.specs.Performing.{quiet};
ghost use Rattle.performing.specs.Asked.{performed_at};
ghost use Rattle.id_table.specs.Entries.{value_at};
ghost use Rattle.scene.specs.Scenes.{watchers};
ghost use Rattle.performing.specs.Kept.{IsKept};
ghost use Rattle.editor_session.specs.Performing.{CanPerform, IsPerformed, request_of};
ghost use Rattle.editor_session.specs.Plans.{needs_no_memory};

use crate::perform::Task;
use crate::session::Session;
use ed_model::{DocumentChange, ViewChange, plans_are_fit};
use message_requests::SessionState;
use notify::NoteList;
use performing::{change_document, change_unheard, change_view};
use scene::attempt;
use std::alloc::AllocError;

/// Makes `change` in the document, with its notes.
///
/// # Errors
///
/// `AllocError` if an allocation fails. The session is then as it was.
pub(crate) fn perform_change(
    session: &mut Session,
    task: &Task,
    change: &DocumentChange,
    notes: &mut NoteList,
) -> Result<(), AllocError>
    requires can { CanPerform session.old task.now.document task.now.view task.now.message.now (ChangeDocument change.now (pos 0)) }
    ensures done { OnOk result (IsPerformed session.old task.now.view task.now.message.now.text (ChangeDocument change.now (pos 0)) session.new notes.old.notes notes.new.notes (pos 0) []) }
    ensures same { OnErr result (session.new ≡ session.old) }
    ensures free { needs_no_memory (request_of session.old task.now.view task.now.message.now) (ChangeDocument change.now (pos 0)) ≡ true → IsOk result }
{
    // States that performing a plan keeps the session sound.
    plans_are_fit();
    let SessionState {
        documents,
        views,
        ..
    } = &mut session.state;
    let document = documents.at_mut(task.document);
    let message = task.message;
    change_document(
        session.alloc,
        document,
        views,
        notes,
        task.view,
        message.text,
        change,
    )?;
    Ok(())
}

/// Makes `change` in the document, if no view hears it. Returns whether it did; nothing has changed otherwise, also if an allocation fails.
pub(crate) fn perform_unheard_change(
    session: &mut Session,
    task: &Task,
    change: &DocumentChange,
) -> bool
    requires can { CanPerform session.old task.now.document task.now.view task.now.message.now (ChangeDocument change.now (pos 0)) }
    ensures done { result ≡ true → IsPerformed session.old task.now.view task.now.message.now.text (ChangeDocument change.now (pos 0)) session.new [] [] (pos 0) [] }
    ensures same { result ≡ false → session.new ≡ session.old }
{
    // States that performing a plan keeps the session sound.
    plans_are_fit();
    let SessionState {
        documents,
        views,
        ..
    } = &mut session.state;
    let document = documents.at_mut(task.document);
    let message = task.message;
    change_unheard(document, views, message.text, change)
}

/// Makes a change of the view. No view is notified of it.
///
/// # Errors
///
/// `AllocError` if an allocation fails. The session is then as it was.
pub(crate) fn perform_view_change(
    session: &mut Session,
    task: &Task,
    change: ViewChange,
) -> Result<(), AllocError>
    requires can { CanPerform session.old task.now.document task.now.view task.now.message.now (ChangeView change (pos 0)) }
    ensures done { OnOk result (performed_at session.old task.now.view task.now.message.now.text (ChangeView change (pos 0)) ≡ (session.new, quiet (pos 0))) }
    ensures same { OnErr result (session.new ≡ session.old) }
    ensures free { needs_no_memory (request_of session.old task.now.view task.now.message.now) (ChangeView change (pos 0)) ≡ true → IsOk result }
{
    // States that performing a plan keeps the session sound.
    plans_are_fit();
    change_view(&mut session.state, task.document, task.view, change)?;
    Ok(())
}

/// Notifies the listening views of this document of an attempt to edit it while it is read-only.
///
/// # Errors
///
/// `AllocError` if an allocation fails.
pub(crate) fn perform_attempt(
    state: &SessionState,
    document: u32,
    notes: &mut NoteList,
) -> Result<(), AllocError>
    requires kept { IsKept state.now }
    requires there { IsSome (value_at state.now.documents.entries document) }
    ensures told { OnOk result (OfDocument state.now.documents document (λ k. notes.new.notes ≡ notes.old.notes ++ notes_told (watchers k.document state.now.views) (blank_note modify_attempt))) }
{
    let document = state.documents.at(document);
    notes.reserve(document.views().len(), 0)?;
    attempt(document, &state.views, notes);
    Ok(())
}
