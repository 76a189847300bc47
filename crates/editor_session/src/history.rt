//! Undo and redo in a document of the session.

ghost use Rattle.std.specs.Prelude.{◌≡◌, pos, [], OnOk, OnErr};
ghost use Rattle.editor_session.specs.Performing.{CanPerform, IsPerformed, going};

use crate::edits::move_caret;
use crate::perform::Task;
use crate::session::Session;
use document::Direction;
use ed_model::plans_are_fit;
use message_requests::SessionState;
use notify::NoteList;
use performing::go_with_room;
use std::alloc::AllocError;

/// Performs UNDO or REDO in the document, and then moves the caret of the view behind the last step.
///
/// # Errors
///
/// `AllocError` if an allocation fails. The session is then as it was.
pub(crate) fn perform_transaction(
    session: &mut Session,
    task: &Task,
    direction: Direction,
    notes: &mut NoteList,
) -> Result<(), AllocError>
    requires can { CanPerform session.old task.now.document task.now.view task.now.message.now (going direction) }
    ensures done { OnOk result (IsPerformed session.old task.now.view task.now.message.now.text (going direction) session.new notes.old.notes notes.new.notes (pos 0) []) }
    ensures same { OnErr result (session.new ≡ session.old) }
{
    // States that the steps of undo and redo fit the text, and that performing a plan keeps the session sound.
    plans_are_fit();
    let SessionState {
        documents,
        views,
        ..
    } = &mut session.state;
    let document = documents.at_mut(task.document);
    let place = go_with_room(document, views, notes, direction)?;
    move_caret(views, task.view, place);
    Ok(())
}
