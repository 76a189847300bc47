//! The note of a message that is recorded.

ghost use Rattle.std.specs.Prelude.{◌≡◌, ◌++◌, [], ◌∷◌, false, OnOk, IsOk};
ghost use Rattle.editor_session.specs.Planned.{first_note, recording};

use ed_types::notification::MACRO_RECORD;
use message_requests::SentMessage;
use notify::{NoteList, blank};
use std::alloc::AllocError;

/// Appends the note of `message`, which `view` records.
///
/// # Errors
///
/// `AllocError` if an allocation fails.
fn record(view: u32, message: &SentMessage, notes: &mut NoteList) -> Result<(), AllocError>
    ensures note { OnOk result (notes.new.notes ≡ notes.old.notes ++ recording view message.now ∷ []) }
{
    notes.reserve(1, message.text.len())?;
    let mut note = blank(MACRO_RECORD);
    note.view = view;
    note.message = message.number;
    note.w = message.w;
    note.l = message.l;
    notes.put(note, message.text);
    Ok(())
}

/// Like `record` if the message is recorded; otherwise does nothing. Inlined with its caller, `perform_message`.
///
/// # Errors
///
/// `AllocError` if an allocation fails.
#[inline(always)]
pub(crate) fn record_if(
    is_recorded: bool,
    view: u32,
    message: &SentMessage,
    notes: &mut NoteList,
) -> Result<(), AllocError>
    ensures notes { OnOk result (notes.new.notes ≡ notes.old.notes ++ first_note is_recorded view message.now) }
    ensures free { is_recorded ≡ false → IsOk result }
{
    if is_recorded {
        return record(view, message, notes);
    }
    Ok(())
}
