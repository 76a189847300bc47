//! Opening and closing views.

ghost use Rattle.std.specs.Prelude.{◌≡◌, ◌<◌, ◌+◌, ◌^◌, Ok, Err, OnOk, OnErr, IfOk, IfErr, true};
ghost use Rattle.ed_model.specs.Session.{is_large, new_view, new_document, view_at};
ghost use Rattle.ed_model.specs.Table.{opened, closed};
ghost use Rattle.message_requests.specs.Requested.{documents_in, session_in};
ghost use Rattle.scene.specs.Scenes.{AreNamed, HaveWidths};
ghost use Rattle.performing.specs.Kept.{IsKept, DocumentsAreNamed};
ghost use Rattle.editor_session.specs.Opening.{document_for, with_view_on_new};

use document::Document;
use document_table::the_living_are_left;
use ed_types::Refusal;
use ed_view::View;
use message_requests::SessionState;
use std::alloc::{AllocError, Global};

/// Returns a new view with this id, attached to a new document with that id and no text, and the document.
///
/// # Errors
///
/// `AllocError` if an allocation fails.
fn make_view(alloc: Global, document: u32, view: u32) -> Result<(Document, View), AllocError>
    ensures made { IfOk result (λ made. (made.0.document ≡ document_for view document) × (made.1.view ≡ new_view view (new_document document 0))) }
    ensures width { IfOk result (λ made. made.1.large ≡ is_large made.0.document) }
{
    let mut made = Document::new(alloc, document, 0)?;
    made.reserve_view()?;
    made.attach_reserved(view);
    let view = View::new(alloc, view, document, made.line_count(), made.is_large());
    Ok((made, view))
}

/// Opens a view on a new document. There must be ids left for both.
///
/// # Errors
///
/// `AllocError` if an allocation fails. The session is then as it was.
pub(crate) fn open(alloc: Global, state: &mut SessionState) -> Result<u32, AllocError>
    requires document_ids { state.old.documents.next + 1 < 2 ^ 32 }
    requires view_ids { state.old.views.next + 1 < 2 ^ 32 }
    requires kept { IsKept state.old }
    ensures id { IfOk result (λ id. id ≡ state.old.views.next) }
    ensures ok { OnOk result (session_in state.new ≡ with_view_on_new (session_in state.old)) }
    ensures err { OnErr result (session_in state.new ≡ session_in state.old) }
    ensures limits { state.new.limits ≡ state.old.limits }
    ensures documents { DocumentsAreNamed state.new.documents.entries }
    ensures views { AreNamed state.new.views.entries }
    ensures widths { HaveWidths (documents_in state.new.documents) state.new.views }
{
    let (document, view) = make_view(alloc, state.documents.next(), state.views.next())?;
    state.documents.reserve(1)?;
    state.views.reserve(1)?;
    state.documents.insert_reserved(document);
    Ok(state.views.insert_reserved(view))
}

/// Closes the view with this id, and drops its document if nothing else refers to it. Allocates nothing.
///
/// # Errors
///
/// `NoSuchView` if there is no such view. The session is then as it was.
pub(crate) fn close(state: &mut SessionState, view: u32) -> Result<(), Refusal>
    requires kept { IsKept state.old }
    ensures closed { OnOk result (closed (session_in state.old) view ≡ Ok (session_in state.new)) }
    ensures refused { IfErr result (λ refusal. closed (session_in state.old) view ≡ Err refusal) }
    ensures same { OnErr result (session_in state.new ≡ session_in state.old) }
    ensures limits { state.new.limits ≡ state.old.limits }
    ensures documents { DocumentsAreNamed state.new.documents.entries }
    ensures views { AreNamed state.new.views.entries }
    ensures widths { HaveWidths (documents_in state.new.documents) state.new.views }
{
    let Some(open) = state.views.get(view) else {
        return Err(Refusal::NoSuchView);
    };
    // States that the documents that are left are the living.
    the_living_are_left();
    state.documents.leave(open.document(), view);
    state.views.remove(view);
    Ok(())
}
