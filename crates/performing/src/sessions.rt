//! Changes of a session: of its clipboard, and of its documents and their references.

ghost use Rattle.std.specs.Prelude.{◌≡◌, ◌+◌, ◌<◌, ◌≤◌, ◌^◌, [], pos, map, take, length, false, IsOk, IfOk, OnOk, OnErr, IsSomeAnd};
ghost use Rattle.ed_model.specs.declared.plan.Plan.TheVariants as plan;
ghost use Rattle.ed_model.specs.Changes.{held_less, held_more, with_new_document};
ghost use Rattle.ed_model.specs.Session.{living, new_document};
ghost use Rattle.id_table.specs.Entries.{value_at};
ghost use Rattle.message_requests.specs.Requested.{session_in};
ghost use Rattle.performing.specs.Kept.{IsKept};
ghost use Rattle.performing.specs.Asked.{CanChangeSession, performed_at};
ghost use Rattle.performing.specs.SessionMemory.{AllStays, GrowsForOne, HasPlaceFor, Stays, takes_memory, with_added};

use crate::moving::attach;
use document::Document;
use document_table::{DocumentTable, the_living_are_left};
use ed_model::SessionChange;
use message_requests::SessionState;
use std::alloc::{AllocError, Global};

/// Returns the first `count` bytes of a text in a new `Vec`. Allocates nothing if `count` is 0.
fn copied(alloc: Global, text: &[u8], count: usize) -> Result<Vec<u8>, AllocError>
    requires { count ≤ length text.now }
    ensures bytes { IfOk result (λ bytes. bytes.items ≡ take count text.now) }
    ensures free { count ≡ 0 → IsOk result }
{
    let mut bytes = Vec::with_capacity(alloc, count)?;
    bytes.extend_from_slice(&text[..count])?;
    Ok(bytes)
}

/// Attaches the view to a document that exists (SETDOCPOINTER).
///
/// # Errors
///
/// `AllocError` if the allocation of a place in the document's list of views fails. The session is then as it was.
fn attach_existing(
    state: &mut SessionState,
    document: u32,
    view: u32,
    to: u32,
) -> Result<(), AllocError>
    requires kept { IsKept state.old }
    requires can { CanChangeSession (session_in state.old) document view [] (SessionChange.Attach to) }
    ensures changed { OnOk result (session_in state.new ≡ (performed_at (session_in state.old) view [] (plan.ChangeSession (SessionChange.Attach to) (pos 0))).0) }
    ensures same { OnErr result (session_in state.new ≡ session_in state.old) }
    ensures place { HasPlaceFor (SessionChange.Attach to) state.old.documents.entries → IsOk result }
    ensures stays { Stays (SessionChange.Attach to) state.old state.new }
{
    let other = state.documents.at_mut(to);
    other.reserve_view()?;
    attach(state, document, view, to);
    Ok(())
}

/// Adds a new document to the table, behind the others, and returns its id.
///
/// # Errors
///
/// `AllocError` if an allocation fails. The table is then as it was, but that more may fit in.
fn add(documents: &mut DocumentTable, document: Document) -> Result<u32, AllocError>
    requires few { documents.old.next + 1 < 2 ^ 32 }
    ensures id { IfOk result (λ id. id ≡ documents.old.next) }
    ensures added { OnOk result (documents.new ≡ with_added document documents.new.capacity documents.old) }
    ensures same { OnErr result (documents.new ≡ record documents.old { capacity = documents.new.capacity }) }
    ensures grows { GrowsForOne documents.old documents.new.capacity }
{
    documents.reserve(1)?;
    Ok(documents.insert_reserved(document))
}

/// Attaches the view to a new document (SETDOCPOINTER with 0).
///
/// # Errors
///
/// `AllocError` if an allocation fails. The session is then as it was.
fn attach_new(
    alloc: Global,
    state: &mut SessionState,
    document: u32,
    view: u32,
) -> Result<(), AllocError>
    requires kept { IsKept state.old }
    requires can { CanChangeSession (session_in state.old) document view [] SessionChange.AttachNew }
    ensures changed { OnOk result (session_in state.new ≡ (performed_at (session_in state.old) view [] (plan.ChangeSession SessionChange.AttachNew (pos 0))).0) }
    ensures same { OnErr result (session_in state.new ≡ session_in state.old) }
    ensures stays { Stays SessionChange.AttachNew state.old state.new }
{
    let mut new = Document::new(alloc, state.documents.next(), 0)?;
    new.reserve_view()?;
    let id = add(&mut state.documents, new)?;
    attach(state, document, view, id);
    Ok(())
}

/// Creates a document with these options and one reference, held by a caller (CREATEDOCUMENT).
///
/// # Errors
///
/// `AllocError` if an allocation fails. The session is then as it was.
fn create(alloc: Global, state: &mut SessionState, options: u32) -> Result<(), AllocError>
    requires kept { IsKept state.old }
    requires few { state.old.documents.next ≤ state.old.limits.ids }
    ensures changed { let s = session_in state.old in OnOk result (session_in state.new ≡ with_new_document (record (new_document s.next_document options) { held_by_callers = 1 }) s) }
    ensures same { OnErr result (session_in state.new ≡ session_in state.old) }
    ensures stays { Stays (SessionChange.Create options) state.old state.new }
{
    let mut new = Document::new(alloc, state.documents.next(), options)?;
    new.hold();
    add(&mut state.documents, new)?;
    Ok(())
}

/// Adds a reference held by a caller to the document with this id (ADDREFDOCUMENT).
fn add_reference(state: &mut SessionState, document: u32)
    requires kept { IsKept state.old }
    requires few { IsSomeAnd (value_at state.old.documents.entries document) (λ k. k.document.held_by_callers + 1 < 2 ^ 32) }
    ensures changed { let s = session_in state.old in session_in state.new ≡ record s { documents = map (held_more document) s.documents } }
    ensures stays { AllStays state.old state.new }
{
    let document = state.documents.at_mut(document);
    document.hold();
}

/// Releases a reference held by a caller to the document with this id (RELEASEDOCUMENT). Drops the document if that was
/// its last reference.
fn release(state: &mut SessionState, document: u32)
    requires kept { IsKept state.old }
    ensures changed { let s = session_in state.old in session_in state.new ≡ record s { documents = living (map (held_less document) s.documents) } }
    ensures stays { AllStays state.old state.new }
{
    // States that the documents that are left are those with a reference.
    the_living_are_left();
    state.documents.release(document);
}

/// Makes a change of the session for a message with this text to `view`, which is attached to `document`. COPY and
/// COPYRANGE copy bytes of the document to the clipboard, and COPYTEXT those of the text.
///
/// # Errors
///
/// `AllocError` if an allocation fails. The session is then as it was, but that more may fit into the table of documents.
pub fn change_session(
    alloc: Global,
    state: &mut SessionState,
    document: u32,
    view: u32,
    text: &[u8],
    change: SessionChange,
) -> Result<(), AllocError>
    requires kept { IsKept state.old }
    requires can { CanChangeSession (session_in state.old) document view text.now change }
    ensures changed { OnOk result (session_in state.new ≡ (performed_at (session_in state.old) view text.now (plan.ChangeSession change (pos 0))).0) }
    ensures same { OnErr result (session_in state.new ≡ session_in state.old) }
    ensures free { takes_memory change ≡ false → IsOk result }
    ensures place { HasPlaceFor change state.old.documents.entries → IsOk result }
    ensures stays { Stays change state.old state.new }
    ensures clipboard { OnErr result (state.new.clipboard ≡ state.old.clipboard) }
{
    match change {
        SessionChange::Copy { start, count } => {
            let document = state.documents.at(document);
            state.clipboard = document.text_to_vec(alloc, start, count, 0)?;
            Ok(())
        }
        SessionChange::CopyText { count } => {
            state.clipboard = copied(alloc, text, count)?;
            Ok(())
        }
        SessionChange::Attach { document: to } => attach_existing(state, document, view, to),
        SessionChange::AttachNew => attach_new(alloc, state, document, view),
        SessionChange::Create { options } => create(alloc, state, options),
        SessionChange::AddReference { document } => {
            add_reference(state, document);
            Ok(())
        }
        SessionChange::Release { document } => {
            release(state, document);
            Ok(())
        }
    }
}
