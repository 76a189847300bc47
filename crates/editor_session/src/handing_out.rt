//! Bytes of a document that a reply hands out.

ghost use Rattle.std.specs.Prelude.{◌≡◌, ◌≤◌, ◌+◌, ◌*◌, ◌++◌, IfOk, IsOk, vec_len, vec_capacity};
ghost use Rattle.editor_session.specs.Documents.{OfDocument, HasDocument};
ghost use Rattle.editor_session.specs.Ranges.{IsRange, HasRange, styled_range};

use document::Document;
use message_requests::SessionState;
use scene::document_is_small;
use std::alloc::{AllocError, Global};

/// Appends bytes of a document, each followed by its style. There must be room for them.
fn append_styled(document: &Document, start: usize, count: usize, target: &mut Vec<u8>)
    requires range { HasRange start count document.now }
    requires room { vec_len target.old + 2 * count ≤ vec_capacity target.old }
    ensures { target.new.items ≡ target.old.items ++ styled_range start count document.now }
{
    document_is_small(document);
    for place in start..start + count {
        target.push_reserved(document.byte(place));
        target.push_reserved(document.style(place));
    }
}

/// Returns bytes of the document with this id.
///
/// # Errors
///
/// `AllocError` if the allocation fails.
pub(crate) fn hand_out(
    alloc: Global,
    state: &SessionState,
    document: u32,
    start: usize,
    count: usize,
) -> Result<Vec<u8>, AllocError>
    requires range { HasDocument state.now.documents document (HasRange start count) }
    ensures bytes { IfOk result (λ bytes. OfDocument state.now.documents document (IsRange start count bytes.items)) }
    ensures free { count ≡ 0 → IsOk result }
{
    let document = state.documents.at(document);
    document.text_to_vec(alloc, start, count, 0)
}

/// Returns bytes of the document with this id, each followed by its style.
///
/// # Errors
///
/// `AllocError` if the allocation fails.
pub(crate) fn hand_out_styled(
    alloc: Global,
    state: &SessionState,
    document: u32,
    start: usize,
    count: usize,
) -> Result<Vec<u8>, AllocError>
    requires range { HasDocument state.now.documents document (HasRange start count) }
    ensures bytes { IfOk result (λ bytes. OfDocument state.now.documents document (λ k. bytes.items ≡ styled_range start count k)) }
    ensures free { count ≡ 0 → IsOk result }
{
    let document = state.documents.at(document);
    let Some(room) = count.checked_mul(2) else {
        return Err(AllocError);
    };
    let mut bytes = Vec::with_capacity(alloc, room)?;
    append_styled(document, start, count, &mut bytes);
    Ok(bytes)
}
