//! Lending bytes of a document as one slice.

ghost use Rattle.std.specs.Prelude.{◌≡◌, ◌⊎◌, map, IfOk, IfErr, Err};
ghost use Rattle.std.specs.Borrow.{sem};
ghost use Rattle.ed_types.specs.declared.refusal.Refusal.TheVariants.{NoSuchView, BadArgument};
ghost use Rattle.ed_model.specs.Session.{Document as ModelDocument};
ghost use Rattle.ed_model.specs.SoundLaws.{Rise};
ghost use Rattle.message_requests.specs.Requested.{session_in, documents_in};
ghost use Rattle.performing.specs.Kept.{IsKept, DocumentsAreNamed};
ghost use Rattle.editor_session.specs.Lent.{lent_range};
ghost use Rattle.editor_session.specs.PartLends.{documents_back, state_back};
ghost use Rattle.editor_session.specs.Documents.{OfDocument, HasDocument};
ghost use Rattle.editor_session.specs.Ranges.{HasRange, IsRange, LendsRange};

use crate::attached::look_up;
use document_table::DocumentTable;
use ed_types::Refusal;
use message_requests::SessionState;

/// Returns the id of the document of `view`, if its text has `count` bytes from `start` on. Allocates nothing.
///
/// # Errors
///
/// `NoSuchView` if there is no such view, `BadArgument` if `start + count` is past the end of the text.
pub(crate) fn document_with(
    state: &SessionState,
    view: u32,
    start: usize,
    count: usize,
) -> Result<u32, Refusal>
    requires kept { IsKept state.now }
    ensures range { IfOk result (λ document. HasDocument state.now.documents document (HasRange start count)) }
    ensures bytes { IfOk result (λ document. LendsRange state.now document view start count) }
    ensures refused { IfErr result (λ refusal. lent_range (session_in state.now) view start count ≡ Err refusal) }
    ensures refusals { IfErr result (λ refusal. (refusal ≡ NoSuchView) ⊎ (refusal ≡ BadArgument)) }
{
    let Some(found) = look_up(state, view) else {
        return Err(Refusal::NoSuchView);
    };
    let length = found.document.len();
    if length < start {
        return Err(Refusal::BadArgument);
    }
    if length - start < count {
        return Err(Refusal::BadArgument);
    }
    Ok(found.view.document())
}

/// Lends the `count` bytes of a document from `start` on. The documents do not change.
fn lend_in(documents: &mut DocumentTable, document: u32, start: usize, count: usize) -> &[u8]
    requires there { HasDocument documents.old document (HasRange start count) }
    requires named { DocumentsAreNamed documents.old.entries }
    requires rise { Rise 0 documents.old.next (map (λ (d : ModelDocument). d.id) (documents_in documents.old)) }
    ensures* back { sem 𝓛 (documents_back documents.entry) }
    ensures value { OfDocument documents.old document (IsRange start count result.now) }
{
    let document = documents.at_mut(document);
    document.lend(start, count)
}

/// The same in a session's state, which does not change.
pub(crate) fn lend(state: &mut SessionState, document: u32, start: usize, count: usize) -> &[u8]
    requires there { HasDocument state.old.documents document (HasRange start count) }
    requires kept { IsKept state.old }
    ensures* back { sem 𝓛 (state_back state.entry) }
    ensures value { OfDocument state.old.documents document (IsRange start count result.now) }
{
    lend_in(&mut state.documents, document, start, count)
}
