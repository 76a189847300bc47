//! The view that a message is sent to, and the document that it is attached to; and the request that its plan reads.

ghost use Rattle.id_table.specs.Entries.{value_at};
ghost use Rattle.std.specs.Prelude.{◌≡◌, IfSome, IfNone, Some, None};
ghost use Rattle.ed_model.specs.Session.{document_at, view_at};
ghost use Rattle.message_requests.specs.Requested.{request_in, session_in};
ghost use Rattle.performing.specs.Kept.{IsKept};

use document::Document;
use ed_view::View;
use message_requests::{Request, SentMessage, SessionState};

/// A view of a session and its document, both borrowed.
#[derive(Clone, Copy)]
pub(crate) struct Attached<'a> {
    /// The view.
    pub view: &'a View,
    /// The document that it is attached to.
    pub document: &'a Document,
}

/// Returns the view with this id and its document, or `None` if there is no such view. A view always has a document. Inlined:
/// as a call, a message takes 20 instructions more.
#[inline(always)]
pub(crate) fn look_up(state: &SessionState, view: u32) -> Option<Attached<'_>>
    requires kept { IsKept state.now }
    ensures view { IfSome result (λ found. view_at (session_in state.now).views view ≡ Some found.view.now.view) }
    ensures own { IfSome result (λ found. view_at (session_in state.now).views found.view.now.view.id ≡ Some found.view.now.view) }
    ensures document { IfSome result (λ found. document_at (session_in state.now).documents found.view.now.view.document ≡ Some found.document.now.document) }
    ensures entry { IfSome result (λ found. value_at state.now.documents.entries found.view.now.view.document ≡ Some found.document.now) }
    ensures none { IfNone result (view_at (session_in state.now).views view ≡ None) }
{
    let Some(view) = state.views.get(view) else {
        return None;
    };
    let document = state.documents.at(view.document());
    Some(Attached { view, document })
}

/// Returns the request of a message to a view that was looked up. Its type says that it is sound.
pub(crate) fn request_to<'a, 'm: 'a>(
    state: &'a SessionState,
    found: Attached<'a>,
    message: &SentMessage<'m>,
) -> Request<'a>
    requires kept { IsKept state.now }
    requires view { view_at (session_in state.now).views found.view.now.view.id ≡ Some found.view.now.view }
    requires document { document_at (session_in state.now).documents found.view.now.view.document ≡ Some found.document.now.document }
    ensures { result ≡ request_in state.now found.entry.view.now found.entry.document.now message.now }
{
    Request {
        session: state,
        view: found.view,
        document: found.document,
        message: SentMessage {
            number: message.number,
            w: message.w,
            l: message.l,
            text: message.text,
        },
    }
}
