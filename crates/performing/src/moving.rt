//! A view is moved from its document to another (SETDOCPOINTER).

ghost use Rattle.std.specs.Prelude.{◌≡◌, map};
ghost use Rattle.ed_model.specs.Changes.{attached, attached_last};
ghost use Rattle.ed_model.specs.Session.{living};
ghost use Rattle.scene.specs.Scenes.{views_of};
ghost use Rattle.message_requests.specs.Requested.{documents_in, session_in};
ghost use Rattle.performing.specs.Asked.{view_asked, CanAttach, CanMove};
ghost use Rattle.performing.specs.SessionMemory.{AllStays, TableStays};

use document_table::{DocumentTable, the_living_are_left};
use message_requests::SessionState;

/// Moves a view from document `from` to the end of the list of document `to`, which may be the same. Drops `from` if it
/// has no reference then.
fn move_view(documents: &mut DocumentTable, from: u32, view: u32, to: u32)
    requires can { CanMove documents.old from view to }
    ensures moved { documents_in documents.new ≡ living (map (attached_last view to) (documents_in documents.old)) }
    ensures stays { TableStays documents.old documents.new }
{
    // States that the documents that are left are those with a reference.
    the_living_are_left();
    let document = documents.at_mut(to);
    if from == to {
        document.detach(view);
        document.attach_reserved(view);
    } else {
        document.attach_reserved(view);
        documents.leave(from, view);
    }
}

/// Attaches a view of document `from` to document `to`, which may be the same. Moves the view's anchor, caret and target
/// to the start, and makes all lines visible and expanded. Drops `from` if it has no reference then.
pub(crate) fn attach(state: &mut SessionState, from: u32, view: u32, to: u32)
    requires can { CanAttach state.old from view to }
    ensures attached { session_in state.new ≡ attached to (view_asked (views_of state.old.views.entries) view) (session_in state.old) }
    ensures stays { AllStays state.old state.new }
{
    let SessionState {
        documents,
        views,
        ..
    } = state;
    let document = documents.at(to);
    let sender = views.at_mut(view);
    sender.attach_to(document.id(), document.line_count(), document.is_large());
    move_view(documents, from, view, to);
}
