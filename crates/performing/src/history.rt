//! Undo and redo in a document.

ghost use Rattle.std.specs.Prelude.{◌≡◌, OnOk, OnErr, IfOk};
ghost use Rattle.document.specs.Undoing.{changes_of};
ghost use Rattle.scene.specs.Performed.{HistoryFits};
ghost use Rattle.scene.specs.Scenes.{kept_scene, IsWatched, KeepWidths};
ghost use Rattle.scene.specs.Undoing.{history_caret};
ghost use Rattle.performing.specs.History.{scene_gone};
ghost use Rattle.performing.specs.Widths.{ChangesFitWidth};

use document::{Direction, Document};
use ed_view::View;
use id_table::IdTable;
use notify::NoteList;
use scene::{history_need, perform_history};
use std::alloc::AllocError;

/// Undoes or redoes a transaction of the document, with room that it makes first. Returns the position in bytes of the
/// caret afterwards, if a step of the text was made.
///
/// Listening views are notified of each step, and all views that watch the document follow it.
///
/// # Errors
///
/// `AllocError` if an allocation fails. The document and the views are then as they were.
pub fn go_with_room(
    document: &mut Document,
    views: &mut IdTable<View>,
    notes: &mut NoteList,
    direction: Direction,
) -> Result<Option<usize>, AllocError>
    requires steps { HistoryFits direction document.old }
    requires wide { ChangesFitWidth document.old.document (changes_of direction document.old.document.history) }
    requires watched { IsWatched document.old.document views.old }
    ensures scene { let scene = scene_gone direction views.old notes.old document.old in
        OnOk result (kept_scene document.new views.new notes.new ≡ scene) }
    ensures place { IfOk result (λ place. place ≡ history_caret direction document.old) }
    ensures same { OnErr result (document.new.document ≡ document.old.document) }
    ensures same_views { OnErr result (views.new ≡ views.old) }
    ensures id { document.new.document.id ≡ document.old.document.id }
    ensures watched { IsWatched document.new.document views.new }
    ensures next { views.new.next ≡ views.old.next }
    ensures widths { KeepWidths views.old views.new }
{
    let need = history_need(document, views, direction);
    if !need.is_counted() {
        return Err(AllocError);
    }
    notes.reserve(need.notes.notes, need.notes.bytes)?;
    document.reserve(need.document)?;
    Ok(perform_history(document, views, notes, direction))
}
