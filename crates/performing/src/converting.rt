//! Converts the line ends of a document.

ghost use Rattle.std.specs.Prelude.{◌≡◌, [], OnOk, OnErr, IsOk};
ghost use Rattle.ed_model.specs.LineEnds.{conversion_steps};
ghost use Rattle.ed_model.specs.Session.{text_of};
ghost use Rattle.scene.specs.Scenes.{IsWatched, KeepWidths};
ghost use Rattle.performing.specs.Edits.{MakesEdit};
ghost use Rattle.performing.specs.Widths.{StepsFitWidth};

use document::Document;
use ed_model::LineEnd;
use ed_view::View;
use id_table::IdTable;
use notify::NoteList;
use scene::{conversion_need, convert, needs_are_enough};
use std::alloc::AllocError;

/// Converts all line ends of the document to `to`, with room that it makes first.
///
/// More than one step makes a transaction of its own, outside groups. Listening views are notified of each step, and
/// all views that watch the document follow it. If no line end has to change, no memory is needed.
///
/// # Errors
///
/// `AllocError` if an allocation fails. The document and the views are then as they were.
pub fn convert_with_room(
    document: &mut Document,
    views: &mut IdTable<View>,
    notes: &mut NoteList,
    to: LineEnd,
) -> Result<(), AllocError>
    requires wide { StepsFitWidth document.old.document (conversion_steps to (text_of document.old.document)) }
    requires watched { IsWatched document.old.document views.old }
    ensures scene { let steps = conversion_steps to (text_of document.old.document) in
        OnOk result (MakesEdit steps document.old views.old notes.old document.new views.new notes.new) }
    ensures same { OnErr result (document.new.document ≡ document.old.document) }
    ensures same_views { OnErr result (views.new ≡ views.old) }
    ensures id { document.new.document.id ≡ document.old.document.id }
    ensures watched { IsWatched document.new.document views.new }
    ensures next { views.new.next ≡ views.old.next }
    ensures widths { KeepWidths views.old views.new }
    ensures free { conversion_steps to (text_of document.old.document) ≡ [] → IsOk result }
{
    // States that what the steps need is enough for their notes.
    needs_are_enough();
    let need = conversion_need(document, views, to);
    if need.document.steps == 0 {
        // Even for no step `reserve` may allocate, since it makes room for a fill of each indicator.
        return Ok(());
    }
    if !need.is_counted() {
        return Err(AllocError);
    }
    notes.reserve(need.notes.notes, need.notes.bytes)?;
    document.reserve(need.document)?;
    convert(document, views, notes, to);
    Ok(())
}
