//! Replaces bytes of a document by others.

ghost use Rattle.std.specs.Prelude.{◌≡◌, ◌≤◌, ◌+◌, [], length, OnOk, OnErr, IsOk};
ghost use Rattle.scene.specs.Needs.{CanHoldEdit};
ghost use Rattle.scene.specs.Scenes.{kept_scene, IsWatched, KeepWidths};
ghost use Rattle.performing.specs.Edits.{replacement_in, MakesEdit, StepsFit};
ghost use Rattle.performing.specs.Widths.{StepsFitWidth};

use crate::edit_need::replacement_need;
use document::{Document, TextStep};
use ed_view::View;
use id_table::IdTable;
use notify::NoteList;
use scene::{make_step, needs_are_enough};
use std::alloc::AllocError;

/// Replaces the `count` bytes from `start` on by `bytes`: a deletion, then an insertion, each only if it has bytes, and
/// both in a transaction of their own. There must be room for them.
fn replace_bytes(
    document: &mut Document,
    views: &mut IdTable<View>,
    notes: &mut NoteList,
    start: usize,
    count: usize,
    bytes: &[u8],
)
    requires range { start + count ≤ length document.old.document.cells }
    requires watched { IsWatched document.old.document views.old }
    requires room { StepsFit (replacement_in start count bytes.now document.old) document.old }
    requires notes { CanHoldEdit (replacement_in start count bytes.now document.old) (kept_scene document.old views.old notes.old) notes.old }
    ensures scene { let steps = replacement_in start count bytes.now document.old in
        MakesEdit steps document.old views.old notes.old document.new views.new notes.new }
    ensures watched { IsWatched document.new.document views.new }
    ensures next { views.new.next ≡ views.old.next }
    ensures widths { KeepWidths views.old views.new }
{
    let insertion = TextStep::Insert {
        place: start,
        bytes,
    };
    if count == 0 {
        if bytes.is_empty() {
            return;
        }
        return make_step(document, views, notes, false, insertion);
    }
    let deletion = TextStep::Delete {
        place: start,
        count,
    };
    if bytes.is_empty() {
        return make_step(document, views, notes, false, deletion);
    }
    document.seal_outside_groups();
    make_step(document, views, notes, false, deletion);
    make_step(document, views, notes, true, insertion);
    document.seal_outside_groups();
}

/// Replaces the `count` bytes from position `start` on by `bytes`, with room that it makes first.
///
/// The deletion comes before the insertion, and each is made only if it has bytes. Both make a transaction of their
/// own, outside groups. Listening views are notified of each step, and all views that watch the document follow it. A
/// replacement of nothing by nothing needs no memory.
///
/// # Errors
///
/// `AllocError` if an allocation fails. The document and the views are then as they were.
pub fn replace_with_room(
    document: &mut Document,
    views: &mut IdTable<View>,
    notes: &mut NoteList,
    start: usize,
    count: usize,
    bytes: &[u8],
) -> Result<(), AllocError>
    requires range { start + count ≤ length document.old.document.cells }
    requires wide { StepsFitWidth document.old.document (replacement_in start count bytes.now document.old) }
    requires watched { IsWatched document.old.document views.old }
    ensures scene { let steps = replacement_in start count bytes.now document.old in
        OnOk result (MakesEdit steps document.old views.old notes.old document.new views.new notes.new) }
    ensures same { OnErr result (document.new.document ≡ document.old.document) }
    ensures same_views { OnErr result (views.new ≡ views.old) }
    ensures id { document.new.document.id ≡ document.old.document.id }
    ensures watched { IsWatched document.new.document views.new }
    ensures next { views.new.next ≡ views.old.next }
    ensures widths { KeepWidths views.old views.new }
    ensures free { replacement_in start count bytes.now document.old ≡ [] → IsOk result }
{
    // States that what the steps need is enough for their notes.
    needs_are_enough();
    let need = replacement_need(document, views, start, count, bytes);
    if need.document.steps == 0 {
        // Even for no step `reserve` may allocate, since it makes room for a fill of each indicator.
        return Ok(());
    }
    if !need.is_counted() {
        return Err(AllocError);
    }
    notes.reserve(need.notes.notes, need.notes.bytes)?;
    document.reserve(need.document)?;
    replace_bytes(document, views, notes, start, count, bytes);
    Ok(())
}
